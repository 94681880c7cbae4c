// The number of each answer, and how many bytes it made, as document 01 lists them: once, for the C boundary and for programs.
#![tactic(auto)]

ghost use Rattle.std.specs.Prelude.{◌≡◌};
ghost use Rattle.rules.specs.Numbers.{number, made};
ghost use Rattle.rules.specs.Master.{encoded_number, encoded_length, decoded_as, ruled_as, reset_number, reset_length};

use rules::kinds::Outcome;
use rules::requests::{Decoded, EncodeError, ResetError, Version, VersionError};

// A board call.
pub fn board_number(outcome: Outcome) -> u32
    ensures { result ≡ number outcome }
{
    match outcome {
        Outcome::Reply(_) => 0,
        Outcome::Nothing => 1,
        Outcome::ProfileOutOfRange => 2,
        Outcome::FlashTooShort => 3,
        Outcome::StateMalformed => 4,
        Outcome::BufferTooShort => 5,
        Outcome::FrameTooShort => 15,
        Outcome::FrameTooLong => 16,
        Outcome::FrameSumWrong => 17,
        Outcome::FrameForeign => 18,
    }
}

// The length of its reply; 0 where there is none.
pub fn reply_length(outcome: Outcome) -> usize
    ensures { result ≡ made outcome }
{
    match outcome {
        Outcome::Reply(n) => n,
        _ => 0,
    }
}

// A request asked of the encoder.
pub fn encoded_number(answer: Result<usize, EncodeError>) -> u32
    ensures { result ≡ encoded_number answer }
{
    match answer {
        Ok(_) => 0,
        Err(EncodeError::FrameOutOfRange) => 2,
        Err(EncodeError::OutputTooShort) => 6,
        Err(EncodeError::ArgumentOutOfRange) => 7,
    }
}

// Its length; 0 where there is none.
pub fn encoded_length(answer: Result<usize, EncodeError>) -> usize
    ensures { result ≡ encoded_length answer }
{
    answer.unwrap_or(0)
}

// A reply taken apart.
pub fn decoded_number(answer: Decoded) -> u32
    ensures { result ≡ (decoded_as answer).number }
{
    match answer {
        Decoded::Reply { .. } => 0,
        Decoded::NotServed => 7,
        Decoded::TooShort => 8,
        Decoded::SumWrong => 9,
        Decoded::OtherAddress => 10,
        Decoded::LengthWrong => 11,
        Decoded::StatusUnknown => 12,
        Decoded::ResultsMissing => 13,
    }
}

// A version.
pub fn version_number(answer: Result<Version, VersionError>) -> u32
    ensures { result ≡ (ruled_as answer).number }
{
    match answer {
        Ok(_) => 0,
        Err(VersionError::ApplicationRunning) => 40,
        Err(VersionError::Unknown) => 14,
    }
}

// A reset for a running application.
pub fn reset_number(answer: Result<usize, ResetError>) -> u32
    ensures { result ≡ reset_number answer }
{
    match answer {
        Ok(_) => 0,
        Err(ResetError::VersionKnown) => 1,
        Err(ResetError::FrameOutOfRange) => 2,
        Err(ResetError::VersionUnknown) => 14,
        Err(ResetError::OutputTooShort) => 6,
    }
}

// Its length; 0 where there is none.
pub fn reset_length(answer: Result<usize, ResetError>) -> usize
    ensures { result ≡ reset_length answer }
{
    answer.unwrap_or(0)
}
