// Document 01, "Frames and check sums": what a received frame is to a board, by name, before the answer has its number.
#![tactic(auto, unfolding(rules::specs::Frames::verdict, rules::specs::Frames::framing))]

ghost use Rattle.std.specs.Prelude.{◌≡◌};
ghost use Rattle.rules.specs.Frames.{verdict};

use framing::{i2c_framing, rs485_framing};
use general_calls::{General, is_general};
use rules::kinds::{Address, Bus, Reason, Verdict};

// What a received frame is. While running only the reset counts.
pub fn classify(
    bus: Bus,
    longest: usize,
    running: bool,
    own: Address,
    to: u8,
    frame: &[u8],
) -> Verdict
    ensures { result ≡ verdict bus longest running own to frame.now }
{
    if is_general(bus, to, frame, General::Reset) {
        return Verdict::Reset;
    }
    if running {
        return Verdict::Ignored(Reason::Running);
    }
    if is_general(bus, to, frame, General::ResetAddress) {
        return Verdict::ResetAddress;
    }
    match bus {
        Bus::I2c => i2c_framing(longest, own, to, frame),
        Bus::Rs485 => rs485_framing(longest, own, frame),
    }
}
