// What a board call answers: nothing, or the response of a command as a reply in the lent buffer and on I²C in the state as well. Inside,
// the head of the state goes by value, and its two buffers are lent: that of the last reply is written at the end, by `keep_reply`.
#![tactic(auto)]

ghost use Rattle.std.specs.Prelude.{◌≡◌, List, [], ℕ, ◌+◌, ◌≤◌, length, take};
ghost use Rattle.rules.specs.Frames.{header_length};
ghost use Rattle.rules.specs.Responses as responses;
ghost use Rattle.rules.specs.Responses.{Acted};
ghost use Rattle.rules.specs.Board.{finished_call};
ghost use Rattle.state.specs.View.{view};
ghost use Rattle.state.specs.Heads.{state_with, kept_reply};
ghost use Rattle.response.specs.Done as buffered;
ghost use Rattle.answer.specs.Answered.{ignored_outcome, expected_effect};
ghost use Rattle.answer.specs.HeadAnswered.{silent, head_effect, Fits};

use frame::reply::close;
use response::{Done, Response};
use rules::kinds::{Bus, Outcome, Reason};
use state::{Head, State};

// What a board call answers, and the state after it. Inside a call, the head of the state alone.
#[derive(Clone, Copy)]
pub struct Answer<S = State> {
    pub outcome: Outcome,
    pub state: S,
}

// Nothing to send.
pub fn no_reply(h: Head) -> Answer<Head>
    ensures { result ≡ silent h }
{
    Answer {
        outcome: Outcome::Nothing,
        state: h,
    }
}

// Why an ignored frame gets no reply.
pub fn ignored_outcome(reason: Reason) -> Outcome
    ensures { result ≡ ignored_outcome reason }
{
    match reason {
        Reason::Running => Outcome::Nothing,
        Reason::Short => Outcome::FrameTooShort,
        Reason::Long => Outcome::FrameTooLong,
        Reason::WrongSum => Outcome::FrameSumWrong,
        Reason::Foreign(bus) => match bus {
            Bus::I2c => Outcome::Nothing,
            Bus::Rs485 => Outcome::FrameForeign,
        },
        Reason::OtherGeneral => Outcome::Nothing,
    }
}

// The response of a command as an answer: the reply in the lent buffer, and on I²C its length in the head.
pub fn respond(bus: Bus, to: u8, done: Done, out: &mut [u8]) -> Answer<Head>
    requires { Fits bus (length out.old) done.response }
    ensures { (a : Acted) (w l d o : List ℕ)
        → length o ≡ length out.old → buffered.command_effect done w l d out.old
        ≡ buffered.ruled_command a o (header_length bus + 2)
        → head_effect bus result w l d out.new ≡ expected_effect (finished_call bus to a) o }
{
    let head = done.head;
    match done.response {
        Some(response) => {
            let n = close(bus, to, response.status, response.count, out);
            Answer {
                outcome: Outcome::Reply(n),
                state: head.with_reply(bus, n),
            }
        }
        None => no_reply(head.without_reply()),
    }
}

// A status with no results; the state stays.
pub fn fault(bus: Bus, to: u8, h: Head, status: u8, out: &mut [u8]) -> Answer<Head>
    requires { 32 ≤ length out.old }
    ensures { (w l d : List ℕ) → head_effect bus result w l d out.new
        ≡ expected_effect (finished_call bus to (responses.replying (view (state_with h w l)) d status [])) out.old }
{
    let done = Done {
        response: Some(Response { status, count: 0 }),
        head: h,
    };
    respond(bus, to, done, out)
}

// The last reply's buffer after a reply of n bytes: only I²C keeps it.
pub fn keep_reply(bus: Bus, n: usize, out: &[u8], last: &mut [u8])
    requires { (n ≤ length out.now) × (n ≤ length last.old) }
    ensures { last.new ≡ kept_reply bus (take n out.now) last.old }
{
    match bus {
        Bus::I2c => byte_slices::store(last, 0, &out[..n]),
        Bus::Rs485 => {}
    }
}
