// The board: a received frame goes in with profile, state, lent flash and a lent reply buffer; an answer and the new state come out.
// It takes any bytes at all. The state goes by value once in and once out; inside its head does, and its buffers are lent. The other call
// of a board, an I²C read, is `readout::read`.
#![tactic(auto)]

ghost use Rattle.std.specs.Prelude.{length};
ghost use Rattle.rules.specs.Frames as frames;
ghost use Rattle.rules.specs.Board.{received};
ghost use Rattle.state.specs.View.{view};
ghost use Rattle.profile.specs.View.{profile_of};
ghost use Rattle.answer.specs.Answered.{FrameAnswered};

use answer::{Answer, keep_reply};
use handling::handle;
use numbers::reply_length;
use profile::Profile;
use state::State;

// A received frame. The I²C address stands beside it; on RS485 it isn't looked at.
pub fn receive(
    p: Profile,
    s: State,
    address: u8,
    frame: &[u8],
    flash: &mut [u8],
    out: &mut [u8],
) -> Answer
    ensures { FrameAnswered s result flash.new out.new out.old
        (received (profile_of p) (view s) address frame.now flash.old (length out.old))
        (frames.verdict p.bus p.longest s.running s.address address frame.now) }
{
    let h = s.head();
    if let Err(outcome) = refusal::refuse(p, h, flash.len(), out.len()) {
        return Answer { outcome, state: s };
    }
    let mut waiting = s.upload.waiting;
    let handled = handle(p, h, address, frame, &mut waiting, flash, out);
    let outcome = handled.outcome;
    let mut bytes = s.last.bytes;
    keep_reply(p.bus, reply_length(outcome), &out[..], &mut bytes);
    Answer {
        outcome,
        state: State::joined(handled.state, waiting, bytes),
    }
}
