// An I²C read: the last reply, which the state keeps. Profile, state, lent flash and a lent reply buffer go in, as for a received frame.
// It takes any bytes at all.
#![tactic(auto)]

ghost use Rattle.std.specs.Prelude.{length};
ghost use Rattle.rules.specs.Board.{read_out};
ghost use Rattle.state.specs.View.{view};
ghost use Rattle.profile.specs.View.{profile_of};
ghost use Rattle.answer.specs.Answered.{ReadAnswered};

use answer::Answer;
use last_reply::hand_out;
use profile::Profile;
use state::State;

// An I²C read hands out the last reply and keeps it as it is; the state comes back as it was given.
pub fn read(p: Profile, s: State, address: u8, flash: &[u8], out: &mut [u8]) -> Answer
    ensures { ReadAnswered s result flash.now out.new out.old
        (read_out (profile_of p) (view s) address flash.now (length out.old)) }
{
    let h = s.head();
    if let Err(outcome) = refusal::refuse(p, h, flash.len(), out.len()) {
        return Answer { outcome, state: s };
    }
    let bus = p.bus;
    let bytes = s.last.bytes;
    Answer {
        outcome: hand_out(bus, h, address, &bytes, out),
        state: s,
    }
}
