// A received frame, counted: the board's call with a lent tally that is changed in place.
#![tactic(auto)]

ghost use Rattle.std.specs.Prelude.{◌≡◌, length};
ghost use Rattle.rules.specs.Frames as frames;
ghost use Rattle.rules.specs.Numbers.{number};
ghost use Rattle.rules.specs.Board.{received};
ghost use Rattle.state.specs.View.{view};
ghost use Rattle.profile.specs.View.{profile_of};
ghost use Rattle.tally.specs.Tally.{tallied};
ghost use Rattle.tallied_board.specs.Tallied.{FrameTallied};

use answer::Answer;
use profile::Profile;
use state::State;
use tally::{Tally, counted};

// The tally after an answer.
fn counted_answer(t: Tally, a: Answer) -> Tally
    ensures { result ≡ tallied t (number a.outcome) }
{
    let outcome = a.outcome;
    counted(t, outcome)
}

// A received frame, as `board::receive` answers it, counted in the lent tally.
pub fn receive(
    p: Profile,
    s: State,
    address: u8,
    frame: &[u8],
    flash: &mut [u8],
    out: &mut [u8],
    t: &mut Tally,
) -> Answer
    ensures { FrameTallied s result flash.new out.new out.old t.new t.old
        (received (profile_of p) (view s) address frame.now flash.old (length out.old))
        (frames.verdict p.bus p.longest s.running s.address address frame.now) }
{
    let a = board::receive(p, s, address, frame, flash, out);
    *t = counted_answer(*t, a);
    a
}
