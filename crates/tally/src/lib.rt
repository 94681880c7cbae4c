// The tally of received frames: a counter for each kind of frame that a board drops on RS485, and one for frames answered 0.
#![tactic(auto)]

ghost use Rattle.std.specs.Prelude.{◌≡◌};
ghost use Rattle.rules.specs.Numbers.{number};
ghost use Rattle.tally.specs.Tally.{more, cleared, tallied};

use numbers::board_number;
use rules::kinds::Outcome;

#[derive(Clone, Copy, Default)]
pub struct Tally {
    pub short: u16, // answered 15: too short
    pub long: u16, // answered 16: too long
    pub sum: u16, // answered 17: wrong CRC
    pub foreign: u16, // answered 18: foreign address
    pub answered: u16, // answered 0
}

impl Tally {
    // A counter stops here.
    pub const LARGEST_COUNT: u16 = u16::MAX;

    // No frame counted yet.
    pub fn cleared() -> Tally
        ensures { result ≡ cleared }
    {
        Tally::default()
    }
}

// A counter after a frame: one more where the frame is of its kind.
fn more(counts: bool, n: u16) -> u16
    ensures { result ≡ more counts n }
{
    if counts {
        n.saturating_add(1).min(Tally::LARGEST_COUNT)
    } else {
        n
    }
}

// The tally after a frame that was answered by a number, as the C call gives it. No counter rises with 1 to 5.
pub fn counted_by(t: Tally, number: u32) -> Tally
    ensures { result ≡ tallied t number }
{
    Tally {
        short: more(number == 15, t.short),
        long: more(number == 16, t.long),
        sum: more(number == 17, t.sum),
        foreign: more(number == 18, t.foreign),
        answered: more(number == 0, t.answered),
    }
}

// The tally after a frame and its answer.
pub fn counted(t: Tally, outcome: Outcome) -> Tally
    ensures { result ≡ tallied t (number outcome) }
{
    counted_by(t, board_number(outcome))
}
