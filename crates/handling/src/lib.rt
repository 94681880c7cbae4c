// A frame handled by its verdict, on a board that refuses it by none of numbers 2 to 5.
#![tactic(auto)]

ghost use Rattle.std.specs.Prelude.{◌≡◌, List, ℕ, length};
ghost use Rattle.rules.specs.Numbers.{Unrefused};
ghost use Rattle.rules.specs.Frames as frames;
ghost use Rattle.rules.specs.Board.{handled};
ghost use Rattle.state.specs.View.{largest_page, view};
ghost use Rattle.state.specs.Heads.{state_with};
ghost use Rattle.profile.specs.View.{profile_of};
ghost use Rattle.answer.specs.HeadAnswered.{Handled};

use answer::{Answer, fault, ignored_outcome, no_reply};
use frame::request::destination;
use profile::Profile;
use response::Status;
use rules::kinds::Verdict;
use serve::serve;
use state::{Head, State};

// A frame by its verdict.
// `waiting` is a slice: the library gives an array of one in an Option, whose pointer would lie otherwise at 32 bits (scripts/firmware).
pub fn handle(
    p: Profile,
    h: Head,
    address: u8,
    frame: &[u8],
    waiting: &mut [u8],
    flash: &mut [u8],
    out: &mut [u8],
) -> Answer<Head>
    requires by_index { (w l : List ℕ) → Unrefused (profile_of p) (view (state_with h w l)) (length flash.old) (length out.old) }
    requires waiting_len { length waiting.old ≡ largest_page }
    ensures { Handled p.bus h result waiting.old waiting.new flash.new out.new out.old
        (λ l. handled (profile_of p) (view (state_with h waiting.old l)) address frame.now flash.old
        (frames.verdict p.bus p.longest h.running h.address address frame.now))
        (frames.verdict p.bus p.longest h.running h.address address frame.now) }
{
    let bus = p.bus;
    let own = h.address;
    let v = verdict::classify(bus, p.longest, h.running, own, address, frame);
    match v {
        Verdict::Reset => no_reply(State::fresh().head()),
        Verdict::ResetAddress => no_reply(h.address_reset()),
        Verdict::Ignored(reason) => Answer {
            outcome: ignored_outcome(reason),
            state: h,
        },
        Verdict::BadTransfer => fault(
            bus,
            destination(bus, address, frame),
            h,
            Status::InvalidTransfer.code(),
            out,
        ),
        Verdict::BadSum => fault(
            bus,
            destination(bus, address, frame),
            h,
            Status::InvalidCrc.code(),
            out,
        ),
        Verdict::Command => serve(p, h, address, frame, waiting, flash, out),
    }
}
