// A well-framed command to this board, as a frame that is known to be one. Which frames are is `verdict`'s; the call is `board::receive`.
#![tactic(auto)]

ghost use Rattle.std.specs.Prelude.{◌≡◌, List, ℕ, ◌≤◌, length};
ghost use Rattle.rules.specs.Numbers.{Unrefused};
ghost use Rattle.rules.specs.Frames as frames;
ghost use Rattle.rules.specs.Frames.{shortest_request, command_of, arguments_of};
ghost use Rattle.rules.specs.Commands.{executed};
ghost use Rattle.rules.specs.Board.{finished_call};
ghost use Rattle.state.specs.View.{largest_page, view};
ghost use Rattle.state.specs.Heads.{state_with};
ghost use Rattle.profile.specs.View.{profile_of};
ghost use Rattle.answer.specs.HeadAnswered.{HeadAnswered};

use answer::{Answer, respond};
use frame::reply::results_start;
use frame::request::{arguments, command, destination};
use profile::Profile;
use state::Head;

// A well-framed command to this board: taken apart, executed, answered.
pub fn serve(
    p: Profile,
    h: Head,
    address: u8,
    frame: &[u8],
    waiting: &mut [u8],
    flash: &mut [u8],
    out: &mut [u8],
) -> Answer<Head>
    requires by_index { (w l : List ℕ) → Unrefused (profile_of p) (view (state_with h w l)) (length flash.old) (length out.old) }
    requires waiting_len { length waiting.old ≡ largest_page }
    requires bus_in_bounds { shortest_request p.bus ≤ length frame.now }
    ensures { HeadAnswered p.bus result waiting.old waiting.new flash.new out.new out.old
        (λ l. finished_call p.bus (frames.destination p.bus address frame.now)
        (executed (profile_of p) (view (state_with h waiting.old l)) (command_of p.bus frame.now)
        (arguments_of p.bus frame.now) flash.old)) }
{
    let bus = p.bus;
    let code = command(bus, frame);
    let args = arguments(bus, frame);
    let done = commands::execute(p, h, code, args, waiting, flash, out, results_start(bus));
    respond(bus, destination(bus, address, frame), done, out)
}
