// Document 01, "Commands": a well-framed command by its code. Unserved, wrong argument length, then the command's own rule.
#![tactic(auto)]

ghost use Rattle.std.specs.Prelude.{◌≡◌, length};
ghost use Rattle.rules.specs.Commands.{executed};
ghost use Rattle.state.specs.View.{largest_page, view};
ghost use Rattle.state.specs.Heads.{state_with};
ghost use Rattle.profile.specs.View.{profile_of};
ghost use Rattle.response.specs.Done.{Commanded, Serving};

use dispatch::perform;
use profile::Profile;
use response::{Done, Status};
use state::Head;

// A command with its arguments, its results laid into the lent buffer from a place on.
pub fn execute(
    p: Profile,
    h: Head,
    code: usize,
    args: &[u8],
    waiting: &mut [u8],
    flash: &mut [u8],
    out: &mut [u8],
    at: usize,
) -> Done
    requires serving { Serving p h (length flash.old) (length out.old) at }
    requires waiting_len { length waiting.old ≡ largest_page }
    ensures { Commanded result waiting.old waiting.new flash.new out.new
        (λ l. executed (profile_of p) (view (state_with h waiting.old l)) code args.now flash.old)
        out.old at }
{
    let row = arguments::row(code);
    if !arguments::row_serves(row) {
        return response::reply(h, Status::CommandNotSupported.code(), &[], out, at);
    }
    if !arguments::row_allows(row, args.len()) {
        return response::reply(h, Status::InvalidArguments.code(), &[], out, at);
    }
    perform(p, h, code, args, waiting, flash, out, at)
}
