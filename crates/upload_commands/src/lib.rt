// The two commands of an upload: write and finalize.
#![tactic(auto)]

ghost use Rattle.std.specs.Prelude.{◌≡◌, List, ℕ, ◌≤◌, length};
ghost use Rattle.rules.specs.Commands.{written, finished};
ghost use Rattle.state.specs.View.{largest_page, view};
ghost use Rattle.state.specs.Heads.{state_with};
ghost use Rattle.profile.specs.View.{profile_of};
ghost use Rattle.response.specs.Done.{command_effect, ruled_command, Commanded, Serving};

use acceptance::{accepts, restart};
use byte_slices::number_at;
use profile::Profile;
use response::{Done, Status};
use state::Head;

// 0x06 write: address, data bytes.
pub fn write(
    p: Profile,
    h: Head,
    args: &[u8],
    waiting: &mut [u8],
    flash: &mut [u8],
    out: &mut [u8],
    at: usize,
) -> Done
    requires serving { Serving p h (length flash.old) (length out.old) at }
    requires waiting_len { length waiting.old ≡ largest_page }
    requires in_bounds { 2 ≤ length args.now }
    ensures { Commanded result waiting.old waiting.new flash.new out.new
        (λ l. written (profile_of p) (view (state_with h waiting.old l)) args.now flash.old)
        out.old at }
{
    let address = number_at(args, 0);
    let counts = h.counts;
    let bytes = &args[2..];
    if !accepts(p.size, counts.next, address, bytes.len()) {
        return response::reply(h, Status::InvalidArguments.code(), &[], out, at);
    }
    let taken = upload::take(p, restart(counts, address), bytes, waiting, flash);
    response::reply(h.with_counts(taken), Status::Ok.code(), &[], out, at)
}

// 0x07 finalize: results are the erase count in two bytes.
pub fn finalize(
    p: Profile,
    h: Head,
    waiting: &[u8],
    flash: &mut [u8],
    out: &mut [u8],
    at: usize,
) -> Done
    requires serving { Serving p h (length flash.old) (length out.old) at }
    requires waiting_len { length waiting.now ≡ largest_page }
    ensures { (l : List ℕ) → command_effect result waiting.now l flash.new out.new
        ≡ ruled_command (finished (profile_of p) (view (state_with h waiting.now l)) flash.old)
        out.old at }
{
    let counts = h.counts;
    let finalized = finalize::finalize(p, counts, waiting, flash);
    let count = finalized.count;
    response::reply_number(h.with_counts(finalized), count, out, at)
}
