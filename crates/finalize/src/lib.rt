// Document 01, "Commit": finalize. Accepted bytes are `upload`.
#![tactic(auto)]

ghost use Rattle.std.specs.Prelude.{◌≡◌, ◌+◌, length};
ghost use Rattle.rules.specs.Commit.{finalized};
ghost use Rattle.state.specs.View.{largest_page};
ghost use Rattle.state.specs.Heads.{upload_with};
ghost use Rattle.profile.specs.View.{profile_of};
ghost use Rattle.commit.specs.Progress.{progress_of, Ready, Formed};

use commit::commit_counted;
use profile::Profile;
use state::Counts;

// Finalize: a commit if bytes are waiting, else nothing.
pub fn finalize(p: Profile, u: Counts, waiting: &[u8], flash: &mut [u8]) -> Counts
    requires ready { Ready p (upload_with u waiting.now) (length flash.old) }
    requires waiting_len { length waiting.now ≡ largest_page }
    ensures flash_after { progress_of (upload_with result waiting.now) flash.new
        ≡ finalized (profile_of p) (progress_of (upload_with u waiting.now) flash.old) }
    ensures formed { Formed p (upload_with result waiting.now) u.next }
{
    let held = u.held;
    if held == 0 {
        return u;
    }
    let at = p.offset + (u.next - held);
    let count = commit_counted(flash, at, &waiting[..held], &[], u.count);
    Counts {
        held: 0,
        count,
        ..u
    }
}
