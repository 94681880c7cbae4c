// Document 01, "Commit": accepted bytes wait for the end of their page, and a commit lays them over flash.
// The numbers of the upload go by value once a call; the buffer of the waiting bytes and the flash are lent. A page that a write ends is
// committed from where its bytes stand, so the buffer takes only bytes that wait when the write is done.
#![tactic(auto)]

ghost use Rattle.std.specs.Prelude.{◌≡◌, ◌+◌, ◌≤◌, length, drop};
ghost use Rattle.rules.specs.Commit.{taken_all};
ghost use Rattle.state.specs.View.{largest_page};
ghost use Rattle.state.specs.Heads.{upload_with};
ghost use Rattle.profile.specs.View.{profile_of};
ghost use Rattle.commit.specs.Progress.{progress_of, Ready, Formed};
ghost use Rattle.upload.specs.Pages.{PagesTaken};

use byte_slices::store;
use commit::commit_counted;
use profile::Profile;
use state::Counts;

// The upload after the pages that accepted bytes end, and how many of the bytes that took.
#[derive(Clone, Copy)]
struct Paged {
    counts: Counts,
    used: usize,
}

// Commits each page that the accepted bytes end, the waiting bytes with the first.
// A `while`: the first page lacks fewer bytes than the others, and no chain (`byte_slices::matches`).
fn commit_pages(p: Profile, u: Counts, bytes: &[u8], waiting: &[u8], flash: &mut [u8]) -> Paged
    requires ready { Ready p (upload_with u waiting.now) (length flash.old) }
    requires bytes_bound { u.next + length bytes.now ≤ p.size }
    requires waiting_len { length waiting.now ≡ largest_page }
    ensures { PagesTaken p u waiting.now flash.old bytes.now result flash.new }
{
    let page = p.page;
    let mut next = u.next;
    let mut held = u.held;
    let mut count = u.count;
    let mut i = 0;
    let mut room = page - next % page;
    while room <= bytes.len() - i {
        let end = i + room;
        count = commit_counted(
            flash,
            p.offset + (next - held),
            &waiting[..held],
            &bytes[i..end],
            count,
        );
        i = end;
        next += room;
        held = 0;
        room = page;
    }
    Paged {
        counts: Counts { next, held, count },
        used: i,
    }
}

// Accepted bytes: the pages that they end are committed, the rest of them joins the waiting bytes.
pub fn take(p: Profile, u: Counts, bytes: &[u8], waiting: &mut [u8], flash: &mut [u8]) -> Counts
    requires ready { Ready p (upload_with u waiting.old) (length flash.old) }
    requires bytes_bound { u.next + length bytes.now ≤ p.size }
    requires waiting_len { length waiting.old ≡ largest_page }
    ensures flash_after { progress_of (upload_with result waiting.new) flash.new
        ≡ taken_all (profile_of p) (progress_of (upload_with u waiting.old) flash.old) bytes.now }
    ensures formed { Formed p (upload_with result waiting.new) (u.next + length bytes.now) }
    ensures waiting_unchanged { drop result.held waiting.new ≡ drop result.held waiting.old }
{
    let paged = commit_pages(p, u, bytes, &waiting[..], flash);
    let used = paged.used;
    let held = paged.counts.held;
    let rest = &bytes[used..];
    let n = rest.len();
    store(waiting, held, rest);
    Counts {
        next: paged.counts.next + n,
        held: held + n,
        count: paged.counts.count,
    }
}
