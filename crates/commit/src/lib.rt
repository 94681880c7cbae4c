// Document 01, "Commit": a commit that counts. specs/ has what an upload and the flash say together.
#![tactic(auto)]

ghost use Rattle.std.specs.Prelude.{◌++◌, ◌+◌, ◌≤◌, ◌<◌, length};
ghost use Rattle.commit.specs.Progress.{CommitCounted};

// Commits the waiting bytes, and the accepted ones behind them, at their place: the erase count after that.
pub fn commit_counted(
    flash: &mut [u8],
    at: usize,
    waiting: &[u8],
    bytes: &[u8],
    count: usize,
) -> usize
    requires { (count ≤ at + length waiting.now) × (at + (length waiting.now + length bytes.now) ≤ length flash.old) }
    ensures { CommitCounted flash.old at (waiting.now ++ bytes.now) count result flash.new }
{
    if flash::commit(flash, at, waiting, bytes) {
        count + 1
    } else {
        count
    }
}
