// Which writes are accepted, and where an upload begins anew.
#![tactic(auto)]

ghost use Rattle.std.specs.Prelude.{◌≡◌, List, ℕ, ◌+◌, ◌^◌, ◌<◌};
ghost use Rattle.rules.specs.Commands.{accepted, restarted};
ghost use Rattle.state.specs.View.{upload_of};
ghost use Rattle.state.specs.Heads.{upload_with};

use state::Counts;

// A write is accepted at 0 or next if its data don't run past S, in no other case.
pub fn accepts(size: usize, next: usize, address: usize, n: usize) -> bool
    requires { address + n < 2 ^ 64 }
    ensures { result ≡ accepted size next address n }
{
    if address == 0 {
        return address + n <= size;
    }
    if address != next {
        return false;
    }
    address + n <= size
}

// An accepted write at 0, even an empty one, restarts: no waiting bytes, count 0.
pub fn restart(u: Counts, address: usize) -> Counts
    ensures { (w : List ℕ) → upload_of (upload_with result w) ≡ restarted address (upload_of (upload_with u w)) }
{
    if address == 0 {
        return u.restarted();
    }
    u
}
