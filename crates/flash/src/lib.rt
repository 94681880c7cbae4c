// Lent flash: bytes committed. Flash is written only where that changes it, so a page wears only when it changes.
#![tactic(auto)]

ghost use Rattle.std.specs.Prelude.{◌≡◌, ◌++◌, ◌+◌, ◌≤◌, length, take, drop};
ghost use Rattle.rules.specs.Bytes.{same};
ghost use Rattle.flash.specs.Committed.{Committed};

use byte_slices::{matches, store};

// Whether two parts stand at a place of flash, one behind the other.
fn stands(flash: &[u8], at: usize, first: &[u8], second: &[u8]) -> bool
    requires { at + (length first.now + length second.now) ≤ length flash.now }
    ensures { result ≡ same (take (length (first.now ++ second.now)) (drop at flash.now))
        (first.now ++ second.now) }
{
    let middle = at + first.len();
    let end = middle + second.len();
    if !matches(&flash[at..middle], first) {
        return false;
    }
    matches(&flash[middle..end], second)
}

// Commits two parts, one behind the other, at their place: true where flash was changed.
pub fn commit(flash: &mut [u8], at: usize, first: &[u8], second: &[u8]) -> bool
    requires { at + (length first.now + length second.now) ≤ length flash.old }
    ensures { Committed flash.old at (first.now ++ second.now) result flash.new }
{
    if stands(&flash[..], at, first, second) {
        return false;
    }
    store(flash, at, first);
    store(flash, at + first.len(), second);
    true
}
