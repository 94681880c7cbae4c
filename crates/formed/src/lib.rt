// Whether a state is one of this board: the test behind number 4.
#![tactic(auto)]

ghost use Rattle.std.specs.Prelude.{◌≡◌, true, List, ℕ, ◌<◌};
ghost use Rattle.rules.specs.Profile.{in_range};
ghost use Rattle.rules.specs.State.{upload_formed, well_formed};
ghost use Rattle.state.specs.View.{upload_of, view};
ghost use Rattle.state.specs.Heads.{upload_with, state_with};
ghost use Rattle.profile.specs.View.{profile_of};

use profile::Profile;
use rules::kinds::Bus;
use state::{Counts, Head};

// next at most S, w at most next mod page, the count at most next - w.
fn upload_formed(page: usize, size: usize, u: Counts) -> bool
    requires { 0 < page }
    ensures { (w : List ℕ) → result ≡ upload_formed page size (upload_of (upload_with u w)) }
{
    let next = u.next;
    let held = u.held;
    if size < next {
        return false;
    }
    if next % page < held {
        return false;
    }
    u.count <= next - held
}

// Number 4 is given exactly where this is false, number 2 not being given.
pub fn well_formed(p: Profile, h: Head) -> bool
    requires { in_range (profile_of p) ≡ true }
    ensures { (w l : List ℕ) → result ≡ well_formed (profile_of p) (view (state_with h w l)) }
{
    let counts = h.counts;
    let page = p.page;
    if !upload_formed(page, p.size, counts) {
        return false;
    }
    let len = h.len;
    if p.longest < len {
        return false;
    }
    let bus = p.bus;
    match bus {
        Bus::I2c => true,
        Bus::Rs485 => len == 0,
    }
}
