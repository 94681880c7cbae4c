// Whether a board call is refused: the tests behind the numbers 2, 3, 4 and 5, in that order in `refuse`.
#![tactic(auto)]

ghost use Rattle.std.specs.Prelude.{◌≡◌, List, ℕ};
ghost use Rattle.rules.specs.Numbers.{flash_short, buffer_short, refusal};
ghost use Rattle.state.specs.View.{view};
ghost use Rattle.state.specs.Heads.{state_with};
ghost use Rattle.refusal.specs.Checks.{check_of};
ghost use Rattle.profile.specs.View.{profile_of};

use formed::well_formed;
use profile::{Profile, in_range};
use rules::kinds::Outcome;
use state::Head;

// Number 3: a lent flash of len bytes is shorter than O + S. O + S itself might not fit a usize.
pub fn flash_short(p: Profile, len: usize) -> bool
    ensures { result ≡ flash_short (profile_of p) len }
{
    let offset = p.offset;
    if len < offset {
        return true;
    }
    len - offset < p.size
}

// Number 5: a reply buffer of len bytes is shorter than M.
pub fn buffer_short(p: Profile, len: usize) -> bool
    ensures { result ≡ buffer_short (profile_of p) len }
{
    len < p.longest
}

// Whether a board call goes on, or its answer. Order of its tests: 2, 3, 4, 5; each may rely on those before it.
pub fn refuse(p: Profile, h: Head, flash: usize, buffer: usize) -> Result<(), Outcome>
    ensures { (w l : List ℕ) → result ≡ check_of (refusal (profile_of p) (view (state_with h w l)) flash buffer) }
{
    if !in_range(p) {
        return Err(Outcome::ProfileOutOfRange);
    }
    if flash_short(p, flash) {
        return Err(Outcome::FlashTooShort);
    }
    if !well_formed(p, h) {
        return Err(Outcome::StateMalformed);
    }
    if buffer_short(p, buffer) {
        return Err(Outcome::BufferTooShort);
    }
    Ok(())
}
