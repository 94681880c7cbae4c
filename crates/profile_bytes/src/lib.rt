// The profile in 36 bytes, as it crosses the C boundary: include/childbus.h has the layout as a table, specs/ as definitions.
// Bytes that hold no profile read as a profile out of range, so that the board's own test answers them.
#![tactic(auto)]

ghost use Rattle.std.specs.Prelude.{◌≡◌, Some, None, cond, leb};
ghost use Rattle.profile_bytes.specs.BothWays.{BothWays};
ghost use Rattle.profile_bytes.specs.ProfileBytes.{profile_held, profile_said, no_profile, profile_at, page_of};

use byte_slices::{four_at, wide};
use fields::array_at;
use profile::Profile;
use rules::kinds::Bus;
use state::State;

// How many bytes a profile takes.
pub const PROFILE_BYTES: usize = 36;

// The page of byte 6, if it is one: 0 is 64 bytes, 1 is 128.
fn page_of(x: u8) -> Option<usize>
    ensures { result ≡ cond (leb x 1) (Some (page_of x)) None }
{
    match x {
        0 => Some(State::SMALLEST_PAGE),
        1 => Some(State::LARGEST_PAGE),
        _ => None,
    }
}

// The profile of bytes that hold one.
fn profile_held(b: &[u8]) -> Option<Profile>
    ensures { result ≡ cond (profile_held b.now) (Some (profile_said b.now)) None }
{
    if b.len() < PROFILE_BYTES {
        return None;
    }
    let bus = Bus::try_from(u32::from(b[0])).ok()?;
    let page = page_of(b[6])?;
    Some(Profile {
        bus,
        longest: four_at(b, 8),
        page,
        size: four_at(b, 12),
        offset: four_at(b, 16),
        hardware: b[1],
        compatible: b[2],
        actual: b[3],
        version: b[4],
        serial: array_at(b, 20),
        seriallen: wide(b[5]),
    })
}

// No board is built so: M is 0.
fn no_profile() -> Profile
    ensures { result ≡ no_profile }
{
    Profile {
        bus: Bus::I2c,
        longest: 0,
        page: 0,
        size: 0,
        offset: 0,
        hardware: 0,
        compatible: 0,
        actual: 0,
        version: 0,
        serial: [0u8; Profile::LONGEST_SERIAL],
        seriallen: 0,
    }
}

// The profile that bytes say.
#[tactic(auto, unfolding(crate::specs::ProfileBytes::profile_at))]
pub fn profile_from(b: &[u8]) -> Profile
    ensures { result ≡ profile_at b.now }
{
    profile_held(b).unwrap_or_else(no_profile)
}

// The layout loses nothing of a profile.
pub fn both_ways()
    ensures { BothWays }
{}
