// Document 01, "Profile and sizes": what a board is built as, and the test behind number 2. The other tests are `formed` and `refusal`.
#![tactic(auto)]

ghost use Rattle.std.specs.Prelude.{◌≡◌, ◌<◌};
ghost use Rattle.rules.specs.Profile.{frame_in_range, page_in_range, size_in_range, offset_in_range, in_range};
ghost use Rattle.profile.specs.View.{profile_of};

use rules::kinds::Bus;
use state::State;

#[derive(Clone, Copy)]
pub struct Profile {
    pub bus: Bus,
    // M, longest frame
    pub longest: usize,
    // page size
    pub page: usize,
    // S, working flash
    pub size: usize,
    // O, the working flash's offset in the lent flash
    pub offset: usize,
    // hardware type
    pub hardware: u8,
    // compatible revision
    pub compatible: u8,
    // actual revision
    pub actual: u8,
    // bootloader version
    pub version: u8,
    // the first `seriallen` bytes are the serial
    pub serial: [u8; Profile::LONGEST_SERIAL],
    pub seriallen: usize,
}

impl Profile {
    // serial: 0 to 16 bytes
    pub const LONGEST_SERIAL: usize = 16;
}

// M, longest frame, 32 to 256: number 2 for a call that knows the bus and M only.
pub fn frame_in_range(longest: usize) -> bool
    ensures { result ≡ frame_in_range longest }
{
    if longest < 32 {
        return false;
    }
    longest <= State::LARGEST_FRAME
}

// page: 64 or 128 bytes.
fn page_in_range(page: usize) -> bool
    ensures { result ≡ page_in_range page }
{
    if page == State::SMALLEST_PAGE {
        return true;
    }
    page == State::LARGEST_PAGE
}

// S: a multiple of the page, from one page to the largest S.
fn size_in_range(page: usize, size: usize) -> bool
    requires { 0 < page }
    ensures { result ≡ size_in_range page size }
{
    if size % page != 0 {
        return false;
    }
    if size < page {
        return false;
    }
    size <= State::LARGEST_FLASH
}

// O: a multiple of the page, from 0 to the largest S.
fn offset_in_range(page: usize, offset: usize) -> bool
    requires { 0 < page }
    ensures { result ≡ offset_in_range page offset }
{
    if offset % page != 0 {
        return false;
    }
    offset <= State::LARGEST_FLASH
}

// Number 2 is given exactly where this is false. Any hardware type of one byte but 0 is in range.
pub fn in_range(p: Profile) -> bool
    ensures { result ≡ in_range (profile_of p) }
{
    if !frame_in_range(p.longest) {
        return false;
    }
    let page = p.page;
    if !page_in_range(page) {
        return false;
    }
    if !size_in_range(page, p.size) {
        return false;
    }
    if !offset_in_range(page, p.offset) {
        return false;
    }
    if p.hardware < 1 {
        return false;
    }
    p.seriallen <= Profile::LONGEST_SERIAL
}
