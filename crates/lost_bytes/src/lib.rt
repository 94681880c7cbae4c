// How many bytes wait in an upload, and how many of those that waited before a call are lost after it.
#![tactic(auto)]

ghost use Rattle.std.specs.Prelude.{◌≡◌, cond, ◌+◌, ◌-◌, ◌<◌, ◌^◌, length};
ghost use Rattle.lost_bytes.specs.Lost.{upload_of, waits_at, lost_byte, lost_from, lost_bytes, waiting_bytes};

use byte_parts::{from, stands_at};
use state::{State, Upload};

// Whether b is among the bytes that wait from a flash address on, at its own address.
fn waits_at(first: usize, waiting: &[u8], address: usize, b: u8) -> bool
    ensures { result ≡ waits_at first waiting.now address b }
{
    first <= address && stands_at(waiting, address - first, b)
}

// Whether a byte neither waits at its address nor stands in flash there.
fn lost_byte(flash: &[u8], first: usize, waiting: &[u8], address: usize, b: u8) -> bool
    ensures { result ≡ lost_byte flash.now first waiting.now address b }
{
    !waits_at(first, waiting, address, b) && !stands_at(flash, address, b)
}

// How many of the bytes from an address on are lost.
fn lost_from(flash: &[u8], first: usize, waiting: &[u8], address: usize, bytes: &[u8]) -> usize
    requires { address + length bytes.now < 2 ^ 64 }
    ensures { result ≡ lost_from flash.now first waiting.now address bytes.now }
{
    let mut n = 0;
    for i in 0..bytes.len() {
        n += usize::from(lost_byte(flash, first, waiting, address + i, bytes[i]));
    }
    n
}

// Still wait: how many bytes wait in an upload, at most the largest page.
pub fn waiting(u: Upload) -> usize
    ensures { result ≡ waiting_bytes (upload_of u) }
{
    u.held.min(State::LARGEST_PAGE)
}

// Lost: how many bytes that waited before a call are neither waiting nor in flash at their place after it.
pub fn lost(offset: usize, before: Upload, after: Upload, flash: &[u8]) -> usize
    ensures { result ≡ lost_bytes offset (upload_of before) (upload_of after) flash.now }
{
    let old = before.waiting;
    let new = after.waiting;
    let n = waiting(before);
    let m = waiting(after);
    lost_from(
        from(flash, offset),
        after.next.saturating_sub(m),
        &new[..m],
        before.next.saturating_sub(n),
        &old[..n],
    )
}
