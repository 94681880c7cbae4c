// The tally in bytes, as it crosses the C boundary: include/childbus.h has the layout as a table, specs/ as definitions.
#![tactic(auto)]

ghost use Rattle.std.specs.Prelude.{◌≡◌, ◌+◌, ◌≤◌, length};
ghost use Rattle.rules.specs.Numbers.{laid};
ghost use Rattle.tally_bytes.specs.TallyBytes.{tally_size, counter_at, tally_at, tally_bytes, tally_left};
ghost use Rattle.tally_bytes.specs.BothWays.{BothWays};

use byte_slices::low_first;
use tally::{Tally, counted_by};

// How many bytes a tally takes.
pub const TALLY_BYTES: usize = 10;

// The counter in the two bytes from a place on.
fn counter_at(b: &[u8], at: usize) -> u16
    requires { at + 2 ≤ length b.now }
    ensures { result ≡ counter_at b.now at }
{
    u16::from_le_bytes([b[at], b[at + 1]])
}

// The tally that ten bytes say.
fn tally_from(b: &[u8]) -> Tally
    requires { tally_size ≤ length b.now }
    ensures { result ≡ tally_at b.now }
{
    Tally {
        short: counter_at(b, 0),
        long: counter_at(b, 2),
        sum: counter_at(b, 4),
        foreign: counter_at(b, 6),
        answered: counter_at(b, 8),
    }
}

// Writes a tally into the first ten bytes of a buffer.
fn tally_to(t: Tally, b: &mut [u8])
    requires { tally_size ≤ length b.old }
    ensures { b.new ≡ laid (tally_bytes t) b.old }
{
    let short = low_first(t.short);
    let long = low_first(t.long);
    let sum = low_first(t.sum);
    let foreign = low_first(t.foreign);
    let answered = low_first(t.answered);
    let bytes = [
        short[0],
        short[1],
        long[0],
        long[1],
        sum[0],
        sum[1],
        foreign[0],
        foreign[1],
        answered[0],
        answered[1],
    ];
    byte_slices::store(b, 0, &bytes);
}

// Counts a frame that was answered by this number. A buffer that is too short is no tally, and stays as it was.
pub fn count(b: &mut [u8], number: u32)
    ensures { b.new ≡ tally_left b.old number }
{
    if b.len() < TALLY_BYTES {
        return;
    }
    let t = tally_from(b);
    tally_to(counted_by(t, number), b);
}

// The layout loses nothing that a tally can hold.
pub fn both_ways()
    ensures { BothWays }
{}
