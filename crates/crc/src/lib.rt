// The check sums of document 01, "Frames and check sums": CRC-8, CRC-16, a frame's check sum by the bus, and
// whether a frame ends in its own.
// `crc_steps` takes a byte in.
#![tactic(auto)]

ghost use Rattle.std.specs.Prelude.{◌≡◌, ◌^◌, ◌<◌, ◌≤◌, take};
ghost use Rattle.rules.specs.CheckSums.{crc, crc8, crc16, sum, sum_length, sum_right};
ghost use Rattle.crc_steps.specs.HalfBytes.{ByTable};

use byte_slices::{low_first, matches};
use crc_steps::Register;
use frame_sizes::sum_length;
use rules::kinds::Bus;

// The check sum of the bytes, in a register that begins with its start.
fn crc_from<R: Register>(start: R, s: &[u8]) -> R
    requires begun { R.number start ≡ R.algorithm.start }
    requires start_in_width { R.algorithm.start < 2 ^ R.width }
    requires holds_a_byte { 2 ^ 8 ≤ 2 ^ R.width }
    requires by_table { ByTable R.width R.algorithm R.halves }
    ensures { R.number result ≡ crc R.algorithm s.now }
{
    let table = R::table();
    let mut v = start;
    for b in s {
        v = v.after_byte(&table, *b);
    }
    v
}

// The CRC-8 of the bytes.
pub fn crc8(s: &[u8]) -> u8
    ensures { result ≡ crc crc8 s.now }
{
    crc_from(0xFFu8, s)
}

// The CRC-16 of the bytes.
pub fn crc16(s: &[u8]) -> u16
    ensures { result ≡ crc crc16 s.now }
{
    crc_from(0xFFFFu16, s)
}

// The check sum's bytes as they stand in a frame. On I²C it has one; the second then means nothing.
pub fn sum_bytes(bus: Bus, s: &[u8]) -> [u8; 2]
    ensures { take (sum_length bus) result ≡ sum bus s.now }
{
    match bus {
        Bus::I2c => [crc8(s), 0],
        Bus::Rs485 => low_first(crc16(s)),
    }
}

// A frame ends in the check sum of what comes before. Frames too short to hold one do not.
pub fn sum_right(bus: Bus, frame: &[u8]) -> bool
    ensures { result ≡ sum_right bus frame.now }
{
    let k = sum_length(bus);
    if frame.len() < k {
        return false;
    }
    let end = frame.len() - k;
    let sum = sum_bytes(bus, &frame[..end]);
    matches(&frame[end..], &sum[..k])
}
