// The tests of the reply decoder: results, length, address.
#![tactic(auto)]

ghost use Rattle.std.specs.Prelude.{◌≡◌, ◌+◌, ◌<◌, length};
ghost use Rattle.rules.specs.Master.{fixed_part, results_missing, length_right, from_other};

use byte_slices::wide;
use rules::kinds::Bus;

// The number of results that an OK to a command has at least; for read the length asked.
pub fn fixed_part(code: usize, asked: usize) -> usize
    ensures { result ≡ fixed_part code asked }
{
    match code {
        0x00 => 2,
        0x03 => 5,
        0x07 => 2,
        0x08 => asked,
        0x09 => 1,
        0x0c => 2,
        _ => 0,
    }
}

// OK without all of the command's fixed part.
pub fn results_missing(code: usize, asked: usize, status: u8, n: usize) -> bool
    ensures { result ≡ results_missing code asked status n }
{
    if status != 0 {
        return false;
    }
    n < fixed_part(code, asked)
}

// A reply of so many bytes holds n results. On I²C more bytes may follow, on RS485 none.
pub fn length_right(bus: Bus, n: usize, long: usize) -> bool
    requires { n < 256 }
    ensures { result ≡ length_right bus n long }
{
    let whole = n + frame_sizes::shortest_reply(bus);
    match bus {
        Bus::I2c => whole <= long,
        Bus::Rs485 => whole == long,
    }
}

// A reply comes from another address. On I²C it holds none.
pub fn from_other(bus: Bus, address: usize, reply: &[u8]) -> bool
    requires { 0 < length reply.now }
    ensures { result ≡ from_other bus address reply.now }
{
    match bus {
        Bus::I2c => false,
        Bus::Rs485 => wide(reply[0]) != address,
    }
}
