// What stands before the command or the status: RS485 the address.
ghost use Rattle.std.specs.Prelude.{◌≡◌, ◌≤◌, length};
ghost use Rattle.rules.specs.Numbers.{laid};
ghost use Rattle.rules.specs.Frames.{header, header_length};

use rules::kinds::Bus;

// Lays it at the front of the buffer, and answers how long it is.
pub fn write_header(bus: Bus, address: u8, out: &mut [u8]) -> usize
    requires { header_length bus ≤ length out.old }
    ensures { (result ≡ header_length bus) × (out.new ≡ laid (header bus address) out.old) }
{
    match bus {
        Bus::I2c => 0,
        Bus::Rs485 => {
            out[0] = address;
            1
        }
    }
}
