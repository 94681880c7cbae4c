// The check sum behind the bytes of a frame. Whether it is right is `crc::sum_right`.
ghost use Rattle.std.specs.Prelude.{◌≡◌, ◌+◌, ◌≤◌, length};
ghost use Rattle.rules.specs.CheckSums.{sum_length};
ghost use Rattle.frame.specs.Seal.{Sealing};

use crc::sum_bytes;
use rules::kinds::Bus;

// Writes the check sum of the first n bytes behind them, and answers how many bytes the frame has.
pub fn seal(bus: Bus, buffer: &mut [u8], n: usize) -> usize
    requires { n + sum_length bus ≤ length buffer.old }
    ensures { Sealing bus n buffer.old buffer.new result }
{
    let sum = sum_bytes(bus, &buffer[..n]);
    buffer[n] = sum[0];
    match bus {
        Bus::I2c => n + 1,
        Bus::Rs485 => {
            buffer[n + 1] = sum[1];
            n + 2
        }
    }
}
