// Document 01, "Request": (RS485: address,) command, arguments, check sum; taken apart.
ghost use Rattle.std.specs.Prelude.{◌≡◌, ◌<◌, ◌≤◌, length};
ghost use Rattle.rules.specs.Frames as frames;
ghost use Rattle.rules.specs.Frames.{header_length, shortest_request, command_of, arguments_of};

use byte_slices::wide;
use frame_sizes::{header_length, sum_length};
use rules::kinds::Bus;

// Where a frame was sent: I²C the address beside it, RS485 its first byte.
pub fn destination(bus: Bus, address: u8, frame: &[u8]) -> u8
    ensures { result ≡ frames.destination bus address frame.now }
{
    match bus {
        Bus::I2c => address,
        Bus::Rs485 => if frame.len() == 0 { 0 } else { frame[0] },
    }
}

// The command of a request.
pub fn command(bus: Bus, frame: &[u8]) -> usize
    requires { header_length bus < length frame.now }
    ensures { result ≡ command_of bus frame.now }
{
    wide(frame[header_length(bus)])
}

// Its arguments.
pub fn arguments<'a>(bus: Bus, frame: &'a [u8]) -> &'a [u8]
    requires { shortest_request bus ≤ length frame.now }
    ensures { result.now ≡ arguments_of bus frame.now }
{
    let start = header_length(bus) + 1;
    let end = frame.len() - sum_length(bus);
    &frame[start..end]
}
