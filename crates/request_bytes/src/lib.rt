// A request in bytes: how many it has, and what they are, written into a lent output that has room for them.
#![tactic(auto)]

mod write;

ghost use Rattle.std.specs.Prelude.{◌≡◌, ◌≤◌, length};
ghost use Rattle.rules.specs.Master.{instruction_of, request_bytes};
ghost use Rattle.request_bytes.specs.Making.{Makes, request_length, CommandFits, NumbersFit};

use crate::write::write_command;
use byte_slices::two_bytes;
use general_calls::{General, general_length, write_general};
use rules::kinds::Bus;
use rules::requests::Request;

// A request with its data bytes.
pub fn request_length(bus: Bus, request: Request, bytes: &[u8]) -> usize
    ensures { result ≡ request_length bus (instruction_of request bytes.now) }
{
    let shortest = frame_sizes::shortest_request(bus);
    match request {
        Request::Plain(_) => shortest,
        Request::SetAddress {
            address: _,
            hardware: _,
        } => shortest + 2,
        Request::Write { address: _ } => shortest + 2 + bytes.len(),
        Request::Read {
            address: _,
            length: _,
        } => shortest + 3,
        Request::ResetAddress => general_length(bus),
        Request::Reset => general_length(bus),
    }
}

// The bytes of a request whose numbers fit theirs, in an output with room for them.
pub fn write_request(
    bus: Bus,
    request: Request,
    destination: usize,
    bytes: &[u8],
    out: &mut [u8],
) -> usize
    requires { CommandFits (instruction_of request bytes.now) destination × NumbersFit request
        × (request_length bus (instruction_of request bytes.now) ≤ length out.old) }
    ensures { Makes (request_bytes bus request destination bytes.now) out.old out.new result }
{
    let none = &bytes[..0];
    match request {
        Request::Plain(code) => write_command(bus, destination, code, none, none, out),
        Request::SetAddress { address, hardware } => {
            let arguments = [address as u8, hardware as u8];
            write_command(bus, destination, 0x01, &arguments, none, out)
        }
        Request::Write { address } => {
            let arguments = two_bytes(address);
            write_command(bus, destination, 0x06, &arguments, bytes, out)
        }
        Request::Read { address, length } => {
            let place = two_bytes(address);
            write_command(bus, destination, 0x08, &place, &[length as u8], out)
        }
        Request::ResetAddress => write_general(bus, General::ResetAddress, out),
        Request::Reset => write_general(bus, General::Reset, out),
    }
}
