// Number 7: whether a request's arguments are out of range. The argument table says which commands are served.
#![tactic(auto)]

ghost use Rattle.std.specs.Prelude.{◌≡◌, ◌+◌, ◌^◌, ◌<◌, ◌≤◌};
ghost use Rattle.rules.specs.Master.{address_over, command_wrong, set_address_wrong, read_wrong, argument_wrong};

use rules::kinds::Bus;
use rules::requests::Request;

// A bus address past 255, on I²C past 127.
fn address_over(bus: Bus, a: usize) -> bool
    ensures { result ≡ address_over bus a }
{
    match bus {
        Bus::I2c => 127 < a,
        Bus::Rs485 => 255 < a,
    }
}

// A command with n argument bytes to a destination.
fn command_wrong(bus: Bus, longest: usize, destination: usize, code: usize, n: usize) -> bool
    requires { n < 2 ^ 63 + 2 }
    ensures { result ≡ command_wrong bus longest destination code n }
{
    if !arguments::served(code) {
        return true;
    }
    if !arguments::length_allowed(code, n) {
        return true;
    }
    if longest < frame_sizes::shortest_request(bus) + n {
        return true;
    }
    destination == 0 || address_over(bus, destination)
}

// A new bus address over its range or reserved, or a hardware type over 255.
fn set_address_wrong(bus: Bus, address: usize, hardware: usize) -> bool
    ensures { result ≡ set_address_wrong bus address hardware }
{
    if address_over(bus, address) {
        return true;
    }
    addressing::reserved(bus, address) || 255 < hardware
}

// A flash address over 65,535, or a read longer than a reply holds.
fn read_wrong(bus: Bus, longest: usize, address: usize, asked: usize) -> bool
    requires { 32 ≤ longest }
    ensures { result ≡ read_wrong bus longest address asked }
{
    65535 < address || longest - frame_sizes::shortest_reply(bus) < asked
}

// A request with its data bytes. The general calls have no arguments.
pub fn argument_wrong(
    bus: Bus,
    longest: usize,
    request: Request,
    destination: usize,
    bytes: &[u8],
) -> bool
    requires { 32 ≤ longest }
    ensures { result ≡ argument_wrong bus longest request destination bytes.now }
{
    match request {
        Request::Plain(code) => command_wrong(bus, longest, destination, code, 0),
        Request::SetAddress { address, hardware } => {
            command_wrong(bus, longest, destination, 0x01, 2)
                || set_address_wrong(bus, address, hardware)
        }
        Request::Write { address } => {
            command_wrong(bus, longest, destination, 0x06, bytes.len() + 2) || 65535 < address
        }
        Request::Read { address, length } => {
            command_wrong(bus, longest, destination, 0x08, 3)
                || read_wrong(bus, longest, address, length)
        }
        Request::ResetAddress => false,
        Request::Reset => false,
    }
}
