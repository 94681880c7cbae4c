// A request as C names it: by numbers of 32 bits.
ghost use Rattle.std.specs.Prelude.{◌≡◌};
ghost use Rattle.childbus_requests.specs.RequestBytes.{request_of, general_of};

use rules::requests::Request;

// The command with just the arguments that it has.
pub fn request_of(code: u32, a: u32, b: u32) -> Request
    ensures { result ≡ request_of code a b }
{
    match code {
        0x01 => Request::SetAddress {
            address: a as usize,
            hardware: b as usize,
        },
        0x06 => Request::Write {
            address: a as usize,
        },
        0x08 => Request::Read {
            address: a as usize,
            length: b as usize,
        },
        _ => Request::Plain(code as usize),
    }
}

// 0: reset address. Anything else: reset.
pub fn general_of(reset: u32) -> Request
    ensures { result ≡ general_of reset }
{
    match reset {
        0 => Request::ResetAddress,
        _ => Request::Reset,
    }
}
