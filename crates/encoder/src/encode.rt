// The request encoder: it looks first and writes then, so that a refusal leaves the output untouched.
ghost use Rattle.std.specs.Prelude.{length};
ghost use Rattle.rules.specs.Master.{encoded_number, encoded_length, encoded};
ghost use Rattle.encoder.specs.Calls.{Encodes};

use request_bytes::{request_length, write_request};
use request_range::argument_wrong;
use rules::kinds::Bus;
use rules::requests::{EncodeError, Request};

// Encodes a request to a destination, which a general call has none of. The bytes are a write's data.
pub fn encode(
    bus: Bus,
    longest: usize,
    request: Request,
    destination: usize,
    bytes: &[u8],
    out: &mut [u8],
) -> Result<usize, EncodeError>
    ensures { Encodes (encoded_number result) (encoded_length result)
        (encoded bus longest request destination bytes.now (length out.old))
        out.old out.new }
{
    if !profile::frame_in_range(longest) {
        return Err(EncodeError::FrameOutOfRange);
    }
    if argument_wrong(bus, longest, request, destination, bytes) {
        return Err(EncodeError::ArgumentOutOfRange);
    }
    if out.len() < request_length(bus, request, bytes) {
        return Err(EncodeError::OutputTooShort);
    }
    Ok(write_request(bus, request, destination, bytes, out))
}
