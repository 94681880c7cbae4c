// The C boundary of a master, its requests: what include/childbus.h declares for them, over byte slices and numbers. A slice is a pointer
// and a length to C, a `&mut` number the place of a single result. No call has a `requires`: any bytes of any length get the answer that
// specs/ fixes.
#![tactic(auto, unfolding(crate::specs::RequestBytes::request_of))]

mod requests;

ghost use Rattle.std.specs.Prelude.{◌≡◌, []};
ghost use Rattle.childbus_requests.specs.RequestBytes.{EncodedLeft, encoded_left, request_of, general_of, reset_left};

use crate::requests::{general_of, request_of};
use fields::clip;
use numbers::{encoded_length, encoded_number, reset_length, reset_number};
use rules::kinds::Bus;
use rules::requests::{EncodeError, Request, ResetError};

// A request on a bus, where there is such a bus.
fn encode_request(
    bus: u32,
    longest: u32,
    request: Request,
    destination: u32,
    data: &[u8],
    out: &mut [u8],
    made: &mut usize,
) -> u32
    ensures { ◌≡◌ {A = EncodedLeft} (record { number = result; made = made.new; out = out.new })
        (encoded_left bus longest request destination «data».now out.old) }
{
    let Ok(bus) = Bus::try_from(bus) else {
        *made = 0;
        return encoded_number(Err(EncodeError::FrameOutOfRange));
    };
    let answer = encoder::encode::encode(
        bus,
        longest as usize,
        request,
        destination as usize,
        data,
        out,
    );
    *made = encoded_length(answer);
    encoded_number(answer)
}

// A request with its CRC.
pub fn childbus_encode(
    bus: u32,
    longest: u32,
    code: u32,
    destination: u32,
    a: u32,
    b: u32,
    data: &[u8],
    out: &mut [u8],
    made: &mut usize,
) -> u32
    ensures { ◌≡◌ {A = EncodedLeft} (record { number = result; made = made.new; out = out.new })
        (encoded_left bus longest (request_of code a b) destination «data».now out.old) }
{
    encode_request(
        bus,
        longest,
        request_of(code, a, b),
        destination,
        data,
        out,
        made,
    )
}

// A general call, to all boards.
pub fn childbus_general(bus: u32, longest: u32, reset: u32, out: &mut [u8], made: &mut usize) -> u32
    ensures { ◌≡◌ {A = EncodedLeft} (record { number = result; made = made.new; out = out.new })
        (encoded_left bus longest (general_of reset) 0 [] out.old) }
{
    let none = [0u8; 0];
    encode_request(bus, longest, general_of(reset), 0, &none, out, made)
}

// W4: the reset for a board that answered this version, where its application runs.
pub fn childbus_reset_running(
    bus: u32,
    longest: u32,
    major: u32,
    minor: u32,
    out: &mut [u8],
    made: &mut usize,
) -> u32
    ensures { ◌≡◌ {A = EncodedLeft} (record { number = result; made = made.new; out = out.new })
        (reset_left bus longest major minor out.old) }
{
    let Ok(bus) = Bus::try_from(bus) else {
        *made = 0;
        return reset_number(Err(ResetError::FrameOutOfRange));
    };
    let answer = reset_running::reset_running(bus, longest as usize, clip(major), clip(minor), out);
    *made = reset_length(answer);
    reset_number(answer)
}
