// The exports of `childbus_requests` for C: its functions under their own names, with the clauses that they have there, stated again.
#![tactic(auto)]

ghost use Rattle.std.specs.Prelude.{◌≡◌, []};
ghost use Rattle.childbus_requests.specs.RequestBytes.{EncodedLeft, encoded_left, request_of, general_of, reset_left};

// A request with its CRC.
#[unsafe(no_mangle)]
pub extern "C" fn childbus_encode(
    bus: u32,
    longest: u32,
    code: u32,
    destination: u32,
    a: u32,
    b: u32,
    data: &[u8],
    out: &mut [u8],
    made: &mut usize,
) -> u32
    ensures { ◌≡◌ {A = EncodedLeft} (record { number = result; made = made.new; out = out.new })
        (encoded_left bus longest (request_of code a b) destination «data».now out.old) }
{
    childbus_requests::childbus_encode(bus, longest, code, destination, a, b, data, out, made)
}

// A general call, to all boards.
#[unsafe(no_mangle)]
pub extern "C" fn childbus_general(
    bus: u32,
    longest: u32,
    reset: u32,
    out: &mut [u8],
    made: &mut usize,
) -> u32
    ensures { ◌≡◌ {A = EncodedLeft} (record { number = result; made = made.new; out = out.new })
        (encoded_left bus longest (general_of reset) 0 [] out.old) }
{
    childbus_requests::childbus_general(bus, longest, reset, out, made)
}

// W4: the reset for a board that answered this version, where its application runs.
#[unsafe(no_mangle)]
pub extern "C" fn childbus_reset_running(
    bus: u32,
    longest: u32,
    major: u32,
    minor: u32,
    out: &mut [u8],
    made: &mut usize,
) -> u32
    ensures { ◌≡◌ {A = EncodedLeft} (record { number = result; made = made.new; out = out.new })
        (reset_left bus longest major minor out.old) }
{
    childbus_requests::childbus_reset_running(bus, longest, major, minor, out, made)
}
