// The two general calls. Their bytes stand here and nowhere else in the code.
#![tactic(auto)]

ghost use Rattle.std.specs.Prelude.{◌≡◌, ◌≤◌, length, take};
ghost use Rattle.rules.specs.Bytes.{same};
ghost use Rattle.rules.specs.Frames.{is_general};
ghost use Rattle.rules.specs.Numbers.{laid};
ghost use Rattle.general_calls.specs.Forms.{general_frame, general_length};

use rules::kinds::Bus;

// Which of the two.
#[derive(Clone, Copy)]
pub enum General {
    // The first of each pair: default range again.
    ResetAddress,
    // The second: reset.
    Reset,
}

// How many bytes a general call has.
pub fn general_length(bus: Bus) -> usize
    ensures { result ≡ general_length bus }
{
    match bus {
        Bus::I2c => 1,
        Bus::Rs485 => 4,
    }
}

// The bytes of a general call, with zeros behind the one of I²C.
fn form(bus: Bus, call: General) -> [u8; 4]
    ensures { take (general_length bus) result ≡ general_frame bus call }
{
    match bus {
        Bus::I2c => match call {
            General::ResetAddress => [0x04, 0, 0, 0],
            General::Reset => [0x06, 0, 0, 0],
        },
        Bus::Rs485 => match call {
            General::ResetAddress => [0x00, 0x44, 0x01, 0x83],
            General::Reset => [0x00, 0x46, 0x80, 0x42],
        },
    }
}

// A frame has the exact form of a general call.
fn has_form(bus: Bus, frame: &[u8], call: General) -> bool
    ensures { result ≡ same frame.now (general_frame bus call) }
{
    let n = general_length(bus);
    let bytes = form(bus, call);
    byte_slices::matches(frame, &bytes[..n])
}

// A received frame is a general call.
pub fn is_general(bus: Bus, to: u8, frame: &[u8], call: General) -> bool
    ensures { result ≡ is_general bus to frame.now (general_frame bus call) }
{
    match bus {
        Bus::I2c => to == 0 && has_form(bus, frame, call),
        Bus::Rs485 => has_form(bus, frame, call),
    }
}

// Writes a general call into a lent output that has room for it, and answers how many bytes that are.
pub fn write_general(bus: Bus, call: General, out: &mut [u8]) -> usize
    requires { general_length bus ≤ length out.old }
    ensures { (result ≡ length (general_frame bus call)) × (out.new ≡ laid (general_frame bus call) out.old) }
{
    let n = general_length(bus);
    let bytes = form(bus, call);
    byte_slices::store(out, 0, &bytes[..n]);
    n
}
