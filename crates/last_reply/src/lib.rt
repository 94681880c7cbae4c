// The last reply of a state, handed out from its buffer to an I²C read, where none of numbers 2 to 5 applies. The call is `readout::read`.
#![tactic(auto)]

ghost use Rattle.std.specs.Prelude.{◌≡◌, List, ℕ, ◌≤◌, length};
ghost use Rattle.rules.specs.Board.{read_answered};
ghost use Rattle.state.specs.View.{view};
ghost use Rattle.state.specs.Heads.{state_with};
ghost use Rattle.answer.specs.Answered.{call_effect, expected_effect};
ghost use Rattle.last_reply.specs.HandedOut.{handed_out};

use rules::kinds::{Bus, Outcome};
use state::Head;

// There is a last reply for this address.
fn i2c_read_answered(h: Head, address: u8) -> bool
    ensures { (w l : List ℕ) → result ≡ read_answered Bus.I2c (view (state_with h w l)) address }
{
    if h.running {
        return false;
    }
    let own = h.address;
    if !addressing::addressed(Bus::I2c, own, address) {
        return false;
    }
    h.len != 0
}

fn read_answered(bus: Bus, h: Head, address: u8) -> bool
    ensures { (w l : List ℕ) → result ≡ read_answered bus (view (state_with h w l)) address }
{
    match bus {
        Bus::I2c => i2c_read_answered(h, address),
        Bus::Rs485 => false,
    }
}

// Hands out the last reply from its buffer, if the address gets it, where none of numbers 2 to 5 applies.
pub fn hand_out(bus: Bus, h: Head, address: u8, last: &[u8], out: &mut [u8]) -> Outcome
    requires { (h.len ≤ length last.now) × (h.len ≤ length out.old) }
    ensures { (w d : List ℕ) → call_effect (record { outcome = result; state = state_with h w last.now }) d out.new
        ≡ expected_effect (handed_out bus (view (state_with h w last.now)) address d) out.old }
{
    if !read_answered(bus, h, address) {
        return Outcome::Nothing;
    }
    let n = h.len;
    byte_slices::store(out, 0, &last[..n]);
    Outcome::Reply(n)
}
