// The commands that change the board and not its flash: set address, start.
#![tactic(auto)]

ghost use Rattle.std.specs.Prelude.{◌≡◌, ◌||◌, List, ℕ, ◌≤◌, eqb, length};
ghost use Rattle.rules.specs.Commands.{address_taken, set_address, started};
ghost use Rattle.state.specs.View.{view};
ghost use Rattle.state.specs.Heads.{state_with};
ghost use Rattle.profile.specs.View.{profile_of};
ghost use Rattle.response.specs.Done.{command_effect, ruled_command};

use profile::Profile;
use response::{Done, Status};
use rules::kinds::{Address, Bus};
use state::Head;

// Set address is for boards of this type, or of type 0 for all types.
fn type_matches(own: u8, asked: u8) -> bool
    ensures { result ≡ (eqb asked own || eqb asked 0) }
{
    asked == own || asked == 0
}

// On I²C the address is taken with its top bit dropped.
fn address_taken(bus: Bus, address: u8) -> u8
    ensures { result ≡ address_taken bus address }
{
    match bus {
        Bus::I2c => address % 128,
        Bus::Rs485 => address,
    }
}

// 0x01 set address: address, type (own or 0, else no reply). A reserved address is refused.
pub fn set_address(p: Profile, h: Head, args: &[u8], out: &mut [u8], at: usize) -> Done
    requires { (length args.now ≡ 2) × (at ≤ length out.old) }
    ensures { (w l d : List ℕ) → command_effect result w l d out.new
        ≡ ruled_command (set_address (profile_of p) (view (state_with h w l)) args.now d) out.old at }
{
    if !type_matches(p.hardware, args[1]) {
        return Done {
            response: None,
            head: h,
        };
    }
    let bus = p.bus;
    let own = address_taken(bus, args[0]);
    if addressing::reserved(bus, own as usize) {
        return response::reply(h, Status::InvalidArguments.code(), &[], out, at);
    }
    response::reply(
        h.with_address(Address::Own(own)),
        Status::Ok.code(),
        &[],
        out,
        at,
    )
}

// 0x05 start: no reply, running, waiting bytes lost.
pub fn start(h: Head) -> Done
    ensures { (w l d o : List ℕ) (at : ℕ) → command_effect result w l d o ≡ ruled_command (started (view (state_with h w l)) d) o at }
{
    Done {
        response: None,
        head: h.started(),
    }
}
