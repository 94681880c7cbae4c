// The commands that only tell what the board is: version, hardware info, serial, revision. Results go straight into the lent buffer.
#![tactic(auto)]

ghost use Rattle.std.specs.Prelude.{◌≡◌, List, [], ◌∷◌, ℕ, ◌+◌, ◌≤◌, length};
ghost use Rattle.rules.specs.Responses.{replying, ok};
ghost use Rattle.rules.specs.Commands.{hardware_info, serial_number};
ghost use Rattle.state.specs.View.{view};
ghost use Rattle.state.specs.Heads.{state_with};
ghost use Rattle.profile.specs.View.{profile_of};
ghost use Rattle.response.specs.Done.{command_effect, ruled_command};

use byte_slices::two_bytes;
use profile::Profile;
use response::{Done, Status, reply};
use state::Head;

// 0x00 version: results 2, 2.
pub fn version(h: Head, out: &mut [u8], at: usize) -> Done
    requires { at + 2 ≤ length out.old }
    ensures { (w l d : List ℕ) → command_effect result w l d out.new
        ≡ ruled_command (replying (view (state_with h w l)) d ok (2 ∷ 2 ∷ [])) out.old at }
{
    reply(h, Status::Ok.code(), &[2, 2], out, at)
}

// 0x03 hardware info: type and compatible revision, bootloader version, two-byte S.
pub fn hardware_info(p: Profile, h: Head, out: &mut [u8], at: usize) -> Done
    requires { (p.size ≤ 65535) × (at + 5 ≤ length out.old) }
    ensures { (w l d : List ℕ) → command_effect result w l d out.new
        ≡ ruled_command (replying (view (state_with h w l)) d ok (hardware_info (profile_of p))) out.old at }
{
    let size = two_bytes(p.size);
    reply(
        h,
        Status::Ok.code(),
        &[p.hardware, p.compatible, p.version, size[0], size[1]],
        out,
        at,
    )
}

// 0x04: the serial's bytes, COMMAND_NOT_SUPPORTED if none.
pub fn serial(p: Profile, h: Head, out: &mut [u8], at: usize) -> Done
    requires { (p.seriallen ≤ 16) × (at + 16 ≤ length out.old) }
    ensures { (w l d : List ℕ) → command_effect result w l d out.new
        ≡ ruled_command (serial_number (profile_of p) (view (state_with h w l)) d) out.old at }
{
    let len = p.seriallen;
    if len == 0 {
        return reply(h, Status::CommandNotSupported.code(), &[], out, at);
    }
    let bytes = p.serial;
    reply(h, Status::Ok.code(), &bytes[..len], out, at)
}

// 0x09 actual revision.
pub fn revision(p: Profile, h: Head, out: &mut [u8], at: usize) -> Done
    requires { at + 1 ≤ length out.old }
    ensures { (w l d : List ℕ) → command_effect result w l d out.new
        ≡ ruled_command (replying (view (state_with h w l)) d ok (p.actual ∷ [])) out.old at }
{
    reply(h, Status::Ok.code(), &[p.actual], out, at)
}
