// 0x08 read: what stands in flash. Results go straight into the lent buffer.
#![tactic(auto)]

ghost use Rattle.std.specs.Prelude.{◌≡◌, List, ℕ, ◌+◌, ◌≤◌, length};
ghost use Rattle.rules.specs.Frames.{shortest_reply};
ghost use Rattle.rules.specs.Commands.{shown};
ghost use Rattle.state.specs.View.{view};
ghost use Rattle.state.specs.Heads.{state_with};
ghost use Rattle.profile.specs.View.{profile_of};
ghost use Rattle.response.specs.Done.{command_effect, ruled_command, Serving};

use byte_slices::{number_at, wide};
use profile::Profile;
use response::{Done, Status, reply};
use rules::kinds::Bus;
use state::Head;

// The longest result part of a reply.
fn longest_results(bus: Bus, longest: usize) -> usize
    requires { 32 ≤ longest }
    ensures { result + shortest_reply bus ≡ longest }
{
    longest - frame_sizes::shortest_reply(bus)
}

// 0x08 read: address in two bytes, length in one. It shows flash, never waiting bytes.
pub fn read(p: Profile, h: Head, args: &[u8], flash: &[u8], out: &mut [u8], at: usize) -> Done
    requires serving { Serving p h (length flash.now) (length out.old) at }
    requires args_len { length args.now ≡ 3 }
    ensures { (w l : List ℕ) → command_effect result w l flash.now out.new
        ≡ ruled_command (shown (profile_of p) (view (state_with h w l)) args.now flash.now) out.old at }
{
    let address = number_at(args, 0);
    let n = wide(args[2]);
    if p.size < address + n {
        return reply(h, Status::InvalidArguments.code(), &[], out, at);
    }
    let bus = p.bus;
    if longest_results(bus, p.longest) < n {
        return reply(h, Status::InvalidArguments.code(), &[], out, at);
    }
    let start = p.offset + address;
    let end = start + n;
    reply(h, Status::Ok.code(), &flash[start..end], out, at)
}
