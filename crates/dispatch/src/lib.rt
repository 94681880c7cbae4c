// A served command with arguments of an allowed length, by its code. Which are served and allowed is `commands`'.
#![tactic(auto)]

ghost use Rattle.std.specs.Prelude.{◌≡◌, true, length};
ghost use Rattle.rules.specs.Commands.{length_allowed, performed};
ghost use Rattle.state.specs.View.{largest_page, view};
ghost use Rattle.state.specs.Heads.{state_with};
ghost use Rattle.profile.specs.View.{profile_of};
ghost use Rattle.response.specs.Done.{Commanded, Serving};

use profile::Profile;
use response::Done;
use state::Head;

// The command's own rule. The last arm is 0x0c, the longest frame.
pub fn perform(
    p: Profile,
    h: Head,
    code: usize,
    args: &[u8],
    waiting: &mut [u8],
    flash: &mut [u8],
    out: &mut [u8],
    at: usize,
) -> Done
    requires serving { Serving p h (length flash.old) (length out.old) at }
    requires waiting_len { length waiting.old ≡ largest_page }
    requires args_value { length_allowed code (length args.now) ≡ true }
    ensures { Commanded result waiting.old waiting.new flash.new out.new
        (λ l. performed (profile_of p) (view (state_with h waiting.old l)) code args.now flash.old)
        out.old at }
{
    match code {
        0x00 => queries::version(h, out, at),
        0x01 => updates::set_address(p, h, args, out, at),
        0x03 => queries::hardware_info(p, h, out, at),
        0x04 => queries::serial(p, h, out, at),
        0x05 => updates::start(h),
        0x06 => upload_commands::write(p, h, args, waiting, flash, out, at),
        0x07 => upload_commands::finalize(p, h, waiting, flash, out, at),
        0x08 => read_query::read(p, h, args, &flash[..], out, at),
        0x09 => queries::revision(p, h, out, at),
        _ => response::reply_number(h, p.longest, out, at),
    }
}
