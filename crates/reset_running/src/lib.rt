// W4: the reset for a running application, which answers version 0.0. It looks first and writes then, so that any other answer leaves the
// output untouched.
#![tactic(auto)]

ghost use Rattle.std.specs.Prelude.{length};
ghost use Rattle.rules.specs.Master.{reset_number, reset_length, running_reset};
ghost use Rattle.encoder.specs.Calls.{Encodes};
ghost use Rattle.reset_running.specs.Resets.{reset_into};

use general_calls::{General, general_length, write_general};
use rules::kinds::Bus;
use rules::requests::{ResetError, VersionError};

// The general-call reset, if the output has room for it.
fn write_reset(bus: Bus, out: &mut [u8]) -> Result<usize, ResetError>
    ensures { Encodes (reset_number result) (reset_length result) (reset_into bus (length out.old))
        out.old out.new }
{
    if out.len() < general_length(bus) {
        return Err(ResetError::OutputTooShort);
    }
    Ok(write_general(bus, General::Reset, out))
}

// What the master sends to a board that answered this version: a reset where an application runs, else nothing.
pub fn reset_running(
    bus: Bus,
    longest: usize,
    major: u8,
    minor: u8,
    out: &mut [u8],
) -> Result<usize, ResetError>
    ensures { Encodes (reset_number result) (reset_length result) (running_reset bus longest major minor (length out.old))
        out.old out.new }
{
    if !profile::frame_in_range(longest) {
        return Err(ResetError::FrameOutOfRange);
    }
    match version_rule::version(major, minor) {
        Ok(_) => Err(ResetError::VersionKnown),
        Err(VersionError::ApplicationRunning) => write_reset(bus, out),
        Err(VersionError::Unknown) => Err(ResetError::VersionUnknown),
    }
}
