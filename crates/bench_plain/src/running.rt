// `reset-running`: asks for the version, resets where that is an application's, and asks again.
use crate::after_general;
use bench_exchange::session::Session;
use bench_output::Output;
use bench_wording::meaning::tell_number;
use numbers::reset_number;
use rules::requests::{Request, ResetError};

// The version, as one number with the major one high; none where no OK came.
fn ask_version(session: &mut Session) -> Option<usize> {
    let done = session.request(Request::Plain(0x00), true, 0..0);
    done.ok().map(|r| r.value)
}

// What the library has the master send after a version.
fn reset_for(session: &Session, version: usize, out: &mut [u8]) -> Result<usize, ResetError> {
    let major = (version / 256 % 256) as u8;
    let minor = (version % 256) as u8;
    let bench = &session.bench;
    reset_running::reset_running(bench.bus(), bench.profile.longest, major, minor, out)
}

// Why no reset is made.
fn tell_not_made(output: &mut Output, why: ResetError) {
    tell_number(output, reset_number(Err(why)));
    output.say(if why == ResetError::VersionKnown {
        "  the bootloader runs already: nothing is reset\n"
    } else {
        "  nothing is reset\n"
    });
}

// The version after the reset, by what the library answers to it.
fn tell_back(output: &mut Output, again: Result<usize, ResetError>) {
    output.say(match again {
        Ok(_) => {
            "  the application still runs: the reset did not reach it\n    do: reset-running once more\n"
        }
        Err(ResetError::VersionKnown) => "  the bootloader answers\n",
        Err(_) => "  what answers is no bootloader that the master knows\n",
    });
}

// Asks again, and says what came of the reset.
fn ask_again(session: &mut Session) {
    session.output.say("  version, once more\n");
    let Some(version) = ask_version(session) else {
        return session.output.say(
            "  no version came after the reset
    do: ask once more, with: version; if that stays silent, reset
",
        );
    };
    let mut out = [0u8; 256];
    let again = reset_for(session, version, &mut out);
    tell_back(&mut session.output, again);
}

// Sends the reset that the library made.
fn send_reset(session: &mut Session, frame: &mut [u8]) {
    session.output.say("  reset\n");
    let asked = session.general();
    session.send(asked, frame);
    after_general(session);
    ask_again(session);
}

pub(crate) fn reset_running(session: &mut Session) {
    let Some(version) = ask_version(session) else {
        return session.output.say(
            "  no version came: nothing is reset
    do: reset-running once more; if the application is silent, only reset brings the bootloader back
",
        );
    };
    let mut out = [0u8; 256];
    match reset_for(session, version, &mut out) {
        Ok(n) if n <= out.len() => send_reset(session, &mut out[..n]),
        Ok(_) => {}
        Err(why) => tell_not_made(&mut session.output, why),
    }
}
