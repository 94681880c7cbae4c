// `tally`: the frames that the board has received, by their answers.
use bench_exchange::session::Session;
use bench_output::Output;
use bench_script::fields::{Fault, end, first, is, rest, tell_fault};
use bench_wording::meaning::look_for;
use rules::kinds::{Bus, Outcome};
use tally::Tally;

fn tell_counted(output: &mut Output, bus: Bus) {
    output.say(match bus {
        Bus::I2c => "  tally of received frames; on I2C only those answered 0 are counted\n",
        Bus::Rs485 => "  tally of received frames\n",
    });
}

// A counter with its name. It stops at its largest number.
fn say_counter(output: &mut Output, name: &str, n: u16) {
    let more = if n < Tally::LARGEST_COUNT {
        ""
    } else {
        " or more"
    };
    output.tell(format_args!("    {name}: {n}{more}"));
}

// A counter of frames that get this answer, and what to look for where it is not 0.
fn show_dropped(output: &mut Output, answer: Outcome, name: &str, n: u16) {
    say_counter(output, name, n);
    if n == 0 {
        return output.say("\n");
    }
    output.say("; look for: ");
    output.say(look_for(answer));
}

fn show_tally(output: &mut Output, bus: Bus, t: Tally) {
    tell_counted(output, bus);
    say_counter(output, "answered 0", t.answered);
    output.say("\n");
    show_dropped(output, Outcome::FrameTooShort, "15 too short", t.short);
    show_dropped(output, Outcome::FrameTooLong, "16 too long", t.long);
    show_dropped(output, Outcome::FrameSumWrong, "17 wrong check sum", t.sum);
    show_dropped(
        output,
        Outcome::FrameForeign,
        "18 foreign address",
        t.foreign,
    );
}

// `clear`, after which nothing may follow.
fn clear(output: &mut Output, s: &[u8]) -> Result<(), Fault> {
    if !is(first(s), "clear") {
        return Err(tell_fault(output, "tally", first(s), ": nothing or clear follows\n"));
    }
    end(output, rest(s))
}

// What follows `tally`: nothing, or `clear`.
pub fn run_line(session: &mut Session, s: &[u8]) {
    if s.is_empty() {
        return show_tally(
            &mut session.output,
            session.bench.bus(),
            session.bench.tally,
        );
    }
    if clear(&mut session.output, s).is_err() {
        return session.refuse("tally, or tally clear");
    }
    session.output.say("  every counter of the tally is 0\n");
    session.bench.tally = Tally::cleared();
}
