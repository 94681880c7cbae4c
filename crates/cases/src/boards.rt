// The lines of board calls, R, C and I, and their answer: number, reply, state and flash.
use answer::Answer;
use case_setup::answers::{Hex, Output, UNTOUCHED, untouched};
use case_setup::lines::{BoardCall, Frame};
use case_setup::setup::Setup;
use numbers::{board_number, reply_length};
use profile::Profile;
use rules::kinds::Address;
use state::State;
use std::fmt;
use tally::{Tally, counted};
use text::hash::fnv1a;
use text::part::{first, within};

// 256 is the default range.
fn own(address: Address) -> u16 {
    match address {
        Address::DefaultRange => 256,
        Address::Own(a) => u16::from(a),
    }
}

// own running next w count waiting lastreply; of the bytes as many as a buffer holds
#[derive(Clone, Copy)]
struct Told(State);

impl fmt::Display for Told {
    fn fmt<W: fmt::Write>(&self, f: &mut fmt::Formatter<W>) -> fmt::Result {
        let state = self.0;
        let own = own(state.address);
        let running = u8::from(state.running);
        let upload = state.upload;
        let next = upload.next;
        let held = upload.held;
        let count = upload.count;
        write!(f, "{own} {running} {next} {held} {count}")?;
        let waiting = Hex(first(&upload.waiting, held));
        let last = state.last;
        let reply = Hex(first(&last.bytes, last.len));
        write!(f, " {waiting} {reply}")
    }
}

// letter number reply state flashhash bufferok; the line goes on
fn tell_answer(out: &mut Output, letter: char, answer: Answer, lent: &[u8], flash: &[u8]) {
    let outcome = answer.outcome;
    let number = board_number(outcome);
    let made = reply_length(outcome);
    let reply = Hex(first(lent, made));
    let state = Told(answer.state);
    let hash = fnv1a(flash);
    let untouched = untouched(lent, made);
    out.tell(&format_args!("{letter} {number} {reply} {state}"));
    out.tell(&format_args!(" {hash:016x} {untouched}"));
}

// short long crc foreign answered, and the end of the line
fn tell_tally(out: &mut Output, tally: Tally) {
    let Tally {
        short,
        long,
        sum,
        foreign,
        answered,
    } = tally;
    out.tell(&format_args!(" {short} {long} {sum} {foreign} {answered}\n"));
}

// A received frame, and its answer under this letter; the line goes on.
fn received(
    out: &mut Output,
    letter: char,
    frame: Frame<'_>,
    setup: &Setup,
    profile: Profile,
    flash: &mut [u8],
) -> Answer {
    let mut reply = [UNTOUCHED; 512];
    let room = within(&reply, setup.room);
    let lent = &mut reply[..room];
    let answer = board::receive(
        profile,
        setup.state,
        frame.address,
        frame.bytes,
        flash,
        lent,
    );
    tell_answer(out, letter, answer, lent, flash);
    answer
}

// An I²C read, and its answer.
fn read(out: &mut Output, address: u8, setup: &Setup, profile: Profile, flash: &[u8]) -> Answer {
    let mut reply = [UNTOUCHED; 512];
    let room = within(&reply, setup.room);
    let lent = &mut reply[..room];
    let answer = readout::read(profile, setup.state, address, flash, lent);
    tell_answer(out, 'I', answer, lent, flash);
    answer
}

// A board call, by its letter, with the lent flash.
pub fn call_board(
    out: &mut Output,
    call: BoardCall<'_>,
    setup: &mut Setup,
    profile: Profile,
    flash: &mut [u8],
) {
    match call {
        BoardCall::Receive(frame) => {
            setup.state = received(out, 'R', frame, setup, profile, flash).state;
            out.tell(&"\n");
        }
        BoardCall::ReceiveCounted(frame) => {
            let answer = received(out, 'C', frame, setup, profile, flash);
            setup.state = answer.state;
            setup.tally = counted(setup.tally, answer.outcome);
            tell_tally(out, setup.tally);
        }
        BoardCall::Read { address } => {
            setup.state = read(out, address, setup, profile, flash).state;
            out.tell(&"\n");
        }
    }
}
