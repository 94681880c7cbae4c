// What a number, a status and a silence mean, and what to do about them. docs/NUMBERS.md has all of them at length.
ghost use Rattle.std.specs.Prelude.{◌≡◌, true};
ghost use Rattle.rules.specs.Frames as frames;

use addressing::reserved;
use alarms::ignored;
use bench_output::Output;
use frame_sizes::{shortest_reply, shortest_request};
use numbers::{board_number, decoded_number, encoded_number};
use rules::kinds::{Bus, Outcome, Reason, Verdict};
use rules::requests::{Decoded, EncodeError, Request};
use std::fmt::Display;

const LARGEST_FLASH_ADDRESS: usize = 65535;

const LARGEST_TYPE: usize = 255;

// What a number means, and what to do about it.
fn number_meaning(n: u32) -> &'static str {
    match n {
        0 => "  number 0, made\n",
        1 => "  number 1, nothing to send\n",
        2 => {
            "  number 2, profile out of range
    do: correct the board line: M 32 to 256, page 64 or 128, S from one page and O from 0 to 65472 in steps of the page, type 1 to 255
"
        }
        3 => {
            "  number 3, lent flash shorter than O + S
    do: lend more flash, or correct S and O
"
        }
        4 => {
            "  number 4, malformed state
    do: begin with a fresh board
"
        }
        5 => {
            "  number 5, reply buffer shorter than M
    do: lend at least M bytes
"
        }
        6 => {
            "  number 6, the request does not fit the lent output
    do: lend more bytes
"
        }
        7 => "  number 7, request argument out of range, or a command that is not served\n",
        8 => "  number 8, the reply is too short\n",
        9 => "  number 9, the reply's check sum is wrong\n",
        10 => "  number 10, the reply is from another address\n",
        11 => "  number 11, the length byte does not fit the reply\n",
        12 => {
            "  number 12, the status is above 5
    do: ask again; the board may speak another protocol
"
        }
        13 => {
            "  number 13, OK with fewer results than the command has
    do: look at the board's version
"
        }
        14 => {
            "  number 14, version not known
    do: take a master that knows it
"
        }
        15 => "  number 15, the frame is too short, nothing to send\n",
        16 => "  number 16, the frame is too long, nothing to send\n",
        17 => "  number 17, wrong check sum in the frame, nothing to send\n",
        18 => "  number 18, foreign address in the frame, nothing to send\n",
        40 => {
            "  number 40, the application runs; the board is not faulty
    do: reset-running, or reset, brings the bootloader back
"
        }
        _ => "",
    }
}

// A number with its meaning, and what to do about it.
pub fn tell_number(output: &mut Output, n: u32) {
    output.say(number_meaning(n));
}

// A status by its name, and what to do about it.
fn status_meaning(status: u8) -> &'static str {
    match status {
        0 => "OK",
        1 => {
            "COMMAND_FAILED: the board could not do it
    do: ask again"
        }
        2 => {
            "COMMAND_NOT_SUPPORTED: this board has no such command, or no serial
    do: ask for something else"
        }
        3 => {
            "INVALID_TRANSFER: the frame has under 2 or over M bytes
    do: send it whole, or in shorter frames"
        }
        4 => {
            "INVALID_CRC: the check sum is wrong, the board is alive
    do: send the frame again"
        }
        5 => "INVALID_ARGUMENTS: not allowed for this command; nothing was done\n",
        _ => "",
    }
}

// A status with its meaning.
pub fn tell_status(output: &mut Output, status: u8) {
    let meaning = status_meaning(status);
    output.tell(format_args!("  status {status}, {meaning}"));
}

// The reserved addresses of a bus.
fn reserved_addresses(bus: Bus) -> &'static str {
    match bus {
        Bus::I2c => "on I2C no board may have 0 to 7 or 120 to 127\n",
        Bus::Rs485 => "on RS485 no board may have 0 or 248 to 255\n",
    }
}

// The addresses to give to boards. Those of the default range are allowed too, but other boards listen there.
fn tell_choice(output: &mut Output, bus: Bus) {
    output.say(match bus {
        Bus::I2c => "choose 16 to 119",
        Bus::Rs485 => "choose 1 to 7 or 16 to 247",
    });
    output.say("; boards without an address of their own listen to 8 to 15\n");
}

// Why the board refused a set address, and what to do.
fn tell_address_refused(output: &mut Output, bus: Bus) {
    output.say("    wrong: not two argument bytes, or a reserved address: ");
    output.say(reserved_addresses(bus));
    output.say(
        "    the board stays at its address
    do: send address and type; ",
    );
    tell_choice(output, bus);
}

// What INVALID_ARGUMENTS means, and what to do about it, by command.
pub fn tell_refused_arguments(output: &mut Output, bus: Bus, code: usize) {
    match code {
        0x01 => tell_address_refused(output, bus),
        0x06 => output.say(
            "    do: a write goes to 0 or to the next address, and ends within S; one that was taken already is refused\n",
        ),
        0x08 => output.say("    do: ask for bytes within S, and for no more than a reply holds\n"),
        _ => output.say("    do: look at the number of argument bytes and at their limits\n"),
    }
}

// Why no reply comes.
#[derive(Clone, Copy, PartialEq, Eq, Debug)]
enum SilenceReason {
    // The board is alive, and takes no such frame.
    Running,
    TooShort,
    TooLong,
    SumWrong,
    OtherAddress,
    OtherGeneral,
    OtherType,
    // Something was done.
    GeneralCall,
    Start,
    Other,
}

// Why a frame that is answered 1 is ignored; on I2C it is for another board. The reasons of RS485 have numbers of their own.
fn ignored_for(reason: Reason) -> SilenceReason {
    match reason {
        Reason::Running => SilenceReason::Running,
        Reason::OtherGeneral => SilenceReason::OtherGeneral,
        _ => SilenceReason::OtherAddress,
    }
}

// Why a frame is answered 1.
fn why_silent(v: Verdict, code: usize) -> SilenceReason {
    match v {
        Verdict::Reset | Verdict::ResetAddress => SilenceReason::GeneralCall,
        Verdict::Ignored(reason) => ignored_for(reason),
        Verdict::Command if code == 0x01 => SilenceReason::OtherType,
        Verdict::Command if code == 0x05 => SilenceReason::Start,
        Verdict::Command | Verdict::BadTransfer | Verdict::BadSum => SilenceReason::Other,
    }
}

// A silence in words, where nothing was done. What stands between `**` must not be taken for a dead board.
fn silence_meaning(silence: SilenceReason) -> &'static str {
    match silence {
        SilenceReason::Running => "  ** no reply: the application runs, the board is alive **\n",
        SilenceReason::TooShort => {
            "  ** no reply: the frame is shorter than any request, the board is alive **\n"
        }
        SilenceReason::TooLong =>
            "  ** no reply: the frame is longer than M, the board is alive **\n",
        SilenceReason::SumWrong => "  ** no reply: the check sum is wrong, the board is alive **\n",
        SilenceReason::OtherAddress => {
            "  ** no reply: the address is another board's, this board is alive **\n"
        }
        SilenceReason::OtherGeneral => {
            "  ** no reply: all boards take only reset and reset-address, the board is alive **\n"
        }
        SilenceReason::OtherType => {
            "  ** no reply: the hardware type is another board's, this board is alive **\n"
        }
        SilenceReason::GeneralCall | SilenceReason::Start | SilenceReason::Other => "",
    }
}

// A silence after something was done.
fn done_meaning(silence: SilenceReason) -> &'static str {
    match silence {
        SilenceReason::GeneralCall => "  a general call goes to all boards: none replies\n",
        SilenceReason::Start => "  start has no reply\n",
        _ => "  no reply\n",
    }
}

// What to do about it; nothing where something was done.
fn advice(silence: SilenceReason) -> &'static str {
    match silence {
        SilenceReason::Running => "    do: only reset brings the bootloader back\n",
        SilenceReason::TooShort => "    do: send it whole, without a break\n",
        SilenceReason::TooLong => {
            "    do: send shorter frames, with a gap between them; ask for M with: longest\n"
        }
        SilenceReason::SumWrong => {
            "    do: send the frame again; on RS485 a damaged frame is never answered\n"
        }
        SilenceReason::OtherAddress => "    do: see where this board listens, with: state\n",
        SilenceReason::OtherGeneral => "    do: send commands to the board's own address\n",
        SilenceReason::OtherType => "    do: send this board's type, or type 0 for any\n",
        SilenceReason::GeneralCall | SilenceReason::Start | SilenceReason::Other => "",
    }
}

// What a technician looks for on the line after frames that RS485 drops, by their answer.
pub fn look_for(o: Outcome) -> &'static str {
    match o {
        Outcome::FrameTooShort => {
            "a loose cable, or a break within the frame: a gap on the line cuts it in two\n"
        }
        Outcome::FrameTooLong => {
            "frames run into one another without a gap, a wrong bit rate, or frames longer than M\n"
        }
        Outcome::FrameSumWrong => {
            "a bad cable or connector, missing termination, a wrong bit rate, or frames cut or run together\n"
        }
        Outcome::FrameForeign => {
            "a wrong address, or a board that has moved; frames for other boards of the bus are no fault\n"
        }
        _ => "",
    }
}

// Whether a silence must not be missed: the frame was ignored, or was for another hardware type.
fn is_missed(v: Verdict, silence: SilenceReason) -> bool
    ensures { frames.ignored v ≡ true → result ≡ true }
{
    ignored(v) || silence == SilenceReason::OtherType
}

// Why a call answers 1; whether that must not be missed.
fn tell_silence(output: &mut Output, v: Verdict, code: usize) -> bool {
    tell_number(output, 1);
    let silence = why_silent(v, code);
    let missed = is_missed(v, silence);
    if missed {
        output.say(silence_meaning(silence));
        output.say(advice(silence));
    } else {
        output.say(done_meaning(silence));
    }
    missed
}

// Why a frame that RS485 drops gets no reply; nothing for any other answer.
fn dropped(o: Outcome) -> Option<SilenceReason> {
    match o {
        Outcome::FrameTooShort => Some(SilenceReason::TooShort),
        Outcome::FrameTooLong => Some(SilenceReason::TooLong),
        Outcome::FrameSumWrong => Some(SilenceReason::SumWrong),
        Outcome::FrameForeign => Some(SilenceReason::OtherAddress),
        _ => None,
    }
}

// An answer by its number; a frame that RS485 drops is a silence too.
fn tell_numbered(output: &mut Output, o: Outcome) {
    tell_number(output, board_number(o));
    if let Some(silence) = dropped(o) {
        output.say(silence_meaning(silence));
        output.say("    look for: ");
        output.say(look_for(o));
        output.say(advice(silence));
    }
}

// A board call that made no reply; whether that must not be missed.
pub fn tell_answer(output: &mut Output, o: Outcome, v: Verdict, code: usize) -> bool {
    match o {
        Outcome::Nothing => tell_silence(output, v, code),
        _ => {
            tell_numbered(output, o);
            true
        }
    }
}

// An I²C read with nothing to give.
pub fn tell_no_read(output: &mut Output) {
    output.say(
        "  number 1, nothing to send
  ** nothing to read, and that is no dead board **
    it may be: no last reply, another board's address, address 0, a running application, or RS485
    do: send a command on I2C, and read at the board's address
",
    );
}

// A limit that a request breaks: whether it does. Then the text is said.
fn is_over(output: &mut Output, n: usize, most: usize, text: impl Display + Drop) -> bool {
    let over = most < n;
    if over {
        output.tell(text);
    }
    over
}

// A flash address that no board has: whether it is one.
fn is_over_flash(output: &mut Output, address: usize) -> bool {
    let most = LARGEST_FLASH_ADDRESS;
    let text = format_args!("    wrong: flash address {address}: at most {most}\n");
    is_over(output, address, most, text)
}

// A hardware type that no board has: whether it is one.
fn is_over_type(output: &mut Output, hardware: usize) -> bool {
    let most = LARGEST_TYPE;
    let text = format_args!("    wrong: type {hardware}: at most {most}\n");
    is_over(output, hardware, most, text)
}

// A new address that is reserved: whether it is.
fn is_reserved(output: &mut Output, bus: Bus, a: usize) -> bool {
    if !reserved(bus, a) {
        return false;
    }
    output.tell(format_args!("    wrong: address {a} is reserved: "));
    output.say(reserved_addresses(bus));
    if a == 0 {
        output.say("    a board at 0 would hear general calls only\n");
    }
    output.say("    do: ");
    tell_choice(output, bus);
    true
}

// The largest address on a bus.
fn last_address(bus: Bus) -> usize {
    match bus {
        Bus::I2c => 127,
        Bus::Rs485 => 255,
    }
}

// The largest address that a board may have.
fn last_free_address(bus: Bus) -> usize {
    match bus {
        Bus::I2c => 119,
        Bus::Rs485 => 247,
    }
}

// The most data bytes that a write to a board carries, beside the flash address.
pub fn longest_data(bus: Bus, longest: usize) -> usize {
    longest
        .saturating_sub(shortest_request(bus))
        .saturating_sub(2)
}

// The most bytes that one read from a board gives.
pub fn longest_read(bus: Bus, longest: usize) -> usize {
    longest.saturating_sub(shortest_reply(bus))
}

// A new address that no board may have: whether it is one.
fn is_over_address(output: &mut Output, bus: Bus, address: usize) -> bool {
    let most = last_free_address(bus);
    let text = format_args!("    wrong: address {address}: at most {most} here\n");
    is_over(output, address, most, text)
}

// More data bytes than a write carries: whether they are.
fn is_over_data(output: &mut Output, bus: Bus, longest: usize, n: usize) -> bool {
    let most = longest_data(bus, longest);
    let text = format_args!("    wrong: {n} data bytes: at most {most} here\n");
    is_over(output, n, most, text)
}

// More bytes than a read gives: whether they are.
fn is_over_length(output: &mut Output, bus: Bus, longest: usize, length: usize) -> bool {
    let most = longest_read(bus, longest);
    let text = format_args!("    wrong: length {length}: at most {most} here\n");
    is_over(output, length, most, text)
}

// A board's address that the bus does not have: whether it is one.
fn is_over_to(output: &mut Output, bus: Bus, to: usize) -> bool {
    let most = last_address(bus);
    let text = format_args!("    wrong: to {to}: at most {most} here\n");
    is_over(output, to, most, text)
}

// Which argument of a request is out of its range.
fn tell_argument(output: &mut Output, bus: Bus, longest: usize, r: Request, n: usize) -> bool {
    match r {
        Request::SetAddress { address, hardware } => {
            is_reserved(output, bus, address)
                || is_over_address(output, bus, address)
                || is_over_type(output, hardware)
        }
        Request::Write { address } => {
            is_over_flash(output, address) || is_over_data(output, bus, longest, n)
        }
        Request::Read { address, length } => {
            is_over_flash(output, address) || is_over_length(output, bus, longest, length)
        }
        _ => false,
    }
}

// A request that the master did not make: sent to `to`, with n data bytes.
pub fn tell_unmade(
    output: &mut Output,
    e: EncodeError,
    bus: Bus,
    longest: usize,
    r: Request,
    to: usize,
    n: usize,
) {
    tell_number(output, encoded_number(Err(e)));
    if to == 0 {
        output.say("    wrong: address 0 is all boards: a command goes to one of them\n");
    } else if !is_over_to(output, bus, to) {
        tell_argument(output, bus, longest, r, n);
    }
    output.say("  nothing was sent\n");
}

// What to do about a reply that was damaged, by bus and command: the board may have done what it was asked. On I²C it has kept the reply.
fn again(bus: Bus, code: usize) -> &'static str {
    match (bus, code) {
        (Bus::I2c, 0x01) => {
            "    do: read once more at the new address, with i2c-read and that address: \
             the board has kept the reply there, a refusal at the old one\n"
        }
        (Bus::I2c, _) => { "    do: read once more, with i2c-read: the board has kept the reply\n" }
        (Bus::Rs485, 0x01) => {
            "    do: ask for the version at the new address, then at the old one: the board may have moved\n"
        }
        (Bus::Rs485, 0x06) => {
            "    do: begin the upload again at 0: the board may have taken this write, and then refuses it a second time\n"
        }
        (Bus::Rs485, 0x07) => {
            "    do: finalize again: it erases nothing twice, and tells the same count\n"
        }
        (Bus::Rs485, _) => "    do: ask again: that changes nothing\n",
    }
}

// A reply that the master cannot use.
pub fn tell_undecoded(output: &mut Output, r: Decoded, bus: Bus, code: usize) {
    output.say("  the master:\n");
    tell_number(output, decoded_number(r));
    match r {
        Decoded::NotServed => output.say("    do: send a command that the master knows\n"),
        Decoded::TooShort | Decoded::SumWrong | Decoded::OtherAddress | Decoded::LengthWrong => {
            output.say(again(bus, code));
        }
        _ => (),
    }
}
