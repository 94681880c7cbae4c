// The master's side of a reply: decoded, and said in words.
use crate::meaning;
use bench_output::Output;
use numbers::version_number;
use rules::kinds::Bus;
use rules::requests::{Decoded, Version, VersionError};

// What the master sent: its bus, the command, the length that a read asks for, where to, and whether all of it is said.
#[derive(Clone, Copy, PartialEq, Eq, Debug)]
pub struct Asked {
    pub bus: Bus,
    pub code: usize,
    pub length: usize,
    pub address: u8,
    pub verbose: bool,
}

// What the master got: the status; where the results lie in the reply; the erase count of a finalize, or S of a hardware info.
#[derive(Clone, Copy, PartialEq, Eq, Debug)]
pub struct RequestResult {
    pub status: u8,
    pub start: usize,
    pub len: usize,
    pub value: usize,
}

// The byte at a place; 0 where there is none.
fn one(s: &[u8], at: usize) -> u8 {
    s.get(at).copied().unwrap_or(0)
}

// The number of two bytes, the high one first.
fn two_byte_number(high: u8, low: u8) -> u16 {
    u16::from_be_bytes([high, low])
}

// Says what a version counts as.
fn tell_known(output: &mut Output, version: Result<Version, VersionError>) {
    match version {
        Ok(Version { major, minor }) => {
            output.tell(format_args!(", which counts as {major}.{minor}\n"));
        }
        Err(_) => {
            output.say("\n");
            meaning::tell_number(output, version_number(version));
        }
    }
}

fn tell_version(output: &mut Output, major: u8, minor: u8) {
    output.tell(format_args!(": version {major}.{minor}"));
    tell_known(output, version_rule::version(major, minor));
}

fn tell_info(output: &mut Output, s: &[u8]) {
    let hardware = one(s, 0);
    let revision = one(s, 1);
    let bootloader = one(s, 2);
    let flash = two_byte_number(one(s, 3), one(s, 4));
    output.tell(format_args!(
        ": type {hardware}, compatible revision {revision}, bootloader version {bootloader}, working flash {flash} bytes\n"
    ));
}

fn tell_bytes(output: &mut Output, s: &[u8]) {
    if !s.is_empty() {
        output.say(": ");
        output.say_bytes(s);
    }
    output.say("\n");
}

// The results of an OK.
fn tell_results(output: &mut Output, code: usize, s: &[u8]) {
    let byte = one(s, 0);
    let n = two_byte_number(byte, one(s, 1));
    match code {
        0x00 => tell_version(output, byte, one(s, 1)),
        0x03 => tell_info(output, s),
        0x07 => output.tell(format_args!(": erase count {n}\n")),
        0x09 => output.tell(format_args!(": actual revision {byte}\n")),
        0x0c => output.tell(format_args!(": longest frame M {n}\n")),
        _ => tell_bytes(output, s),
    }
}

// A decoded reply: status and results.
fn tell_reply(output: &mut Output, bus: Bus, code: usize, status: u8, results: &[u8]) {
    meaning::tell_status(output, status);
    match status {
        0 => tell_results(output, code, results),
        5 => meaning::tell_refused_arguments(output, bus, code),
        _ => output.say("\n"),
    }
}

// The number in the results of a finalize, or of a hardware info.
fn value(code: usize, s: &[u8]) -> u16 {
    match code {
        0x03 => two_byte_number(one(s, 3), one(s, 4)),
        _ => two_byte_number(one(s, 0), one(s, 1)),
    }
}

// The results, a part of the reply; none where it has not so many bytes.
pub fn part(reply: &[u8], start: usize, len: usize) -> &[u8] {
    reply
        .get(start..)
        .and_then(|rest| rest.get(..len))
        .unwrap_or(&[])
}

// A command that the decoder serves. The reply to another one is decoded as that to start, which needs no result bytes.
fn known(output: &mut Output, bus: Bus, code: usize) -> usize {
    if arguments::served(code) {
        return code;
    }
    meaning::tell_undecoded(output, Decoded::NotServed, bus, code);
    0x05
}

// Decodes the reply to a command, and says what it means. No result where the master cannot use it.
pub fn decode_reply(output: &mut Output, asked: Asked, reply: &[u8]) -> Option<RequestResult> {
    let bus = asked.bus;
    let code = known(output, bus, asked.code);
    let decoded = decoder::decode::decode(
        bus,
        code,
        usize::from(asked.address),
        asked.length,
        reply,
    );
    let Decoded::Reply { status, start, len } = decoded else {
        meaning::tell_undecoded(output, decoded, bus, code);
        return None;
    };
    let results = part(reply, start, len);
    if asked.verbose || status != 0 {
        tell_reply(output, bus, code, status, results);
    }
    Some(RequestResult {
        status,
        start,
        len,
        value: usize::from(value(code, results)),
    })
}
