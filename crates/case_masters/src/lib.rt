// The lines of master calls: E, D, T, V and A.
#![tactic(auto)]

use case_setup::answers::{Hex, Output, UNTOUCHED, untouched};
use case_setup::lines::MasterCall;
use numbers::{
    decoded_number, encoded_length, encoded_number, reset_length, reset_number, version_number,
};
use rules::requests::{Decoded, Version, VersionError, Which};
use text::part::{first, within};

// The line of a call that writes a request of so many bytes: E or A, number request bufferok
fn tell_request(out: &mut Output, letter: char, number: u32, len: usize, lent: &[u8]) {
    let request = Hex(first(lent, len));
    let untouched = untouched(lent, len);
    out.tell(&format_args!("{letter} {number} {request} {untouched}\n"));
}

// The line of a decoder call: D number status start length
fn tell_decoded(out: &mut Output, decoded: Decoded) {
    let number = decoded_number(decoded);
    let (status, start, len) = match decoded {
        Decoded::Reply { status, start, len } => (status, start, len),
        _ => (0, 0, 0),
    };
    out.tell(&format_args!("D {number} {status} {start} {len}\n"));
}

// The line of two reads of one reply: T which results
fn tell_reads(out: &mut Output, which: Which, results: &[u8]) {
    let which = match which {
        Which::First => 1,
        Which::Second => 2,
        Which::Neither => 0,
    };
    let results = Hex(results);
    out.tell(&format_args!("T {which} {results}\n"));
}

// The line of the version rule: V number major minor
fn tell_version(out: &mut Output, answer: Result<Version, VersionError>) {
    let number = version_number(answer);
    let Version { major, minor } = answer.unwrap_or(Version { major: 0, minor: 0 });
    out.tell(&format_args!("V {number} {major} {minor}\n"));
}

// A master call, with the size of the lent output.
pub fn call_master(out: &mut Output, call: MasterCall<'_>, room: usize) {
    let mut made = [UNTOUCHED; 512];
    let room = within(&made, room);
    let lent = &mut made[..room];
    match call {
        MasterCall::Encode {
            bus,
            longest,
            request,
            destination,
            given,
        } => {
            let answer = encoder::encode::encode(bus, longest, request, destination, given, lent);
            tell_request(
                out,
                'E',
                encoded_number(answer),
                encoded_length(answer),
                lent,
            );
        }
        MasterCall::Reset {
            bus,
            longest,
            major,
            minor,
        } => {
            let answer = reset_running::reset_running(bus, longest, major, minor, lent);
            tell_request(out, 'A', reset_number(answer), reset_length(answer), lent);
        }
        MasterCall::Decode {
            bus,
            code,
            address,
            asked,
            reply,
        } => tell_decoded(
            out,
            decoder::decode::decode(bus, code, address, asked, reply),
        ),
        MasterCall::TwoReads {
            code,
            asked,
            first,
            second,
        } => tell_reads(
            out,
            two_reads::which_read(code, asked, first, second),
            two_reads::results(code, asked, first, second),
        ),
        MasterCall::Version { major, minor } => {
            tell_version(out, version_rule::version(major, minor))
        }
    }
}
