// The C boundary of a master, its replies: what include/childbus.h declares for them, over byte slices and numbers. A slice is a pointer
// and a length to C, a `&mut` number the place of a single result. No call has a `requires`: any bytes of any length get the answer that
// specs/ fixes.
#![tactic(auto)]

ghost use Rattle.std.specs.Prelude.{◌≡◌};
ghost use Rattle.rules.specs.Master.{Decoding, Ruled, version_rule, decoded_read};
ghost use Rattle.childbus_replies.specs.ReplyBytes.{decoded_left, results_at, ReadsLeft, reads_left, ReadsAgree};

use fields::clip;
use numbers::{decoded_number, version_number};
use rules::kinds::Bus;
use rules::requests::Decoded;

// A reply taken apart.
pub fn childbus_decode(
    bus: u32,
    code: u32,
    address: u32,
    asked: u32,
    reply: &[u8],
    status: &mut u32,
    start: &mut usize,
    len: &mut usize,
) -> u32
    ensures { ◌≡◌ {A = Decoding} (record { number = result; status = status.new; start = start.new; len = len.new })
        (decoded_left bus code address asked reply.now) }
{
    *status = 0;
    *start = 0;
    *len = 0;
    let Ok(bus) = Bus::try_from(bus) else {
        return decoded_number(Decoded::NotServed);
    };
    let answer = decoder::decode::decode(
        bus,
        code as usize,
        address as usize,
        asked as usize,
        reply,
    );
    let Decoded::Reply {
        status: status_byte,
        start: place,
        len: long,
    } = answer
    else {
        return decoded_number(answer);
    };
    *status = u32::from(status_byte);
    *start = place;
    *len = long;
    0
}

// Where the results of a read lie on I²C, from a place on and how many, if it decodes.
fn results_at(code: usize, asked: usize, reply: &[u8]) -> Option<(usize, usize)>
    ensures { result ≡ results_at (decoded_read code asked reply.now) }
{
    match decoder::decode::decode(Bus::I2c, code, 0, asked, reply) {
        Decoded::Reply { start, len, .. } => Some((start, len)),
        _ => None,
    }
}

// One reply on I²C, read twice.
pub fn childbus_two_reads(
    code: u32,
    asked: u32,
    first: &[u8],
    second: &[u8],
    start: &mut usize,
    len: &mut usize,
) -> u32
    ensures { ◌≡◌ {A = ReadsLeft} (record { which = result; start = start.new; len = len.new })
        (reads_left code asked first.now second.now) }
{
    let code = code as usize;
    let asked = asked as usize;
    if let Some((from, count)) = results_at(code, asked, first) {
        *start = from;
        *len = count;
        return 1;
    }
    if let Some((again, rest)) = results_at(code, asked, second) {
        *start = again;
        *len = rest;
        return 2;
    }
    *start = 0;
    *len = 0;
    0
}

// These are the result bytes of the rules.
pub fn two_reads_agree()
    ensures { ReadsAgree }
{}

// The version rule.
pub fn childbus_version(major: u32, minor: u32, known_major: &mut u32, known_minor: &mut u32) -> u32
    ensures { ◌≡◌ {A = Ruled} (record { number = result; major = known_major.new; minor = known_minor.new })
        (version_rule major minor) }
{
    let answer = version_rule::version(clip(major), clip(minor));
    let Ok(known) = answer else {
        *known_major = 0;
        *known_minor = 0;
        return version_number(answer);
    };
    *known_major = u32::from(known.major);
    *known_minor = u32::from(known.minor);
    0
}
