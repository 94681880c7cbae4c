// The reply decoder.
ghost use Rattle.std.specs.Prelude.{◌≡◌, ◌+◌, ◌≤◌, length};
ghost use Rattle.rules.specs.Frames.{shortest_reply};
ghost use Rattle.rules.specs.Master.{decoded, opened, count_of};
ghost use Rattle.decoder.specs.Calls.{Decodes};

use reply_tests::{from_other, length_right, results_missing};
use rules::kinds::Bus;
use rules::requests::Decoded;

// A reply of n results whose length byte fits it: its check sum, address, status and results.
fn open_reply(
    bus: Bus,
    code: usize,
    address: usize,
    asked: usize,
    n: usize,
    reply: &[u8],
) -> Decoded
    requires { (n ≡ count_of bus reply.now) × (n + shortest_reply bus ≤ length reply.now) }
    ensures { Decodes result (opened bus code address asked reply.now) reply.now }
{
    let end = n + frame_sizes::shortest_reply(bus);
    if !crc::sum_right(bus, &reply[..end]) {
        return Decoded::SumWrong;
    }
    if from_other(bus, address, reply) {
        return Decoded::OtherAddress;
    }
    let status = frame::reply::status(bus, reply);
    if 5 < status {
        return Decoded::StatusUnknown;
    }
    if results_missing(code, asked, status, n) {
        return Decoded::ResultsMissing;
    }
    Decoded::Reply {
        status,
        start: frame::reply::results_start(bus),
        len: n,
    }
}

// Decodes the reply to a command that was sent to an address, for read with the length asked.
pub fn decode(bus: Bus, code: usize, address: usize, asked: usize, reply: &[u8]) -> Decoded
    ensures { Decodes result (decoded bus code address asked reply.now) reply.now }
{
    if !arguments::served(code) {
        return Decoded::NotServed;
    }
    if reply.len() < frame_sizes::shortest_reply(bus) {
        return Decoded::TooShort;
    }
    let n = frame::reply::count(bus, reply);
    if !length_right(bus, n, reply.len()) {
        return Decoded::LengthWrong;
    }
    open_reply(bus, code, address, asked, n, reply)
}
