// The exports of `childbus_replies` for C: its functions under their own names, with the clauses that they have there, stated again.
#![tactic(auto)]

ghost use Rattle.std.specs.Prelude.{◌≡◌};
ghost use Rattle.rules.specs.Master.{Decoding, Ruled, version_rule};
ghost use Rattle.childbus_replies.specs.ReplyBytes.{decoded_left, ReadsLeft, reads_left};

// A reply taken apart.
#[unsafe(no_mangle)]
pub extern "C" fn childbus_decode(
    bus: u32,
    code: u32,
    address: u32,
    asked: u32,
    reply: &[u8],
    status: &mut u32,
    start: &mut usize,
    len: &mut usize,
) -> u32
    ensures { ◌≡◌ {A = Decoding} (record { number = result; status = status.new; start = start.new; len = len.new })
        (decoded_left bus code address asked reply.now) }
{
    childbus_replies::childbus_decode(bus, code, address, asked, reply, status, start, len)
}

// One reply on I²C, read twice.
#[unsafe(no_mangle)]
pub extern "C" fn childbus_two_reads(
    code: u32,
    asked: u32,
    first: &[u8],
    second: &[u8],
    start: &mut usize,
    len: &mut usize,
) -> u32
    ensures { ◌≡◌ {A = ReadsLeft} (record { which = result; start = start.new; len = len.new })
        (reads_left code asked first.now second.now) }
{
    childbus_replies::childbus_two_reads(code, asked, first, second, start, len)
}

// The version rule.
#[unsafe(no_mangle)]
pub extern "C" fn childbus_version(
    major: u32,
    minor: u32,
    known_major: &mut u32,
    known_minor: &mut u32,
) -> u32
    ensures { ◌≡◌ {A = Ruled} (record { number = result; major = known_major.new; minor = known_minor.new })
        (version_rule major minor) }
{
    childbus_replies::childbus_version(major, minor, known_major, known_minor)
}
