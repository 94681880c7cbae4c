// Both check sums of each byte string on standard input, for comparison with other programs (tests/sums).
// Input: records of a length, two bytes, high byte first, and so many bytes; at most 400,000 bytes in all.
// Output: a line for each record, CRC-8 and CRC-16 in hexadecimal. A record that is cut ends the output.
#![tactic(auto)]

ghost use Rattle.std.specs.Prelude.{◌<◌, length, IfSome};

use std::alloc::Global;
use std::io;
use std::io::{BufWriter, Read, Write};

// The line of one byte string.
fn write_sums(out: &mut impl Write, bytes: &[u8]) -> io::Result<()> {
    writeln!(out, "{:02x} {:04x}", crc::crc8(bytes), crc::crc16(bytes))
}

// The bytes of the first record, and what follows it, if it is whole.
fn first_record(input: &[u8]) -> Option<(&[u8], &[u8])>
    ensures { IfSome result (λ r. length r.1.now < length input.now) }
{
    let (len, rest) = input.split_first_chunk::<2>()?;
    rest.split_at_checked(usize::from(u16::from_be_bytes(*len)))
}

// The lines of all whole records.
fn write_all_sums(out: &mut impl Write, mut input: &[u8]) -> io::Result<()> {
    while let Some((bytes, rest)) = first_record(input) {
        write_sums(out, bytes)?;
        input = rest;
    }
    Ok(())
}

// Reads at most 400,000 bytes, and writes the lines, also of what came before a read that failed.
fn run(alloc: Global, reader: impl Read + Drop, out: &mut impl Write) -> io::Result<()> {
    let mut input = Vec::new(alloc);
    let read = reader.take(400000).read_to_end(&mut input);
    write_all_sums(out, &input)?;
    read?;
    Ok(())
}

fn main(rt: HostRuntime) -> io::Result<()> {
    let mut out = BufWriter::new(rt.alloc(), rt.stdout())?;
    run(rt.alloc(), rt.stdin(), &mut out)?;
    out.flush()
}
