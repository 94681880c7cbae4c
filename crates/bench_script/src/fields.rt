// A line's fields, separated by blanks: words, numbers and bytes. What is wrong with one is said here, with its limit.
ghost use Rattle.std.specs.Prelude.{◌≤◌, ◌<◌, length, IfOk, IfSome};

use bench_output::Output;
use std::fmt;
use std::fmt::Display;

// From here on a number is not told from a larger one.
const LARGEST: usize = 1000000;

// Why a line is not done. What is wrong with it was said.
#[derive(Clone, Copy, PartialEq, Eq, Debug)]
pub enum Fault {
    // not what the line needs here
    Wrong,
    // a file that cannot be used
    Unusable,
}

// The first field of a trimmed line, and what follows it.
fn split_field(s: &[u8]) -> (&[u8], &[u8]) {
    let end = s.iter().position(|byte| *byte == b' ').unwrap_or(s.len());
    let (field, rest) = s.split_at(end);
    (field, rest.trim_ascii_start())
}

// The first field of a trimmed line.
pub fn first(s: &[u8]) -> &[u8] {
    let (field, _) = split_field(s);
    field
}

// What follows the first field.
pub fn rest(s: &[u8]) -> &[u8] {
    let (_, rest) = split_field(s);
    rest
}

// Whether a word is this name, in small or capital letters.
pub fn is(word: &[u8], name: &str) -> bool {
    word.eq_ignore_ascii_case(name.as_bytes())
}

// Says what is wrong: the field's name, the word that stands there, and the reason.
pub fn tell_fault(
    output: &mut Output,
    name: &str,
    word: &[u8],
    reason: impl Display + Drop,
) -> Fault {
    output.tell(format_args!("  wrong: {name}"));
    if !word.is_empty() {
        output.say(" ");
        output.say_word(word);
    }
    output.tell(reason);
    Fault::Wrong
}

// Nothing may follow; what does is said.
pub fn end(output: &mut Output, s: &[u8]) -> Result<(), Fault> {
    if s.is_empty() {
        return Ok(());
    }
    Err(tell_fault(output, "the word", first(s), " is one too many\n"))
}

// What follows `0x`, if that stands before something.
fn behind_prefix(s: &[u8]) -> Option<&[u8]> {
    match s {
        [b'0', b'x' | b'X', digits @ ..] if !digits.is_empty() => Some(digits),
        _ => None,
    }
}

// The value of a hexadecimal digit.
fn digit(byte: u8) -> Option<u32>
    ensures { IfSome result (λ d. d < 16) }
{
    char::from(byte).to_digit(16)
}

// A number in base 10 or 16.
fn digits(s: &[u8], base: u32) -> Option<usize> {
    s.iter().try_fold(0, |value: usize, byte| {
        let digit = digit(*byte).filter(|d| *d < base)?;
        let longer = value
            .saturating_mul(base as usize)
            .saturating_add(digit as usize);
        Some(longer.min(LARGEST))
    })
}

// A number: decimal, or hexadecimal behind `0x`.
fn value_of(s: &[u8]) -> Option<usize> {
    match behind_prefix(s) {
        Some(hexadecimal) => digits(hexadecimal, 16),
        None => digits(s, 10),
    }
}

// A number from `least` to `most`, and nothing behind it. From a million on it counts as a million.
pub fn number(
    output: &mut Output,
    name: &str,
    s: &[u8],
    least: usize,
    most: usize,
) -> Result<usize, Fault>
    ensures bounds { IfOk result (λ n. (least ≤ n) × (n ≤ most)) }
{
    end(output, rest(s))?;
    if s.is_empty() {
        return Err(tell_fault(output, name, s, ": the number is missing\n"));
    }
    match value_of(s) {
        None => Err(tell_fault(output, name, s, ": not a number\n")),
        Some(n) if n < least => Err(tell_fault(
            output,
            name,
            s,
            format_args!(": at least {least}\n"),
        )),
        Some(n) if most < n => Err(tell_fault(
            output,
            name,
            s,
            format_args!(": at most {most} here\n"),
        )),
        Some(n) => Ok(n),
    }
}

// Why characters are no byte.
#[derive(Clone, Copy, PartialEq, Eq, Debug)]
enum PairError {
    // one digit alone
    Half,
    NoDigits,
}

impl Display for PairError {
    fn fmt<W: fmt::Write>(&self, f: &mut fmt::Formatter<W>) -> fmt::Result {
        f.write_str(match self {
            PairError::Half => ": an odd number of hexadecimal digits\n",
            PairError::NoDigits => ": not hexadecimal digits\n",
        })
    }
}

// Two hexadecimal digits as a byte.
fn byte_of(pair: &[u8]) -> Result<u8, PairError> {
    match pair {
        [high, low] => match (digit(*high), digit(*low)) {
            (Some(high), Some(low)) => Ok((high * 16 + low) as u8),
            _ => Err(PairError::NoDigits),
        },
        [half] if digit(*half).is_some() => Err(PairError::Half),
        _ => Err(PairError::NoDigits),
    }
}

// Bytes as pairs of digits, with blanks between them or not. How many there are; they stand at the start of the output.
fn pairs(output: &mut Output, name: &str, s: &[u8], out: &mut [u8]) -> Result<usize, Fault>
    ensures { IfOk result (λ n. n ≤ length out.old) }
{
    let mut n = 0;
    for word in s.split(|byte| *byte == b' ') {
        for pair in word.chunks(2) {
            let byte = match byte_of(pair) {
                Ok(byte) => byte,
                Err(e) => return Err(tell_fault(output, name, s, e)),
            };
            if out.len() <= n {
                return Err(tell_fault(output, name, s, format_args!(": at most {n} bytes here\n")));
            }
            out[n] = byte;
            n += 1;
        }
    }
    Ok(n)
}

// The same, perhaps behind `0x`.
pub fn hex(output: &mut Output, name: &str, s: &[u8], out: &mut [u8]) -> Result<usize, Fault>
    ensures { IfOk result (λ n. n ≤ length out.old) }
{
    pairs(output, name, behind_prefix(s).unwrap_or(s), out)
}

// One byte as a pair of digits, and nothing behind it.
pub fn hex_byte(output: &mut Output, name: &str, s: &[u8]) -> Result<u8, Fault> {
    end(output, rest(s))?;
    let pair = behind_prefix(s).unwrap_or(s);
    if pair.len() != 2 {
        return Err(tell_fault(output, name, s, ": a byte is two hexadecimal digits\n"));
    }
    byte_of(pair).map_err(|e| tell_fault(output, name, s, e))
}
