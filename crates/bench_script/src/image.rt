// Bytes that a line gives: one byte many times, a file, or digits. They are put at the start of a lent buffer.
ghost use Rattle.std.specs.Prelude.{◌≤◌, length, IfOk};

use crate::fields::{Fault, end, first, hex, hex_byte, is, number, rest, tell_fault};
use bench_output::Output;
use std::fmt::Display;
use std::fs::Files;
use std::io::ErrorKind;
use std::{fs, io};

// `BYTE COUNT`
fn fill_data(output: &mut Output, s: &[u8], out: &mut [u8]) -> Result<usize, Fault>
    ensures { IfOk result (λ n. n ≤ length out.old) }
{
    let byte = hex_byte(output, "fill", first(s))?;
    let count = number(output, "count", first(rest(s)), 0, 65535)?;
    let n = count.min(out.len());
    out[..n].fill(byte);
    Ok(n)
}

// Says why a file cannot be used.
fn unusable(output: &mut Output, name: &[u8], reason: impl Display + Drop) -> Fault {
    tell_fault(output, "the file", name, reason);
    Fault::Unusable
}

// The name of a file as text. One that is no text names no file.
pub fn path_text(name: &[u8]) -> io::Result<&str> {
    str::from_utf8(name).map_err(|_| io::Error::from(ErrorKind::InvalidFilename))
}

// A file by its name.
pub fn opened<F: Files>(files: &F, name: &[u8]) -> io::Result<F::File> {
    fs::open(files, path_text(name)?)
}

// Why a file was not opened.
fn unopened(error: ErrorKind) -> &'static str {
    match error {
        ErrorKind::NotFound => " is not there\n",
        ErrorKind::PermissionDenied => " may not be read\n",
        _ => " cannot be opened\n",
    }
}

// Reads until the buffer is full or the file ends: how many bytes. std's read_exact does not say how many came before the end.
fn read_full(file: &mut impl io::Read, out: &mut [u8]) -> io::Result<usize>
    ensures { IfOk result (λ n. n ≤ length out.old) }
{
    let mut n = 0;
    while n < out.len() {
        let got = file.read(&mut out[n..])?;
        if got == 0 {
            return Ok(n);
        }
        n += got;
    }
    Ok(n)
}

// Whether a text begins as a record of Intel HEX does: a colon, then eight digits at least.
fn is_intel_hex(s: &[u8]) -> bool {
    match s.get(..9) {
        Some([b':', digits @ ..]) => digits.iter().all(|byte| byte.is_ascii_hexdigit()),
        _ => false,
    }
}

// A file of text that is given for one of bytes.
fn tell_text_file(output: &mut Output, name: &[u8]) {
    output.say("  ** the file ");
    output.say_word(name);
    output.say(
        " looks like Intel HEX: its characters are taken as bytes **
    do: make a binary file of it first, as with: objcopy -I ihex -O binary NAME.hex NAME.bin
",
    );
}

// What the reads of a file gave: an empty file, a failure, as of a folder, a full buffer, or all its bytes.
fn whole_file(
    output: &mut Output,
    name: &[u8],
    out: &[u8],
    got: io::Result<usize>,
) -> Result<usize, Fault>
    ensures { IfOk result (λ n. n ≤ length out.now) }
{
    match got {
        Err(_) => Err(unusable(output, name, " is a folder, or cannot be read\n")),
        Ok(0) => Err(unusable(output, name, " is empty\n")),
        Ok(n) if n < out.len() => {
            if is_intel_hex(&out[..n]) {
                tell_text_file(output, name);
            }
            Ok(n)
        }
        Ok(n) => {
            let most = n - 1;
            Err(unusable(
                output,
                name,
                format_args!(" is too long: at most {most} bytes fit\n"),
            ))
        }
    }
}

// A whole file, if it has bytes and fewer than the buffer.
pub fn file(
    output: &mut Output,
    files: &impl Files,
    name: &[u8],
    out: &mut [u8],
) -> Result<usize, Fault>
    ensures { IfOk result (λ n. n ≤ length out.old) }
{
    if name.is_empty() {
        return Err(tell_fault(output, "file", name, ": the name is missing\n"));
    }
    end(output, rest(name))?;
    match opened(files, name) {
        Ok(mut from) => {
            let got = read_full(&mut from, out);
            whole_file(output, name, out, got)
        }
        Err(e) => Err(unusable(output, name, unopened(e.kind()))),
    }
}

// How a line gives bytes: `fill BYTE COUNT`, `file NAME`, or digits.
#[derive(Clone, Copy, PartialEq, Eq, Debug)]
pub enum DataKind {
    Fill,
    File,
    Digits,
}

pub fn data_kind(word: &[u8]) -> DataKind {
    if is(word, "fill") {
        DataKind::Fill
    } else if is(word, "file") {
        DataKind::File
    } else {
        DataKind::Digits
    }
}

// The bytes that a line gives: how many.
pub fn data(
    output: &mut Output,
    files: &impl Files,
    s: &[u8],
    out: &mut [u8],
) -> Result<usize, Fault>
    ensures { IfOk result (λ n. n ≤ length out.old) }
{
    let word = first(s);
    match data_kind(word) {
        DataKind::Fill => fill_data(output, rest(s), out),
        DataKind::File => file(output, files, first(rest(s)), out),
        DataKind::Digits if word.is_empty() => Err(tell_fault(
            output,
            "bytes",
            word,
            ": none are given\n",
        )),
        DataKind::Digits => hex(output, "bytes", word, out),
    }
}

// What follows such bytes on the line.
pub fn after_data(s: &[u8]) -> &[u8] {
    match data_kind(first(s)) {
        DataKind::Fill => rest(rest(rest(s))),
        DataKind::File => rest(rest(s)),
        DataKind::Digits => rest(s),
    }
}
