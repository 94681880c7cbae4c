// Answers on standard output, their byte strings, and whether an output is untouched.
use std::alloc::Global;
use std::io::{LineWriter, Stdout, Write};
use std::{fmt, io};

// What the lent output holds before a call.
pub const UNTOUCHED: u8 = 0xA5;

// Standard output, a line at a time. The first failure is kept until the end, and nothing is written after it.
#[derive(Drop)]
pub struct Output {
    writer: LineWriter<Stdout>,
    written: io::Result<()>,
}

impl Output {
    pub fn new(alloc: Global, stdout: Stdout) -> io::Result<Self> {
        Ok(Self {
            writer: LineWriter::new(alloc, stdout)?,
            written: Ok(()),
        })
    }

    // Writes what is left, and says whether all was written.
    pub fn finish(self) -> io::Result<()> {
        let Self {
            mut writer,
            written,
        } = self;
        written?;
        writer.flush()
    }

    // Any part of a line.
    pub fn tell(&mut self, text: &impl fmt::Display) {
        if self.written.is_ok() {
            self.written = write!(self.writer, "{text}");
        }
    }
}

// A byte string: pairs of hexadecimal digits, `-` for no bytes.
#[derive(Clone, Copy)]
pub struct Hex<'a>(pub &'a [u8]);

impl fmt::Display for Hex<'_> {
    fn fmt<W: fmt::Write>(&self, f: &mut fmt::Formatter<W>) -> fmt::Result {
        if self.0.is_empty() {
            return f.write_str("-");
        }
        for byte in self.0 {
            write!(f, "{byte:02x}")?;
        }
        Ok(())
    }
}

// bufferok: 1 if the output from a place on is as it was before the call.
pub fn untouched(out: &[u8], at: usize) -> u8 {
    let rest = out.get(at..);
    u8::from(rest.is_some_and(|rest| rest.iter().all(|byte| *byte == UNTOUCHED)))
}
