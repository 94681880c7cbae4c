// What the bench writes: words, numbers and bytes, to standard output.
#![tactic(auto)]

use std::fmt::Display;
use std::io;
use std::io::Stdout;

// A longer word is cut here.
const WORD_SHOWN: usize = 40;

// Standard output, and the first read or write that failed: after it the script is read no further, and `main` ends with it.
#[derive(Drop)]
pub struct Output {
    to: Stdout,
    failed: io::Result<()>,
}

impl Output {
    pub fn new(to: Stdout) -> Self {
        Output { to, failed: Ok(()) }
    }

    // A failure is remembered if it is the first.
    pub fn note(&mut self, done: io::Result<()>) {
        if self.failed.is_ok() {
            self.failed = done;
        }
    }

    // Whether no read and no write failed.
    pub fn is_fine(&self) -> bool {
        self.failed.is_ok()
    }

    // The first failure, if there was one.
    pub fn finish(self) -> io::Result<()> {
        self.failed
    }

    // Says a text.
    pub fn say(&mut self, text: &str) {
        self.say_raw(text.as_bytes());
    }

    // Says a value, or a text with values in it, as `output.tell(format_args!("page {page}\n"))`.
    pub fn tell(&mut self, value: impl Display + Drop) {
        let done = self.to.print(value);
        self.note(done);
    }

    // Says bytes as they are.
    pub fn say_raw(&mut self, bytes: &[u8]) {
        let done = self.to.write_all(bytes);
        self.note(done);
    }

    // Says how many things there are: `1 page`, `2 pages`.
    pub fn say_count(&mut self, n: usize, thing: &str) {
        let plural = if n == 1 { "" } else { "s" };
        self.tell(format_args!("{n} {thing}{plural}"));
    }

    // Says a word; of a long one its beginning.
    pub fn say_word(&mut self, word: &[u8]) {
        let (beginning, rest) = word.split_at(word.len().min(WORD_SHOWN));
        self.say_raw(beginning);
        if !rest.is_empty() {
            self.say("..");
        }
    }

    // Says bytes in two hexadecimal digits each, sixteen to a line.
    pub fn say_bytes(&mut self, bytes: &[u8]) {
        for (i, byte) in bytes.iter().enumerate() {
            let gap = gap_before(i);
            self.tell(format_args!("{gap}{byte:02x}"));
        }
    }
}

// What stands before byte i: nothing, a blank, or a new line.
fn gap_before(i: usize) -> &'static str {
    match i {
        0 => "",
        _ if i % 16 == 0 => "\n      ",
        _ => " ",
    }
}
