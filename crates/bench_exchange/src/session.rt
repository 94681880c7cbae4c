// The bench at work: what it writes to, what it remembers, and the bytes that it lends.
use crate::bench::{Bench, one_more};
use bench_memory::memory::Memory;
use bench_output::Output;
use bench_script::fields::Fault;
use profile::Profile;
use state::State;
use std::alloc::{AllocError, Global};
use std::fs::Files;
use std::io;

#[derive(Drop)]
pub struct Session {
    pub output: Output,
    pub bench: Bench,
    pub memory: Memory,
}

impl Session {
    // A new bench.
    pub fn new(alloc: Global, output: Output) -> Result<Self, AllocError> {
        Ok(Session {
            output,
            bench: Bench::new(),
            memory: Memory::new(alloc)?,
        })
    }

    // The first read or write that failed, if there was one.
    pub fn finish(self) -> io::Result<()> {
        self.output.finish()
    }

    // A line that cannot be run; what is wrong with it is said.
    fn note_wrong(&mut self) {
        self.bench.wrong = one_more(self.bench.wrong);
    }

    // A line that was not understood: it says what was expected, and changes nothing else.
    pub fn refuse(&mut self, expected: &str) {
        let line = self.bench.lines;
        self.output.tell(format_args!(
            "  line {line} is not understood and changes nothing\n    expected: {expected}\n"
        ));
        self.note_wrong();
    }

    // A line that cannot be done, since a file cannot be used.
    fn leave_undone(&mut self) {
        let line = self.bench.lines;
        self.output.tell(format_args!("  line {line} is not done and changes nothing\n"));
        self.note_wrong();
    }

    // A line with a fault in it.
    pub fn refuse_for(&mut self, fault: Fault, expected: &str) {
        match fault {
            Fault::Unusable => self.leave_undone(),
            Fault::Wrong => self.refuse(expected),
        }
    }

    // The bytes that a line gives, put into the image: how many.
    pub fn load_data(&mut self, files: &impl Files, s: &[u8]) -> Result<usize, Fault> {
        self.memory.load_data(&mut self.output, files, s)
    }

    // The bytes of a file, put into the image: how many.
    pub fn load_file(&mut self, files: &impl Files, name: &[u8]) -> Result<usize, Fault> {
        self.memory.load_file(&mut self.output, files, name)
    }

    // The board is exchanged for a fresh one: how many waiting bytes are lost.
    pub fn exchange_board(&mut self, p: Profile) -> usize {
        let lost = lost_bytes::lost(
            self.bench.profile.offset,
            self.bench.state.upload,
            State::fresh().upload,
            self.memory.flash(),
        );
        self.bench.set_board(p);
        self.bench.note_loss(lost);
        self.memory.restart_map();
        lost
    }
}
