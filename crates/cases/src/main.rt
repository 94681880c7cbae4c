// Answers the calls of a case file with the library: tests/second/FORMAT.md says what the lines mean and what is written for each call.
// The file is read from standard input, the answers go to standard output. A bad line changes nothing and is told on standard error by its
// number. A line has at most 65,535 bytes; a longer one ends the run.
#![tactic(auto)]

mod boards;

use case_masters::call_master;
use case_setup::answers::Output;
use case_setup::lines::{BoardCall, Flash, Letter, Line, Strings, read_line};
use case_setup::setup::Setup;
use state::State;
use std::alloc::Global;
use std::io::{BufReader, Eprint, Read as _, Stderr, Stdin};
use std::{fmt, io};
use text::part::within;
use text::read::Fields;

// What is wrong with a line.
#[derive(Clone, Copy)]
enum Fault {
    // no letter that begins a line
    Unknown,
    // its fields are not those of its letter
    Wrong,
    // no profile or no flash before it
    Early,
    // the line after it does not fit the input
    Long,
}

impl fmt::Display for Fault {
    fn fmt<W: fmt::Write>(&self, f: &mut fmt::Formatter<W>) -> fmt::Result {
        f.write_str(match self {
            Fault::Unknown => "no letter that begins a line",
            Fault::Wrong => "its fields are not those of its letter",
            Fault::Early => "no profile or no flash line before this call",
            Fault::Long => "the next is too long, and the end of this run",
        })
    }
}

// The case file, and how it ended, once it has. A read that fails counts as its end, and the failure is kept until the end of the run.
#[derive(Drop)]
struct Input {
    reader: BufReader<Stdin>,
    end: Option<io::Result<()>>,
}

impl Input {
    fn new(alloc: Global, stdin: Stdin) -> io::Result<Self> {
        Ok(Self {
            reader: BufReader::new(alloc, stdin)?,
            end: None,
        })
    }

    // The next byte, unless the file is at its end.
    fn next_byte(&mut self) -> Option<u8> {
        if self.end.is_some() {
            return None;
        }
        let mut one = [0u8; 1];
        match self.reader.read(&mut one) {
            Ok(0) => self.end = Some(Ok(())),
            Ok(_) => return Some(one[0]),
            Err(e) => self.end = Some(Err(e)),
        }
        None
    }

    // The next line without its end; None at the end of the file. One that fills the lent bytes is too long.
    fn next_line<'a>(&mut self, room: &'a mut [u8]) -> Result<Option<&'a [u8]>, Fault> {
        for len in 0..room.len() {
            match self.next_byte() {
                Some(b'\n') => return Ok(Some(&room[..len])),
                Some(byte) => room[len] = byte,
                None if len == 0 => return Ok(None),
                None => return Ok(Some(&room[..len])),
            }
        }
        Err(Fault::Long)
    }
}

// What the lines work on: the answers, what was set, and the lent flash.
#[derive(Drop)]
struct Desk<'a> {
    output: Output,
    setup: Setup,
    flash: &'a mut [u8],
}

impl Desk<'_> {
    // The flash of a line.
    fn fill(&mut self, flash: Flash) {
        let mut next = flash.start;
        for place in self.flash.iter_mut().take(flash.len) {
            *place = next;
            next = next.wrapping_add(flash.step);
        }
        self.setup.flash = Some(flash.len);
    }

    // A good line.
    fn act(&mut self, line: Line<'_>) -> Result<(), Fault> {
        match line {
            Line::Profile(profile) => self.setup.profile = Some(profile),
            Line::Flash(flash) => self.fill(flash),
            Line::Fresh => self.setup.state = State::fresh(),
            Line::State(state) => self.setup.state = state,
            Line::Tally(tally) => self.setup.tally = tally,
            Line::Room(room) => self.setup.room = room,
            Line::Board(call) => return self.call_board(call),
            Line::Master(call) => call_master(&mut self.output, call, self.setup.room),
        }
        Ok(())
    }

    // A call of the board, once there is one.
    fn call_board(&mut self, call: BoardCall<'_>) -> Result<(), Fault> {
        let (profile, len) = self.setup.board().ok_or(Fault::Early)?;
        let len = within(self.flash, len);
        let flash = &mut *self.flash;
        boards::call_board(
            &mut self.output,
            call,
            &mut self.setup,
            profile,
            &mut flash[..len],
        );
        Ok(())
    }

    // Any line. An empty one, and one that begins with `#`, says nothing.
    fn one_line(&mut self, line: &[u8], strings: Strings<'_>) -> Result<(), Fault> {
        if line.first().is_none_or(|b| *b == b'#') {
            return Ok(());
        }
        let mut fields = Fields::new(line);
        let Some([letter]) = fields.next_field() else {
            return Err(Fault::Unknown);
        };
        let Ok(letter) = Letter::try_from(*letter) else {
            return Err(Fault::Unknown);
        };
        if letter.needs_board() && self.setup.board().is_none() {
            return Err(Fault::Early);
        }
        let line = read_line(letter, fields, strings).ok_or(Fault::Wrong)?;
        self.act(line)
    }
}

// Says which line is bad, and why. The answers stand without it, so a failure here is let go.
fn tell(errors: Stderr, line: u64, fault: Fault) {
    let _ = eprintln!(errors; "line {line}: {fault}");
}

// All lines. Nothing says that the input ends, so they are counted up to a number that no file reaches.
fn run(input: &mut Input, desk: &mut Desk<'_>, errors: Stderr) {
    let mut room = [0u8; 65536];
    let mut first = [0u8; 600];
    let mut second = [0u8; 600];
    for number in 0..u64::MAX {
        let line = match input.next_line(&mut room) {
            Ok(Some(line)) => line,
            Ok(None) => return,
            Err(fault) => {
                tell(errors, number, fault);
                return;
            }
        };
        let strings = Strings {
            first: &mut first,
            second: &mut second,
        };
        if let Err(fault) = desk.one_line(line, strings) {
            tell(errors, number + 1, fault);
        }
    }
}

fn main(rt: HostRuntime) -> io::Result<()> {
    let mut input = Input::new(rt.alloc(), rt.stdin())?;
    let mut flash = [0u8; 131072];
    let mut desk = Desk {
        output: Output::new(rt.alloc(), rt.stdout())?,
        setup: Setup::start(),
        flash: &mut flash,
    };
    run(&mut input, &mut desk, rt.stderr());
    desk.output.finish()?;
    input.end.unwrap_or(Ok(()))
}
