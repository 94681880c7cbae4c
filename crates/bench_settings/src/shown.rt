// Lines that show: `state`, `map`, `help`; and what is said when the script ends.
use bench_alarms::alarm::tell_left_waiting;
use bench_exchange::bench::Bench;
use bench_exchange::session::Session;
use bench_memory::memory::{Memory, PAGES};
use bench_memory::pages::page_size;
use bench_output::Output;
use bench_script::fields::end;
use bench_words::ShowWord;
use profile::Profile;
use rules::kinds::{Address, Bus};

// So many marks stand in one line of the map.
const MARKS: usize = 32;

pub(crate) fn show_profile(output: &mut Output, p: &Profile) {
    output.say(match p.bus {
        Bus::I2c => "  a fresh board on I2C: ",
        Bus::Rs485 => "  a fresh board on RS485: ",
    });
    output.tell(format_args!(
        "M {}, page {}, S {}, O {}, type {}\n",
        p.longest, p.page, p.size, p.offset, p.hardware
    ));
}

fn tell_address(output: &mut Output, own: Address) {
    match own {
        Address::DefaultRange => output.say("  the board listens to 8 to 15, the default range"),
        Address::Own(a) => output.tell(format_args!("  the board listens to {a}")),
    }
}

// What runs, and whether the application answers; that one which does not run is silent is not said.
fn running(running: bool, answers: bool) -> &'static str {
    match (running, answers) {
        (true, true) => "; the application runs, and answers the version request\n",
        (true, false) => "; the application runs, and is silent\n",
        (false, true) => {
            "; the bootloader runs; the application, once started, answers the version request\n"
        }
        (false, false) => "; the bootloader runs\n",
    }
}

fn show_state(output: &mut Output, bench: &Bench) {
    let state = &bench.state;
    tell_address(output, state.address);
    output.say(running(state.running, bench.answers));
    output.tell(format_args!(
        "  next address {}, waiting bytes {}, erase count {}, last reply {} bytes\n",
        state.upload.next, state.upload.held, state.upload.count, state.last.len
    ));
}

// The mark of a page that was rewritten n times.
fn times_mark(n: u8) -> char {
    match n {
        0 => '.',
        1..=9 => char::from(b'0' + n),
        _ => '+',
    }
}

// The page with waiting bytes, if there is one.
fn waiting_page(bench: &Bench) -> Option<usize> {
    let upload = &bench.state.upload;
    (upload.held != 0).then_some(upload.next / page_size(bench.profile))
}

// The mark of a page, where bytes of one may wait.
fn mark(page: usize, waiting: Option<usize>, memory: &Memory) -> char {
    if waiting == Some(page) {
        'w'
    } else {
        times_mark(memory.times(page))
    }
}

// What stands before a page's mark: at the head of a line the address.
fn margin(output: &mut Output, size: usize, page: usize) {
    if page % MARKS != 0 {
        return;
    }
    if page != 0 {
        output.say("\n");
    }
    let address = page.saturating_mul(size);
    output.tell(format_args!("  {address:5}  "));
}

fn show_map(session: &mut Session) {
    let size = page_size(session.bench.profile);
    let waiting = waiting_page(&session.bench);
    let output = &mut session.output;
    output.tell(format_args!(
        "  a mark for each page of {size} bytes: . untouched, 1 to 9 rewritten so often, + more often, w bytes wait\n"
    ));
    let pages = (session.bench.profile.size / size).min(PAGES);
    for page in 0..pages {
        margin(output, size, page);
        output.tell(mark(page, waiting, &session.memory));
    }
    output.say("\n");
}

fn show_help(output: &mut Output) {
    output.say(
        "  Numbers are decimal, or hexadecimal behind 0x; bytes, HEX and BYTE are hexadecimal digits. The first byte of a frame is byte 1.
  board i2c|rs485 [M n] [page 64|128] [S n] [O n] [type n] [compatible n] [actual n] [bootloader n] [serial HEX]
  flash fill BYTE | flash file NAME              the flash that the board is lent
  version | info | serial | revision | longest   ask the board
  set-address ADDRESS type TYPE                  give the board an address; type 0 is any
  to ADDRESS                                     where the master sends to
  write ADDRESS HEX | write ADDRESS fill BYTE COUNT | write ADDRESS file NAME
  finalize | read ADDRESS LENGTH | start | reset | reset-address
  reset-running                                  ask for the version; reset if that is an application's, 0.0
  application answers | application silent       whether a running application answers the version request
  upload file NAME frames N | upload fill BYTE COUNT frames N | upload HEX frames N
  send ADDRESS BYTES                             a frame as it is, all in hexadecimal: send 08 00f3
  i2c-read [ADDRESS]                             read the last reply once more
  damage byte N | damage reply N  [after K]      of the next frame, of the next reply, or after K of them
  tally | tally clear                            the frames that the board received, counted by their answers; set to 0
  state | map | say TEXT | help | quit | # a comment
",
    );
}

// A line that shows, after which nothing may follow.
pub fn run_line(session: &mut Session, word: ShowWord, s: &[u8]) {
    if end(&mut session.output, s).is_err() {
        return session.refuse("nothing after this word");
    }
    match word {
        ShowWord::State => show_state(&mut session.output, &session.bench),
        ShowWord::Map => show_map(session),
        ShowWord::Help => show_help(&mut session.output),
    }
}

// How often something happened that must not be missed.
fn tell_times(output: &mut Output, before: &str, n: usize, thing: &str, after: &str) {
    if 0 < n {
        output.say(before);
        output.say_count(n, thing);
        output.say(after);
    }
}

fn tell_wrong(output: &mut Output, wrong: usize, lines: usize) {
    if 0 < wrong {
        output.tell(format_args!(
            "  ** lines that were not understood or not done: {wrong} of {lines} **\n"
        ));
    }
}

// Says at the end what still waits, what was lost, what got no reply, what failed, and how many lines were not understood.
pub fn tell_end(output: &mut Output, bench: &Bench) {
    if status(bench) == ScriptStatus::Fine {
        return;
    }
    output.say("  the script ends\n");
    tell_left_waiting(output, bench.waiting());
    let lost = "  ** accepted bytes were lost ";
    tell_times(output, lost, bench.losses, "time", " **\n");
    let silent = "  ** no reply, and yet no dead board: ";
    tell_times(output, silent, bench.silences, "time", " **\n");
    tell_times(output, "  ** ", bench.failures, "upload", " failed **\n");
    tell_wrong(output, bench.wrong, bench.lines);
}

// Whether an alarm stood that a script must not pass over: a failed upload, lost bytes, a silence, or bytes that wait at the end.
fn is_alarmed(bench: &Bench) -> bool {
    [
        bench.losses,
        bench.silences,
        bench.failures,
        bench.waiting(),
    ] != [0; 4]
}

// The status of a whole script, by its number.
#[derive(Clone, Copy, PartialEq, Eq, Debug)]
pub enum ScriptStatus {
    Fine = 0,
    // a line was not understood
    Wrong = 1,
    // the script cannot be read
    Unread = 2,
    // an alarm stood
    Alarmed = 3,
}

pub fn status(bench: &Bench) -> ScriptStatus {
    if 0 < bench.wrong {
        ScriptStatus::Wrong
    } else if is_alarmed(bench) {
        ScriptStatus::Alarmed
    } else {
        ScriptStatus::Fine
    }
}

// Shows a line of the script, with what stands before it.
pub fn line(output: &mut Output, before: &str, s: &[u8]) {
    output.say(before);
    output.say_raw(s);
    output.say("\n");
}
