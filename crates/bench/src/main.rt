// The bench: plays a board, and the master beside it, from a script of plain lines, and says in words what happened.
// The script is the file that the first argument names, or standard input; a second argument names a file for the status.
// The lines are listed by `help` and in docs/BENCH.md.
#![tactic(auto)]

use crate::run::{LONGEST_LINE, run_next_line};
use bench_exchange::session::Session;
use bench_output::Output;
use bench_script::fields::is;
use bench_script::image::{opened, path_text};
use bench_settings::shown::{ScriptStatus, status, tell_end};
use std::alloc::Global;
use std::env::{Env, FillError};
use std::fs::{File, Files};
use std::io::{ErrorKind, IsTerminal, Stdin, Write};
use std::process::ExitCode;
use std::{fs, io};

mod run;

// The most bytes of a path, and one more.
const LONGEST_PATH: usize = 4096;

// The whole script, whose lines may be typed at a terminal; its status.
fn run_script(
    session: &mut Session,
    files: &impl Files,
    input: &mut (impl io::Read + IsTerminal),
) -> ScriptStatus {
    session.bench.typed = input.is_terminal();
    if session.bench.typed {
        session.output.say("  help lists the lines, quit ends\n");
    }
    let mut line = [0u8; LONGEST_LINE];
    // nothing says that the input ends, so the turns are counted up to a number that no script reaches
    for _ in 0..u64::MAX {
        if session.bench.ended || !session.output.is_fine() {
            break;
        }
        run_next_line(session, files, input, &mut line);
    }
    tell_end(&mut session.output, &session.bench);
    status(&session.bench)
}

// The argument at a place, which is put at the start of `path`, if there is one. One that is too long counts as empty: no file has
// either name.
fn argument<'a>(env: &impl Env, at: usize, path: &'a mut [u8]) -> Option<&'a [u8]> {
    match env.arg(at, path) {
        Ok(n) => path.get(..n),
        Err(FillError::TooLong) => Some(&[]),
        Err(FillError::NotPresent) => None,
    }
}

// A file by its name, which is made or emptied.
fn created<F: Files>(files: &F, name: &[u8]) -> io::Result<F::File> {
    fs::create(files, path_text(name)?)
}

// Writes the status to the file that the argument at a place names, if there is one.
fn write_status(output: &mut Output, rt: &(impl Env + Files), at: usize, status: ScriptStatus) {
    let mut path = [0u8; LONGEST_PATH];
    let Some(name) = argument(rt, at, &mut path) else {
        return;
    };
    let Ok(mut file) = created(rt, name) else {
        return output.say("the status cannot be written\n");
    };
    let number = status as u8;
    let done = write!(file, "{number}");
    output.note(done);
}

// A new bench runs the script. What it writes to comes back.
fn run_bench(
    output: Output,
    alloc: Global,
    files: &impl Files,
    input: &mut (impl io::Read + IsTerminal),
) -> io::Result<(Output, ScriptStatus)> {
    let mut session = Session::new(alloc, output)?;
    let status = run_script(&mut session, files, input);
    Ok((session.output, status))
}

// The script in a file; its status. The bench gets its memory only where there is a script.
fn run_file(
    mut output: Output,
    alloc: Global,
    files: &impl Files<File = File>,
    path: &[u8],
) -> io::Result<(Output, ScriptStatus)> {
    match opened(files, path) {
        Ok(mut file) => run_bench(output, alloc, files, &mut file),
        Err(_) => {
            output.say("the script ");
            output.say_raw(path);
            output.say(" cannot be opened\n");
            Ok((output, ScriptStatus::Unread))
        }
    }
}

// The script that the first argument names; `-` or none is standard input.
fn run_named(
    output: Output,
    alloc: Global,
    rt: &(impl Env + Files<File = File>),
    mut stdin: Stdin,
) -> io::Result<(Output, ScriptStatus)> {
    let mut path = [0u8; LONGEST_PATH];
    match argument(rt, 1, &mut path) {
        Some(name) if !is(name, "-") => run_file(output, alloc, rt, name),
        _ => run_bench(output, alloc, rt, &mut stdin),
    }
}

// The status of a program that a signal ends because nobody reads what it writes, as a shell tells it.
const NOT_READ: u8 = 141;

fn main(rt: HostRuntime) -> io::Result<ExitCode> {
    let output = Output::new(rt.stdout());
    let (mut output, status) = run_named(output, rt.alloc(), &rt, rt.stdin())?;
    write_status(&mut output, &rt, 2, status);
    match output.finish() {
        Ok(()) => Ok(ExitCode::SUCCESS),
        Err(e) if e.kind() == ErrorKind::BrokenPipe => Ok(ExitCode::from(NOT_READ)),
        Err(e) => Err(e),
    }
}
