// A line of the script: read, shown again and run.
use bench_exchange::session::Session;
use bench_requests::{calls, uploads};
use bench_script::fields::{end, first, is, rest, tell_fault};
use bench_script::lines;
use bench_script::lines::{Line, is_comment};
use bench_settings::{setup, shown, tallies};
use bench_words::{Word, word_named};
use std::fs::Files;
use std::io;

// The most bytes that a line may have.
pub const LONGEST_LINE: usize = 2048;

// What a line is that cannot be taken for any.
const ANY_LINE: &str = "a line that help lists, or # and a comment";

// A word that begins no line.
fn refuse_word(session: &mut Session, word: &[u8]) {
    tell_fault(&mut session.output, "the word", word, " begins no line\n");
    session.refuse(ANY_LINE);
}

// `quit`: as at the script's end.
fn quit(session: &mut Session, s: &[u8]) {
    if end(&mut session.output, s).is_err() {
        return session.refuse("nothing after this word");
    }
    session.bench.ended = true;
}

// Runs a line by its first word.
fn run_line(session: &mut Session, files: &impl Files, line: &[u8]) {
    let s = rest(line);
    match word_named(first(line)) {
        Some(Word::Setup(w)) => setup::run_line(session, files, w, s),
        Some(Word::Show(w)) => shown::run_line(session, w, s),
        Some(Word::Tally) => tallies::run_line(session, s),
        Some(Word::Upload) => uploads::run_line(session, files, s),
        Some(Word::Call(w)) => calls::run_line(session, files, w, s),
        Some(Word::Plain(w)) => bench_plain::run_line(session, w, s),
        Some(Word::Quit) => quit(session, s),
        None => refuse_word(session, first(line)),
    }
}

// Shows a line again, unless it was typed.
fn show_line(session: &mut Session, before: &str, s: &[u8]) {
    if !session.bench.typed {
        shown::line(&mut session.output, before, s);
    }
}

// Shows a line again and runs it; `say` and comments are only shown.
fn show_and_run_line(session: &mut Session, files: &impl Files, line: &[u8]) {
    if is_comment(line) {
        return show_line(session, "", line);
    }
    if is(first(line), "say") {
        return shown::line(&mut session.output, "", rest(line));
    }
    show_line(session, "> ", line);
    run_line(session, files, line);
}

// A line that is too long to be kept, and so to be shown.
fn refuse_long(session: &mut Session) {
    show_line(session, "> ", b"..");
    let reason = format_args!(": at most {LONGEST_LINE} bytes here\n");
    tell_fault(&mut session.output, "the line", b"", reason);
    session.refuse(ANY_LINE);
}

// The script is at its end. That of what is typed stands on a line of its own.
fn end_script(session: &mut Session) {
    if session.bench.typed {
        session.output.say("\n");
    }
    session.bench.ended = true;
}

// Reads and runs the next line of the script. Where it cannot be read, the script is at its end.
pub fn run_next_line(
    session: &mut Session,
    files: &impl Files,
    input: &mut impl io::Read,
    line: &mut [u8],
) {
    if session.bench.typed {
        session.output.say("> ");
    }
    match lines::read_line(input, line) {
        Ok(Line::Text(text)) => {
            session.bench.note_line();
            let text = lines::without_mark(text).trim_ascii();
            show_and_run_line(session, files, text);
        }
        Ok(Line::Long) => {
            session.bench.note_line();
            refuse_long(session);
        }
        Ok(Line::End) => end_script(session),
        Err(e) => {
            session.output.note(Err(e));
            end_script(session);
        }
    }
}
