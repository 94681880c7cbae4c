// `upload`: the image's length held against S, all frames, finalize, and the whole image read back; and how that ended.
use bench_alarms::alarm::{tell_broken_off, tell_held, tell_waiting_after};
use bench_exchange::session::Session;
use bench_output::Output;
use bench_script::fields::{Fault, first, is, number, rest, tell_fault};
use bench_script::image::after_data;
use bench_wording::meaning::{longest_data, longest_read};
use rules::requests::Request;
use std::fs::Files;
use upload_ends::UploadEnd;

// A step of an upload that failed. It is said already.
#[derive(Clone, Copy)]
struct Failed;

// The number in the reply to a command, if its status is OK: S of a hardware info, the erase count of a finalize.
fn value_of(session: &mut Session, code: usize, verbose: bool) -> Result<usize, Failed> {
    let done = session.request(Request::Plain(code), verbose, 0..0);
    done.ok().map(|r| r.value).ok_or(Failed)
}

// The board tells its S, and the image fits: nothing is written before that.
fn begin(session: &mut Session, n: usize) -> Result<(), Failed> {
    let Ok(size) = value_of(session, 0x03, false) else {
        session.output.say(
            "  ** upload not begun: the board did not tell its S, and nothing was written **
    do: see that the board answers, with: info; and upload again
",
        );
        return Err(Failed);
    };
    if size < n {
        session.output.tell(format_args!(
            "  ** upload not begun: the image has {n} bytes, the working flash {size}, and nothing was written **
    do: upload an image that fits this board
"
        ));
        return Err(Failed);
    }
    Ok(())
}

// An upload of at most two frames is said in full.
fn is_short(all: usize, piece: usize) -> bool {
    all <= piece.saturating_mul(2)
}

// A line for each frame of a short upload, and for each eighth of a long one.
fn is_told(from: usize, to: usize, all: usize, piece: usize) -> bool {
    let step = all / 8 + 1;
    all / 16 < piece || to == all || from / step != to / step
}

fn tell_progress(output: &mut Output, to: usize, all: usize, count: usize, held: usize) {
    output.tell(format_args!("  {to} of "));
    output.say_count(all, "byte");
    output.say(" accepted, ");
    output.say_count(count, "page");
    output.say(" erased, ");
    output.say_count(held, "byte");
    output.say(" waiting\n");
}

// The pieces of an image in turn, each by its ends, until a step fails.
fn for_pieces<F: FnMut(usize, usize) -> Result<(), Failed>>(
    all: usize,
    piece: usize,
    mut step: F,
) -> Result<(), Failed>
    requires { F.IsAlwaysCallable step }
{
    let piece = piece.max(1);
    for at in (0..all).step_by(piece) {
        step(at, at.saturating_add(piece).min(all))?;
    }
    Ok(())
}

// One frame of the upload.
fn send_piece(session: &mut Session, verbose: bool, at: usize, end: usize) -> Result<(), Failed> {
    if session
        .request(Request::Write { address: at }, verbose, at..end)
        .is_ok()
    {
        return Ok(());
    }
    session
        .output
        .tell(format_args!("  the upload stopped at address {at}\n"));
    Err(Failed)
}

// All frames, and how far they have brought the upload.
fn send_all(session: &mut Session, piece: usize, all: usize) -> Result<(), Failed> {
    let verbose = is_short(all, piece);
    for_pieces(all, piece, |at, end| {
        send_piece(session, verbose, at, end)?;
        if is_told(at, end, all, piece) {
            let upload = &session.bench.state.upload;
            tell_progress(&mut session.output, end, all, upload.count, upload.held);
        }
        Ok(())
    })
}

// One read, compared with what was sent.
fn read_piece(session: &mut Session, at: usize, end: usize) -> Result<(), Failed> {
    let r = Request::Read {
        address: at,
        length: end.saturating_sub(at),
    };
    let done = session.request(r, false, 0..0);
    if !done.is_ok() {
        session.output.tell(format_args!(
            "  ** read back: the bytes from address {at} on could not be read **\n"
        ));
        return Err(Failed);
    }
    if !session.is_image(&done, at, end) {
        session.output.tell(format_args!(
            "  ** read back: the bytes from address {at} on are not as sent **\n"
        ));
        return Err(Failed);
    }
    Ok(())
}

// The whole image, read back.
fn read_all(session: &mut Session, all: usize) -> Result<(), Failed> {
    let most = longest_read(session.bench.bus(), session.bench.profile.longest);
    for_pieces(all, most, |at, end| read_piece(session, at, end))
}

// All frames, finalize, and the image read back.
fn send_image(session: &mut Session, piece: usize, n: usize) -> Result<(), Failed> {
    send_all(session, piece, n)?;
    if !is_short(n, piece) {
        tell_waiting_after(&mut session.output, true, session.bench.waiting());
    }
    session.output.say("  finalize\n");
    value_of(session, 0x07, true)?;
    read_all(session, n)
}

fn tell_done(output: &mut Output, n: usize, count: usize) {
    output.say("  read back: ");
    output.say_count(n, "byte");
    output.say(" as sent\n  upload done: ");
    output.say_count(count, "page");
    output.say(" erased\n");
}

// How the upload ended: done, or broken off with what the flash holds then.
fn end_upload(session: &mut Session, sent: Result<(), Failed>, n: usize) {
    let end = session.upload_end(n);
    if sent.is_ok() && matches!(end, UploadEnd::Whole) {
        let count = session.bench.state.upload.count;
        return tell_done(&mut session.output, n, count);
    }
    tell_broken_off(&mut session.output, end);
    if matches!(end, UploadEnd::Partly) {
        session
            .memory
            .tell_uploaded(&mut session.output, session.bench.profile);
    }
    tell_held(&mut session.output, session.bench.waiting());
    session.bench.note_failure();
}

fn upload(session: &mut Session, piece: usize, n: usize) {
    if begin(session, n).is_err() {
        return session.bench.note_failure();
    }
    session.memory.keep_earlier();
    let sent = send_image(session, piece, n);
    end_upload(session, sent, n);
}

// `frames N`: the length of the pieces, as much as a write to this board carries.
fn piece_length(session: &mut Session, s: &[u8]) -> Result<usize, Fault> {
    let most = longest_data(session.bench.bus(), session.bench.profile.longest);
    if is(first(s), "frames") {
        return number(&mut session.output, "frames", rest(s), 1, most);
    }
    Err(tell_fault(
        &mut session.output,
        "upload",
        first(s),
        ": the word frames and a number follow the bytes\n",
    ))
}

// `DATA frames N`: the length of the pieces, and how many bytes of the image.
fn image_in_pieces(
    session: &mut Session,
    files: &impl Files,
    s: &[u8],
) -> Result<(usize, usize), Fault> {
    let n = session.load_data(files, s)?;
    let piece = piece_length(session, after_data(s))?;
    if n == 0 {
        let reason = ": an image has at least one byte\n";
        return Err(tell_fault(&mut session.output, "upload", b"", reason));
    }
    Ok((piece, n))
}

// What follows `upload`: `DATA frames N`
pub fn run_line(session: &mut Session, files: &impl Files, s: &[u8]) {
    match image_in_pieces(session, files, s) {
        Ok((piece, n)) => upload(session, piece, n),
        Err(fault) => session.refuse_for(
            fault,
            "upload and then HEX, fill BYTE COUNT or file NAME, then frames N: at least one byte, N of them in a frame",
        ),
    }
}
