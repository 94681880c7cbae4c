// Lines that set the bench up: the board, the flash, where the master sends to, damage, and the application.
use crate::boards;
use bench_alarms::alarm::tell_left_waiting;
use bench_exchange::bench::Damage;
use bench_exchange::session::Session;
use bench_output::Output;
use bench_script::fields::{Fault, end, first, hex_byte, is, number, rest, tell_fault};
use bench_script::image::{DataKind, data_kind};
use bench_words::SetupWord;
use std::fs::Files;

// `flash fill BYTE`
fn flash_fill(session: &mut Session, value: &[u8]) {
    let Ok(byte) = hex_byte(&mut session.output, "fill", value) else {
        return session.refuse("flash fill BYTE: the byte in two hexadecimal digits, as ff");
    };
    session.memory.fill_flash(byte);
    session.output.say("  every byte of flash is ");
    session.output.tell(format_args!("{byte:02x}\n"));
    tell_left_waiting(&mut session.output, session.bench.waiting());
}

// `flash file NAME`; bytes behind the file's stay.
fn flash_file(session: &mut Session, files: &impl Files, name: &[u8]) {
    match session.load_file(files, name) {
        Ok(n) => {
            session.memory.load_flash(n);
            session
                .output
                .tell(format_args!("  bytes of flash as in the file: {n}\n"));
            tell_left_waiting(&mut session.output, session.bench.waiting());
        }
        Err(fault) => session.refuse_for(
            fault,
            "flash file NAME: a file that can be read, at most 131072 bytes",
        ),
    }
}

fn set_flash(session: &mut Session, files: &impl Files, s: &[u8]) {
    let word = first(s);
    match data_kind(word) {
        DataKind::Fill => flash_fill(session, rest(s)),
        DataKind::File => flash_file(session, files, rest(s)),
        DataKind::Digits => {
            tell_fault(
                &mut session.output,
                "flash",
                word,
                ": fill or file follows\n",
            );
            session.refuse("flash fill BYTE, or flash file NAME");
        }
    }
}

// `to ADDRESS`
fn set_destination(session: &mut Session, s: &[u8]) {
    let Ok(to) = number(&mut session.output, "to", s, 0, 255) else {
        return session.refuse("to ADDRESS: a number to 255");
    };
    session
        .output
        .tell(format_args!("  the master sends to {to}\n"));
    session.bench.to = to;
}

// What follows `damage byte` or `damage reply`, which is `name`: `N`, or `N after K`.
fn damage_named(output: &mut Output, name: &str, s: &[u8]) -> Result<Damage, Fault> {
    let byte = number(output, name, first(s), 1, 300)?;
    let more = rest(s);
    if more.is_empty() {
        return Ok(Damage { byte, after: 0 });
    }
    if !is(first(more), "after") {
        let reason = ": only the word after and a number may follow\n";
        return Err(tell_fault(output, name, more, reason));
    }
    let after = number(output, "after", rest(more), 0, 10000)?;
    Ok(Damage { byte, after })
}

// The same, said: which byte of the next frame or reply will be damaged, and how many pass before that.
fn told_damage(output: &mut Output, name: &str, thing: &str, s: &[u8]) -> Result<Damage, Fault> {
    let hit = damage_named(output, name, s)?;
    let byte = hit.byte;
    output.tell(format_args!("  byte {byte} of the next {thing} will be damaged on its way"));
    if 0 < hit.after {
        output.say(", after ");
        output.say_count(hit.after, "other");
    }
    output.say("\n");
    Ok(hit)
}

// `damage byte N` or `damage reply N`
fn damage_from(session: &mut Session, s: &[u8]) -> Result<(), Fault> {
    let kind = first(s);
    if is(kind, "byte") {
        let hit = told_damage(&mut session.output, "byte", "frame", rest(s))?;
        session.bench.frame = Some(hit);
        return Ok(());
    }
    if is(kind, "reply") {
        let hit = told_damage(&mut session.output, "reply", "reply", rest(s))?;
        session.bench.reply = Some(hit);
        return Ok(());
    }
    let reason = ": byte or reply follows\n";
    Err(tell_fault(&mut session.output, "damage", kind, reason))
}

fn set_damage(session: &mut Session, s: &[u8]) {
    if damage_from(session, s).is_err() {
        session.refuse(
            "damage byte N or damage reply N, and then perhaps after K: the first byte is 1, and K frames or replies pass first",
        );
    }
}

// What follows `application`: whether it answers.
fn application_from(output: &mut Output, s: &[u8]) -> Result<bool, Fault> {
    let kind = first(s);
    let answers = is(kind, "answers");
    if !answers && !is(kind, "silent") {
        return Err(tell_fault(output, "application", kind, ": answers or silent follows\n"));
    }
    end(output, rest(s))?;
    Ok(answers)
}

fn set_application(session: &mut Session, s: &[u8]) {
    let Ok(answers) = application_from(&mut session.output, s) else {
        return session.refuse("application answers, or application silent");
    };
    session.output.say(if answers {
        "  while it runs, the application answers the version request with 0.0\n"
    } else {
        "  while it runs, the application is silent\n"
    });
    session.bench.set_application(answers);
}

// What follows `board`, `flash`, `to`, `damage` or `application`.
pub fn run_line(session: &mut Session, files: &impl Files, word: SetupWord, s: &[u8]) {
    match word {
        SetupWord::Board => boards::set_board(session, s),
        SetupWord::Flash => set_flash(session, files, s),
        SetupWord::To => set_destination(session, s),
        SetupWord::Damage => set_damage(session, s),
        SetupWord::Application => set_application(session, s),
    }
}
