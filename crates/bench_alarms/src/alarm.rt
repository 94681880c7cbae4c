// Alarms in words. What stands between `**` must not be missed. The cases are decided by `alarms`, `lost_bytes` and `upload_ends`.
use bench_output::Output;
use std::fmt::Display;
use upload_ends::UploadEnd;

// Says the first text for 1, the second for more, and nothing for 0.
fn tell_few(output: &mut Output, n: usize, one: &str, more: impl Display + Drop) {
    match n {
        0 => (),
        1 => output.say(one),
        _ => output.tell(more),
    }
}

// Bytes that are neither waiting nor in flash any more.
pub fn tell_lost(output: &mut Output, n: usize) {
    tell_few(
        output,
        n,
        "  ** 1 accepted byte is lost: it neither waits nor stands in flash **\n",
        format_args!("  ** {n} accepted bytes are lost: they neither wait nor stand in flash **\n"),
    );
    if 0 < n {
        output.say(
            "    do: write again what is lost, and finalize before a start, a reset, another board or a new write at 0\n",
        );
    }
}

// Bytes that wait are not in flash.
pub fn tell_held(output: &mut Output, n: usize) {
    tell_few(
        output,
        n,
        "  ** 1 byte still waits in the board and is not in flash **\n",
        format_args!("  ** {n} bytes still wait in the board and are not in flash **\n"),
    );
}

// The same where no call is to follow: the script's end, another flash.
pub fn tell_left_waiting(output: &mut Output, n: usize) {
    tell_held(output, n);
    if 0 < n {
        output.say("    do: finalize, or upload again from the start\n");
    }
}

// The same after an OK, which must not be taken for bytes in flash.
fn tell_held_ok(output: &mut Output, n: usize) {
    tell_few(
        output,
        n,
        "  ** OK, 1 byte still waits in the board and is not in flash **\n",
        format_args!("  ** OK, {n} bytes still wait in the board and are not in flash **\n"),
    );
}

// The same after a call, with what to do.
pub fn tell_waiting_after(output: &mut Output, ok: bool, n: usize) {
    if ok {
        tell_held_ok(output, n);
    } else {
        tell_held(output, n);
    }
    if 0 < n {
        output.say("    do: write on, and finalize at the end\n");
    }
}

// A finalize that counted no erased page, after so many accepted bytes.
pub fn tell_unworn(output: &mut Output, next: usize) {
    output.say(if next == 0 {
        "  ** 0 pages erased: this upload has no bytes **\n"
    } else {
        "  ** 0 pages erased: the flash held these bytes already, nothing was worn **\n"
    });
}

// How an upload ended that was broken off.
pub fn tell_broken_off(output: &mut Output, end: UploadEnd) {
    output.say(match end {
        UploadEnd::Whole => {
            "  ** the upload broke off, and yet the flash holds the whole image **
    do: upload again to be sure; it wears no page
"
        }
        UploadEnd::Partly => {
            "  ** partly uploaded: the flash holds a part of the new image, and the old one no more **
    do: upload again from the start before anything is started
"
        }
        UploadEnd::Unchanged => {
            "  ** not uploaded: the flash is as it was before **
    do: put right what is said above, and upload again
"
        }
    });
}
