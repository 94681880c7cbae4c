// What a call changed in the board's state, in words.
use bench_output::Output;
use rules::kinds::Address;
use state::{State, Upload};
use std::fmt::Display;

fn tell_address(output: &mut Output, own: Address) {
    match own {
        Address::DefaultRange => {
            output.say("  changed: the board listens to 8 to 15, the default range\n");
        }
        Address::Own(a) => output.tell(format_args!("  changed: the board listens to {a}\n")),
    }
}

// Says a change, if it is one; whether it is.
fn tell_if(output: &mut Output, changed: bool, text: impl Display + Drop) -> bool {
    if changed {
        output.tell(text);
    }
    changed
}

// Changes of the state, other than numbers; whether there is one.
fn tell_mode(output: &mut Output, before: &State, after: &State) -> bool {
    let moved = before.address != after.address;
    if moved {
        tell_address(output, after.address);
    }
    let last = tell_if(
        output,
        0 < before.last.len && after.last.len == 0,
        "  changed: there is no last reply any more\n",
    );
    let text = if after.running {
        "  changed: the application runs\n"
    } else {
        "  changed: the application stopped, the bootloader is back\n"
    };
    let switched = tell_if(output, before.running != after.running, text);
    moved || last || switched
}

// Other bytes wait than before, and as many.
fn tell_replaced(output: &mut Output, before: &Upload, after: &Upload) -> bool {
    let n = before.held;
    let replaced = n == after.held && before.waiting.get(..n) != after.waiting.get(..n);
    tell_if(
        output,
        replaced,
        "  changed: other bytes wait than before\n",
    )
}

// Numbers of the upload that changed; whether there is one.
fn tell_numbers(output: &mut Output, old: &Upload, new: &Upload) -> bool {
    let next = format_args!("  changed: next address {} -> {}\n", old.next, new.next);
    let next = tell_if(output, old.next != new.next, next);
    let held = format_args!("  changed: waiting bytes {} -> {}\n", old.held, new.held);
    let held = tell_if(output, old.held != new.held, held);
    let count = format_args!("  changed: erase count {} -> {}\n", old.count, new.count);
    let count = tell_if(output, old.count != new.count, count);
    next || held || count
}

// Changes of the upload; whether there is one.
fn tell_upload(output: &mut Output, before: &Upload, after: &Upload) -> bool {
    let moved = tell_numbers(output, before, after);
    let replaced = tell_replaced(output, before, after);
    moved || replaced
}

// What a call changed, beside the pages.
pub fn tell_changes(output: &mut Output, before: &State, after: &State, pages: bool) {
    let mode = tell_mode(output, before, after);
    let upload = tell_upload(output, &before.upload, &after.upload);
    if !mode && !upload && !pages {
        output.say("  changed: nothing\n");
    }
}
