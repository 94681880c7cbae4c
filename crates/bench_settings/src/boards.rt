// `board`: another board, described by names and values in any order.
ghost use Rattle.std.specs.Prelude.{◌<◌};

use crate::shown::show_profile;
use bench_alarms::alarm::tell_lost;
use bench_exchange::bench::default_profile;
use bench_exchange::session::Session;
use bench_memory::pages::page_size;
use bench_output::Output;
use bench_script::fields::{Fault, first, hex, is, number, rest, tell_fault};
use profile::Profile;
use rules::kinds::Bus;
use state::State;

// A name in a `board` line.
#[derive(Clone, Copy)]
enum Field {
    Longest,
    Page,
    Size,
    Offset,
    Hardware,
    Compatible,
    Actual,
    Version,
    Serial,
}

const FIELDS: [(&str, Field); 9] = [
    ("M", Field::Longest),
    ("page", Field::Page),
    ("S", Field::Size),
    ("O", Field::Offset),
    ("type", Field::Hardware),
    ("compatible", Field::Compatible),
    ("actual", Field::Actual),
    ("bootloader", Field::Version),
    ("serial", Field::Serial),
];

// The most names of one line that are read.
const NAMES: usize = 100;

// The field with this name.
fn field_named(name: &[u8]) -> Option<Field> {
    FIELDS.iter().find(|f| is(name, f.0)).map(|f| f.1)
}

fn set_serial(output: &mut Output, p: &mut Profile, value: &[u8]) -> Result<(), Fault> {
    let mut serial = [0u8; 16];
    p.seriallen = hex(output, "serial", value, &mut serial)?;
    p.serial = serial;
    Ok(())
}

// The page, of which S and O so far are multiples.
fn set_page(output: &mut Output, p: &mut Profile, value: &[u8]) -> Result<(), Fault> {
    let page = number(output, "page", value, 0, 1000000)?;
    if page != State::SMALLEST_PAGE && page != State::LARGEST_PAGE {
        return Err(tell_fault(output, "page", value, ": 64 or 128\n"));
    }
    if p.size % page != 0 {
        let reason = format_args!(": S {} is no multiple of it\n", p.size);
        return Err(tell_fault(output, "page", value, reason));
    }
    if p.offset % page != 0 {
        let reason = format_args!(": O {} is no multiple of it\n", p.offset);
        return Err(tell_fault(output, "page", value, reason));
    }
    p.page = page;
    Ok(())
}

// S or O: a number of whole pages.
fn paged(
    output: &mut Output,
    name: &str,
    value: &[u8],
    least: usize,
    page: usize,
) -> Result<usize, Fault>
    requires { 0 < page }
{
    let n = number(output, name, value, least, State::LARGEST_FLASH)?;
    if n % page != 0 {
        let reason = format_args!(": a multiple of {page}\n");
        return Err(tell_fault(output, name, value, reason));
    }
    Ok(n)
}

// A number of one byte.
fn byte(output: &mut Output, name: &str, value: &[u8], least: usize) -> Result<u8, Fault> {
    let n = number(output, name, value, least, 255)?;
    Ok((n % 256) as u8)
}

// One field; `name` is how the line writes it. A hardware type is not 0.
fn set_field(
    output: &mut Output,
    p: &mut Profile,
    field: Field,
    name: &str,
    value: &[u8],
) -> Result<(), Fault> {
    let page = page_size(*p);
    match field {
        Field::Longest => p.longest = number(output, "M", value, 32, State::LARGEST_FRAME)?,
        Field::Page => set_page(output, p, value)?,
        Field::Size => p.size = paged(output, "S", value, page, page)?,
        Field::Offset => p.offset = paged(output, "O", value, 0, page)?,
        Field::Hardware => p.hardware = byte(output, name, value, 1)?,
        Field::Compatible => p.compatible = byte(output, name, value, 0)?,
        Field::Actual => p.actual = byte(output, name, value, 0)?,
        Field::Version => p.version = byte(output, name, value, 0)?,
        Field::Serial => set_serial(output, p, value)?,
    }
    Ok(())
}

// One name with its value.
fn set_named(output: &mut Output, p: &mut Profile, name: &[u8], value: &[u8]) -> Result<(), Fault> {
    match (field_named(name), str::from_utf8(name)) {
        (Some(field), Ok(text)) => set_field(output, p, field, text, value),
        _ => Err(tell_fault(
            output,
            "board",
            name,
            ": a board has nothing of that name\n",
        )),
    }
}

// All names with their values.
fn described(output: &mut Output, mut p: Profile, s: &[u8]) -> Result<Profile, Fault> {
    let mut left = s;
    for _ in 0..NAMES {
        if left.is_empty() {
            return Ok(p);
        }
        let value = rest(left);
        set_named(output, &mut p, first(left), first(value))?;
        left = rest(value);
    }
    Ok(p)
}

// The bus in front, then the rest.
fn on_bus(output: &mut Output, s: &[u8]) -> Result<Profile, Fault> {
    let name = first(s);
    if is(name, "i2c") {
        return described(output, default_profile(Bus::I2c), rest(s));
    }
    if is(name, "rs485") {
        return described(output, default_profile(Bus::Rs485), rest(s));
    }
    Err(tell_fault(output, "board", name, ": i2c or rs485 follows\n"))
}

// `board BUS NAME VALUE ..`
pub(crate) fn set_board(session: &mut Session, s: &[u8]) {
    let Ok(p) = on_bus(&mut session.output, s) else {
        return session.refuse(
            "board i2c or board rs485, then any of M n, page n, S n, O n, type n, compatible n, actual n, bootloader n, serial HEX",
        );
    };
    show_profile(&mut session.output, &p);
    let lost = session.exchange_board(p);
    tell_lost(&mut session.output, lost);
}
