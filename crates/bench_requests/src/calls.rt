// Lines by which the master makes a request with arguments, sends a frame as it is, or reads.
ghost use Rattle.std.specs.Prelude.{◌≤◌};

use bench_exchange::session::Session;
use bench_output::Output;
use bench_script::fields::{Fault, end, first, hex, is, number, rest, tell_fault};
use bench_script::image::after_data;
use bench_wording::reply::Asked;
use bench_words::CallWord;
use rules::kinds::Bus;
use rules::requests::Request;
use std::fs::Files;

// The most bytes that a line of digits gives.
const RAW: usize = 1024;

// No limit here: the encoder has one, and its answer is said with it.
const ANY: usize = 1000000;

// `ADDRESS type TYPE`: the address and the type.
fn new_address(output: &mut Output, s: &[u8]) -> Result<(usize, usize), Fault> {
    let address = number(output, "address", first(s), 0, ANY)?;
    let more = rest(s);
    if !is(first(more), "type") {
        let reason = ": the word type and a number follow the address\n";
        return Err(tell_fault(output, "set-address", first(more), reason));
    }
    let hardware = number(output, "type", rest(more), 0, ANY)?;
    Ok((address, hardware))
}

// `set-address ADDRESS type TYPE`: the master follows the board to its new address.
fn set_address(session: &mut Session, s: &[u8]) {
    let Ok((address, hardware)) = new_address(&mut session.output, s) else {
        return session.refuse("set-address ADDRESS type TYPE");
    };
    let done = session.request(Request::SetAddress { address, hardware }, true, 0..0);
    if done.is_ok() {
        session.follow(address);
    }
}

// `ADDRESS LENGTH`
fn read_request(output: &mut Output, s: &[u8]) -> Result<Request, Fault> {
    let address = number(output, "address", first(s), 0, ANY)?;
    let length = number(output, "length", rest(s), 0, ANY)?;
    Ok(Request::Read { address, length })
}

// `read ADDRESS LENGTH`
fn read(session: &mut Session, s: &[u8]) {
    let Ok(r) = read_request(&mut session.output, s) else {
        return session.refuse("read ADDRESS LENGTH");
    };
    session.request(r, true, 0..0);
}

// `ADDRESS DATA`: the address, and how many bytes of the image.
fn write_data(
    session: &mut Session,
    files: &impl Files,
    s: &[u8],
) -> Result<(usize, usize), Fault> {
    let address = number(&mut session.output, "address", first(s), 0, ANY)?;
    let n = session.load_data(files, rest(s))?;
    end(&mut session.output, after_data(rest(s)))?;
    Ok((address, n))
}

// `write ADDRESS DATA`
fn write(session: &mut Session, files: &impl Files, s: &[u8]) {
    match write_data(session, files, s) {
        Ok((address, n)) => {
            session.request(Request::Write { address }, true, 0..n);
        }
        Err(fault) => session.refuse_for(
            fault,
            "write ADDRESS and then HEX, fill BYTE COUNT or file NAME, and nothing more",
        ),
    }
}

// The command of a raw frame: behind the address. A read's length stands behind its flash address.
fn raw_asked(bus: Bus, bytes: &[u8; RAW]) -> Asked {
    Asked {
        bus,
        code: usize::from(bytes[1]),
        length: usize::from(bytes[4]),
        address: bytes[0],
        verbose: true,
    }
}

// How many of the bytes are not in the frame: on I²C the address.
fn beside(bus: Bus) -> usize
    ensures { result ≤ 1 }
{
    match bus {
        Bus::I2c => 1,
        Bus::Rs485 => 0,
    }
}

// `send BYTES`: address and frame, as they are.
fn send(session: &mut Session, s: &[u8]) {
    let mut bytes = [0u8; RAW];
    let Ok(n) = hex(&mut session.output, "bytes", s, &mut bytes) else {
        return session.refuse("send ADDRESS BYTES, all in hexadecimal digits, as: send 08 00f3");
    };
    if n == 0 {
        tell_fault(&mut session.output, "send", s, ": the address is missing\n");
        return session.refuse("send ADDRESS BYTES: at least the address");
    }
    let bus = session.bench.bus();
    let asked = raw_asked(bus, &bytes);
    session.send(asked, &mut bytes[beside(bus)..n]);
}

// `i2c-read`, `i2c-read ADDRESS`
fn i2c_read(session: &mut Session, s: &[u8]) {
    if s.is_empty() {
        return session.read_again(session.bench.to);
    }
    match number(&mut session.output, "address", s, 0, 255) {
        Ok(at) => session.read_again(at),
        Err(_) => session.refuse("i2c-read, or i2c-read ADDRESS"),
    }
}

// What follows `write`, `read`, `set-address`, `send` or `i2c-read`.
pub fn run_line(session: &mut Session, files: &impl Files, word: CallWord, s: &[u8]) {
    match word {
        CallWord::Write => write(session, files, s),
        CallWord::Read => read(session, s),
        CallWord::SetAddress => set_address(session, s),
        CallWord::Send => send(session, s),
        CallWord::I2cRead => i2c_read(session, s),
    }
}
