// A reply on its way to the master: sent or read, perhaps damaged, and decoded.
use crate::application;
use crate::bench::Damage;
use crate::session::Session;
use bench_output::Output;
use bench_wording::meaning;
use bench_wording::reply::{Asked, RequestResult, decode_reply};
use numbers::board_number;
use rules::kinds::{Bus, Outcome};

// What came to the master: the first `len` bytes.
#[derive(Clone, Copy)]
pub struct Reply {
    len: usize,
    bytes: [u8; 256],
}

impl Reply {
    pub fn as_slice(&self) -> &[u8] {
        self.bytes.get(..self.len).unwrap_or(&[])
    }
}

// Why no reply came to the master.
#[derive(Clone, Copy, PartialEq, Eq)]
pub enum Silence {
    // none was to come
    Expected,
    // it must not be missed
    Missed,
}

// Damages a byte, counted from 1.
pub(crate) fn damage(output: &mut Output, s: &mut [u8], hit: Option<Damage>) {
    let Some(n) = hit.and_then(|d| d.due()) else {
        return;
    };
    let Some(byte) = s.get_mut(n.saturating_sub(1)) else {
        output.tell(format_args!("  there is no byte {n} to damage\n"));
        return;
    };
    let old = *byte;
    let new = !old;
    *byte = new;
    output.tell(format_args!("  byte {n} damaged: "));
    output.tell(format_args!("{old:02x} -> {new:02x}\n"));
}

// Who replies.
#[derive(Clone, Copy, PartialEq, Eq)]
pub(crate) enum Replier {
    Bootloader,
    Application,
}

fn tell_replier(output: &mut Output, by: Replier) {
    match by {
        Replier::Bootloader => output.say("  number 0, reply made"),
        Replier::Application => output.say("  the application replies"),
    }
}

// A reply as it is sent, on I²C read at an address.
fn tell_reply(output: &mut Output, bus: Bus, by: Replier, at: u8, reply: &[u8]) {
    tell_replier(output, by);
    match bus {
        Bus::I2c => output.tell(format_args!("; the master reads it at {at}: ")),
        Bus::Rs485 => output.say(": "),
    }
    output.say_bytes(reply);
    output.say("\n");
}

// What the master makes of a reply: no result where none came.
pub(crate) fn decoded(
    output: &mut Output,
    asked: Asked,
    reply: &Result<Reply, Silence>,
) -> Option<RequestResult> {
    match reply {
        Ok(bytes) => decode_reply(output, asked, bytes.as_slice()),
        Err(_) => None,
    }
}

impl Session {
    // A reply of n bytes as it comes to the master.
    pub(crate) fn arrive(
        &mut self,
        by: Replier,
        mut bytes: [u8; 256],
        n: usize,
        verbose: bool,
        at: u8,
    ) -> Result<Reply, Silence> {
        if bytes.len() < n {
            return Err(Silence::Expected);
        }
        let reply = &mut bytes[..n];
        if verbose {
            tell_reply(&mut self.output, self.bench.bus(), by, at, reply);
        }
        damage(&mut self.output, reply, self.bench.reply);
        Ok(Reply { len: n, bytes })
    }

    // The master's I²C read of the application's reply.
    fn read_application(&mut self, verbose: bool, at: u8) -> Result<Reply, Silence> {
        let mut out = [0u8; 256];
        let n = application::write_reply(self.bench.bus(), at, &mut out);
        self.arrive(Replier::Application, out, n, verbose, at)
    }

    // The master's I²C read of the board's last reply.
    fn read_bootloader(&mut self, verbose: bool, at: u8) -> Result<Reply, Silence> {
        let mut out = [0u8; 256];
        let answer = readout::read(
            self.bench.profile,
            self.bench.state,
            at,
            self.memory.flash(),
            &mut out,
        );
        match answer.outcome {
            Outcome::Reply(n) => return self.arrive(Replier::Bootloader, out, n, verbose, at),
            Outcome::Nothing => meaning::tell_no_read(&mut self.output),
            other => meaning::tell_number(&mut self.output, board_number(other)),
        }
        Err(Silence::Missed)
    }

    // The master's I²C read at an address.
    pub(crate) fn read_reply(&mut self, verbose: bool, at: u8) -> Result<Reply, Silence> {
        if application::is_read(&self.bench, at) {
            self.read_application(verbose, at)
        } else {
            self.read_bootloader(verbose, at)
        }
    }

    // A reply has passed, or a silence that must not be missed has come.
    pub(crate) fn note_reply(&mut self, passed: bool, reply: &Result<Reply, Silence>) {
        if passed {
            self.bench.pass_reply();
        }
        if matches!(reply, Err(Silence::Missed)) {
            self.bench.note_silence();
        }
    }
}
