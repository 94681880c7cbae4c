// One frame to the board: sent, answered, and said in words with what changed.
use crate::application;
use crate::replies::{Replier, Reply, Silence, damage, decoded};
use crate::session::Session;
use alarms::erased_nothing;
use bench_alarms::alarm;
use bench_alarms::changes::tell_changes;
use bench_output::Output;
use bench_wording::meaning;
use bench_wording::reply::{Asked, RequestResult};
use lost_bytes::{lost, waiting};
use numbers::{board_number, reply_length};
use rules::kinds::{Address, Bus, Outcome, Verdict};
use state::State;
use tally::counted;

// What came of a request: the reply, and what the master made of it.
#[derive(Clone, Copy)]
pub struct Exchange {
    pub reply: Result<Reply, Silence>,
    pub result: Option<RequestResult>,
}

impl Exchange {
    // The result where the status is OK.
    pub fn ok(&self) -> Option<RequestResult> {
        self.result.filter(|r| r.status == 0)
    }

    // Whether the status is OK.
    pub fn is_ok(&self) -> bool {
        self.ok().is_some()
    }
}

// What the board did with a frame: its answer, and what must not be missed.
#[derive(Clone, Copy)]
struct Called {
    by: Replier,
    outcome: Outcome,
    verdict: Verdict,
    state: State,
    out: [u8; 256],
    lost: usize,
    unworn: bool,
}

// Where the master reads the reply: at the board's own address, or where it sent to.
fn reply_address(own: Address, sent: u8) -> u8 {
    match own {
        Address::DefaultRange => sent,
        Address::Own(a) => a,
    }
}

// What must not be missed after a call. Bytes that wait are said with each call that is said at all.
fn tell_alarms(output: &mut Output, verbose: bool, called: &Called, ok: bool) {
    let after = called.state.upload;
    alarm::tell_lost(output, called.lost);
    if verbose {
        alarm::tell_waiting_after(output, ok, waiting(after));
    }
    if called.unworn {
        alarm::tell_unworn(output, after.next);
    }
}

impl Session {
    // Gives a frame to the board as it arrives there.
    fn call_board(&mut self, asked: Asked, frame: &[u8]) -> Called {
        let bench = &self.bench;
        let verdict = verdict::classify(
            asked.bus,
            bench.profile.longest,
            bench.state.running,
            bench.own(),
            asked.address,
            frame,
        );
        let before = bench.state.upload;
        let mut out = [0u8; 256];
        let answer = board::receive(
            bench.profile,
            bench.state,
            asked.address,
            frame,
            self.memory.lent_flash(),
            &mut out,
        );
        let after = answer.state.upload;
        let number = board_number(answer.outcome) as usize;
        Called {
            by: Replier::Bootloader,
            outcome: answer.outcome,
            verdict,
            state: answer.state,
            out,
            lost: lost(bench.profile.offset, before, after, self.memory.flash()),
            unworn: erased_nothing(asked.bus, frame, number, &out, after),
        }
    }

    // What board and application do with a frame: the application's reply, if there is one, stands in place of the board's answer.
    fn answer_frame(&mut self, asked: Asked, frame: &[u8]) -> Called {
        let mut called = self.call_board(asked, frame);
        if application::replies(&self.bench, asked.address, frame) {
            let to = frame::request::destination(asked.bus, asked.address, frame);
            called.out = [0u8; 256];
            called.outcome = Outcome::Reply(application::write_reply(
                asked.bus,
                to,
                &mut called.out,
            ));
            called.by = Replier::Application;
        }
        called
    }

    // What the bench remembers of a call. What the application replies is no answer of the board's, and is not counted.
    fn note_call(&mut self, asked: Asked, called: &Called) {
        let bench = &mut self.bench;
        if 0 < reply_length(called.outcome) {
            bench.code = asked.code;
            bench.asked = asked.length;
        }
        bench.state = called.state;
        bench.note_application(called.by == Replier::Application);
        if called.by == Replier::Bootloader {
            bench.tally = counted(bench.tally, called.outcome);
        }
        bench.note_loss(called.lost);
    }

    // The reply as it comes to the master: sent on RS485, read on I²C.
    fn fetch(&mut self, asked: Asked, called: &Called) -> Result<Reply, Silence> {
        let Outcome::Reply(n) = called.outcome else {
            let output = &mut self.output;
            let missed = meaning::tell_answer(output, called.outcome, called.verdict, asked.code);
            return Err(if missed {
                Silence::Missed
            } else {
                Silence::Expected
            });
        };
        match asked.bus {
            Bus::I2c => {
                let at = reply_address(self.bench.own(), asked.address);
                self.read_reply(asked.verbose, at)
            }
            Bus::Rs485 => self.arrive(called.by, called.out, n, asked.verbose, asked.address),
        }
    }

    // What changed in flash and state.
    fn tell_since(&mut self, verbose: bool, before: &State) {
        let output = &mut self.output;
        let after = &self.bench.state;
        let rewritten = self
            .memory
            .track(output, verbose, self.bench.profile, after.upload.next);
        if verbose {
            tell_changes(output, before, after, rewritten);
        }
    }

    // Gives a frame to the board, and says what the board answered and what changed.
    fn deliver(&mut self, asked: Asked, frame: &[u8]) -> Exchange {
        let before = self.bench.state;
        let called = self.answer_frame(asked, frame);
        self.note_call(asked, &called);
        let reply = self.fetch(asked, &called);
        let result = decoded(&mut self.output, asked, &reply);
        let done = Exchange { reply, result };
        tell_alarms(&mut self.output, asked.verbose, &called, done.is_ok());
        self.tell_since(asked.verbose, &before);
        self.note_reply(0 < reply_length(called.outcome), &done.reply);
        done
    }

    // Sends a frame, with one byte damaged if the script asked for that, and says what happened.
    pub fn send(&mut self, asked: Asked, frame: &mut [u8]) -> Exchange {
        if asked.verbose {
            let to = asked.address;
            self.output.tell(format_args!("  request to {to}: "));
            self.output.say_bytes(frame);
            self.output.say("\n");
        }
        let hit = self.bench.frame;
        damage(&mut self.output, frame, hit);
        self.bench.frame = hit.and_then(|d| d.passed());
        self.deliver(asked, frame)
    }

    // The last reply, read once more on I²C.
    pub fn read_again(&mut self, at: usize) {
        let asked = self.command(self.bench.code, self.bench.asked, true);
        let reply = self.read_reply(true, (at % 256) as u8);
        let result = decoded(&mut self.output, asked, &reply);
        let done = Exchange { reply, result };
        alarm::tell_waiting_after(&mut self.output, done.is_ok(), self.bench.waiting());
        self.note_reply(done.reply.is_ok(), &done.reply);
    }

    // The master sends to another address from now on.
    pub fn follow(&mut self, to: usize) {
        self.output
            .tell(format_args!("  the master sends to {to} from now on\n"));
        self.bench.to = to;
    }
}
