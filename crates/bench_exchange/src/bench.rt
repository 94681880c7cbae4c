// What the bench remembers between lines: the board's profile and state, the master's side, and what must not be missed.
use profile::Profile;
use rules::kinds::{Address, Bus};
use state::State;
use tally::Tally;

// Which byte is to be damaged, from 1, and how many frames or replies pass before that.
#[derive(Clone, Copy)]
pub struct Damage {
    pub byte: usize,
    pub after: usize,
}

impl Damage {
    // The byte that is to be damaged now.
    pub fn due(self) -> Option<usize> {
        (self.after == 0).then_some(self.byte)
    }

    // What is left of it once a frame or a reply has passed.
    pub fn passed(self) -> Option<Self> {
        let after = self.after.checked_sub(1)?;
        Some(Damage {
            byte: self.byte,
            after,
        })
    }
}

#[derive(Clone, Copy)]
pub struct Bench {
    pub profile: Profile,
    pub state: State,
    // the frames that this board has received, by their answers; no reset clears it
    pub tally: Tally,
    // the application answers the version request while it runs; it has answered one since it runs
    pub answers: bool,
    pub answered: bool,
    // where the master sends to
    pub to: usize,
    // the command that the board's last reply belongs to, and the length that it asked for
    pub code: usize,
    pub asked: usize,
    // damage to a frame and to a reply on its way
    pub frame: Option<Damage>,
    pub reply: Option<Damage>,
    // lines read, and those among them that were not understood
    pub lines: usize,
    pub wrong: usize,
    // calls that lost bytes, frames and reads that got nothing from a board that is well, and uploads that failed
    pub losses: usize,
    pub silences: usize,
    pub failures: usize,
    // the lines are typed at a terminal, which shows them already
    pub typed: bool,
    // the script is at its end
    pub ended: bool,
}

// The board of a script that sets up none.
pub fn default_profile(bus: Bus) -> Profile {
    Profile {
        bus,
        longest: 64,
        page: State::SMALLEST_PAGE,
        size: 1024,
        offset: 0,
        hardware: 7,
        compatible: 1,
        actual: 1,
        version: 1,
        serial: [0u8; 16],
        seriallen: 0,
    }
}

// The largest count; no script reaches it.
const LARGEST_COUNT: usize = 1000000000;

// One more, up to the largest count.
pub(crate) fn one_more(n: usize) -> usize {
    n.saturating_add(1).min(LARGEST_COUNT)
}

// The first address of the default range.
pub const FIRST_ADDRESS: usize = 8;

impl Bench {
    pub fn new() -> Self {
        Bench {
            profile: default_profile(Bus::I2c),
            state: State::fresh(),
            tally: Tally::cleared(),
            answers: false,
            answered: false,
            to: FIRST_ADDRESS,
            code: 0,
            asked: 0,
            frame: None,
            reply: None,
            lines: 0,
            wrong: 0,
            losses: 0,
            silences: 0,
            failures: 0,
            typed: false,
            ended: false,
        }
    }

    pub fn bus(&self) -> Bus {
        self.profile.bus
    }

    // Where the board listens.
    pub fn own(&self) -> Address {
        self.state.address
    }

    // How many bytes of the board's upload wait.
    pub fn waiting(&self) -> usize {
        lost_bytes::waiting(self.state.upload)
    }

    // Another board, fresh, whose application is silent.
    pub fn set_board(&mut self, p: Profile) {
        self.profile = p;
        self.state = State::fresh();
        self.tally = Tally::cleared();
        self.set_application(false);
        self.to = FIRST_ADDRESS;
    }

    // Another application, which answers the version request or is silent.
    pub fn set_application(&mut self, answers: bool) {
        self.answers = answers;
        self.answered = false;
    }

    // After a frame to which the application replied, or not.
    pub(crate) fn note_application(&mut self, replied: bool) {
        self.answered = self.state.running && (replied || self.answered);
    }

    // A reply has passed.
    pub(crate) fn pass_reply(&mut self) {
        self.reply = self.reply.and_then(|d| d.passed());
    }

    // A silence that must not be missed.
    pub(crate) fn note_silence(&mut self) {
        self.silences = one_more(self.silences);
    }

    // A call that lost so many bytes.
    pub fn note_loss(&mut self, n: usize) {
        if 0 < n {
            self.losses = one_more(self.losses);
        }
    }

    // An upload that failed.
    pub fn note_failure(&mut self) {
        self.failures = one_more(self.failures);
    }

    // One more line.
    pub fn note_line(&mut self) {
        self.lines = one_more(self.lines);
    }
}
