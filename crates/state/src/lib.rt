// Document 01, "State": the state of a board, the sizes that belong to it, the fresh board, which is built here and nowhere else,
// its head, which is all of it but the two buffers, and the changes that calls make to a head. What a state means is `view`, in
// specs/View.antt; what a head means with any two buffers is the view of `state_with`.
#![tactic(auto, unfolding(rules::specs::State::used))]

ghost use Rattle.std.specs.Prelude.{◌≡◌, List, [], ℕ, length};
ghost use Rattle.rules.specs.declared.kinds.Bus.{Bus};
ghost use Rattle.rules.specs.State.{fresh_upload, with_address, with_upload};
ghost use Rattle.rules.specs.Commands.{started};
ghost use Rattle.rules.specs.Board.{with_reply, address_reset};
ghost use Rattle.state.specs.View.{upload_of, view, Fresh};
ghost use Rattle.state.specs.Heads.{upload_with, state_with, kept_reply};

use rules::kinds::{Address, Bus};

// The upload: next address, waiting bytes w (the first `held` of the buffer) and erase count.
#[derive(Clone, Copy)]
pub struct Upload {
    pub next: usize,
    pub held: usize,
    pub count: usize,
    pub waiting: [u8; State::LARGEST_PAGE],
}

// On I²C the last reply: the first `len` bytes of the buffer, 0 meaning none.
#[derive(Clone, Copy)]
pub struct Last {
    pub len: usize,
    pub bytes: [u8; State::LARGEST_FRAME],
}

#[derive(Clone, Copy)]
pub struct State {
    pub address: Address,
    pub running: bool,
    pub upload: Upload,
    pub last: Last,
}

// The numbers of an upload, without its waiting bytes: next address, how many bytes wait, erase count.
#[derive(Clone, Copy)]
pub struct Counts {
    pub next: usize,
    pub held: usize,
    pub count: usize,
}

// All of a state but its two buffers, which a call is lent.
#[derive(Clone, Copy)]
pub struct Head {
    pub address: Address,
    pub running: bool,
    pub counts: Counts,
    // the last reply's length
    pub len: usize,
}

impl Counts {
    // Where an accepted write at 0 begins: nothing accepted, nothing waiting, count 0.
    pub fn restarted(mut self) -> Self
        ensures { (w : List ℕ) → upload_of (upload_with result w) ≡ fresh_upload }
    {
        self.next = 0;
        self.held = 0;
        self.count = 0;
        self
    }
}

impl Head {
    // Set address.
    pub fn with_address(self, address: Address) -> Self
        ensures { (w l : List ℕ) → view (state_with result w l) ≡ with_address (view (state_with self w l)) address }
    {
        Self { address, ..self }
    }

    // Write and finalize: another upload, whose waiting bytes begin the lent buffer w.
    pub fn with_counts(mut self, counts: Counts) -> Self
        ensures { (before w l : List ℕ)
            → view (state_with result w l) ≡ with_upload (view (state_with self before l)) (upload_of (upload_with counts w)) }
    {
        self.counts = counts;
        self
    }

    // Start: running; waiting bytes are lost.
    pub fn started(mut self) -> Self
        ensures { (w l : List ℕ) → view (state_with result w l) ≡ (started (view (state_with self w l)) []).state }
    {
        self.running = true;
        self.counts.held = 0;
        self
    }

    // A reply of n bytes is the last one: only I²C keeps it. Its bytes go into the lent buffer l.
    pub fn with_reply(mut self, bus: Bus, n: usize) -> Self
        ensures { (w l reply : List ℕ) → length reply ≡ n
            → view (state_with result w (kept_reply bus reply l)) ≡ with_reply bus (view (state_with self w l)) reply }
    {
        match bus {
            Bus::I2c => {
                self.len = n;
                self
            }
            Bus::Rs485 => self.without_reply(),
        }
    }

    // No reply is the last one, on either bus.
    pub fn without_reply(mut self) -> Self
        ensures { (bus : Bus) (w l : List ℕ) → view (state_with result w l) ≡ with_reply bus (view (state_with self w l)) [] }
    {
        self.len = 0;
        self
    }

    // Reset address: default range again, last reply none, upload kept.
    pub fn address_reset(self) -> Self
        ensures { (w l : List ℕ) → view (state_with result w l) ≡ address_reset (view (state_with self w l)) }
    {
        self.without_reply().with_address(Address::DefaultRange)
    }
}

impl State {
    // the smallest page
    pub const SMALLEST_PAGE: usize = 64;
    // the largest page: as many bytes can wait
    pub const LARGEST_PAGE: usize = 128;
    // the largest S
    pub const LARGEST_FLASH: usize = 65472;
    // the largest M
    pub const LARGEST_FRAME: usize = 256;

    // Fresh: not running, in the default range, else zero.
    pub fn fresh() -> Self
        ensures { Fresh result }
    {
        Self {
            address: Address::DefaultRange,
            running: false,
            upload: Upload {
                next: 0,
                held: 0,
                count: 0,
                waiting: [0u8; State::LARGEST_PAGE],
            },
            last: Last {
                len: 0,
                bytes: [0u8; State::LARGEST_FRAME],
            },
        }
    }

    // Its head.
    pub fn head(self) -> Head
        ensures { state_with result self.upload.waiting self.last.bytes ≡ self }
    {
        Head {
            address: self.address,
            running: self.running,
            counts: Counts {
                next: self.upload.next,
                held: self.upload.held,
                count: self.upload.count,
            },
            len: self.last.len,
        }
    }

    // The state of a head and two buffers.
    pub fn joined(
        h: Head,
        waiting: [u8; State::LARGEST_PAGE],
        bytes: [u8; State::LARGEST_FRAME],
    ) -> Self
        ensures { result ≡ state_with h waiting bytes }
    {
        Self {
            address: h.address,
            running: h.running,
            upload: Upload {
                next: h.counts.next,
                held: h.counts.held,
                count: h.counts.count,
                waiting,
            },
            last: Last { len: h.len, bytes },
        }
    }
}
