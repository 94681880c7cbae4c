// The state in bytes, as it crosses the C boundary: include/childbus.h has the layout as a table, specs/ as definitions. Its head is read
// from them; the waiting bytes and the last reply stay where they are. Bytes that hold no state read as a malformed one, so that the
// board's own test answers them.
#![tactic(auto)]

ghost use Rattle.std.specs.Prelude.{◌≡◌, Some, None, cond, eqb, leb};
ghost use Rattle.state.specs.Heads.{head_of};
ghost use Rattle.state_bytes.specs.BothWays.{BothWays};
ghost use Rattle.state_bytes.specs.StateBytes.{state_held, state_said, no_state, state_at, address_of};

use byte_slices::four_at;
use rules::kinds::Address;
use state::{Counts, Head, State};

// Where the buffer of the waiting bytes begins, that of the last reply, and how many bytes a state takes.
pub const WAITING_AT: usize = 20;

pub const REPLY_AT: usize = WAITING_AT + State::LARGEST_PAGE;

pub const STATE_BYTES: usize = REPLY_AT + State::LARGEST_FRAME;

// The address, if its kind is one: 0 default range, 1 own address.
fn address_of(kind: u8, own: u8) -> Option<Address>
    ensures { result ≡ cond (leb kind 1) (Some (address_of kind own)) None }
{
    match kind {
        0 => Some(Address::DefaultRange),
        1 => Some(Address::Own(own)),
        _ => None,
    }
}

// Whether the board runs, if the byte says it.
fn running_of(x: u8) -> Option<bool>
    ensures { result ≡ cond (leb x 1) (Some (eqb x 1)) None }
{
    match x {
        0 => Some(false),
        1 => Some(true),
        _ => None,
    }
}

// The head of the state of bytes that hold one.
fn head_held(b: &[u8]) -> Option<Head>
    ensures { result ≡ cond (state_held b.now) (Some (head_of (state_said b.now))) None }
{
    if b.len() < STATE_BYTES {
        return None;
    }
    Some(Head {
        address: address_of(b[0], b[1])?,
        running: running_of(b[2])?,
        counts: Counts {
            next: four_at(b, 4),
            held: four_at(b, 8),
            count: four_at(b, 12),
        },
        len: four_at(b, 16),
    })
}

// No board is in it: a byte waits before any was accepted.
fn no_head() -> Head
    ensures { result ≡ head_of no_state }
{
    let mut h = State::fresh().head();
    h.counts.held = 1;
    h
}

// The head of the state that bytes say.
#[tactic(auto, unfolding(crate::specs::StateBytes::state_at))]
pub fn head_from(b: &[u8]) -> Head
    ensures { result ≡ head_of (state_at b.now) }
{
    head_held(b).unwrap_or_else(no_head)
}

// The layout loses nothing that a board can hold, and keeps every byte that means nothing.
pub fn both_ways()
    ensures { BothWays }
{}
