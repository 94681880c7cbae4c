// The C boundary of a board: the fresh state, a received frame, the same counted, an I²C read, as include/childbus.h declares them, over
// byte slices and numbers. A slice is a pointer and a length to C, a `&mut` number the place of a single result. No call has a `requires`:
// any bytes of any length get the answer that specs/ fixes. Of the state the head is read and written; its two buffers are lent where they
// stand, and only their bytes that mean something are touched.
#![tactic(auto)]

ghost use Rattle.std.specs.Prelude.{◌≡◌};
ghost use Rattle.childbus_board.specs.BoardBytes.{fresh_left, FreshLeft, received_left, ReceivedLeft, read_left, ReadLeft};
ghost use Rattle.childbus_board.specs.TallyCall.{CountedLeft, counted_left};
ghost use Rattle.childbus_board.specs.Kept.{Kept};

use fields::clip;
use handling::handle;
use numbers::{board_number, reply_length};
use rules::kinds::Outcome;
use state::State;
use state_bytes::{REPLY_AT, STATE_BYTES, WAITING_AT};

// The fresh board.
pub fn childbus_fresh(state: &mut [u8]) -> u32
    ensures { ◌≡◌ {A = FreshLeft} (record { number = result; state = state.new }) (fresh_left state.old) }
{
    if state.len() < STATE_BYTES {
        return board_number(Outcome::StateMalformed);
    }
    state_writer::clear(state);
    state_writer::head_to(State::fresh().head(), state);
    0
}

// A received frame.
pub fn childbus_receive(
    profile: &[u8],
    state: &mut [u8],
    address: u32,
    frame: &[u8],
    flash: &mut [u8],
    out: &mut [u8],
    made: &mut usize,
) -> u32
    ensures { ◌≡◌ {A = ReceivedLeft}
        (record { number = result; made = made.new; state = state.new; flash = flash.new; out = out.new })
        (received_left profile.now state.old address frame.now flash.old out.old) }
{
    let p = profile_bytes::profile_from(profile);
    let h = state_bytes::head_from(state);
    if let Err(outcome) = refusal::refuse(p, h, flash.len(), out.len()) {
        *made = 0;
        return board_number(outcome);
    }
    let handled = handle(
        p,
        h,
        clip(address),
        frame,
        &mut state[WAITING_AT..REPLY_AT],
        flash,
        out,
    );
    let outcome = handled.outcome;
    let left = handled.state;
    let n = reply_length(outcome);
    *made = n;
    let number = board_number(outcome);
    if 2 <= number {
        return number;
    }
    let bus = p.bus;
    state_writer::write_back(bus, left, n, &out[..], state);
    number
}

// A received frame, counted in the lent tally.
pub fn childbus_receive_tally(
    profile: &[u8],
    state: &mut [u8],
    address: u32,
    frame: &[u8],
    flash: &mut [u8],
    out: &mut [u8],
    tally: &mut [u8],
    made: &mut usize,
) -> u32
    ensures { ◌≡◌ {A = CountedLeft}
        (record {
          received = record {
            number = result;
            made = made.new;
            state = state.new;
            flash = flash.new;
            out = out.new;
          };
          tally = tally.new;
        })
        (counted_left profile.now state.old address frame.now flash.old out.old
        tally.old) }
{
    let number = childbus_receive(profile, state, address, frame, flash, out, made);
    tally_bytes::count(tally, number);
    number
}

// An I²C read.
pub fn childbus_read(
    profile: &[u8],
    state: &[u8],
    address: u32,
    flash: &[u8],
    out: &mut [u8],
    made: &mut usize,
) -> u32
    ensures { ◌≡◌ {A = ReadLeft} (record { number = result; made = made.new; out = out.new })
        (read_left profile.now state.now address flash.now out.old) }
{
    let built = profile_bytes::profile_from(profile);
    let held = state_bytes::head_from(state);
    if let Err(outcome) = refusal::refuse(built, held, flash.len(), out.len()) {
        *made = 0;
        return board_number(outcome);
    }
    let bus = built.bus;
    let to = clip(address);
    let outcome = last_reply::hand_out(bus, held, to, &state[REPLY_AT..STATE_BYTES], out);
    *made = reply_length(outcome);
    board_number(outcome)
}

// What a call leaves in the state buffer says the state that the rules give.
pub fn state_kept()
    ensures { Kept }
{}
