// Writes what a call leaves of the state into its bytes: the head, and the last reply; the waiting bytes stand there already. Bytes that
// mean nothing stay as they were. The layout, and reading it, is `state_bytes`.
#![tactic(auto)]

ghost use Rattle.std.specs.Prelude.{◌≡◌, List, ℕ, ◌≤◌, length, take, replicate};
ghost use Rattle.rules.specs.Bytes.{overlay};
ghost use Rattle.rules.specs.Numbers.{laid};
ghost use Rattle.state.specs.View.{largest_frame, view};
ghost use Rattle.state.specs.Heads.{state_with, kept_reply};
ghost use Rattle.fields.specs.Fields.{part};
ghost use Rattle.state_bytes.specs.StateBytes.{reply_from, state_size, kind_byte, own_byte, head_written};

use answer::keep_reply;
use byte_slices::store_four;
use rules::kinds::{Address, Bus};
use state::Head;
use state_bytes::{REPLY_AT, STATE_BYTES};

fn kind_byte(a: Address) -> u8
    ensures { result ≡ kind_byte a }
{
    match a {
        Address::DefaultRange => 0,
        Address::Own(_) => 1,
    }
}

// In the default range the byte stays as it was.
fn own_byte(a: Address, before: u8) -> u8
    ensures { result ≡ own_byte a before }
{
    match a {
        Address::DefaultRange => before,
        Address::Own(own) => own,
    }
}

// Writes the head of a state, whatever the two buffers hold.
pub fn head_to(h: Head, b: &mut [u8])
    requires { state_size ≤ length b.old }
    ensures { (w l : List ℕ) → b.new ≡ head_written (view (state_with h w l)) b.old }
{
    let address = h.address;
    let flags = [
        kind_byte(address),
        own_byte(address, b[1]),
        u8::from(h.running),
        b[3],
    ];
    byte_slices::store(b, 0, &flags);
    store_four(b, 4, h.counts.next);
    store_four(b, 8, h.counts.held);
    store_four(b, 12, h.counts.count);
    store_four(b, 16, h.len);
}

// Writes the last reply, of which n bytes were made in the lent output, and the head.
pub fn write_back(bus: Bus, h: Head, n: usize, out: &[u8], b: &mut [u8])
    requires state_size_in_bounds { state_size ≤ length b.old }
    requires n_in_bounds { (n ≤ length out.now) × (n ≤ largest_frame) }
    ensures { (w l : List ℕ) → b.new ≡ head_written (view (state_with h w l))
        (overlay b.old reply_from
        (kept_reply bus (take n out.now) (part b.old reply_from largest_frame))) }
{
    keep_reply(bus, n, out, &mut b[REPLY_AT..STATE_BYTES]);
    head_to(h, b);
}

// Writes zeros into all bytes of a state.
pub fn clear(b: &mut [u8])
    requires { state_size ≤ length b.old }
    ensures { b.new ≡ laid (replicate state_size 0) b.old }
{
    b[..STATE_BYTES].fill(0);
}
