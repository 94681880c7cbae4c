// The exports of `childbus_board` for C: its functions under their own names, with the clauses that they have there, stated again.
#![tactic(auto)]

ghost use Rattle.std.specs.Prelude.{◌≡◌};
ghost use Rattle.childbus_board.specs.BoardBytes.{fresh_left, FreshLeft, received_left, ReceivedLeft, read_left, ReadLeft};
ghost use Rattle.childbus_board.specs.TallyCall.{CountedLeft, counted_left};

// The fresh board.
#[unsafe(no_mangle)]
pub extern "C" fn childbus_fresh(state: &mut [u8]) -> u32
    ensures { ◌≡◌ {A = FreshLeft} (record { number = result; state = state.new }) (fresh_left state.old) }
{
    childbus_board::childbus_fresh(state)
}

// A received frame.
#[unsafe(no_mangle)]
pub extern "C" fn childbus_receive(
    profile: &[u8],
    state: &mut [u8],
    address: u32,
    frame: &[u8],
    flash: &mut [u8],
    out: &mut [u8],
    made: &mut usize,
) -> u32
    ensures { ◌≡◌ {A = ReceivedLeft}
        (record { number = result; made = made.new; state = state.new; flash = flash.new; out = out.new })
        (received_left profile.now state.old address frame.now flash.old out.old) }
{
    childbus_board::childbus_receive(profile, state, address, frame, flash, out, made)
}

// A received frame, counted in the lent tally.
#[unsafe(no_mangle)]
pub extern "C" fn childbus_receive_tally(
    profile: &[u8],
    state: &mut [u8],
    address: u32,
    frame: &[u8],
    flash: &mut [u8],
    out: &mut [u8],
    tally: &mut [u8],
    made: &mut usize,
) -> u32
    ensures { ◌≡◌ {A = CountedLeft}
        (record {
          received = record {
            number = result;
            made = made.new;
            state = state.new;
            flash = flash.new;
            out = out.new;
          };
          tally = tally.new;
        })
        (counted_left profile.now state.old address frame.now flash.old out.old
        tally.old) }
{
    childbus_board::childbus_receive_tally(profile, state, address, frame, flash, out, tally, made)
}

// An I²C read.
#[unsafe(no_mangle)]
pub extern "C" fn childbus_read(
    profile: &[u8],
    state: &[u8],
    address: u32,
    flash: &[u8],
    out: &mut [u8],
    made: &mut usize,
) -> u32
    ensures { ◌≡◌ {A = ReadLeft} (record { number = result; made = made.new; out = out.new })
        (read_left profile.now state.now address flash.now out.old) }
{
    childbus_board::childbus_read(profile, state, address, flash, out, made)
}
