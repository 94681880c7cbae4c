// What a technician must not miss after a call: silence that is no dead board, and a finalize that erased nothing. Lost and waiting bytes
// are decided in `lost_bytes`, the end of an upload in `upload_ends`. The bench only says them.
#![tactic(auto)]

ghost use Rattle.std.specs.Prelude.{◌≡◌};
ghost use Rattle.rules.specs.Frames as frames;
ghost use Rattle.alarms.specs.Alarms.{erased_nothing};

use byte_parts::byte_or;
use frame_sizes::header_length;
use rules::kinds::{Bus, Verdict};
use state::Upload;

// Silence that means no dead board: the frame changes nothing and gets no reply.
pub fn ignored(v: Verdict) -> bool
    ensures { result ≡ frames.ignored v }
{
    matches!(v, Verdict::Ignored(_))
}

// Erased nothing: the call, given by its frame, number and reply, is an answered finalize, and the erase count is 0.
pub fn erased_nothing(bus: Bus, frame: &[u8], number: usize, reply: &[u8], after: Upload) -> bool
    ensures { result ≡ erased_nothing bus frame.now number reply.now after.count }
{
    let place = header_length(bus);
    byte_or(frame, place, 0) == 0x07
        && number == 0
        && byte_or(reply, place, 1) == 0
        && after.count == 0
}
