// The exports of `childbus_alarms` for C: its functions under their own names, with the clauses that they have there, stated again.
#![tactic(auto)]

ghost use Rattle.std.specs.Prelude.{◌≡◌};
ghost use Rattle.childbus_alarms.specs.Silence.{silence_number};
ghost use Rattle.childbus_alarms.specs.AlarmBytes.{lost_number, erased_nothing_number, upload_end_number, page_changed_number};

// Why a received frame got no reply.
#[unsafe(no_mangle)]
pub extern "C" fn childbus_silence(
    profile: &[u8],
    state: &[u8],
    address: u32,
    frame: &[u8],
    number: u32,
) -> u32
    ensures { result ≡ silence_number profile.now state.now address frame.now number }
{
    childbus_alarms::childbus_silence(profile, state, address, frame, number)
}

// How many bytes are lost.
#[unsafe(no_mangle)]
pub extern "C" fn childbus_lost(profile: &[u8], before: &[u8], after: &[u8], flash: &[u8]) -> u32
    ensures { result ≡ lost_number profile.now before.now after.now flash.now }
{
    childbus_alarms::childbus_lost(profile, before, after, flash)
}

// A finalize that erased nothing.
#[unsafe(no_mangle)]
pub extern "C" fn childbus_erased_nothing(
    profile: &[u8],
    frame: &[u8],
    number: u32,
    reply: &[u8],
    after: &[u8],
) -> u32
    ensures { result ≡ erased_nothing_number profile.now frame.now number reply.now after.now }
{
    childbus_alarms::childbus_erased_nothing(profile, frame, number, reply, after)
}

// What the flash holds at the end of an upload.
#[unsafe(no_mangle)]
pub extern "C" fn childbus_upload_end(
    profile: &[u8],
    image: &[u8],
    earlier: &[u8],
    flash: &[u8],
) -> u32
    ensures { result ≡ upload_end_number profile.now image.now earlier.now flash.now }
{
    childbus_alarms::childbus_upload_end(profile, image, earlier, flash)
}

// A page that changed.
#[unsafe(no_mangle)]
pub extern "C" fn childbus_page_changed(
    profile: &[u8],
    page: u32,
    earlier: &[u8],
    flash: &[u8],
) -> u32
    ensures { result ≡ page_changed_number profile.now page earlier.now flash.now }
{
    childbus_alarms::childbus_page_changed(profile, page, earlier, flash)
}
