// The C boundary of what a technician must not miss: silence of a board that is well, lost bytes, a finalize that erased nothing, the end
// of an upload and pages that changed, as include/childbus.h declares them, over byte slices and numbers. A slice is a pointer and a length
// to C. No call has a `requires`: any bytes of any length get the answer that specs/ fixes. No byte is changed.
#![tactic(auto)]

ghost use Rattle.std.specs.Prelude.{◌≡◌};
ghost use Rattle.lost_bytes.specs.Lost.{upload_of};
ghost use Rattle.childbus_alarms.specs.Told.{SilenceTold};
ghost use Rattle.childbus_alarms.specs.Silence.{silent, ignored_silence, command_silence, silence_of, silence_number};
ghost use Rattle.childbus_alarms.specs.Code.{silence_code, told_code};
ghost use Rattle.childbus_alarms.specs.AlarmBytes.{flag, upload_at, lost_number, erased_nothing_number, end_number, upload_end_number};
ghost use Rattle.childbus_alarms.specs.AlarmBytes.{page_changed_number};

use byte_parts::byte_or;
use byte_slices::four_at;
use fields::{array_at, clip};
use frame_sizes::header_length;
use profile_bytes::profile_from;
use rules::kinds::{Reason, Verdict};
use state::{State, Upload};
use state_bytes::{STATE_BYTES, WAITING_AT, head_from};
use upload_ends::UploadEnd;

// Why a received frame got no reply, with its number in C, where 0 means that it is no silence.
#[derive(Clone, Copy, Debug, PartialEq, Eq)]
enum Silence {
    Running = 1,
    Short = 2,
    Long = 3,
    Crc = 4,
    Foreign = 5,
    General = 6,
    HardwareType = 7,
    Reset = 8,
    Start = 9,
}

impl Silence {
    fn number(self) -> u32
        ensures { result ≡ silence_code self }
    {
        self as u32
    }
}

// Whether a board call's number means that nothing was sent.
fn silent(number: u32) -> bool
    ensures { result ≡ silent number }
{
    matches!(number, 1 | 15..=18)
}

// Why a frame is ignored.
fn ignored_silence(reason: Reason) -> Silence
    ensures { silence_code result ≡ ignored_silence reason }
{
    match reason {
        Reason::Running => Silence::Running,
        Reason::Short => Silence::Short,
        Reason::Long => Silence::Long,
        Reason::WrongSum => Silence::Crc,
        Reason::Foreign(_) => Silence::Foreign,
        Reason::OtherGeneral => Silence::General,
    }
}

// Why a command has no reply.
fn command_silence(command: u8) -> Option<Silence>
    ensures { told_code result ≡ command_silence command }
{
    match command {
        0x01 => Some(Silence::HardwareType),
        0x05 => Some(Silence::Start),
        _ => None,
    }
}

// Why a frame with this verdict and command has no reply.
fn silence_of(v: Verdict, command: u8) -> Option<Silence>
    ensures { told_code result ≡ silence_of v command }
{
    match v {
        Verdict::Reset | Verdict::ResetAddress => Some(Silence::Reset),
        Verdict::Ignored(reason) => Some(ignored_silence(reason)),
        Verdict::BadTransfer | Verdict::BadSum => None,
        Verdict::Command => command_silence(command),
    }
}

// The number of a silence; 0 where there is none.
fn told(silence: Option<Silence>) -> u32
    ensures { result ≡ told_code silence }
{
    silence.map_or(0, Silence::number)
}

// Why a received frame got no reply.
#[tactic(auto, using(crate::proofs::SilenceLaws::verdict_clipped), unfolding(crate::specs::Silence::silence_number))]
pub fn childbus_silence(
    profile: &[u8],
    state: &[u8],
    address: u32,
    frame: &[u8],
    number: u32,
) -> u32
    ensures { result ≡ silence_number profile.now state.now address frame.now number }
{
    if !silent(number) {
        return 0;
    }
    let p = profile_from(profile);
    let bus = p.bus;
    let h = head_from(state);
    let own = h.address;
    let v = verdict::classify(bus, p.longest, h.running, own, clip(address), frame);
    told(silence_of(v, byte_or(frame, header_length(bus), 0)))
}

// Each silence of the board has its reason, and nothing else has one.
pub fn silence_told()
    ensures { SilenceTold }
{}

// The upload that bytes say.
#[tactic(auto, unfolding(crate::specs::AlarmBytes::upload_at))]
fn upload_from(b: &[u8]) -> Upload
    ensures { upload_of result ≡ upload_at b.now }
{
    if b.len() < STATE_BYTES {
        return Upload {
            next: 0,
            held: 0,
            count: 0,
            waiting: [0; State::LARGEST_PAGE],
        };
    }
    Upload {
        next: four_at(b, 4),
        held: four_at(b, 8),
        count: four_at(b, 12),
        waiting: array_at(b, WAITING_AT),
    }
}

// How many bytes are lost.
#[tactic(auto, using(crate::proofs::AlarmLaws::lost_most), unfolding(crate::specs::AlarmBytes::lost_number))]
pub fn childbus_lost(profile: &[u8], before: &[u8], after: &[u8], flash: &[u8]) -> u32
    ensures { result ≡ lost_number profile.now before.now after.now flash.now }
{
    let p = profile_from(profile);
    let n = lost_bytes::lost(p.offset, upload_from(before), upload_from(after), flash);
    n as u32
}

// 1 if so, else 0.
fn flag(b: bool) -> u32
    ensures { result ≡ flag b }
{
    u32::from(b)
}

// A finalize that erased nothing.
#[tactic(auto, unfolding(crate::specs::AlarmBytes::erased_nothing_number))]
pub fn childbus_erased_nothing(
    profile: &[u8],
    frame: &[u8],
    number: u32,
    reply: &[u8],
    after: &[u8],
) -> u32
    ensures { result ≡ erased_nothing_number profile.now frame.now number reply.now after.now }
{
    let p = profile_from(profile);
    let bus = p.bus;
    flag(alarms::erased_nothing(bus, frame, number as usize, reply, upload_from(after)))
}

// The end of an upload as a number.
fn end_number(e: UploadEnd) -> u32
    ensures { result ≡ end_number e }
{
    match e {
        UploadEnd::Whole => 0,
        UploadEnd::Partly => 1,
        UploadEnd::Unchanged => 2,
    }
}

// What the flash holds at the end of an upload.
#[tactic(auto, unfolding(crate::specs::AlarmBytes::upload_end_number))]
pub fn childbus_upload_end(profile: &[u8], image: &[u8], earlier: &[u8], flash: &[u8]) -> u32
    ensures { result ≡ upload_end_number profile.now image.now earlier.now flash.now }
{
    let p = profile_from(profile);
    end_number(upload_ends::upload_end(p.offset, p.size, image, earlier, flash))
}

// A page that changed.
#[tactic(auto, unfolding(crate::specs::AlarmBytes::page_changed_number))]
pub fn childbus_page_changed(profile: &[u8], page: u32, earlier: &[u8], flash: &[u8]) -> u32
    ensures { result ≡ page_changed_number profile.now page earlier.now flash.now }
{
    let p = profile_from(profile);
    flag(upload_ends::page_changed(p.page, p.offset, page as usize, earlier, flash))
}
