// What a command function hands back: a response and the head of the state, with the results laid straight into the lent buffer.
#![tactic(auto)]

ghost use Rattle.std.specs.Prelude.{◌≡◌, List, ℕ, ◌+◌, ◌≤◌, length};
ghost use Rattle.rules.specs.Frames.{two_bytes};
ghost use Rattle.rules.specs.Responses.{replying, ok};
ghost use Rattle.state.specs.View.{view};
ghost use Rattle.state.specs.Heads.{state_with};
ghost use Rattle.response.specs.Codes.{status_code};
ghost use Rattle.response.specs.Done.{command_effect, ruled_command};

use byte_slices::two_bytes;
use state::Head;

// The status of a reply, with its code.
#[derive(Clone, Copy)]
pub enum Status {
    Ok = 0,
    CommandNotSupported = 2,
    InvalidTransfer = 3,
    InvalidCrc = 4,
    InvalidArguments = 5,
}

impl Status {
    pub fn code(self) -> u8
        ensures { result ≡ status_code self }
    {
        self as u8
    }
}

// A status with so many results. The status is its code, a number, as `counted` of specs/ takes it from the rules' response.
#[derive(Clone, Copy)]
pub struct Response {
    pub status: u8,
    pub count: usize,
}

#[derive(Clone, Copy)]
pub struct Done {
    pub response: Option<Response>, // none: nothing to send
    pub head: Head,
}

// A status and its results; the state stays.
pub fn reply(h: Head, status: u8, results: &[u8], out: &mut [u8], at: usize) -> Done
    requires { at + length results.now ≤ length out.old }
    ensures { (w l d : List ℕ) → command_effect result w l d out.new
        ≡ ruled_command (replying (view (state_with h w l)) d status results.now) out.old at }
{
    let count = results.len();
    byte_slices::store(out, at, results);
    Done {
        response: Some(Response { status, count }),
        head: h,
    }
}

// A status and a number of two bytes.
pub fn reply_number(h: Head, n: usize, out: &mut [u8], at: usize) -> Done
    requires { (n ≤ 65535) × (at + 2 ≤ length out.old) }
    ensures { (w l d : List ℕ) → command_effect result w l d out.new
        ≡ ruled_command (replying (view (state_with h w l)) d ok (two_bytes n)) out.old at }
{
    let bytes = two_bytes(n);
    reply(h, Status::Ok.code(), &bytes, out, at)
}
