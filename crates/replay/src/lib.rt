// A list of calls run from lent bytes on the real board, with what is proved of it.
#![tactic(auto)]

ghost use Rattle.script.specs.Script.{Left};

use profile::Profile;
use script::{HEAD, frame_length};
use script_call::call;
use state::State;

// Runs a script, records of calls one after the other, on the real board from the fresh state: the state after its last call.
// All three demands hold of the calls that it makes, and what it leaves is the ledger's. What is not a whole record ends a script.
pub fn run(p: Profile, script: &[u8], flash: &mut [u8], out: &mut [u8]) -> State
    ensures { Left p script.now flash.old out.old result flash.new out.new }
{
    let mut s = State::fresh();
    let mut rest = script;
    while rest.len() >= HEAD {
        let n = frame_length(rest);
        let (_, behind) = rest.split_at(HEAD);
        if behind.len() < n {
            return s;
        }
        let (frame, next) = behind.split_at(n);
        let answer = call(p, s, rest[0], rest[1], frame, flash, out);
        s = answer.state;
        rest = next;
    }
    s
}
