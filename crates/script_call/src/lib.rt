// One call of a script on the real board.
#![tactic(auto)]

ghost use Rattle.refinement.specs.Happened.{Promised};
ghost use Rattle.script.specs.Script.{input_by};

use answer::Answer;
use profile::Profile;
use state::State;

// One call of a script: kind 0 is a received frame, any other an I²C read. The kind is a record's byte, as `input_by` of specs/ has it.
pub fn call(
    p: Profile,
    s: State,
    kind: u8,
    address: u8,
    frame: &[u8],
    flash: &mut [u8],
    out: &mut [u8],
) -> Answer
    ensures { Promised p s flash.old
        (record {
          input = input_by kind address frame.now;
          before = out.old;
          after = out.new;
          answer = result;
          flash = flash.new;
        }) }
{
    if kind == 0 {
        board::receive(p, s, address, frame, flash, out)
    } else {
        readout::read(p, s, address, flash, out)
    }
}
