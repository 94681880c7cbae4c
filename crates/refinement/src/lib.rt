// The demands of the code itself: what `board::receive` and `readout::read` return on a list of calls is what the claims speak of.
// The crate `replay` runs such a list.
#![tactic(auto)]

ghost use Rattle.refinement.specs.Met.{CodeMeetsDemands};

// For every list of calls, each of which does what the contract of `board::receive` or `readout::read` promises on the state and the flash
// that the last one left, from the fresh board with any flash: demands 1, 2 and 3. It does nothing.
pub fn code_meets_demands()
    ensures { CodeMeetsDemands }
{}
