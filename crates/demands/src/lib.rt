// Demands 1 and 2, stated where a reader meets them. The functions do nothing.
#![tactic(auto)]

ghost use Rattle.ledger.specs.Calls.{ruled};
ghost use Rattle.demands.specs.Acceptance.{Demand2, StateRight};
ghost use Rattle.demands.specs.Untouched.{RefusedUntouched, IgnoredFrames, CallsKeepOutside, Demand1};
ghost use Rattle.demands.specs.Replies.{EveryReply};

// Demand 1: a call refused by number 2 or above hands back the given state, untouched flash and buffers.
pub fn refused_untouched()
    ensures { RefusedUntouched }
{}

// Demand 1: a foreign frame, or one with a wrong check sum, changes neither flash nor upload.
pub fn ignored_frames()
    ensures { IgnoredFrames }
{}

// Bytes of the lent flash outside O to O + S - 1 never change, whatever the call, the state and the flash.
pub fn outside_kept()
    ensures { CallsKeepOutside }
{}

// Demand 1 as a claim over any board, of the rules': a refused call, a foreign or a damaged frame leaves flash and count.
pub fn untouched()
    ensures { Demand1 ruled }
{}

// Demand 2: every reply byte.
pub fn every_reply()
    ensures { EveryReply ruled }
{}

// Demand 2 in any well-formed state, with no list before it.
pub fn state_right()
    ensures { StateRight }
{}

// Demand 2: every well-framed write in order and in range is accepted, the others are refused by name; and what other calls get.
pub fn acceptance()
    ensures { Demand2 ruled }
{}
