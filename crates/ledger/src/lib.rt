// Demand 3, stated where a reader meets it.
#![tactic(auto)]

ghost use Rattle.ledger.specs.Calls.{ruled};
ghost use Rattle.ledger.specs.Claim.{Demand3};
ghost use Rattle.ledger.specs.Reached.{BoundReached};

// For every list of calls from the fresh board with any flash, under any one profile: flash, counts and finished uploads
// are the ledger's, and the same upload again counts 0. It does nothing.
pub fn every_list()
    ensures { Demand3 ruled }
{}

// The bound on the count, n divided by the page plus f, is reached: E10 and E12. It does nothing.
pub fn bound_reached()
    ensures { BoundReached }
{}
