// W3, the tally of received frames over every list of calls, stated where a reader meets it. The functions do nothing.
#![tactic(auto)]

ghost use Rattle.tally_claims.specs.Counting.{TallyRight, ruled_tally};
ghost use Rattle.tally_claims.specs.OfCode.{CodeCounts};
ghost use Rattle.tally_claims.specs.WrongTallies.{wraps, counts_reads, counts_running, reset_clears};

// Each counter is the smaller of 65,535 and its start plus the number of frames answered so, no counter falls, and on I²C only that of
// answered frames rises.
pub fn tally_right()
    ensures { TallyRight ruled_tally }
{}

// The same of the code: every list of calls of `tallied_board::receive` and `readout::read`; and of these calls the demands.
pub fn code_counts()
    ensures { CodeCounts }
{}

// A counter that wraps, reads that are counted, frames that are counted while running, and a tally that a reset clears: refuted.
pub fn wrong_tallies()
    ensures { (TallyRight wraps → ⊥) × (TallyRight counts_reads → ⊥) × (TallyRight counts_running → ⊥)
        × (TallyRight reset_clears → ⊥) }
{}
