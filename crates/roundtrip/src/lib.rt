// The two halves fit, stated where a reader meets it. The functions do nothing.
#![tactic(auto)]

ghost use Rattle.roundtrip.specs.Understood.{RequestsUnderstood};
ghost use Rattle.roundtrip.specs.ReadBack.{RepliesRead};
ghost use Rattle.roundtrip.specs.Longest.{LongestMade};
ghost use Rattle.roundtrip.specs.UploadRoundtrip.{UploadRoundtrip};

// Every request that the encoder makes is taken by a board at its address as that very command with those very arguments.
pub fn requests_understood()
    ensures { RequestsUnderstood }
{}

// Every reply to such a request decodes to exactly the status and results that the board's rule says, and never to a refusal.
pub fn replies_read()
    ensures { RepliesRead }
{}

// The encoder makes a write of at most M - 4 data bytes (M - 6 on RS485) and a read of at most M - 3 results (M - 5), and refuses a longer
// one by 7.
pub fn longest_made()
    ensures { LongestMade }
{}

// An image of 1 to S bytes, written from zero in frames of any allowed lengths and finalized, is answered OK all along, stands in flash
// with every other byte as before, and reads back as its own bytes.
pub fn upload_roundtrip()
    ensures { UploadRoundtrip }
{}
