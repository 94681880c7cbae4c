// Finished uploads, stated where a reader meets them. The functions do nothing.
#![tactic(auto)]

ghost use Rattle.ledger.specs.Calls.{ruled};
ghost use Rattle.wrongboards.specs.WrongBoards.{counts_unchanged};
ghost use Rattle.finished_uploads.specs.Uploads.{FinishedUploads};
ghost use Rattle.finished_uploads.specs.Between.{AllBetween};
ghost use Rattle.finished_uploads.specs.OfCode.{CodeFinishesUploads};
ghost use Rattle.finished_uploads.specs.Wrong.{CountsAlways, LaysAtZero, SurvivesReset, BeginsEarlier};
ghost use Rattle.finished_uploads.specs.Wrong.{loses_at_set_address, loses_at_flash_read, loses_at_ignored, loses_at_read, counts_on};

// For every list of calls, from any state and any flash: from an accepted write at 0 to an answered finalize, with no reset, the accepted
// writes one at 0 and then each where the last ended, the flash becomes the old one with the image laid over it at O; and where no earlier
// finalize found bytes waiting, the count answered is the number of changed pages.
pub fn every_upload()
    ensures { FinishedUploads ruled }
{}

// The same of the code: `board::receive` and `readout::read`.
pub fn code_finishes_uploads()
    ensures { CodeFinishesUploads }
{}

// What may stand in between: one list with a call of each kind is an upload.
pub fn all_between()
    ensures { AllBetween }
{}

// What does not hold: the count with a finalize that found bytes waiting, the image at 0 of the lent flash, the flash with a reset in
// between, and the flash as it was before an older upload's finalize.
pub fn wrong_claims()
    ensures { (CountsAlways → ⊥) × (LaysAtZero → ⊥) × (SurvivesReset → ⊥) × (BeginsEarlier → ⊥) }
{}

// Boards that lose waiting bytes at a set address, at a read of flash, at an ignored frame or at an I²C read, one that goes on counting at
// a write at 0, and one that counts pages that stay as they are: refuted.
pub fn wrong_boards()
    ensures { (FinishedUploads loses_at_set_address → ⊥) × (FinishedUploads loses_at_flash_read → ⊥)
        × (FinishedUploads loses_at_ignored → ⊥) × (FinishedUploads loses_at_read → ⊥)
        × (FinishedUploads counts_on → ⊥) × (FinishedUploads counts_unchanged → ⊥) }
{}
