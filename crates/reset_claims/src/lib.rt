// W4, version 0.0 is a running program, stated where a reader meets it. The functions do nothing.
#![tactic(auto)]

ghost use Rattle.ledger.specs.Calls.{ruled};
ghost use Rattle.reset_claims.specs.Running.{WrittenForRunning, ResetsBoards, BootloaderKnown, AnswersAgain};
ghost use Rattle.reset_claims.specs.OfCode.{CodeResets};
ghost use Rattle.reset_claims.specs.WrongResets.{ignores_reset, resets_address, erases_flash, answers_zero, reads_zero, EveryReadKnown};

// The reset is written for version 0.0 alone, always then where M is in range and there is room, and is the encoder's.
pub fn written_for_running()
    ensures { WrittenForRunning }
{}

// It resets every board of its bus that answers none of 2 to 5, running or not.
pub fn resets_boards()
    ensures { ResetsBoards ruled }
{}

// A version reply of a bootloader is never taken for a running application's.
pub fn bootloader_known()
    ensures { BootloaderKnown ruled }
{}

// After the reset the version request is answered in the default range, by 2.2.
pub fn answers_again()
    ensures { AnswersAgain }
{}

// The same of the code: what it wrote, given to `board::receive`.
pub fn code_resets()
    ensures { CodeResets }
{}

// A board that hears no reset while its application runs, one that takes it for a reset address, and one that erases the flash: refuted.
pub fn wrong_resets()
    ensures { (ResetsBoards ignores_reset → ⊥) × (ResetsBoards resets_address → ⊥) × (ResetsBoards erases_flash → ⊥) }
{}

// A board that answers 0.0, and one whose reads say it: refuted.
pub fn wrong_versions()
    ensures { (BootloaderKnown answers_zero → ⊥) × (BootloaderKnown reads_zero → ⊥) }
{}

// On I²C a version request that got no reply leaves the last reply of another command to be read: the claim on reads needs its condition.
pub fn stale_read_fails()
    ensures { EveryReadKnown ruled → ⊥ }
{}
