// W8, pages of 64 or 128 bytes, stated where a reader meets it. The functions do nothing.
#![tactic(auto)]

ghost use Rattle.ledger.specs.Calls.{ruled};
ghost use Rattle.wrongboards.specs.Variations.{paged_by};
ghost use Rattle.wrongboards.specs.WrongBoards.{keeps_flash};
ghost use Rattle.page_claims.specs.Pages.{SizesPaged, HandedIn, GoesOn, MultipleTakes, DivisorTakes};
ghost use Rattle.page_claims.specs.OfCode.{CodeHandedIn};
ghost use Rattle.page_claims.specs.WrongPages.{lays_at_page_start, keeps_waiting, takes_malformed};

// A profile that is not refused by number 2 has a page of 64 or 128 bytes, and S and O are multiples of it within the limits.
pub fn sizes_paged()
    ensures { SizesPaged }
{}

// A state, whatever page it was made under, is malformed by the profile's rule, or a finalize lays its waiting bytes at their own places.
pub fn handed_in()
    ensures { HandedIn ruled (λ s. s) }
{}

// An upload begun under one page and gone on under another, where its state is taken, stands in flash as a whole.
pub fn goes_on()
    ensures { GoesOn }
{}

// A state made under 64 bytes is taken under 128.
pub fn multiple_takes()
    ensures { MultipleTakes }
{}

// One made under 128 bytes need not be taken under 64.
pub fn divisor_fails()
    ensures { DivisorTakes → ⊥ }
{}

// The same of the code: `board::receive` and `readout::read`.
pub fn code_handed_in()
    ensures { CodeHandedIn }
{}

// A board that lays waiting bytes from the start of their page on, one that does not lay them, one that lays them and keeps them waiting,
// one that takes a malformed state, and one that judges by pages of 64 bytes: refuted.
pub fn wrong_pages()
    ensures { (HandedIn lays_at_page_start (λ s. s) → ⊥) × (HandedIn keeps_flash (λ s. s) → ⊥)
        × (HandedIn keeps_waiting (λ s. s) → ⊥) × (HandedIn takes_malformed (λ s. s) → ⊥)
        × (HandedIn (paged_by (λ page. 64)) (λ s. s) → ⊥) }
{}
