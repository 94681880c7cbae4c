// Boards that are right but for one error, and the demand that refuses each. The functions do nothing.
#![tactic(auto)]

ghost use Rattle.std.specs.Prelude.{false, cond, List, [], ℕ, suc, eqb, ltb, set};
ghost use Rattle.rules.specs.Commands.{reserved};
ghost use Rattle.ledger.specs.Claim.{Demand3};
ghost use Rattle.demands.specs.Acceptance.{Demand2};
ghost use Rattle.demands.specs.Untouched.{Demand1};
ghost use Rattle.demands.specs.Replies.{EveryReply};
ghost use Rattle.address_claims.specs.Addresses.{NeverReserved};
ghost use Rattle.wrongboards.specs.Variations.{paged_by, VariedRight};
ghost use Rattle.wrongboards.specs.WrongBoards.{refuses_writes, ok_to_all, runs_after_write, keeps_flash, first_page_only, invents_count};
ghost use Rattle.wrongboards.specs.WrongBoards.{fixed_reply, pads_last_page, takes_half, invalid_crc_sent, counts_unchanged};
ghost use Rattle.wrongboards.specs.WrongBoards.{finalizes_on_start, refuses_finalizes, changes_reply, reads_as, obeys_foreign};
ghost use Rattle.wrongboards.specs.WrongBoards.{ignores_start, takes_foreign_type, silent_faults, answers_wrong, refused_erases};
ghost use Rattle.wrongboards.specs.WrongBoards.{reads_erase, writes_outside, grows_flash, erases_running, shows_count, counts_writes};
ghost use Rattle.wrongboards.specs.WrongBoards.{refuses_addresses, refuses_foreign_type, refuses_and_moves, keeps_top_bit};
ghost use Rattle.wrongboards.specs.WrongBoards.{numbers_ignored, sum_first, numbered_so, holds63};

// The variations that the wrong boards are made by are right themselves: with the rules' own parts they are the board of the rules.
pub fn varied_right()
    ensures { VariedRight }
{}

// A board that refuses all writes: demand 2, every write in order and in range is accepted.
pub fn refuses_writes()
    ensures { Demand2 refuses_writes → ⊥ }
{}

// A board that says OK to all writes: demand 2, the others are refused by name.
pub fn ok_to_all()
    ensures { Demand2 ok_to_all → ⊥ }
{}

// A board that calls itself running after its first write: demand 2, the second write in order is accepted too.
pub fn runs_after_write()
    ensures { Demand2 runs_after_write → ⊥ }
{}

// A board that keeps flash as it was: demand 3, the finished upload's bytes stand in flash.
pub fn keeps_flash()
    ensures { Demand3 keeps_flash → ⊥ }
{}

// A board that commits no page but the first and still replies OK: the same, with more than 64 bytes.
pub fn first_page_only()
    ensures { Demand3 first_page_only → ⊥ }
{}

// A board that invents its erase count: demand 3, the reply's count is the ledger's.
pub fn invents_count()
    ensures { Demand3 invents_count → ⊥ }
{}

// A board with a fixed reply, whatever its bytes: demand 2, version and read ask for two different ones.
pub fn fixed_reply()
    ensures { (bytes : List ℕ) → Demand2 (fixed_reply bytes) → ⊥ }
{}

// Padding the last page with 0xFF: demand 3, every other byte is as just before.
pub fn pads_last_page()
    ensures { Demand3 pads_last_page → ⊥ }
{}

// Half of a write past S is taken: demand 2, a refused write leaves flash as it was; and demand 3, flash equals the ledger's copy.
pub fn takes_half()
    ensures { (Demand2 takes_half → ⊥) × (Demand3 takes_half → ⊥) }
{}

// Sending INVALID_CRC on RS485: demand 2, a damaged frame gets no reply there.
pub fn invalid_crc_sent()
    ensures { Demand2 invalid_crc_sent → ⊥ }
{}

// Counting a commit that changed nothing: demand 3, the same upload again counts 0.
pub fn counts_unchanged()
    ensures { Demand3 counts_unchanged → ⊥ }
{}

// Finalizing on start: demand 3, flash equals the ledger's copy.
pub fn finalizes_on_start()
    ensures { Demand3 finalizes_on_start → ⊥ }
{}

// A board that refuses every finalize: demand 2, a finalize is answered OK with two results.
pub fn refuses_finalizes()
    ensures { Demand2 refuses_finalizes → ⊥ }
{}

// A finalize reply with a wrong length byte, or with a wrong check sum: the same.
pub fn wrong_finalize_reply()
    ensures { (Demand2 (changes_reply 0x07 (λ r. set r 1 3)) → ⊥) × (Demand2 (changes_reply 0x07 (λ r. set r 4 0)) → ⊥) }
{}

// I²C reads that always answer 1: demand 2, a read hands out the last reply.
pub fn reads_nothing()
    ensures { Demand2 (reads_as 1 (λ l. [])) → ⊥ }
{}

// Foreign writes and finalizes that are obeyed: demand 1, a foreign frame leaves flash as it was.
pub fn obeys_foreign()
    ensures { Demand1 obeys_foreign → ⊥ }
{}

// A start that is ignored: demand 2, after it every frame but the reset answers 1.
pub fn ignores_start()
    ensures { Demand2 ignores_start → ⊥ }
{}

// Set address with a foreign type that is taken: demand 2, every reply byte.
pub fn takes_foreign_type()
    ensures { EveryReply takes_foreign_type → ⊥ }
{}

// No INVALID_CRC and no INVALID_TRANSFER on I²C: the same.
pub fn silent_faults()
    ensures { EveryReply silent_faults → ⊥ }
{}

// Wrong answers to hardware info, serial, revision and longest frame: the same.
pub fn wrong_answers()
    ensures { (EveryReply (answers_wrong 0x03) → ⊥) × (EveryReply (answers_wrong 0x04) → ⊥) × (EveryReply (answers_wrong 0x09) → ⊥)
        × (EveryReply (answers_wrong 0x0c) → ⊥) }
{}

// Flash erased by a refused call: demand 1, it leaves flash as it was.
pub fn refused_erases()
    ensures { Demand1 refused_erases → ⊥ }
{}

// Flash erased by a read: demand 2, a read changes nothing.
pub fn reads_erase()
    ensures { Demand2 reads_erase → ⊥ }
{}

// A byte written outside the working flash: demand 3, those never change.
pub fn writes_outside()
    ensures { Demand3 writes_outside → ⊥ }
{}

// I²C reads that answer always, also with no last reply: demand 2, in any other case a read answers 1; and reads that hand out no byte of
// it: the last reply is handed out.
pub fn reads_wrong()
    ensures { (Demand2 (reads_as 0 (λ l. l)) → ⊥) × (Demand2 (reads_as 0 (λ l. [])) → ⊥) }
{}

// Flash erased while running: demand 2, after start nothing is changed.
pub fn erases_running()
    ensures { Demand2 erases_running → ⊥ }
{}

// A refused write that is counted: demand 2, it leaves the count as it was.
pub fn counts_writes()
    ensures { Demand2 counts_writes → ⊥ }
{}

// A byte more flash, after a finalize and after a version request: demand 3, the length stays.
pub fn grows_flash()
    ensures { (Demand3 (grows_flash 0x07) → ⊥) × (Demand3 (grows_flash 0x00) → ⊥) }
{}

// A state that shows no count, one more than the bytes, or the bytes: demand 3, the count is the ledger's, at most n, and at most the whole
// pages plus f.
pub fn shows_other_count()
    ensures { (Demand3 (shows_count (λ s. 0)) → ⊥) × (Demand3 (shows_count (λ s. suc s.upload.next)) → ⊥)
        × (Demand3 (shows_count (λ s. s.upload.next)) → ⊥) }
{}

// Set address that refuses no address, that tests it before the top bit is dropped, or that allows 7 on I²C: W1, no reserved address is
// ever the own address.
pub fn takes_reserved()
    ensures { (NeverReserved (refuses_addresses (λ bus a. false)) (λ s. s.address) → ⊥)
        × (NeverReserved (refuses_addresses reserved) (λ s. s.address) → ⊥)
        × (NeverReserved (refuses_addresses (λ bus a. ltb a 7)) (λ s. s.address) → ⊥) }
{}

// A reserved address that is refused and taken, and an address that is taken with its top bit on I²C: the same.
pub fn refuses_and_moves()
    ensures { (NeverReserved refuses_and_moves (λ s. s.address) → ⊥) × (NeverReserved keeps_top_bit (λ s. s.address) → ⊥) }
{}

// A board that refuses 247 on RS485, or 119 on I²C: demand 2, set address to any other than a reserved one is taken.
pub fn refuses_free_addresses()
    ensures { (Demand2 (refuses_addresses (λ bus a. ltb 246 a)) → ⊥) × (Demand2 (refuses_addresses (λ bus a. ltb 118 a)) → ⊥) }
{}

// A reserved address that is tested before the type: demand 2, another type gets no reply.
pub fn refuses_foreign_type()
    ensures { Demand2 refuses_foreign_type → ⊥ }
{}

// W3: a board that says 1 to every ignored frame, one that tests the CRC before the length, one that calls another general call foreign,
// and one that numbers frames while it runs: demand 2, a dropped frame gets the first of its numbers, and no other frame gets one.
pub fn wrong_silences()
    ensures { (Demand2 (numbers_ignored (λ f reason. 1)) → ⊥) × (Demand2 (numbers_ignored sum_first) → ⊥)
        × (Demand2 (numbers_ignored (numbered_so 1 18)) → ⊥) × (Demand2 (numbers_ignored (numbered_so 18 1)) → ⊥) }
{}

// W8: a board that goes by pages of 64 bytes whatever its profile says: demand 3, no commit at 64 under 128; and every reply, S of 192 is
// out of range under 128. One that takes a page of 96: every reply. One that holds 63 waiting bytes at most: demand 2, under 128 the
// write after 64 bytes is accepted too.
pub fn wrong_pages()
    ensures { (Demand3 (paged_by (λ page. 64)) → ⊥) × (EveryReply (paged_by (λ page. 64)) → ⊥)
        × (EveryReply (paged_by (λ page. cond (eqb page 96) 64 page)) → ⊥) × (Demand2 holds63 → ⊥) }
{}
