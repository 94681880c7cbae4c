// The register of each check sum one byte further, by half bytes (W2): only here is it known how a byte is taken in. A caller binds the
// table once, outside its loop, and lends it.
#![tactic(auto)]

ghost use Rattle.std.specs.Prelude.{◌≡◌, true, List, ℕ, ◌^◌, ◌<◌, bit_xor};
ghost use Rattle.rules.specs.CheckSums.{Algorithm, crc8, crc16};
ghost use Rattle.crc_steps.specs.HalfBytes.{Halves, high_half, low_half, table_right, half_step, table_step, ByTable};
ghost use Rattle.crc_steps.specs.HalfBytes.{EightBitsByTable};

// Entry i is the register after four bits, from i in the high half.
const CRC8_TABLE: [u8; 16] = [
    0x00, 0x07, 0x0E, 0x09, 0x1C, 0x1B, 0x12, 0x15, 0x38, 0x3F, 0x36, 0x31, 0x24, 0x23, 0x2A, 0x2D,
];

// Entry i is the register after four bits, from i in the low half.
const CRC16_TABLE: [u16; 16] = [
    0x0000, 0xCC01, 0xD801, 0x1400, 0xF001, 0x3C00, 0x2800, 0xE401, 0xA001, 0x6C00, 0x7800, 0xB401,
    0x5000, 0x9C01, 0x8801, 0x4400,
];

// Eight bit steps are two table steps, whatever the polynomial. The function does nothing.
pub fn eight_bits_by_table()
    ensures { EightBitsByTable }
{}

// With the other half first the claim is false of both check sums: it says which half leaves first. The function does nothing.
pub fn other_half_first_fails()
    ensures { (ByTable 8 crc8 low_half → ⊥) × (ByTable 16 crc16 high_half → ⊥) }
{}

// The table of CRC-8. README.md names this function and the next.
pub fn crc8_table() -> [u8; 16]
    ensures { table_right crc8 high_half result ≡ true }
{
    CRC8_TABLE
}

// The table of CRC-16.
pub fn crc16_table() -> [u16; 16]
    ensures { table_right crc16 low_half result ≡ true }
{
    CRC16_TABLE
}

// The register of a check sum: the algorithm, the half that leaves it first, its width, and the number that it holds.
pub trait Register: Copy + Drop {
    type Table: Drop;

    ghost algorithm: { Algorithm };

    ghost halves: { Halves };

    ghost width: { ℕ };

    ghost number: { Self → ℕ };

    ghost entries: { Self.Table → List ℕ };

    // The table of the check sum.
    fn table() -> Self::Table
        ensures { table_right algorithm halves (entries result) ≡ true };

    // A byte added.
    fn with_byte(self, b: u8) -> Self
        ensures { number result ≡ bit_xor (number self) b };

    // Half a byte further.
    fn after_half(self, table: &Self::Table) -> Self
        ensures step { number result ≡ half_step halves (entries table.now) (number self) }
        ensures in_width { number result < 2 ^ width };

    // One byte further.
    #[tactic(auto, unfolding(crate::specs::HalfBytes::table_step))]
    final fn after_byte(self, table: &Self::Table, b: u8) -> Self
        ensures step { number result ≡ table_step halves (entries table.now) (number self) b }
        ensures in_width { number result < 2 ^ width }
    {
        self.with_byte(b).after_half(table).after_half(table)
    }
}

// The register of CRC-8: the high half leaves first.
impl Register for u8 {
    type Table = [u8; 16];

    ghost algorithm = { crc8 };

    ghost halves = { high_half };

    ghost width = { 8 };

    ghost number = { λ r. r };

    ghost entries = { λ t. t };

    fn table() -> [u8; 16] {
        crc8_table()
    }

    fn with_byte(self, b: u8) -> u8 {
        self ^ b
    }

    #[tactic(auto, unfolding(crate::specs::HalfBytes::half_step))]
    fn after_half(self, table: &[u8; 16]) -> u8 {
        (self << 4) ^ table[usize::from(self >> 4)]
    }
}

// The register of CRC-16: the low half leaves first.
impl Register for u16 {
    type Table = [u16; 16];

    ghost algorithm = { crc16 };

    ghost halves = { low_half };

    ghost width = { 16 };

    ghost number = { λ r. r };

    ghost entries = { λ t. t };

    fn table() -> [u16; 16] {
        crc16_table()
    }

    fn with_byte(self, b: u8) -> u16 {
        self ^ u16::from(b)
    }

    #[tactic(auto, unfolding(crate::specs::HalfBytes::half_step))]
    fn after_half(self, table: &[u16; 16]) -> u16 {
        (self >> 4) ^ table[usize::from(self % 16)]
    }
}
