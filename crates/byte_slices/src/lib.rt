// Lent bytes, whatever they hold: compared, stored, and read and written as numbers of one, two and four bytes.
#![tactic(auto)]

ghost use Rattle.std.specs.Prelude.{◌≡◌, ◌+◌, ◌≤◌, length};
ghost use Rattle.rules.specs.Bytes.{same, overlay, low_first};
ghost use Rattle.rules.specs.Frames.{two_bytes, number_at};
ghost use Rattle.byte_slices.specs.Four.{four_at, four_bytes};

// Whether two slices hold the same bytes.
// No chain: `next` gives a tag and a pointer, which lie otherwise at 32 bits (scripts/firmware). No `==`: 2 KB of code more there.
pub fn matches(a: &[u8], b: &[u8]) -> bool
    ensures { result ≡ same a.now b.now }
{
    if a.len() != b.len() {
        return false;
    }
    let mut equal = true;
    for (i, x) in a.iter().enumerate() {
        equal = equal & (*x == b[i]);
    }
    equal
}

// Lays the bytes over the places from at on.
pub fn store(d: &mut [u8], at: usize, bytes: &[u8])
    requires { at + length bytes.now ≤ length d.old }
    ensures { d.new ≡ overlay d.old at bytes.now }
{
    for (i, byte) in bytes.iter().enumerate() {
        d[at + i] = *byte;
    }
}

// A byte as a number of any size.
pub fn wide(x: u8) -> usize
    ensures { (result ≡ x) × (result ≤ 255) }
{
    usize::from(x)
}

// The number that two bytes from a place on stand for, high byte first.
pub fn number_at(b: &[u8], at: usize) -> usize
    requires { at + 2 ≤ length b.now }
    ensures { (result ≡ number_at b.now at) × (result ≤ 65535) }
{
    usize::from(u16::from_be_bytes([b[at], b[at + 1]]))
}

// A number in two bytes, high byte first.
pub fn two_bytes(n: usize) -> [u8; 2]
    requires { n ≤ 65535 }
    ensures { result ≡ two_bytes n }
{
    (n as u16).to_be_bytes()
}

// The same, low byte first.
pub fn low_first(n: u16) -> [u8; 2]
    ensures { result ≡ low_first n }
{
    n.to_le_bytes()
}

// The number that four bytes from a place on stand for, low byte first.
pub fn four_at(b: &[u8], at: usize) -> usize
    requires { at + 4 ≤ length b.now }
    ensures { result ≡ four_at b.now at }
{
    u32::from_le_bytes([b[at], b[at + 1], b[at + 2], b[at + 3]]) as usize
}

// Writes a number into four bytes from a place on, low byte first; what does not fit them is dropped.
pub fn store_four(b: &mut [u8], at: usize, n: usize)
    requires { at + 4 ≤ length b.old }
    ensures { b.new ≡ overlay b.old at (four_bytes n) }
{
    let bytes = ((n % 0x1_0000_0000) as u32).to_le_bytes();
    store(b, at, &bytes);
}
