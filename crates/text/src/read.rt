// Reading: the fields of a line are separated by one space.
ghost use Rattle.std.specs.Prelude.{◌≡◌, ◌==◌, ◌/◌, ◌<◌, ◌≤◌, length, position, IfSome, IsSome, is_some, option_copied};
ghost use Rattle.std.specs.List.{list_all};
ghost use Rattle.std.proofs.lemmas.List.Edits.{sets};
ghost use Rattle.text.specs.Read.{space, before, is_read, digit_of, extended, number_of, field_at, next_field, next_place};
ghost use Rattle.text.specs.Read.{numbers_at, place_after, place_read, hex_right, pair_value, hex_bytes, is_dash, BytesRead, HexRead};

// The fields of a line, in order. A wrong field gives None.
#[derive(Clone, Copy)]
pub struct Fields<'a> {
    pub line: &'a [u8],
    // where the next field begins: past the end of the line after its last field
    pub at: usize,
}

impl<'a> Fields<'a> {
    pub fn new(line: &'a [u8]) -> Self
        ensures line { result.line.now ≡ line.now }
        ensures place { result.at ≡ 0 }
    {
        Self { line, at: 0 }
    }

    // The next field, if there is one.
    pub fn next_field(&mut self) -> Option<&'a [u8]>
        ensures line { self.new.line.now ≡ self.old.line.now }
        ensures field { option_copied result ≡ next_field self.old.line.now self.old.at }
        ensures place { self.new.at ≡ next_place self.old.line.now self.old.at }
    {
        let rest = self.line.get(self.at..)?;
        let len = field_len(rest);
        self.at += len + 1;
        Some(&rest[..len])
    }

    // The next field, as a decimal number of at most `most`.
    pub fn number(&mut self, most: u32) -> Option<usize>
        ensures line { self.new.line.now ≡ self.old.line.now }
        ensures value { result ≡ number_of most (field_at self.old.line.now self.old.at) }
        ensures place { self.new.at ≡ next_place self.old.line.now self.old.at }
    {
        number(self.next_field()?, most)
    }

    // The numbers of the next N fields. After a wrong one no other is read.
    fn read_numbers<const N: usize>(&mut self, most: u32) -> Option<[usize; N]>
        ensures line { self.new.line.now ≡ self.old.line.now }
        ensures values { result ≡ numbers_at most self.old.line.now self.old.at N }
        ensures place { IsSome result → self.new.at ≡ place_after self.old.line.now self.old.at N }
        ensures stop { self.new.at ≡ place_read most self.old.line.now self.old.at N }
    {
        let mut values = [0usize; N];
        for value in values.iter_mut() {
            *value = self.number(most)?;
        }
        Some(values)
    }

    // The next N fields, as decimal numbers of at most `most`. The place is behind the last that was read.
    pub fn numbers<const N: usize>(&mut self, most: u32) -> Option<[usize; N]>
        ensures line { self.new.line.now ≡ self.old.line.now }
        ensures values { result ≡ numbers_at most self.old.line.now self.old.at N }
        ensures place { IsSome result → self.new.at ≡ place_after self.old.line.now self.old.at N }
        ensures stop { self.new.at ≡ place_read most self.old.line.now self.old.at N }
    {
        self.read_numbers(most)
    }

    // The next field, as a byte string: `-` for none, else pairs of hexadecimal digits. Gives how many bytes it has;
    // they are laid at the start of the output, which a wrong or longer one leaves as it is.
    pub fn hex(&mut self, out: &mut [u8]) -> Option<usize>
        ensures line { self.new.line.now ≡ self.old.line.now }
        ensures read { HexRead self.old.line.now self.old.at out.old result out.new }
        ensures place { self.new.at ≡ next_place self.old.line.now self.old.at }
    {
        bytes(self.next_field()?, out)
    }

    // Every field of the line was read.
    pub fn is_read(&self) -> bool
        ensures { result ≡ is_read self.now.line.now self.now.at }
    {
        self.at == self.line.len() + 1
    }
}

// Where the first space stands.
fn first_space(s: &[u8]) -> Option<usize>
    ensures { result ≡ position (λ x. x == space) s.now }
{
    s.iter().position(|b| *b == b' ')
}

// How many bytes come before the first space.
fn field_len(s: &[u8]) -> usize
    ensures value { result ≡ length (before space s.now) }
    ensures within { result ≤ length s.now }
{
    first_space(s).unwrap_or(s.len())
}

// The value of a hexadecimal digit in lower case.
fn digit(c: u8) -> Option<u8>
    ensures value { result ≡ digit_of c }
    ensures small { IfSome result (λ d. d < 16) }
{
    match c {
        b'0'..=b'9' => Some(c - b'0'),
        b'a'..=b'f' => Some(c - b'a' + 10),
        _ => None,
    }
}

// Whether a byte is a hexadecimal digit in lower case.
fn is_digit(c: u8) -> bool
    ensures { result ≡ is_some (digit_of c) }
{
    digit(c).is_some()
}

// A value and one decimal digit more.
fn extended(value: usize, c: u8, most: u32) -> Option<usize>
    requires { value ≤ most }
    ensures value { result ≡ extended most value (digit_of c) }
    ensures small { IfSome result (λ v. v ≤ most) }
{
    let d = usize::from(digit(c)?);
    let value = value * 10 + d;
    if 9 < d || (most as usize) < value {
        return None;
    }
    Some(value)
}

// The number that decimal digits spell; None over most, with another byte, or with no digit.
fn number(s: &[u8], most: u32) -> Option<usize>
    ensures { result ≡ number_of most s.now }
{
    if s.is_empty() {
        return None;
    }
    let mut value = 0;
    for c in s {
        value = extended(value, *c, most)?;
    }
    Some(value)
}

// Digits only.
fn are_digits(s: &[u8]) -> bool
    ensures { result ≡ list_all (λ c. is_some (digit_of c)) s.now }
{
    s.iter().all(|c| is_digit(*c))
}

// Pairs of digits only.
fn hex_right(s: &[u8]) -> bool
    ensures { result ≡ hex_right s.now }
{
    s.len() % 2 == 0 && are_digits(s)
}

// The byte of a pair of digits.
fn pair(high: u8, low: u8) -> u8
    ensures { result ≡ pair_value high low }
{
    digit(high).unwrap_or(0) * 16 + digit(low).unwrap_or(0)
}

// The bytes of pairs of digits.
fn lay_pairs(s: &[u8], out: &mut [u8])
    requires { length s.now / 2 ≤ length out.old }
    ensures { out.new ≡ sets out.old 0 (hex_bytes s.now) }
{
    for (k, digits) in s.chunks_exact(2).enumerate() {
        out[k] = pair(digits[0], digits[1]);
    }
}

// How many bytes a byte string has, laid at the start of the output; a wrong one, and one that is longer, leaves the output as it is.
fn bytes(s: &[u8], out: &mut [u8]) -> Option<usize>
    ensures { BytesRead s.now out.old result out.new }
{
    if is_dash(s) {
        return Some(0);
    }
    let n = s.len() / 2;
    if s.is_empty() || !hex_right(s) || out.len() < n {
        return None;
    }
    lay_pairs(s, out);
    Some(n)
}

// `-`
fn is_dash(s: &[u8]) -> bool
    ensures { result ≡ is_dash s.now }
{
    matches!(s, [b'-'])
}
