// Parts of lent bytes and single bytes of them, for any numbers at all.
// By index: an `Option<&u8>`, as `get` gives it, would lie otherwise at 32 bits (scripts/firmware).
#![tactic(auto)]

ghost use Rattle.std.specs.Prelude.{◌≡◌, drop, get_or};
ghost use Rattle.byte_parts.specs.Parts.{part, stands_at};

// The bytes from a place on; none where that lies past the end.
pub fn from<'a>(bytes: &'a [u8], at: usize) -> &'a [u8]
    ensures { result.now ≡ drop at bytes.now }
{
    &bytes[at.min(bytes.len())..]
}

// The first n bytes, or as many as there are.
pub fn first<'a>(bytes: &'a [u8], n: usize) -> &'a [u8]
    ensures { result.now ≡ part 0 n bytes.now }
{
    &bytes[..n.min(bytes.len())]
}

// Whether the byte b stands at a place.
pub fn stands_at(bytes: &[u8], place: usize, b: u8) -> bool
    ensures { result ≡ stands_at bytes.now place b }
{
    place < bytes.len() && bytes[place] == b
}

// The byte at a place, or another where there is none.
pub fn byte_or(bytes: &[u8], place: usize, other: u8) -> u8
    ensures { result ≡ get_or bytes.now place other }
{
    if place < bytes.len() {
        bytes[place]
    } else {
        other
    }
}
