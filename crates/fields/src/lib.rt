// What a byte layout is made of, beside the numbers and bytes of `byte_slices`: numbers of 32 bits that stand for a byte, and arrays.
#![tactic(auto)]

ghost use Rattle.std.specs.Prelude.{◌≡◌, ◌+◌, ◌≤◌, length};
ghost use Rattle.fields.specs.Fields.{clipped, part};

// A number over 255 is 255.
pub fn clip(x: u32) -> u8
    ensures { result ≡ clipped x }
{
    u8::try_from(x).unwrap_or(255)
}

// The N bytes from a place on.
pub fn array_at<const N: usize>(b: &[u8], at: usize) -> [u8; N]
    requires { at + N ≤ length b.now }
    ensures { result ≡ part b.now at N }
{
    let mut array = [0u8; N];
    byte_slices::store(&mut array, 0, &b[at..at + N]);
    array
}
