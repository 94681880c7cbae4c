// The 64-bit FNV-1a hash, by which a program says what a large slice holds.
ghost use Rattle.std.specs.Prelude.{◌≡◌};
ghost use Rattle.text.specs.Hash.{basis, hashed_byte, hashed};

const BASIS: u64 = 0xcbf29ce484222325;

const PRIME: u64 = 0x100000001b3;

// The hash one byte further.
fn hash_byte(hash: u64, byte: u8) -> u64
    ensures { result ≡ hashed_byte hash byte }
{
    (hash ^ u64::from(byte)).wrapping_mul(PRIME)
}

// The hash of the bytes.
pub fn fnv1a(s: &[u8]) -> u64
    ensures { result ≡ hashed basis s.now }
{
    s.iter().fold(BASIS, |hash, byte| hash_byte(hash, *byte))
}
