// A reply that is read twice, which only I²C allows: the first read that decodes counts.
#![tactic(auto)]

ghost use Rattle.std.specs.Prelude.{◌≡◌};
ghost use Rattle.rules.specs.Master.{read_number, result_bytes, which_read};

use decoder::decode::decode;
use rules::kinds::Bus;
use rules::requests::{Decoded, Which};

// The result bytes: a part of the read that decodes, of the first if both do; an empty part if neither does.
// The contract gives the bytes and leaves open where they lie; that they are a part of that read is the form of the code (D50).
pub fn results<'a>(code: usize, asked: usize, first: &'a [u8], second: &'a [u8]) -> &'a [u8]
    ensures { result.now ≡ result_bytes code asked first.now second.now }
{
    let Decoded::Reply { status, start, len } = decode(Bus::I2c, code, 0, asked, first) else {
        let Decoded::Reply { status, start, len } = decode(Bus::I2c, code, 0, asked, second) else {
            return &first[0..0];
        };
        return &second[start..start + len];
    };
    &first[start..start + len]
}

// Which case it was.
pub fn which_read(code: usize, asked: usize, first: &[u8], second: &[u8]) -> Which
    ensures { read_number result ≡ which_read code asked first.now second.now }
{
    let Decoded::Reply { status, start, len } = decode(Bus::I2c, code, 0, asked, first) else {
        let Decoded::Reply { status, start, len } = decode(Bus::I2c, code, 0, asked, second) else {
            return Which::Neither;
        };
        return Which::Second;
    };
    Which::First
}
