// A script, calls written in bytes: its records, and what running it leaves (specs/). `replay` runs one.
#![tactic(auto)]

ghost use Rattle.std.specs.Prelude.{◌≡◌, length, ◌≤◌};
ghost use Rattle.script.specs.Script.{head, frame_length};

use byte_slices::number_at;

// The bytes of a record before its frame: a kind, an address, a length in two bytes.
pub const HEAD: usize = 4;

// The length of the frame of the record that the bytes begin with.
pub fn frame_length(bytes: &[u8]) -> usize
    requires { head ≤ length bytes.now }
    ensures { result ≡ frame_length bytes.now }
{
    number_at(bytes, 2)
}
