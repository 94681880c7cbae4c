// A command's bytes, written into a lent output that has room for them.
ghost use Rattle.std.specs.Prelude.{[], ◌∷◌, ◌++◌, ◌+◌, ◌<◌, ◌≤◌, length, take};
ghost use Rattle.rules.specs.Frames.{header, header_length, shortest_request, request};
ghost use Rattle.request_bytes.specs.Making.{Makes};

use frame::header::write_header;
use rules::kinds::Bus;

// What stands before the arguments: (RS485: the address,) the command.
fn write_front(bus: Bus, destination: usize, code: usize, out: &mut [u8]) -> usize
    requires { (destination < 256) × (code < 256) × (header_length bus + 1 ≤ length out.old) }
    ensures { Makes (header bus destination ++ code ∷ []) out.old out.new result }
{
    let n = write_header(bus, destination as u8, out);
    out[n] = code as u8;
    n + 1
}

// More bytes behind the first n.
fn append(out: &mut [u8], n: usize, more: &[u8]) -> usize
    requires { n + length more.now ≤ length out.old }
    ensures { Makes (take n out.old ++ more.now) out.old out.new result }
{
    byte_slices::store(out, n, more);
    n + more.len()
}

// A command with its arguments, which are lent in two parts.
pub(crate) fn write_command(
    bus: Bus,
    destination: usize,
    code: usize,
    first: &[u8],
    second: &[u8],
    out: &mut [u8],
) -> usize
    requires { (destination < 256) × (code < 256)
        × (shortest_request bus + length first.now + length second.now ≤ length out.old) }
    ensures { Makes (request bus destination code (first.now ++ second.now)) out.old
        out.new result }
{
    let front = write_front(bus, destination, code, out);
    let more = append(out, front, first);
    let all = append(out, more, second);
    frame::seal::seal(bus, out, all)
}
