// Document 01, "Reply": (RS485: the request's address,) status, number of results, results, check sum.
ghost use Rattle.std.specs.Prelude.{◌≡◌, ◌+◌, ◌<◌, ◌≤◌, length};
ghost use Rattle.rules.specs.Frames.{header_length, shortest_reply};
ghost use Rattle.rules.specs.Master.{status_of, count_of};
ghost use Rattle.frame.specs.Reply.{Closing};

use crate::header::write_header;
use crate::seal::seal;
use byte_slices::{store, wide};
use frame_sizes::header_length;
use rules::kinds::Bus;

// Lays header, status and count before the results, which stand in the buffer already, and seals the reply. Answers the reply's length.
pub fn close(bus: Bus, to: u8, status: u8, count: usize, out: &mut [u8]) -> usize
    requires { (count ≤ 255) × (count + shortest_reply bus ≤ length out.old) }
    ensures { Closing bus to status count out.old out.new result }
{
    let n = (count % 256) as u8;
    let head = write_header(bus, to, out);
    store(out, head, &[status, n]);
    seal(bus, out, head + 2 + count)
}

// The status of a reply.
pub fn status(bus: Bus, reply: &[u8]) -> u8
    requires { header_length bus < length reply.now }
    ensures { result ≡ status_of bus reply.now }
{
    reply[header_length(bus)]
}

// Its length byte: how many results it has.
pub fn count(bus: Bus, reply: &[u8]) -> usize
    requires { header_length bus + 1 < length reply.now }
    ensures { (result ≡ count_of bus reply.now) × (result ≤ 255) }
{
    wide(reply[header_length(bus) + 1])
}

// Where its results begin.
pub fn results_start(bus: Bus) -> usize
    ensures { result ≡ header_length bus + 2 }
{
    header_length(bus) + 2
}
