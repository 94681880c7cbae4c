// An application that answers the version request with 0.0. To all else it is silent, as every application is to the library's board.
use crate::bench::Bench;
use addressing::addressed;
use frame_sizes::{header_length, shortest_request};
use rules::kinds::{Bus, Verdict};

// Version 0.0 has two result bytes, both 0.
const RESULTS: usize = 2;

// Whether the bootloader would take a frame for a command to this board.
fn is_command(bench: &Bench, address: u8, frame: &[u8]) -> bool {
    verdict::classify(
        bench.bus(),
        bench.profile.longest,
        false,
        bench.own(),
        address,
        frame,
    ) == Verdict::Command
}

// Whether a frame is a version request: the command is 0, and there are no arguments.
fn is_version(bus: Bus, frame: &[u8]) -> bool {
    frame.len() == shortest_request(bus) && frame.get(header_length(bus)) == Some(&0)
}

// Whether the application replies to a frame.
pub(crate) fn replies(bench: &Bench, address: u8, frame: &[u8]) -> bool {
    bench.answers
        && bench.state.running
        && is_version(bench.bus(), frame)
        && is_command(bench, address, frame)
}

// The application's reply to a request that was sent to this address, in an output of zeros: its length.
pub(crate) fn write_reply(bus: Bus, to: u8, out: &mut [u8; 256]) -> usize {
    frame::reply::close(bus, to, 0, RESULTS, out)
}

// Whether an I²C read at an address gets the application's last reply, which the board's state does not keep.
pub(crate) fn is_read(bench: &Bench, at: u8) -> bool {
    bench.bus() == Bus::I2c && bench.answered && addressed(Bus::I2c, bench.own(), at)
}
