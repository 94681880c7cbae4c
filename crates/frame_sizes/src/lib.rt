// What the two buses differ in: how many bytes stand before the command or the status, and how many in the check sum.
#![tactic(auto)]

ghost use Rattle.std.specs.Prelude.{◌≡◌};
ghost use Rattle.rules.specs.CheckSums.{sum_length};
ghost use Rattle.rules.specs.Frames.{header_length, shortest_request, shortest_reply};

use rules::kinds::Bus;

// What stands before the command or the status.
pub fn header_length(bus: Bus) -> usize
    ensures { result ≡ header_length bus }
{
    match bus {
        Bus::I2c => 0,
        Bus::Rs485 => 1,
    }
}

// The check sum.
pub fn sum_length(bus: Bus) -> usize
    ensures { result ≡ sum_length bus }
{
    match bus {
        Bus::I2c => 1,
        Bus::Rs485 => 2,
    }
}

// A request with no arguments.
pub fn shortest_request(bus: Bus) -> usize
    ensures { result ≡ shortest_request bus }
{
    header_length(bus) + 1 + sum_length(bus)
}

// A reply with no results.
pub fn shortest_reply(bus: Bus) -> usize
    ensures { result ≡ shortest_reply bus }
{
    header_length(bus) + 2 + sum_length(bus)
}
