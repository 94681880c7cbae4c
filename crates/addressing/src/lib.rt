// Document 01, "Frames and check sums": whether a destination is this board. W1: which addresses no board takes.
#![tactic(auto, unfolding(rules::specs::Frames::addressed))]

ghost use Rattle.std.specs.Prelude.{◌≡◌};
ghost use Rattle.rules.specs.Frames.{address_fits, answers_to, addressed};
ghost use Rattle.rules.specs.Commands.{reserved};

use rules::kinds::{Address, Bus};

// I²C addresses have 7 bits.
fn address_fits(bus: Bus, to: u8) -> bool
    ensures { result ≡ address_fits bus to }
{
    match bus {
        Bus::I2c => to < 128,
        Bus::Rs485 => true,
    }
}

// A board's own address, or its default range 8 to 15.
fn answers_to(own: Address, to: u8) -> bool
    ensures { result ≡ answers_to own to }
{
    match own {
        Address::DefaultRange => 8 <= to && to <= 15,
        Address::Own(b) => to == b,
    }
}

// A destination is this board. Address 0 is always the general call.
pub fn addressed(bus: Bus, own: Address, to: u8) -> bool
    ensures { result ≡ addressed bus own to }
{
    if to == 0 {
        return false;
    }
    address_fits(bus, to) && answers_to(own, to)
}

// Reserved addresses: 0 to 7 and 120 to 127 on I²C, 0 and 248 to 255 on RS485.
pub fn reserved(bus: Bus, a: usize) -> bool
    ensures { result ≡ reserved bus a }
{
    match bus {
        Bus::I2c => a <= 7 || 120 <= a && a <= 127,
        Bus::Rs485 => a == 0 || 248 <= a && a <= 255,
    }
}
