// A frame that is neither general call, by length, check sum and address: what it is to a board, by name.
#![tactic(auto, unfolding(rules::specs::Frames::framing))]

ghost use Rattle.std.specs.Prelude.{◌≡◌};
ghost use Rattle.rules.specs.Frames.{framing};

use addressing::addressed;
use frame_sizes::shortest_request;
use rules::kinds::{Address, Bus, Reason, Verdict};

// An I²C write, by address, length and check sum.
pub fn i2c_framing(longest: usize, own: Address, to: u8, frame: &[u8]) -> Verdict
    ensures { result ≡ framing Bus.I2c longest own to frame.now }
{
    if to == 0 {
        return Verdict::Ignored(Reason::OtherGeneral);
    }
    if !addressed(Bus::I2c, own, to) {
        return Verdict::Ignored(Reason::Foreign(Bus::I2c));
    }
    if frame.len() < shortest_request(Bus::I2c) {
        return Verdict::BadTransfer;
    }
    if longest < frame.len() {
        return Verdict::BadTransfer;
    }
    if !crc::sum_right(Bus::I2c, frame) {
        return Verdict::BadSum;
    }
    Verdict::Command
}

// An RS485 frame, by length, check sum and address.
pub fn rs485_framing(longest: usize, own: Address, frame: &[u8]) -> Verdict
    ensures { result ≡ framing Bus.Rs485 longest own 0 frame.now }
{
    if frame.len() < shortest_request(Bus::Rs485) {
        return Verdict::Ignored(Reason::Short);
    }
    if longest < frame.len() {
        return Verdict::Ignored(Reason::Long);
    }
    if !crc::sum_right(Bus::Rs485, frame) {
        return Verdict::Ignored(Reason::WrongSum);
    }
    let to = frame[0];
    if to == 0 {
        return Verdict::Ignored(Reason::OtherGeneral);
    }
    if !addressed(Bus::Rs485, own, to) {
        return Verdict::Ignored(Reason::Foreign(Bus::Rs485));
    }
    Verdict::Command
}
