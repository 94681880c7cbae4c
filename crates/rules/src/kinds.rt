// What a board or a master tells apart by name: the bus, the addresses of a board, the verdict on a frame, the answers of the calls.

ghost use Rattle.rules.specs.Buses.{BusNumbered};

// Document 01, "bus": I²C or RS485.
#[derive(Clone, Copy, Debug, PartialEq, Eq)]
pub enum Bus {
    I2c,
    Rs485,
}

// A number that no bus has.
#[derive(Clone, Copy, Debug, PartialEq, Eq)]
pub struct UnknownBus(pub u32);

// 0 is I²C, 1 RS485.
impl TryFrom<u32> for Bus {
    type Error = UnknownBus;

    ghost try_from_gives = { BusNumbered };

    fn try_from(number: u32) -> Result<Self, UnknownBus> {
        match number {
            0 => Ok(Bus::I2c),
            1 => Ok(Bus::Rs485),
            _ => Err(UnknownBus(number)),
        }
    }
}

// Document 01, "own address or default range".
#[derive(Clone, Copy, Debug, PartialEq, Eq)]
pub enum Address {
    DefaultRange,
    Own(u8),
}

// Why a frame gets no reply and changes nothing.
#[derive(Clone, Copy, Debug, PartialEq, Eq)]
pub enum Reason {
    // Any frame but the reset while the application runs.
    Running,
    // RS485: shorter than any request.
    Short,
    // RS485: longer than M.
    Long,
    // RS485: wrong check sum.
    WrongSum,
    // For another board, by the bus it came on.
    Foreign(Bus),
    // A general call that is neither of the two.
    OtherGeneral,
}

// What a received frame is to a board, before its answer's number.
#[derive(Clone, Copy, Debug, PartialEq, Eq)]
pub enum Verdict {
    // The second general call: reset.
    Reset,
    // The first general call: reset address.
    ResetAddress,
    // No reply, and nothing changes.
    Ignored(Reason),
    // I²C: INVALID_TRANSFER.
    BadTransfer,
    // I²C: INVALID_CRC.
    BadSum,
    // A well-framed command to this board.
    Command,
}

// The answers of a board call.
#[derive(Clone, Copy, Debug, PartialEq, Eq)]
pub enum Outcome {
    // A reply of so many bytes stands in the lent buffer.
    Reply(usize),
    Nothing,
    ProfileOutOfRange,
    FlashTooShort,
    StateMalformed,
    BufferTooShort,
    // W3, on RS485: why a received frame gets no reply.
    FrameTooShort,
    FrameTooLong,
    FrameSumWrong,
    FrameForeign,
}
