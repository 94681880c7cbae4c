// What the master's calls take and answer. Each variant of an answer stands for one of document 01's numbers.

// A request to encode, with just the arguments that it has; a write's data bytes are lent beside it.
#[derive(Clone, Copy, Debug, PartialEq, Eq)]
pub enum Request {
    // A command with no arguments, by its code.
    Plain(usize),
    // 0x01 set address: the new address, and the hardware type.
    SetAddress { address: usize, hardware: usize },
    // 0x06 write: a flash address.
    Write { address: usize },
    // 0x08 read: a flash address, and how many bytes.
    Read { address: usize, length: usize },
    // The first general call of each pair: default range again.
    ResetAddress,
    // The second: reset.
    Reset,
}

// Why the encoder makes no request; else its answer is 0, and a request of so many bytes stands in the lent output.
#[derive(Clone, Copy, Debug, PartialEq, Eq)]
pub enum EncodeError {
    // 2, of M alone.
    FrameOutOfRange,
    // 6
    OutputTooShort,
    // 7
    ArgumentOutOfRange,
}

// The answers of the decoder. One enum of the reply and its refusals, which `let .. else` opens: the form that the project names for it.
#[derive(Clone, Copy, Debug, PartialEq, Eq)]
pub enum Decoded {
    // 0: a status, and where the results lie in the lent reply.
    Reply {
        status: u8,
        start: usize,
        len: usize,
    },
    // 7: the command is not served.
    NotServed,
    // 8
    TooShort,
    // 9
    SumWrong,
    // 10
    OtherAddress,
    // 11
    LengthWrong,
    // 12
    StatusUnknown,
    // 13
    ResultsMissing,
}

// Which of two reads of one reply the results are a part of.
#[derive(Clone, Copy, Debug, PartialEq, Eq)]
pub enum Which {
    First,
    Second,
    Neither,
}

// A version of the protocol.
#[derive(Clone, Copy, Debug, PartialEq, Eq)]
pub struct Version {
    pub major: u8,
    pub minor: u8,
}

// Why the version rule knows no version; else its answer is 0, and the version that a board's answer counts as.
#[derive(Clone, Copy, Debug, PartialEq, Eq)]
pub enum VersionError {
    // 40: 0.0, an application's.
    ApplicationRunning,
    // 14
    Unknown,
}

// Why no reset is written for a running application; else the answer is 0, and a reset of so many bytes stands in the lent output.
#[derive(Clone, Copy, Debug, PartialEq, Eq)]
pub enum ResetError {
    // 1: the bootloader runs; there is nothing to write.
    VersionKnown,
    // 2, of M alone.
    FrameOutOfRange,
    // 14
    VersionUnknown,
    // 6
    OutputTooShort,
}
