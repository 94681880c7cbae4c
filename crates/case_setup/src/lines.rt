// What a line says, by the letter that it begins with: what it sets, or the call that it makes.
use profile::Profile;
use rules::kinds::{Address, Bus};
use rules::requests::Request;
use state::{Last, State, Upload};
use std::num::TryFromIntError;
use tally::Tally;
use text::read::Fields;

// The largest number that a line holds.
const MOST: u32 = u32::MAX;

// The lines, by their letters.
#[derive(Clone, Copy, Debug, PartialEq, Eq)]
pub enum Letter {
    Profile,
    Flash,
    Fresh,
    State,
    Tally,
    Room,
    Receive,
    ReceiveCounted,
    Read,
    Encode,
    Decode,
    TwoReads,
    Version,
    Reset,
}

// A byte that begins no line.
#[derive(Clone, Copy, Debug, PartialEq, Eq)]
pub struct UnknownLetter(pub u8);

impl TryFrom<u8> for Letter {
    type Error = UnknownLetter;

    fn try_from(letter: u8) -> Result<Self, UnknownLetter> {
        Ok(match letter {
            b'P' => Letter::Profile,
            b'F' => Letter::Flash,
            b'Z' => Letter::Fresh,
            b'S' => Letter::State,
            b'K' => Letter::Tally,
            b'B' => Letter::Room,
            b'R' => Letter::Receive,
            b'C' => Letter::ReceiveCounted,
            b'I' => Letter::Read,
            b'E' => Letter::Encode,
            b'D' => Letter::Decode,
            b'T' => Letter::TwoReads,
            b'V' => Letter::Version,
            b'A' => Letter::Reset,
            _ => return Err(UnknownLetter(letter)),
        })
    }
}

impl Letter {
    // A call of the board, which needs a profile and a flash.
    pub fn needs_board(self) -> bool {
        matches!(
            self,
            Letter::Receive | Letter::ReceiveCounted | Letter::Read
        )
    }
}

// A flash of so many bytes: byte i is step * i + start, modulo 256.
#[derive(Clone, Copy)]
pub struct Flash {
    pub len: usize,
    pub step: u8,
    pub start: u8,
}

// A frame that the board receives, and the address beside it.
#[derive(Clone, Copy)]
pub struct Frame<'a> {
    pub address: u8,
    pub bytes: &'a [u8],
}

// A call of the board.
#[derive(Clone, Copy)]
pub enum BoardCall<'a> {
    Receive(Frame<'a>),
    ReceiveCounted(Frame<'a>),
    Read { address: u8 },
}

// A call of the master.
#[derive(Clone, Copy)]
pub enum MasterCall<'a> {
    Encode {
        bus: Bus,
        longest: usize,
        request: Request,
        destination: usize,
        given: &'a [u8],
    },
    Decode {
        bus: Bus,
        code: usize,
        address: usize,
        asked: usize,
        reply: &'a [u8],
    },
    TwoReads {
        code: usize,
        asked: usize,
        first: &'a [u8],
        second: &'a [u8],
    },
    Version {
        major: u8,
        minor: u8,
    },
    Reset {
        bus: Bus,
        longest: usize,
        major: u8,
        minor: u8,
    },
}

// A good line.
#[derive(Clone, Copy)]
pub enum Line<'a> {
    Profile(Profile),
    Flash(Flash),
    Fresh,
    State(State),
    Tally(Tally),
    Room(usize),
    Board(BoardCall<'a>),
    Master(MasterCall<'a>),
}

// Room for the byte strings of a line.
#[derive(Drop)]
pub struct Strings<'a> {
    pub first: &'a mut [u8],
    pub second: &'a mut [u8],
}

// A number, if its type has it.
fn number<T: TryFrom<usize, Error = TryFromIntError>>(fields: &mut Fields<'_>) -> Option<T> {
    T::try_from(fields.number(MOST)?).ok()
}

// 0 I²C, 1 RS485
fn bus(fields: &mut Fields<'_>) -> Option<Bus> {
    let number = u32::try_from(fields.number(MOST)?).ok()?;
    Bus::try_from(number).ok()
}

// 256 is the default range.
fn address(fields: &mut Fields<'_>) -> Option<Address> {
    let number = fields.number(256)?;
    Some(u8::try_from(number).map_or(Address::DefaultRange, Address::Own))
}

// 0 or 1
fn flag(fields: &mut Fields<'_>) -> Option<bool> {
    Some(fields.number(1)? == 1)
}

// A byte string, at the start of its room.
fn string<'a>(fields: &mut Fields<'_>, room: &'a mut [u8]) -> Option<&'a [u8]> {
    let len = fields.hex(room)?;
    room.get(..len)
}

// A byte string that fills its room.
fn whole<const N: usize>(fields: &mut Fields<'_>) -> Option<[u8; N]> {
    let mut room = [0; N];
    let len = fields.hex(&mut room)?;
    (len == N).then_some(room)
}

// P bus M page S O hardware compatible actual version serial
fn profile_line(fields: &mut Fields<'_>) -> Option<Profile> {
    let bus = bus(fields)?;
    let [longest, page, size, offset] = fields.numbers::<4>(MOST)?;
    let hardware = number(fields)?;
    let compatible = number(fields)?;
    let actual = number(fields)?;
    let version = number(fields)?;
    let mut given = [0; 40];
    let seriallen = fields.hex(&mut given)?;
    // a longer serial is out of range by its length
    let serial = *given.first_chunk()?;
    Some(Profile {
        bus,
        longest,
        page,
        size,
        offset,
        hardware,
        compatible,
        actual,
        version,
        serial,
        seriallen,
    })
}

// F len a b
fn flash_line(fields: &mut Fields<'_>) -> Option<Flash> {
    let len = fields.number(131072)?;
    let [a, b] = fields.numbers::<2>(MOST)?;
    Some(Flash {
        len,
        step: (a % 256) as u8,
        start: (b % 256) as u8,
    })
}

// S own running next w count replylen waiting reply
fn state_line(fields: &mut Fields<'_>) -> Option<State> {
    let address = address(fields)?;
    let running = flag(fields)?;
    let [next, held, count, len] = fields.numbers::<4>(MOST)?;
    let waiting = whole(fields)?;
    let bytes = whole(fields)?;
    Some(State {
        address,
        running,
        upload: Upload {
            next,
            held,
            count,
            waiting,
        },
        last: Last { len, bytes },
    })
}

// K short long crc foreign answered
fn tally_line(fields: &mut Fields<'_>) -> Option<Tally> {
    Some(Tally {
        short: number(fields)?,
        long: number(fields)?,
        sum: number(fields)?,
        foreign: number(fields)?,
        answered: number(fields)?,
    })
}

// The request of a line's numbers.
fn request_of(code: usize, a: usize, b: usize) -> Request {
    match code {
        0x01 => Request::SetAddress {
            address: a,
            hardware: b,
        },
        0x06 => Request::Write { address: a },
        0x08 => Request::Read {
            address: a,
            length: b,
        },
        260 => Request::ResetAddress,
        262 => Request::Reset,
        _ => Request::Plain(code),
    }
}

// E bus M code destination a b data
fn encode_line<'a>(fields: &mut Fields<'_>, room: &'a mut [u8]) -> Option<MasterCall<'a>> {
    let bus = bus(fields)?;
    let [longest, code, destination, a, b] = fields.numbers::<5>(MOST)?;
    Some(MasterCall::Encode {
        bus,
        longest,
        request: request_of(code, a, b),
        destination,
        given: string(fields, room)?,
    })
}

// D bus code address asked reply
fn decode_line<'a>(fields: &mut Fields<'_>, room: &'a mut [u8]) -> Option<MasterCall<'a>> {
    let bus = bus(fields)?;
    let code = fields.number(MOST)?;
    let address = fields.number(255)?;
    let asked = fields.number(MOST)?;
    Some(MasterCall::Decode {
        bus,
        code,
        address,
        asked,
        reply: string(fields, room)?,
    })
}

// T code asked first second
fn two_reads_line<'a>(fields: &mut Fields<'_>, strings: Strings<'a>) -> Option<MasterCall<'a>> {
    let [code, asked] = fields.numbers::<2>(MOST)?;
    Some(MasterCall::TwoReads {
        code,
        asked,
        first: string(fields, strings.first)?,
        second: string(fields, strings.second)?,
    })
}

// A bus M major minor
fn reset_line<'a>(fields: &mut Fields<'_>) -> Option<MasterCall<'a>> {
    Some(MasterCall::Reset {
        bus: bus(fields)?,
        longest: fields.number(MOST)?,
        major: number(fields)?,
        minor: number(fields)?,
    })
}

// address frame
fn frame_of<'a>(fields: &mut Fields<'_>, room: &'a mut [u8]) -> Option<Frame<'a>> {
    Some(Frame {
        address: number(fields)?,
        bytes: string(fields, room)?,
    })
}

// The fields after a letter, however the line goes on.
fn line_of<'a>(letter: Letter, fields: &mut Fields<'_>, strings: Strings<'a>) -> Option<Line<'a>> {
    Some(match letter {
        Letter::Profile => Line::Profile(profile_line(fields)?),
        Letter::Flash => Line::Flash(flash_line(fields)?),
        Letter::Fresh => Line::Fresh,
        Letter::State => Line::State(state_line(fields)?),
        Letter::Tally => Line::Tally(tally_line(fields)?),
        Letter::Room => Line::Room(fields.number(512)?),
        Letter::Receive => Line::Board(BoardCall::Receive(frame_of(fields, strings.first)?)),
        Letter::ReceiveCounted => Line::Board(BoardCall::ReceiveCounted(frame_of(
            fields,
            strings.first,
        )?)),
        Letter::Read => Line::Board(BoardCall::Read {
            address: number(fields)?,
        }),
        Letter::Encode => Line::Master(encode_line(fields, strings.first)?),
        Letter::Decode => Line::Master(decode_line(fields, strings.first)?),
        Letter::TwoReads => Line::Master(two_reads_line(fields, strings)?),
        Letter::Version => Line::Master(MasterCall::Version {
            major: number(fields)?,
            minor: number(fields)?,
        }),
        Letter::Reset => Line::Master(reset_line(fields)?),
    })
}

// What a line says after its letter, if its fields are those of the letter and no others.
pub fn read_line<'a>(
    letter: Letter,
    mut fields: Fields<'_>,
    strings: Strings<'a>,
) -> Option<Line<'a>> {
    let line = line_of(letter, &mut fields, strings)?;
    fields.is_read().then_some(line)
}
