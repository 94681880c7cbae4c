// The first word of a line: what the line does. docs/BENCH.md lists the lines.
#![tactic(auto)]

use bench_script::fields::is;

// Lines that set the bench up.
#[derive(Clone, Copy, PartialEq, Eq, Debug)]
pub enum SetupWord {
    Board,
    Flash,
    To,
    Damage,
    Application,
}

// Lines that show how the bench stands.
#[derive(Clone, Copy, PartialEq, Eq, Debug)]
pub enum ShowWord {
    State,
    Map,
    Help,
}

// Lines by which the master makes a request with arguments, sends a frame or reads.
#[derive(Clone, Copy, PartialEq, Eq, Debug)]
pub enum CallWord {
    Write,
    Read,
    SetAddress,
    Send,
    I2cRead,
}

// Lines of one word by which the master makes a request.
#[derive(Clone, Copy, PartialEq, Eq, Debug)]
pub enum PlainWord {
    Version,
    Info,
    Serial,
    Revision,
    Longest,
    Finalize,
    Start,
    Reset,
    ResetAddress,
    ResetRunning,
}

#[derive(Clone, Copy, PartialEq, Eq, Debug)]
pub enum Word {
    Setup(SetupWord),
    Show(ShowWord),
    Tally,
    Upload,
    Call(CallWord),
    Plain(PlainWord),
    Quit,
}

const WORDS: [(&str, Word); 26] = [
    ("board", Word::Setup(SetupWord::Board)),
    ("flash", Word::Setup(SetupWord::Flash)),
    ("to", Word::Setup(SetupWord::To)),
    ("damage", Word::Setup(SetupWord::Damage)),
    ("application", Word::Setup(SetupWord::Application)),
    ("state", Word::Show(ShowWord::State)),
    ("map", Word::Show(ShowWord::Map)),
    ("help", Word::Show(ShowWord::Help)),
    ("tally", Word::Tally),
    ("upload", Word::Upload),
    ("write", Word::Call(CallWord::Write)),
    ("read", Word::Call(CallWord::Read)),
    ("set-address", Word::Call(CallWord::SetAddress)),
    ("send", Word::Call(CallWord::Send)),
    ("i2c-read", Word::Call(CallWord::I2cRead)),
    ("version", Word::Plain(PlainWord::Version)),
    ("info", Word::Plain(PlainWord::Info)),
    ("serial", Word::Plain(PlainWord::Serial)),
    ("revision", Word::Plain(PlainWord::Revision)),
    ("longest", Word::Plain(PlainWord::Longest)),
    ("finalize", Word::Plain(PlainWord::Finalize)),
    ("start", Word::Plain(PlainWord::Start)),
    ("reset", Word::Plain(PlainWord::Reset)),
    ("reset-address", Word::Plain(PlainWord::ResetAddress)),
    ("reset-running", Word::Plain(PlainWord::ResetRunning)),
    ("quit", Word::Quit),
];

// The word with this name.
pub fn word_named(name: &[u8]) -> Option<Word> {
    let (_, word) = WORDS.iter().find(|entry| is(name, entry.0))?;
    Some(*word)
}
