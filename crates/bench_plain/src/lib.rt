// Lines of one word by which the master makes a request: commands without arguments, the general calls, and `reset-running`.
#![tactic(auto)]

use bench_exchange::bench::FIRST_ADDRESS;
use bench_exchange::session::Session;
use bench_script::fields::end;
use bench_words::PlainWord;
use rules::requests::Request;

mod running;

// A command without arguments.
fn plain(session: &mut Session, code: usize) {
    session.request(Request::Plain(code), true, 0..0);
}

// After a general call the master sends to the default range again.
pub(crate) fn after_general(session: &mut Session) {
    if session.bench.to != FIRST_ADDRESS {
        session.follow(FIRST_ADDRESS);
    }
}

// The two general calls.
fn reset(session: &mut Session, r: Request) {
    session.request(r, true, 0..0);
    after_general(session);
}

// A line of one word, after which nothing may follow.
pub fn run_line(session: &mut Session, word: PlainWord, s: &[u8]) {
    if end(&mut session.output, s).is_err() {
        return session.refuse("nothing after this word");
    }
    match word {
        PlainWord::Version => plain(session, 0x00),
        PlainWord::Info => plain(session, 0x03),
        PlainWord::Serial => plain(session, 0x04),
        PlainWord::Revision => plain(session, 0x09),
        PlainWord::Longest => plain(session, 0x0c),
        PlainWord::Finalize => plain(session, 0x07),
        PlainWord::Start => plain(session, 0x05),
        PlainWord::Reset => reset(session, Request::Reset),
        PlainWord::ResetAddress => reset(session, Request::ResetAddress),
        PlainWord::ResetRunning => running::reset_running(session),
    }
}
