// A board and a master on one bench: what is remembered between lines, and one exchange of frames.
#![tactic(auto)]

mod application;
pub mod bench;
pub mod frames;
pub mod replies;
pub mod requests;
pub mod session;
