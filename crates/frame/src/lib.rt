// Frames as bytes, for board and master: closed, and taken apart.
#![tactic(auto)]

pub mod header;
pub mod reply;
pub mod request;
pub mod seal;
