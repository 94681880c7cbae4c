// Lines of a script by which the master makes requests with arguments, sends raw frames, reads, and uploads a whole image.
#![tactic(auto)]

pub mod calls;
pub mod uploads;
