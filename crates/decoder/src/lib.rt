// What the master reads: a reply taken apart.
#![tactic(auto)]

pub mod decode;
