// Text in lent bytes: the fields of a line read, parts, and a hash of bytes.
// Nothing here has a `requires`: any place in any slice gets an answer.
#![tactic(auto)]

pub mod hash;
pub mod part;
pub mod read;
