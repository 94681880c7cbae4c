// Case files: what a line says, what the lines have set, and the fields of an answer.
#![tactic(auto)]

pub mod answers;
pub mod lines;
pub mod setup;
