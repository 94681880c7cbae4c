// For the bench: the lines of a script with their words, numbers and bytes.
#![tactic(auto)]

pub mod fields;
pub mod image;
pub mod lines;
