// For the bench: the bytes that it lends in one array, and which pages of the flash in it were rewritten.
#![tactic(auto)]

pub mod memory;
pub mod pages;
