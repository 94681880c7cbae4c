// Lines of a script that set the bench up, and lines that show how it stands.
#![tactic(auto)]

mod boards;
pub mod setup;
pub mod shown;
pub mod tallies;
