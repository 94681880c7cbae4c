// The kinds that definitions and code share, and the worked examples as one statement.
// The meaning of the protocol stands in specs/, one file for each section of document 01.
#![tactic(auto)]

pub mod examples;
pub mod kinds;
pub mod requests;
