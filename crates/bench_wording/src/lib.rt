// What answers and replies mean, in plain words for a technician.
#![tactic(auto)]

pub mod meaning;
pub mod reply;
