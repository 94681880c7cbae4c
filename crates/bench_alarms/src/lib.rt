// What a call changed, and what must not be missed, in plain words for a technician.
#![tactic(auto)]

pub mod alarm;
pub mod changes;
