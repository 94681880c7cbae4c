// What the master sends: a request, written into a lent output.
#![tactic(auto)]

pub mod encode;
