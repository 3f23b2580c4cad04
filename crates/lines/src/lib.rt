// The lines of a report, written into a buffer, and how long they are.
#![tactic(auto)]

pub mod lengths;
pub mod lines;
