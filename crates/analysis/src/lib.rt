// The analysis over a lent table.
#![tactic(auto)]

pub mod levels;
