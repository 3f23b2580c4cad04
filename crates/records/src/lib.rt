// The records of bells and notes of a phrase file, read one after the other into their rows of the table.
#![tactic(auto)]

pub mod bells;
pub mod notes;
