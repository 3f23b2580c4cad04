// Numbers and records of the phrase file, put into bytes.
#![tactic(auto)]

pub mod bells;
pub mod head;
pub mod notes;
pub mod numbers;
