// States in words: their sizes, how they are read and copied, and how they change by the start of a job and by a merge.
#![tactic(auto)]

pub mod copying;
pub mod merging;
pub mod reading;
pub mod sizes;
pub mod starting;
