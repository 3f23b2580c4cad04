// One state explored: its edges, and what each leaves in the half of the next level.
#![tactic(auto)]

pub mod explore;
pub mod observed;
pub mod shape;
pub mod stop;
pub mod successor;
