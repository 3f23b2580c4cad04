// The sizes that a phrase may have: those of specs/Limits.
pub const MOST_CORES: usize = 8;

pub const MOST_JOBS: usize = 64;

pub const LONGEST_EXECUTION: u32 = 5000;

pub const LONGEST_REST: u32 = 5000;

pub const LATEST_TIME: u32 = 3600000;
