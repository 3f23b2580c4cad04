// The row of a job.
use model::limits::MOST_JOBS;

pub const ROW_WORDS: usize = 16;

pub const EARLIEST_RELEASE: usize = 0;

pub const LATEST_RELEASE: usize = 1;

pub const LEAST_EXECUTION: usize = 2;

pub const MOST_EXECUTION: usize = 3;

pub const DEADLINE: usize = 4;

pub const PRIORITY: usize = 5;

pub const PREDECESSOR_COUNT: usize = 6;

pub const PREDECESSORS: usize = 7;

// The rest of its bell.
pub const REST: usize = 12;

pub const BELL: usize = 13;

pub const LISTED_COUNT: usize = 14;

pub const SPARE: usize = 15;

// The rows of the most jobs.
pub const JOB_TABLE: usize = MOST_JOBS * ROW_WORDS;
