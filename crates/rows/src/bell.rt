// The row of a bell: what its record holds, and the key that it sounds for.
pub const BELL_WORDS: usize = 7;

pub const WRITTEN: usize = 0;

pub const TRANSPOSITION: usize = 1;

pub const LEAST_EXECUTION: usize = 2;

pub const MOST_EXECUTION: usize = 3;

pub const PRIORITY: usize = 4;

pub const REST: usize = 5;

pub const SOUNDING: usize = 6;
