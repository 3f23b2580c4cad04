// The row of a note: what its record holds, and the number of the bell that it strikes.
pub const NOTE_WORDS: usize = 10;

pub const KEY: usize = 0;

pub const EARLIEST_RELEASE: usize = 1;

pub const LATEST_RELEASE: usize = 2;

pub const DEADLINE: usize = 3;

// How many jobs the note lists, then these.
pub const LISTED_COUNT: usize = 4;

pub const LISTED: usize = 5;

pub const STRUCK: usize = 9;
