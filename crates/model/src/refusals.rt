// Refusals, and their numbers: those of specs/Refusals, which has a word on each.

ghost use Rattle.std.specs.Prelude.{◌≡◌};

// What is refused: the number says why, the place where.
#[derive(Clone, Copy)]
pub struct Refusal {
    pub number: u32,
    pub place: usize,
}

// The answer of what is refused so.
pub fn refuse<T>(number: u32, place: usize) -> Result<T, Refusal>
    ensures { result ≡ Err (record { number = number; place = place }) }
{
    Err(Refusal { number, place })
}

pub const WRONG_VERSION: u32 = 1;

pub const WRONG_COUNT: u32 = 2;

pub const WRONG_END: u32 = 3;

pub const WRONG_CORES: u32 = 4;

pub const WRONG_BELL_COUNT: u32 = 5;

pub const WRONG_BELL: u32 = 6;

pub const DOUBLED_KEY: u32 = 7;

pub const TOO_MANY_NOTES: u32 = 8;

pub const WRONG_NOTE_LENGTH: u32 = 9;

pub const SILENT_KEY: u32 = 10;

pub const WRONG_TIMES: u32 = 11;

pub const WRONG_LISTED: u32 = 12;

pub const LEVEL_FULL: u32 = 13;

pub const LATE_JOB: u32 = 14;

pub const SHORT_BUFFER: u32 = 15;

pub const SHORT_FILE: u32 = 16;

pub const WRONG_PLAYING: u32 = 17;

pub const OUTSIDE_RANGE: u32 = 18;

pub const WRONG_SHIFT: u32 = 19;
