// How many words a state takes.
ghost use Rattle.std.specs.Prelude.{◌≡◌, ◌≤◌};
ghost use Rattle.model.specs.Limits.{most_jobs, most_cores};
ghost use Rattle.model.specs.Exploration.{state_words};

use model::limits::{MOST_CORES, MOST_JOBS};

// The words of the set of started jobs; the availabilities follow.
pub const SET_WORDS: usize = 2;

// The words of the longest front: what comes before the finish times.
pub const MOST_FRONT_WORDS: usize = SET_WORDS + 2 * MOST_CORES;

// The words of the largest state.
pub const MOST_STATE_WORDS: usize = SET_WORDS + 2 * MOST_CORES + 2 * MOST_JOBS;

// How many words a state takes.
pub fn state_words(m: usize, k: usize) -> usize
    requires { (m ≤ most_cores) × (k ≤ most_jobs) }
    ensures { result ≡ state_words m k }
{
    SET_WORDS + 2 * m + 2 * k
}
