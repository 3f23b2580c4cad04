// A state copied, or its front.
ghost use Rattle.std.specs.Prelude.{◌≡◌, ◌++◌, ◌≤◌, length, take, drop};
ghost use Rattle.model.specs.Limits.{most_cores, most_jobs};
ghost use Rattle.model.specs.Exploration.{state_words};
ghost use Rattle.states.specs.internal.Slots.{earliest_at, set_of, state_of};

use crate::sizes::{SET_WORDS, state_words};

// Copies the state that begins `src` to the front of `cur`.
pub fn load_state(cur: &mut [u32], src: &[u32], m: usize, k: usize)
    requires { (m ≤ most_cores) × (k ≤ most_jobs) × (state_words m k ≤ length cur.old) × (state_words m k ≤ length src.now) }
    ensures { (state_of m k cur.new ≡ state_of m k src.now) × (set_of cur.new ≡ set_of src.now) }
{
    let w = state_words(m, k);
    cur[0..w].copy_from_slice(&src[0..w]);
}

// Copies what comes before the finish times, the set and the availabilities, from the front of `src` to that of `dst`.
pub fn copy_front(dst: &mut [u32], src: &[u32], m: usize)
    requires { (m ≤ most_cores) × (earliest_at m ≤ length dst.old) × (earliest_at m ≤ length src.now) }
    ensures { dst.new ≡ take (earliest_at m) src.now ++ drop (earliest_at m) dst.old }
{
    let end = SET_WORDS + 2 * m;
    dst[0..end].copy_from_slice(&src[0..end]);
}
