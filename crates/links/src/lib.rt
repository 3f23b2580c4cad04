// The spare words of a state: the finish times of the first job that has not started say nothing, so the index of a level keeps a head and a link there: the
// head nearer to the set, for it is read with each search. A state in which every job has started has none.
#![tactic(auto)]

ghost use Rattle.std.specs.Prelude.{◌≡◌, ℕ, ◌≤◌, ◌<◌, length};
ghost use Rattle.model.specs.Limits.{most_cores, most_jobs};
ghost use Rattle.model.specs.Exploration.{state_words};
ghost use Rattle.states.specs.internal.Slots.{set_of};
ghost use Rattle.links.specs.internal.Spare.{spare_of, word_of, Kept};

use states::reading::{End, started_set};
// The head stands in place of the earliest finish time, the link in place of the latest.
pub use states::reading::{Earliest as Head, Latest as Link};

// The set of all jobs.
const ALL_JOBS: u64 = 18446744073709551615;

// The first job that is not in the set.
fn spare_job(set: u64) -> usize
    ensures { result ≡ spare_of set }
{
    u64::trailing_zeros(ALL_JOBS - set) as usize
}

// The head or the link of a state.
pub fn spare_word<E: End>(s: &[u32], m: usize, k: usize) -> u32
    requires { (m ≤ most_cores) × (k ≤ most_jobs) × (state_words m k ≤ length s.now) × (spare_of (set_of s.now) < k) }
    ensures { result ≡ word_of E.at m k s.now }
{
    s[E::first_word(m, k) + spare_job(started_set(s))]
}

// Writes the head or the link of a state; the other stays.
pub fn write_spare_word<E: End>(s: &mut [u32], m: usize, k: usize, word: u32)
    requires { (m ≤ most_cores) × (k ≤ most_jobs) × (state_words m k ≤ length s.old) × (spare_of (set_of s.old) < k) }
    ensures kept { Kept m k s.old s.new }
    ensures s_after { (word_of E.at m k s.new ≡ word)
        × ((at : ℕ → ℕ → ℕ) → (at m k ≡ E.at m k → ⊥) → word_of at m k s.new ≡ word_of at m k s.old) }
{
    let at = E::first_word(m, k) + spare_job(started_set(s));
    s[at] = word;
}
