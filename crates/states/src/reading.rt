// States, read from their words.
ghost use Rattle.std.specs.Prelude.{ℕ, List, ◌+◌, ◌≡◌, ◌^◌, ◌≤◌, ◌<◌, length, get_or, min, max, refl};
ghost use mathlib.Core.Logic.{◌⊎◌, inl, inr};
ghost use native.Mathlib.Omega.{arith};
ghost use Rattle.model.specs.Limits.{most_jobs};
ghost use Rattle.model.specs.States.{Range, empty, range, earliest, latest, finish_of, started, level};
ghost use Rattle.model.specs.Exploration.{state_words};
ghost use Rattle.states.specs.internal.Slots.{set_words, earliest_at, latest_at, set_of, in_set, state_of};

use crate::sizes::SET_WORDS;

// How many values a word has.
pub const WORD: u64 = 4294967296;

// The set of started jobs.
pub fn started_set(s: &[u32]) -> u64
    requires { set_words ≤ length s.now }
    ensures { result ≡ set_of s.now }
{
    (s[0] as u64) + WORD * (s[1] as u64)
}

pub fn in_set(set: u64, i: usize) -> bool
    requires { i < most_jobs }
    ensures { result ≡ in_set set i }
{
    (set >> i) % 2 == 1
}

pub fn is_started(s: &[u32], m: usize, k: usize, i: usize) -> bool
    requires { (i < k) × (k ≤ most_jobs) × (set_words ≤ length s.now) }
    ensures { result ≡ started (state_of m k s.now) i }
{
    in_set(started_set(s), i)
}

// An end of ranges of moments.
pub trait End {
    // The end of a range; where the words of the finish times at this end begin, of which there are k; and this end of the smallest range that contains both
    // of two.
    ghost of: { Range → ℕ };

    ghost at: { ℕ → ℕ → ℕ };

    ghost outer_of: { ℕ → ℕ → ℕ };

    fn first_word(m: usize, k: usize) -> usize
        requires { state_words m k < 2 ^ 64 }
        ensures { result ≡ at m k };

    fn outer(a: u32, b: u32) -> u32
        ensures { result ≡ outer_of a b };

    ghost none: { of empty ≡ 0 };

    ghost read: { (m k : ℕ) (ws : List ℕ) (i : ℕ)
        → of (range (get_or ws (earliest_at m + i) 0) (get_or ws (latest_at m k + i) 0)) ≡ get_or ws (at m k + i) 0 };

    ghost inside: { (m k : ℕ) → at m k + k ≤ state_words m k };

    ghost either: { (m k : ℕ) → (at m k ≡ earliest_at m) ⊎ (at m k ≡ latest_at m k) };
}

// The earliest moments of ranges.
pub struct Earliest;

impl End for Earliest {
    ghost of = { earliest };

    ghost at = { λ m k. earliest_at m };

    ghost outer_of = { min };

    fn first_word(m: usize, k: usize) -> usize {
        SET_WORDS + 2 * m
    }

    fn outer(a: u32, b: u32) -> u32 {
        a.min(b)
    }

    ghost none = { refl };

    ghost read = { λ m k ws i. refl };

    ghost inside = { λ m k. Prim.omega arith };

    ghost either = { λ m k. inl refl };
}

// The latest moments of ranges.
pub struct Latest;

impl End for Latest {
    ghost of = { latest };

    ghost at = { latest_at };

    ghost outer_of = { max };

    fn first_word(m: usize, k: usize) -> usize {
        SET_WORDS + 2 * m + k
    }

    fn outer(a: u32, b: u32) -> u32 {
        a.max(b)
    }

    ghost none = { refl };

    ghost read = { λ m k ws i. refl };

    ghost inside = { λ m k. Prim.omega arith };

    ghost either = { λ m k. inr refl };
}

// An end of the finish range of job i: 0 where it has not started.
pub fn finish<E: End>(s: &[u32], m: usize, k: usize, i: usize) -> u32
    requires { (i < k) × (k ≤ most_jobs) × (state_words m k ≤ length s.now) }
    ensures { result ≡ E.of (finish_of (state_of m k s.now) i) }
{
    if is_started(s, m, k, i) {
        return s[E::first_word(m, k) + i];
    }
    0
}

// How many jobs have started.
pub fn level_of(s: &[u32], m: usize, k: usize) -> u32
    requires { (set_words ≤ length s.now) × (set_of s.now < 2 ^ k) }
    ensures { result ≡ level (state_of m k s.now) }
{
    u64::count_ones(started_set(s))
}
