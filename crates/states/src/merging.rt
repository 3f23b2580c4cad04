// Two states merged in their words.
ghost use Rattle.std.specs.Prelude.{◌≡◌, ◌+◌, ◌^◌, ◌≤◌, ◌<◌, leb, length};
ghost use mathlib.Core.List.{zip_with};
ghost use Rattle.model.specs.Folds.{every_two};
ghost use Rattle.model.specs.Exploration.{mergeable, merge, state_words};
ghost use Rattle.states.specs.internal.Slots.{set_of, state_of};
ghost use Rattle.states.specs.internal.Writing.{Widened};

use crate::reading::{Earliest, End, Latest, started_set};
use crate::sizes::SET_WORDS;

fn all_at_most(x: &[u32], y: &[u32]) -> bool
    requires { length x.now ≡ length y.now }
    ensures { result ≡ every_two leb x.now y.now }
{
    x.iter().zip(y).all(|(a, b)| a <= b)
}

// Whether two states can merge.
pub fn can_merge(a: &[u32], b: &[u32], m: usize, k: usize) -> bool
    requires { (state_words m k ≤ length a.now) × (state_words m k ≤ length b.now) × (set_of a.now < 2 ^ k) × (set_of b.now < 2 ^ k) }
    ensures { result ≡ mergeable (state_of m k a.now) (state_of m k b.now) }
{
    if started_set(a) != started_set(b) {
        return false;
    }
    let certainly = SET_WORDS + m;
    let finish = certainly + m;
    if !all_at_most(&a[SET_WORDS..certainly], &b[certainly..finish]) {
        return false;
    }
    all_at_most(&b[SET_WORDS..certainly], &a[certainly..finish])
}

// Moves one end of the ranges of d out to where those of s end too.
fn move_ends<E: End>(d: &mut [u32], s: &[u32])
    requires { length d.old ≡ length s.now }
    ensures { d.new ≡ zip_with E.outer_of d.old s.now }
{
    for (i, x) in s.iter().enumerate() {
        d[i] = E::outer(d[i], *x);
    }
}

// Widens n ranges of d from word a on, n lower ends before n upper ones, by those of s.
fn widen(d: &mut [u32], s: &[u32], a: usize, n: usize)
    requires { (a + n + n ≤ length d.old) × (a + n + n ≤ length s.now) }
    ensures { Widened a n d.old s.now d.new }
{
    let upper = a + n;
    let end = upper + n;
    move_ends::<Earliest>(&mut d[a..upper], &s[a..upper]);
    move_ends::<Latest>(&mut d[upper..end], &s[upper..end]);
}

// Merges state s, in which the same jobs have started, into state d.
pub fn merge_into(d: &mut [u32], s: &[u32], m: usize, k: usize)
    requires { (state_words m k ≤ length d.old) × (state_words m k ≤ length s.now) × (set_of d.old ≡ set_of s.now) }
    ensures d_after { state_of m k d.new ≡ merge (state_of m k d.old) (state_of m k s.now) }
    ensures d_unchanged { set_of d.new ≡ set_of d.old }
{
    widen(d, s, SET_WORDS, m);
    widen(d, s, SET_WORDS + 2 * m, k);
}
