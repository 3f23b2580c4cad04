// A state changed in its words by the start of a job.
ghost use Rattle.std.specs.Prelude.{◌≡◌, false, ◌+◌, ◌^◌, ◌≤◌, ◌<◌, length, set};
ghost use Rattle.model.specs.Limits.{most_jobs};
ghost use Rattle.model.specs.States.{range, started};
ghost use Rattle.model.specs.Edges.{availability};
ghost use Rattle.model.specs.Exploration.{state_words};
ghost use Rattle.model.specs.internal.Sorted.{Sorted, Ordered};
ghost use Rattle.states.specs.internal.Slots.{set_of, state_of};
ghost use Rattle.states.specs.internal.Writing.{after_start, OtherFinishesKept};

use crate::reading::{WORD, started_set};
use crate::sizes::SET_WORDS;

// A job that starts: when at the earliest, and when it finishes at the earliest and at the latest.
#[derive(Clone, Copy)]
pub struct JobStart {
    pub job: usize,
    pub start: u32,
    pub earliest: u32,
    pub latest: u32,
}

// The sorted availabilities once a job has started at s at the earliest and finishes at f: f takes the place of the first, and is carried to its own.
fn update_availability(l: &mut [u32], s: u32, f: u32)
    requires { (1 ≤ length l.old) × Sorted l.old }
    ensures { l.new ≡ availability s f l.old }
{
    let last = l.len() - 1;
    let mut carried = f;
    for j in 0..last {
        let x = s.max(l[j + 1]);
        l[j] = carried.min(x);
        carried = carried.max(x);
    }
    l[last] = carried;
}

// Adds job i, which has not started, with its finish range.
fn add_job(out: &mut [u32], m: usize, k: usize, i: usize, e: u32, f: u32)
    requires { (i < k) × (k ≤ most_jobs) × (state_words m k ≤ length out.old) × (set_of out.old < 2 ^ k)
        × (started (state_of m k out.old) i ≡ false) }
    ensures out_after { state_of m k out.new
        ≡ record { finish = set (state_of m k out.old).finish i (range e f); possibly_free = (state_of m k out.old).possibly_free; certainly_free = (state_of m k out.old).certainly_free } }
    ensures out_after_2 { set_of out.new ≡ set_of out.old + 2 ^ i }
    ensures other_finishes_kept { OtherFinishesKept m k i out.old out.new }
{
    let set = started_set(out) + (1u64 << i);
    out[0] = (set % WORD) as u32;
    out[1] = (set / WORD) as u32;
    out[SET_WORDS + 2 * m + i] = e;
    out[SET_WORDS + 2 * m + k + i] = f;
}

// Makes the successor of a state in its words. Those of other finish times stay, so that the state can be restored by its front.
pub fn start_job(out: &mut [u32], m: usize, k: usize, start: JobStart)
    requires { (start.job < k) × (k ≤ most_jobs) × (1 ≤ m) × (state_words m k ≤ length out.old) × (set_of out.old < 2 ^ k)
        × (started (state_of m k out.old) start.job ≡ false) × Ordered (state_of m k out.old) }
    ensures out_after { state_of m k out.new ≡ after_start (state_of m k out.old) start }
    ensures out_after_2 { set_of out.new ≡ set_of out.old + 2 ^ start.job }
    ensures other_finishes_kept { OtherFinishesKept m k start.job out.old out.new }
{
    let certainly = SET_WORDS + m;
    let finish = certainly + m;
    add_job(out, m, k, start.job, start.earliest, start.latest);
    update_availability(&mut out[SET_WORDS..certainly], start.start, start.earliest);
    update_availability(&mut out[certainly..finish], start.start, start.latest);
}
