// The state that an edge makes.
ghost use Rattle.std.specs.Prelude.{◌≡◌, false, List, ℕ, ◌*◌, ◌^◌, ◌≤◌, ◌<◌, length};
ghost use Rattle.model.specs.Limits.{most_cores, most_jobs, latest_time};
ghost use Rattle.model.specs.Jobs.{Job};
ghost use Rattle.model.specs.States.{Range, started, level};
ghost use Rattle.model.specs.Exploration.{state_words, limited, stored};
ghost use Rattle.model.specs.internal.Sorted.{Ordered};
ghost use Rattle.model.specs.internal.Bounds.{Bounded};
ghost use Rattle.states.specs.internal.Slots.{set_of, states_of, Sound};
ghost use Rattle.states.specs.internal.Writing.{after_start, Restored};
ghost use Rattle.store.specs.internal.Half.{SetsFit};
ghost use Rattle.steps.specs.internal.Progress.{state_in, progress_of, Half, HalfAt, IndexOf, Linkable, FrontOf};

use crate::shape::Shape;
use crate::stop::Stop;
use states::copying::copy_front;
use states::reading::level_of;
use states::starting::{JobStart, start_job};
use store::store_state;

// Stores a state in the half, which holds n states and has an index.
pub fn store_new(
    half: &mut [u32],
    heads: &mut [u32],
    n: usize,
    new: &[u32],
    shape: Shape,
) -> Result<usize, Stop>
    requires jobs_le_most_jobs { (shape.jobs ≤ most_jobs) × (shape.cores ≤ most_cores) × (state_words shape.cores shape.jobs ≤ length new.now)
        × (set_of new.now < 2 ^ shape.jobs) × (0 < shape.index.linked → level (state_in shape new.now) < shape.jobs) }
    requires jobs_value { (shape.capacity * state_words shape.cores shape.jobs ≡ length half.old) × (n ≤ shape.capacity)
        × SetsFit shape.cores shape.jobs half.old n × IndexOf shape half.old heads.old n }
    ensures half_after { (seen : List Range) (c : ℕ) → progress_of shape.cores shape.jobs seen c result half.new
        ≡ limited shape.capacity (state_in shape new.now)
        (stored (state_in shape new.now) (states_of shape.cores shape.jobs half.old n)) seen c }
    ensures half_at { (js : List Job) → Half js shape.cores shape.jobs shape.capacity half.old n
        → Sound js shape.cores shape.jobs new.now → HalfAt js shape result half.new heads.new }
{
    let m = shape.cores;
    let k = shape.jobs;
    match store_state(half, heads, n, shape.capacity, new, m, k, shape.index) {
        Some(stored) => Ok(stored),
        None => Err(Stop::Full(level_of(new, m, k))),
    }
}

// Stores the state that follows `cur` once the job starts. It is made in `cur` itself, which is restored by its front: what the job's finish times leave there
// says nothing again.
pub fn store_successor(
    half: &mut [u32],
    heads: &mut [u32],
    n: usize,
    cur: &mut [u32],
    front: &[u32],
    shape: Shape,
    start: JobStart,
) -> Result<usize, Stop>
    requires job_lt_jobs { (start.job < shape.jobs) × (shape.jobs ≤ most_jobs) × (1 ≤ shape.cores) × (shape.cores ≤ most_cores)
        × (state_words shape.cores shape.jobs ≤ length cur.old) × FrontOf shape cur.old front.now
        × (set_of cur.old < 2 ^ shape.jobs) × (started (state_in shape cur.old) start.job ≡ false) × Ordered (state_in shape cur.old)
        × Linkable shape cur.old }
    requires jobs_value { (shape.capacity * state_words shape.cores shape.jobs ≡ length half.old) × (n ≤ shape.capacity)
        × SetsFit shape.cores shape.jobs half.old n × IndexOf shape half.old heads.old n }
    ensures half_after { (seen : List Range) (c : ℕ) → progress_of shape.cores shape.jobs seen c result half.new
        ≡ limited shape.capacity (after_start (state_in shape cur.old) start)
        (stored (after_start (state_in shape cur.old) start) (states_of shape.cores shape.jobs half.old n)) seen c }
    ensures half_at { (js : List Job) → Half js shape.cores shape.jobs shape.capacity half.old n
        → Bounded js latest_time (after_start (state_in shape cur.old) start)
        → HalfAt js shape result half.new heads.new }
    ensures restored { Restored shape.cores shape.jobs cur.old cur.new }
{
    start_job(cur, shape.cores, shape.jobs, start);
    let progress = store_new(half, heads, n, cur, shape);
    copy_front(cur, front, shape.cores);
    progress
}
