// The edges of one state. Each leaves so many states in the half of the next level, whose index is `heads`, or ends the analysis.
ghost use Rattle.std.specs.Prelude.{◌≡◌, List, ℕ, ◌≤◌, ◌<◌, length};
ghost use Rattle.model.specs.States.{Range};
ghost use Rattle.model.specs.Exploration.{try_jobs, state_words};
ghost use Rattle.jobs.specs.internal.JobRow.{Setting};
ghost use Rattle.states.specs.declared.starting.JobStart.{JobStart};
ghost use Rattle.states.specs.internal.Slots.{states_of, Sound};
ghost use Rattle.states.specs.internal.Writing.{Restored};
ghost use Rattle.edges.specs.internal.Edges.{PredecessorSets};
ghost use Rattle.steps.specs.internal.Observed.{Observed};
ghost use Rattle.steps.specs.internal.Progress.{jobs_in, state_in, going_in, progress_of, followed, Target, HalfAt, Linkable, FrontOf, Leaves, Explores, Follows};

use crate::observed::observe_edge;
use crate::shape::Shape;
use crate::stop::Stop;
use crate::successor::store_successor;
use edges::{edge_of, list_candidates, survey};
use jobs::deadline;
use model::limits::MOST_JOBS;
use states::copying::copy_front;
use states::sizes::MOST_FRONT_WORDS;
use states::starting::JobStart;

// Follows the edge of a job, where it has one: the job starts. `front` is the front of the state in hand.
pub fn follow(
    half: &mut [u32],
    heads: &mut [u32],
    n: usize,
    rows: &[u32],
    cur: &mut [u32],
    front: &[u32],
    shape: Shape,
    edge: Option<JobStart>,
) -> Result<usize, Stop>
    requires { Explores rows.now shape cur.old half.old n heads.old × FrontOf shape cur.old front.now
        × ((x : JobStart) → edge ≡ Some x → (x.job < shape.jobs) × Follows (jobs_in shape rows.now) (state_in shape cur.old) x) }
    ensures half_after { (seen : List Range) (c : ℕ) → progress_of shape.cores shape.jobs seen c result half.new
        ≡ followed (jobs_in shape rows.now) shape.capacity (state_in shape cur.old) edge
        (states_of shape.cores shape.jobs half.old n) seen c }
    ensures half_at { HalfAt (jobs_in shape rows.now) shape result half.new heads.new }
    ensures restored { Restored shape.cores shape.jobs cur.old cur.new }
{
    let Some(start) = edge else {
        return Ok(n);
    };
    let i = start.job;
    let e = start.earliest;
    let f = start.latest;
    if deadline(rows, shape.jobs, i) < f {
        return Err(Stop::Late(i, e, f));
    }
    store_successor(half, heads, n, cur, front, shape, start)
}

// Every edge of one state, by rising number of its job, into the half, which holds n states. `sets` are the predecessors of each job. For each edge, what
// was observed of the job is widened; then it is followed. Jobs that are no candidates have none.
pub fn try_state(
    half: &mut [u32],
    seen: &mut [u32],
    heads: &mut [u32],
    n: usize,
    rows: &[u32],
    sets: &[u64],
    cur: &mut [u32],
    shape: Shape,
) -> Result<usize, Stop>
    requires setting { Setting rows.now shape.jobs shape.cores × (shape.jobs ≤ length sets.now)
        × PredecessorSets (jobs_in shape rows.now) shape.jobs sets.now }
    requires jobs_in_bounds { (state_words shape.cores shape.jobs ≤ length cur.old) × Sound (jobs_in shape rows.now) shape.cores shape.jobs cur.old
        × Target (jobs_in shape rows.now) shape half.old heads.old n × Observed shape.jobs seen.old × Linkable shape cur.old }
    ensures { Leaves (jobs_in shape rows.now) shape
        (λ c. try_jobs (jobs_in shape rows.now) shape.capacity (state_in shape cur.old) shape.jobs
        (going_in shape half.old n seen.old c)) result half.new seen.new heads.new }
{
    let k = shape.jobs;
    let m = shape.cores;
    let mut list = [0u8; MOST_JOBS];
    let listed = list_candidates(sets, k, cur, m, &mut list);
    let mut holders = [0u64; MOST_JOBS];
    let shared = survey(rows, k, cur, m, &list[..listed], &mut holders);
    let held = shared.holders;
    let bound = shared.bound;
    let mut front = [0u32; MOST_FRONT_WORDS];
    copy_front(&mut front, cur, m);
    let mut stored = n;
    for &job in &list[..listed] {
        let i = job as usize;
        let edge = edge_of(rows, k, cur, m, sets, &holders[..held], bound, i);
        observe_edge(seen, k, edge);
        stored = follow(half, heads, stored, rows, cur, &front, shape, edge)?;
    }
    Ok(stored)
}
