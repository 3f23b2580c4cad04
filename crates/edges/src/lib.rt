// Which jobs may start next in a state, and when. There are k jobs, in `rows`, and m cores; the words `s` are the state. The test of a candidate takes the
// steps of source document 004 in its order; numbers in brackets are those of its equations, names such as EST are document 01's.
#![tactic(auto)]

mod ends;

ghost use Rattle.std.specs.Prelude.{◌≡◌, suc, ◌<◌, ◌≤◌, max, true, not, cond, ◌&&◌, List, get_or, eqb, pos, ◌-ℤ◌, length, take};
ghost use Rattle.model.specs.Limits.{most_jobs};
ghost use Rattle.model.specs.Folds.{every, member};
ghost use Rattle.model.specs.Jobs.{Job, predecessors};
ghost use Rattle.model.specs.States.{earliest, latest, finish_of};
ghost use Rattle.model.specs.Edges.{candidate, possibly_ready, certainly_ready, earliest_start, work_conserving_bound, certainly_ready_beside};
ghost use Rattle.model.specs.Eligibility.{min_z};
ghost use Rattle.model.specs.Exploration.{state_words};
ghost use Rattle.jobs.specs.internal.JobRow.{jobs_of_rows, Rows};
ghost use Rattle.states.specs.internal.Slots.{in_set, state_of};
ghost use Rattle.edges.specs.internal.Edges.{Readable, PredecessorSet, PredecessorSets, candidates, Prepared, rested_after, no_limit, limit_word, bound_over, Holders, Holding, edge_of, edge_in_order};

use crate::ends::ReadyEnd;
use jobs::{
    earliest_release, is_predecessor, last_rest, latest_release, least_execution, most_execution,
    precedence, predecessor, predecessor_count,
};
use model::limits::MOST_JOBS;
use states::reading::{Earliest, End, Latest, finish, started_set};
use states::sizes::SET_WORDS;
use states::starting::JobStart;

// The word for an infinite limit. A word and no Option: the smallest moment so far is kept by one `min`, with no test whether there is one.
const NO_LIMIT: u32 = 4294967295;

// The set of all jobs.
const ALL_JOBS: u64 = 18446744073709551615;

// Every moment is below this, so that one has room in a word beside a job's place in the order of priority.
const MOMENTS: u64 = 67108864;

// What all edges of a state share: the work-conserving bound, and how many jobs are listed that may hold others back.
#[derive(Clone, Copy)]
pub struct Surveyed {
    pub bound: u32,
    pub holders: usize,
}

// The predecessors of job i: bit w for job w.
fn predecessor_set(rows: &[u32], k: usize, i: usize) -> u64
    requires { (i < k) × (k ≤ most_jobs) × Rows rows.now k }
    ensures { PredecessorSet (jobs_of_rows rows.now k) i result }
{
    let mut set = 0;
    for j in 0..predecessor_count(rows, k, i) {
        set |= 1u64 << predecessor(rows, k, i, j);
    }
    set
}

// Writes for each job the set of its predecessors. This is done once for all states.
pub fn write_predecessor_sets(rows: &[u32], k: usize, sets: &mut [u64])
    requires { Rows rows.now k × (k ≤ most_jobs) × (k ≤ length sets.old) }
    ensures { PredecessorSets (jobs_of_rows rows.now k) k sets.new }
{
    for (i, set) in sets[..k].iter_mut().enumerate() {
        *set = predecessor_set(rows, k, i);
    }
}

// (1) Whether job j is not in the set, and all its predecessors, those in `needed`, are. One comparison tells both: no job is its own predecessor.
fn is_candidate(set: u64, needed: u64, j: usize) -> bool
    requires { j < most_jobs }
    ensures { (js : List Job) → PredecessorSet js j needed → result ≡ (not (in_set set j) && every (in_set set) (predecessors js j)) }
{
    (needed | (1u64 << j)) & set == needed
}

// Lists the candidates by rising number, and answers how many there are. This is done once for each state: all of its edges ask for candidates. The jobs
// before the first that has not started are passed over at once.
pub fn list_candidates(sets: &[u64], k: usize, s: &[u32], m: usize, list: &mut [u8]) -> usize
    requires { (k ≤ most_jobs) × (state_words m k ≤ length s.now) × (k ≤ length sets.now) × (k ≤ length list.old) }
    ensures { (result ≤ length list.new)
        × ((js : List Job) → PredecessorSets js k sets.now
        → take result list.new ≡ candidates js (state_of m k s.now) k) }
{
    let set = started_set(s);
    let first = u64::trailing_zeros(ALL_JOBS - set) as usize;
    let mut n = 0;
    // Each job is written, and stays if it is a candidate: no branch.
    for j in first..k {
        list[n] = j as u8;
        n += is_candidate(set, sets[j], j) as usize;
    }
    n
}

// The finish time of the predecessor at place j of job i, by one end of the finish ranges.
fn predecessor_finish<E: End>(
    rows: &[u32],
    k: usize,
    s: &[u32],
    m: usize,
    i: usize,
    j: usize,
) -> u32
    requires { (i < k) × (j < length (predecessors (jobs_of_rows rows.now k) i)) × Readable rows.now k s.now m }
    ensures { result ≡ E.of (finish_of (state_of m k s.now) (get_or (predecessors (jobs_of_rows rows.now k) i) j 0)) }
{
    finish::<E>(s, m, k, predecessor(rows, k, i, j))
}

// From when on the bell of job i has rested, by one end of the finish times (possibly or certainly): that of the job before it on the bell, its last
// predecessor, and the rest. 0 where it has not to rest.
fn rested<E: ReadyEnd>(rows: &[u32], k: usize, s: &[u32], m: usize, i: usize) -> u32
    requires { (i < k) × Readable rows.now k s.now m }
    ensures { result ≡ rested_after (jobs_of_rows rows.now k) i (λ w. E.of (finish_of (state_of m k s.now) w)) }
{
    let rest = last_rest(rows, k, i);
    if rest == 0 {
        return 0;
    }
    let last = predecessor_count(rows, k, i) - 1;
    predecessor_finish::<E>(rows, k, s, m, i, last) + rest
}

// (2), (3) Rmin and Rmax, from when on job i is possibly and certainly ready. Every wait counts as without a rest; then the last, if it has one, with it.
fn ready<E: ReadyEnd>(rows: &[u32], k: usize, s: &[u32], m: usize, i: usize) -> u32
    requires { (i < k) × Readable rows.now k s.now m }
    ensures { result ≡ E.readied (jobs_of_rows rows.now k) (state_of m k s.now) i }
{
    (0..predecessor_count(rows, k, i))
        .map(|j| predecessor_finish::<E>(rows, k, s, m, i, j))
        .fold(E::release(rows, k, i), u32::max)
        .max(rested::<E>(rows, k, s, m, i))
}

// The latest finish of job w, if it is no predecessor of job i; those have finished once i is ready.
fn latest_finish_beside(rows: &[u32], k: usize, s: &[u32], m: usize, i: usize, w: usize) -> u32
    requires { (i < k) × (w < k) × Readable rows.now k s.now m }
    ensures { result ≡ cond (not (member w (predecessors (jobs_of_rows rows.now k) i)))
        (latest (finish_of (state_of m k s.now) w)) 0 }
{
    if is_predecessor(rows, k, i, w) {
        return 0;
    }
    finish::<Latest>(s, m, k, w)
}

// (6) From when on job j is certainly ready where another job i is ready: the larger of rb and the F of those waits of j that are not waits of i. The last wait
// counts with its rest even where it is a wait of i too: that rest is for j alone.
fn certainly_ready_beside(rows: &[u32], k: usize, s: &[u32], m: usize, i: usize, j: usize) -> u32
    requires { (i < k) × (j < k) × Readable rows.now k s.now m × (i ≡ j → ⊥) }
    ensures { result ≡ certainly_ready_beside (jobs_of_rows rows.now k) (state_of m k s.now) i j }
{
    (0..predecessor_count(rows, k, j))
        .map(|h| latest_finish_beside(rows, k, s, m, i, predecessor(rows, k, j, h)))
        .fold(latest_release(rows, k, j), u32::max)
        .max(rested::<Latest>(rows, k, s, m, j))
}

// (7) twc: the larger of when a core is certainly free and of when the first candidate is certainly ready, if there is any.
fn bound_of(free: u32, first: u32) -> u32
    ensures { result ≡ cond (eqb first no_limit) free (max free first) }
{
    if first == NO_LIMIT {
        return free;
    }
    free.max(first)
}

// (7) twc, the work-conserving bound; and for (5) the candidates that may hold another back before it, each in a word: its place in the order of priority, and
// from when on it is certainly ready. A candidate whose latest release lies past the bound holds none back before it; one is left out where the bound that is
// known by then tells so.
pub fn survey(
    rows: &[u32],
    k: usize,
    s: &[u32],
    m: usize,
    list: &[u8],
    holders: &mut [u64],
) -> Surveyed
    requires { Prepared rows.now k s.now m list.now × (k ≤ length holders.old) }
    ensures bound_value { result.bound ≡ work_conserving_bound (jobs_of_rows rows.now k) (state_of m k s.now) }
    ensures holders_in_bounds { (result.holders ≤ length holders.new)
        × Holding (jobs_of_rows rows.now k) (state_of m k s.now) k (suc result.bound)
        (candidates (jobs_of_rows rows.now k) (state_of m k s.now) k) (take result.holders holders.new) }
{
    let free = s[SET_WORDS + m];
    let mut first = NO_LIMIT;
    let mut n = 0;
    for listed in list {
        let j = *listed as usize;
        let ready = ready::<Latest>(rows, k, s, m, j);
        first = first.min(ready);
        holders[n] = precedence(rows, k, j) * MOMENTS + ready as u64;
        n += (latest_release(rows, k, j) <= free.max(first)) as usize;
    }
    Surveyed {
        bound: bound_of(free, first),
        holders: n,
    }
}

// (6) The same of a job j that is certainly ready from `ready` on (Rmax). Where the two share no predecessor it is that moment.
fn certainly_ready_for(
    rows: &[u32],
    k: usize,
    s: &[u32],
    m: usize,
    sets: &[u64],
    i: usize,
    j: usize,
    ready: u32,
) -> u32
    requires { (i < k) × (j < k) × Readable rows.now k s.now m × (k ≤ length sets.now) × PredecessorSets (jobs_of_rows rows.now k) k sets.now
        × (ready ≡ certainly_ready (jobs_of_rows rows.now k) (state_of m k s.now) j) × (i ≡ j → ⊥) }
    ensures { result ≡ certainly_ready_beside (jobs_of_rows rows.now k) (state_of m k s.now) i j }
{
    if sets[i] & sets[j] == 0 {
        return ready;
    }
    certainly_ready_beside(rows, k, s, m, i, j)
}

// (5) thigh: the smallest of these over the jobs listed as holders that go before job i.
fn higher_priority_bound(
    rows: &[u32],
    k: usize,
    s: &[u32],
    m: usize,
    sets: &[u64],
    holders: &[u64],
    i: usize,
) -> u32
    requires { (i < k) × Readable rows.now k s.now m × (k ≤ length sets.now) × PredecessorSets (jobs_of_rows rows.now k) k sets.now
        × Holders (jobs_of_rows rows.now k) (state_of m k s.now) k holders.now }
    ensures { (h : Holders (jobs_of_rows rows.now k) (state_of m k s.now) k holders.now)
        → result ≡ limit_word (bound_over (jobs_of_rows rows.now k) (state_of m k s.now) i h.jobs) }
{
    let own = precedence(rows, k, i);
    let mut first = NO_LIMIT;
    for holder in holders {
        let place = *holder / MOMENTS;
        if place < own {
            let j = (place % MOST_JOBS as u64) as usize;
            let ready = (*holder % MOMENTS) as u32;
            first = first.min(certainly_ready_for(rows, k, s, m, sets, i, j, ready));
        }
    }
    first
}

// (4) EST, the earliest start.
fn earliest_start(rows: &[u32], k: usize, s: &[u32], m: usize, i: usize) -> u32
    requires { (i < k) × Readable rows.now k s.now m }
    ensures { result ≡ earliest_start (jobs_of_rows rows.now k) (state_of m k s.now) i }
{
    s[SET_WORDS].max(ready::<Earliest>(rows, k, s, m, i))
}

// (8) LST, the smaller of twc and of the moment before thigh. The moment before 0 is -1.
fn latest_start(bound: u32, higher: u32) -> i64
    ensures { result ≡ min_z (pos bound) (pos higher -ℤ pos 1) }
{
    if higher == 0 {
        return -1;
    }
    bound.min(higher - 1) as i64
}

// The edge of candidate i, if it may go next: its job, its earliest start, and its finish times. None where it is not eligible.
pub fn edge_of(
    rows: &[u32],
    k: usize,
    s: &[u32],
    m: usize,
    sets: &[u64],
    holders: &[u64],
    bound: u32,
    i: usize,
) -> Option<JobStart>
    requires i_lt_k { (i < k) × Readable rows.now k s.now m × (k ≤ length sets.now) × PredecessorSets (jobs_of_rows rows.now k) k sets.now }
    requires i_value { (candidate (jobs_of_rows rows.now k) (state_of m k s.now) i ≡ true)
        × (bound ≡ work_conserving_bound (jobs_of_rows rows.now k) (state_of m k s.now))
        × Holding (jobs_of_rows rows.now k) (state_of m k s.now) k (suc bound) (candidates (jobs_of_rows rows.now k) (state_of m k s.now) k)
        holders.now }
    ensures one { result ≡ edge_in_order (jobs_of_rows rows.now k) (state_of m k s.now) i }
    ensures two { result ≡ edge_of (jobs_of_rows rows.now k) (state_of m k s.now) i }
{
    // (4) EST.
    let earliest = earliest_start(rows, k, s, m, i);
    // (5), (6) thigh, and (8) LST; twc (7) is given.
    let higher = higher_priority_bound(rows, k, s, m, sets, holders, i);
    let latest = latest_start(bound, higher);
    // (9) The job is eligible exactly if EST is at most LST.
    if latest < earliest as i64 {
        return None;
    }
    // (10), (11) The edge ends E and F.
    let last = latest as u32;
    let e = earliest + least_execution(rows, k, i);
    let f = last + most_execution(rows, k, i);
    Some(JobStart {
        job: i,
        start: earliest,
        earliest: e,
        latest: f,
    })
}
