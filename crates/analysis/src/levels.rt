// The levels of the analysis: each is built from the states of the one before it, in the other half of the table.
ghost use Rattle.std.specs.Prelude.{◌≡◌, true, [], ℕ, ◌*◌, ◌≤◌, ◌<◌, length, drop};
ghost use borrow.Rule.Slice.PartMut.{put_mid};
ghost use Rattle.model.specs.Exploration.{state_words, capacity, going, try_states, explored, analysis};
ghost use Rattle.words.specs.internal.Parts.{part};
ghost use Rattle.jobs.specs.internal.JobRow.{Setting, jobs_of_rows};
ghost use Rattle.states.specs.internal.Slots.{states_of};
ghost use Rattle.edges.specs.internal.Edges.{PredecessorSets};
ghost use Rattle.store.specs.internal.Index.{head_room, last_slot, Fits};
ghost use Rattle.steps.specs.internal.Observed.{observed_words, observed_of, Observed};
ghost use Rattle.steps.specs.internal.Progress.{jobs_in, Half, Leaves};
ghost use Rattle.analysis.specs.internal.Answers.{Halves, half_words, AllLinkable, verdict_in};

use edges::write_predecessor_sets;
use model::limits::MOST_JOBS;
use states::copying::load_state;
use states::sizes::{MOST_STATE_WORDS, state_words};
use steps::explore::try_state;
use steps::shape::Shape;
use steps::stop::Stop;
use store::{HEAD_ROOM, Index};

// Where a level stands: its states, from word `from` of the table on. The next is built from word `to` on.
#[derive(Clone, Copy)]
pub struct Level {
    pub from: usize,
    pub states: usize,
    pub to: usize,
}

// Explores the states of a level, in stored order, and tells how many follow. The state in hand is a copy: the table is lent on to store what follows it.
pub fn build_level(
    table: &mut [u32],
    seen: &mut [u32],
    heads: &mut [u32],
    rows: &[u32],
    sets: &[u64],
    shape: Shape,
    level: Level,
) -> Result<usize, Stop>
    requires setting { Setting rows.now shape.jobs shape.cores × (shape.jobs ≤ length sets.now)
        × PredecessorSets (jobs_in shape rows.now) shape.jobs sets.now }
    requires halves { Halves (length table.old) (half_words shape) level.from level.to
        × Half (jobs_in shape rows.now) shape.cores shape.jobs shape.capacity (part level.from (half_words shape) table.old) level.states
        × Observed shape.jobs seen.old }
    requires heads_len { (length heads.old ≡ head_room) × Fits shape.cores shape.jobs (half_words shape) shape.index
        × AllLinkable shape (part level.from (half_words shape) table.old) level.states }
    ensures leaves { Leaves (jobs_in shape rows.now) shape
        (λ c. try_states (jobs_in shape rows.now) shape.capacity
        (states_of shape.cores shape.jobs (part level.from (half_words shape) table.old) level.states)
        (going [] (observed_of shape.jobs seen.old) c))
        result (part level.to (half_words shape) table.new) seen.new heads.new }
    ensures table_after { table.new ≡ put_mid level.to (half_words shape) table.old
        (part level.to (half_words shape) table.new) }
{
    let m = shape.cores;
    let k = shape.jobs;
    let cap = shape.capacity;
    let from = level.from;
    let n = level.states;
    let to = level.to;
    let w = state_words(m, k);
    let end = to + cap * w;
    let mut cur = [0u32; MOST_STATE_WORDS];
    let mut built = 0;
    for j in 0..n {
        let at = from + j * w;
        let next = at + w;
        load_state(&mut cur, &table[at..next], m, k);
        built = try_state(
            &mut table[to..end],
            seen,
            heads,
            built,
            rows,
            sets,
            &mut cur,
            shape,
        )?;
    }
    Ok(built)
}

// The last slot that a word can name.
const LAST_SLOT: usize = 4294967295;

// From so many states on, heads of the next level stand in its slots.
const MANY_STATES: usize = 512;

// How many buckets there are in the next level of one with n states: four for each of them, but not more than linked slots.
fn bucket_count(linked: usize, n: usize) -> usize
    requires { (1 ≤ linked) × (linked ≤ last_slot) }
    ensures { (1 ≤ result) × (result ≤ last_slot) × (head_room < result → result ≤ linked) }
{
    if n < MANY_STATES {
        return HEAD_ROOM;
    }
    if linked / 4 < n {
        return linked;
    }
    4 * n
}

// The index of the next level of one with n states. In the last level no state has spare words, and all have one set: there is none.
fn index_of(cap: usize, n: usize, last: bool) -> Index
    requires { 1 ≤ cap }
    ensures { ((m k : ℕ) → Fits m k (cap * state_words m k) result) × (last ≡ true → result.linked ≡ 0) }
{
    if last {
        return Index {
            linked: 0,
            buckets: 0,
        };
    }
    let linked = cap.min(LAST_SLOT);
    Index {
        linked,
        buckets: bucket_count(linked, n),
    }
}

// Builds level after level, from level 0 in the lower half on: the halves change roles. The heads need no clearing between levels.
pub fn build_levels(
    table: &mut [u32],
    seen: &mut [u32],
    rows: &[u32],
    k: usize,
    m: usize,
    cap: usize,
) -> Result<u64, Stop>
    requires setting { Setting rows.now k m × (2 * (cap * state_words m k) ≤ length table.old) × (1 ≤ cap)
        × Half (jobs_of_rows rows.now k) m k cap (part 0 (cap * state_words m k) table.old) 1 × Observed k seen.old }
    requires seen_value { going (states_of m k (part 0 (cap * state_words m k) table.old) 1) (observed_of k seen.old) 1 ≡ explored (jobs_of_rows rows.now k) m cap 0 }
    ensures seen_after { verdict_in k result seen.new ≡ analysis (jobs_of_rows rows.now k) m cap }
    ensures observed { Observed k seen.new }
    ensures table_unchanged { drop (2 * (cap * state_words m k)) table.new ≡ drop (2 * (cap * state_words m k)) table.old }
{
    let mut sets = [0u64; MOST_JOBS];
    write_predecessor_sets(rows, k, &mut sets);
    let mut heads = [0u32; HEAD_ROOM];
    let mut from = 0;
    let mut to = cap * state_words(m, k);
    let mut n = 1;
    let mut count = 1u64;
    for depth in 0..k {
        let shape = Shape {
            cores: m,
            jobs: k,
            capacity: cap,
            index: index_of(cap, n, depth + 1 == k),
        };
        let level = Level {
            from,
            states: n,
            to,
        };
        n = build_level(table, seen, &mut heads, rows, &sets, shape, level)?;
        count += n as u64;
        (from, to) = (to, from);
    }
    Ok(count)
}

// The analysis of k jobs on m cores: so many states are stored where every job meets its deadline. Each half of the table has room for as many states as it
// takes whole.
pub fn analyse(
    table: &mut [u32],
    seen: &mut [u32],
    rows: &[u32],
    k: usize,
    m: usize,
) -> Result<u64, Stop>
    requires { Setting rows.now k m × (length seen.old ≡ observed_words) }
    ensures seen_after { verdict_in k result seen.new ≡ analysis (jobs_of_rows rows.now k) m (capacity (length table.old) m k) }
    ensures observed { Observed k seen.new }
    ensures table_unchanged { drop (2 * (capacity (length table.old) m k * state_words m k)) table.new
        ≡ drop (2 * (capacity (length table.old) m k * state_words m k)) table.old }
{
    seen.fill(0);
    let w = state_words(m, k);
    let cap = table.len() / (2 * w);
    if cap == 0 {
        return Err(Stop::Full(0));
    }
    table[0..w].fill(0);
    build_levels(table, seen, rows, k, m, cap)
}
