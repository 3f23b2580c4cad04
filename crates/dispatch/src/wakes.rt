// From when each job is ready.
ghost use Rattle.std.specs.Prelude.{◌≡◌, ◌≤◌, ◌<◌, length};
ghost use Rattle.jobs.specs.internal.JobRow.{jobs_of_rows};
ghost use Rattle.playing.specs.Playing.{scenario_in};
ghost use Rattle.dispatch.specs.internal.Wakes.{WorkedOn, wake_of, woken_by, EachWakes};

use jobs::{last_rest, predecessor, predecessor_count};
use playing::scenario::release;

// All times are below. With the number of a predecessor added: the job waits for that one to start.
// A mark and no enum: the next job is found by the least word, and those that waited by one comparison.
pub const ASLEEP: u32 = 2147483648;

// The wake word of job j: the latest of its release and the finish times of its predecessors, with the rest for the one before it on its bell, which stands
// last; or the first of these that has not started.
fn wake(rows: &[u32], k: usize, playing: &[u8], finishes: &[u32], j: usize) -> u32
    requires { (j < k) × WorkedOn rows.now k playing.now finishes.now }
    ensures { result ≡ wake_of (jobs_of_rows rows.now k) (scenario_in playing.now) finishes.now j }
{
    let count = predecessor_count(rows, k, j);
    let mut from = release(playing, k, j);
    for l in 0..count {
        let w = predecessor(rows, k, j, l);
        let finish = finishes[w];
        if finish == 0 {
            return ASLEEP + w as u32;
        }
        from = from.max(finish);
    }
    let rest = last_rest(rows, k, j);
    if rest == 0 {
        return from;
    }
    let last = predecessor(rows, k, j, count - 1);
    from.max(finishes[last] + rest)
}

// The wake words of all jobs.
pub fn wake_all(rows: &[u32], k: usize, playing: &[u8], finishes: &[u32], wakes: &mut [u32])
    requires { WorkedOn rows.now k playing.now finishes.now × (k ≤ length wakes.old) }
    ensures { EachWakes (wake_of (jobs_of_rows rows.now k) (scenario_in playing.now) finishes.now) k wakes.new }
{
    for j in 0..k {
        wakes[j] = wake(rows, k, playing, finishes, j);
    }
}

// Those of the jobs that waited for job i, which has started; only later jobs do.
pub fn wake_after(
    rows: &[u32],
    k: usize,
    playing: &[u8],
    finishes: &[u32],
    wakes: &mut [u32],
    i: usize,
)
    requires { (i < k) × WorkedOn rows.now k playing.now finishes.now × (k ≤ length wakes.old) }
    ensures { EachWakes (woken_by (jobs_of_rows rows.now k) (scenario_in playing.now) finishes.now wakes.old i) k
        wakes.new }
{
    let waited = ASLEEP + i as u32;
    for j in i + 1..k {
        if wakes[j] == waited {
            wakes[j] = wake(rows, k, playing, finishes, j);
        }
    }
}
