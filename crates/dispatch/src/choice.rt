// Which core is free first, and which job starts next.
ghost use Rattle.std.specs.Prelude.{◌≡◌, ◌≤◌, ◌<◌, length};
ghost use Rattle.jobs.specs.internal.JobRow.{jobs_of_rows, Rows};
ghost use Rattle.dispatch.specs.internal.Choice.{IsFirst, key_of, start_key, IsNext};

use crate::wakes::ASLEEP;
use jobs::priority;

// So many priorities have keys of their own beside each moment.
const PRIORITIES: u64 = 4294967296;

// The core that is free first.
pub fn first_free(cores: &[u32]) -> usize
    requires { 1 ≤ length cores.now }
    ensures { (result < length cores.now) × IsFirst cores.now (length cores.now) result }
{
    let mut first = 0;
    for c in 1..cores.len() {
        if cores[c] < cores[first] {
            first = c;
        }
    }
    first
}

// A moment and a priority in one number: the earlier moment is smaller, and of one moment the priority that goes first.
fn start_key(t: u32, priority: u32) -> u64
    ensures { result ≡ start_key t priority }
{
    t as u64 * PRIORITIES + priority as u64
}

// The job that starts next where a core is free from a moment on: the first to be ready then, and of these the first by priority. None where no job is awake.
pub fn next_job(rows: &[u32], k: usize, wakes: &[u32], from: u32) -> Option<usize>
    requires { Rows rows.now k × (k ≤ length wakes.now) }
    ensures { IsNext (key_of (jobs_of_rows rows.now k) wakes.now from) k result }
{
    // The key itself tells whether one was found: an Option in the loop takes five instructions more for each job.
    let none = start_key(ASLEEP, 0);
    let mut next = 0;
    let mut least = none;
    for j in 0..k {
        let key = start_key(from.max(wakes[j]), priority(rows, k, j));
        if key < least {
            least = key;
            next = j;
        }
    }
    if least < none { Some(next) } else { None }
}
