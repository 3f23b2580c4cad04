// The starts, one after the other.
ghost use Rattle.std.specs.Prelude.{true, false, length};
ghost use Rattle.dispatch.specs.internal.Turns.{Dispatchable, Turn, Turned, Over};

use crate::choice::{first_free, next_job};
use crate::wakes::wake_after;
use playing::scenario::execution;

// The wake word of a job that has started. A mark as well, so that a comparison passes it over.
const STARTED: u32 = 4294967295;

// Starts the next job; false where all have started.
fn start_next(
    rows: &[u32],
    k: usize,
    playing: &[u8],
    starts: &mut [u32],
    finishes: &mut [u32],
    wakes: &mut [u32],
    cores: &mut [u32],
) -> bool
    requires { Dispatchable rows.now k (length cores.old) playing.now
        × Turn rows.now k playing.now starts.old finishes.old wakes.old cores.old }
    ensures { Turned rows.now k (length cores.old) playing.now finishes.old
        starts.new finishes.new wakes.new cores.new result }
{
    let c = first_free(cores);
    let free = cores[c];
    let Some(i) = next_job(rows, k, wakes, free) else {
        return false;
    };
    let start = free.max(wakes[i]);
    let finish = start + execution(playing, k, i);
    starts[i] = start;
    finishes[i] = finish;
    cores[c] = finish;
    wakes[i] = STARTED;
    wake_after(rows, k, playing, finishes, wakes, i);
    true
}

// Starts all jobs.
pub fn start_all(
    rows: &[u32],
    k: usize,
    playing: &[u8],
    starts: &mut [u32],
    finishes: &mut [u32],
    wakes: &mut [u32],
    cores: &mut [u32],
)
    requires { Dispatchable rows.now k (length cores.old) playing.now
        × Turn rows.now k playing.now starts.old finishes.old wakes.old cores.old }
    ensures { Over rows.now k (length cores.old) playing.now starts.new finishes.new }
{
    while start_next(rows, k, playing, starts, finishes, wakes, cores) {}
}
