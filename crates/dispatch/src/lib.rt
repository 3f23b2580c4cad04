// The run of one playing, worked out from start to start. A job has the finish time 0 until it starts, in place of an Option: the words are the caller's, and
// no job ends at 0. Its wake word says from when it is ready: once it is released, its predecessors have finished and its bell has rested. While a predecessor
// has not started, and once the job itself has, the word is a mark above all times.
#![tactic(auto)]

mod choice;
mod turns;
mod wakes;

ghost use Rattle.std.specs.Prelude.{◌≡◌, replicate};
ghost use Rattle.model.specs.Limits.{most_jobs};
ghost use Rattle.model.specs.Playing.{start_time, finish_time};
ghost use Rattle.jobs.specs.internal.JobRow.{jobs_of_rows};
ghost use Rattle.checking.specs.Checking.{per_job};
ghost use Rattle.playing.specs.Playing.{scenario_in};
ghost use Rattle.dispatch.specs.internal.Turns.{Dispatchable};

use crate::turns::start_all;
use crate::wakes::wake_all;
use model::limits::{MOST_CORES, MOST_JOBS};

// Works out the run of the jobs of k rows on m cores: the start and the finish time of each job; the words after them stay zero.
pub fn dispatch(
    rows: &[u32],
    k: usize,
    m: usize,
    playing: &[u8],
    starts: &mut [u32; MOST_JOBS],
    finishes: &mut [u32; MOST_JOBS],
)
    requires { Dispatchable rows.now k m playing.now × (starts.old ≡ replicate most_jobs 0) × (finishes.old ≡ replicate most_jobs 0) }
    ensures starts_after { starts.new ≡ per_job k (start_time (jobs_of_rows rows.now k) m (scenario_in playing.now)) }
    ensures finishes_after { finishes.new ≡ per_job k (finish_time (jobs_of_rows rows.now k) m (scenario_in playing.now)) }
{
    let mut wakes = [0u32; MOST_JOBS];
    wake_all(rows, k, playing, finishes, &mut wakes);
    let mut cores = [0u32; MOST_CORES];
    start_all(
        rows,
        k,
        playing,
        starts,
        finishes,
        &mut wakes,
        &mut cores[..m],
    );
}
