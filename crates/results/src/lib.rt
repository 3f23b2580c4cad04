// The result of an accepted analysis.
#![tactic(auto)]

ghost use Rattle.std.specs.Prelude.{◌≡◌, ◌+◌, ◌≤◌, length, take, drop};
ghost use Rattle.model.specs.Limits.{most_jobs};
ghost use Rattle.model.specs.Exploration.{accepted};
ghost use Rattle.jobs.specs.internal.JobRow.{jobs_of_rows, Rows};
ghost use Rattle.steps.specs.internal.Observed.{observed_of};
ghost use Rattle.checking.specs.Checking.{per_job, result_of};
ghost use Rattle.results.specs.internal.Finishes.{Released, response_of, FinishesObserved};

use checking::{Answer, Checked};
use jobs::earliest_release;
use model::limits::MOST_JOBS;

// The finish times of all jobs that begin at a word.
fn finish_times(seen: &[u32], at: usize) -> [u32; MOST_JOBS]
    requires { at + most_jobs ≤ length seen.now }
    ensures { result ≡ take most_jobs (drop at seen.now) }
{
    let mut finishes = [0u32; MOST_JOBS];
    let end = at + MOST_JOBS;
    finishes.copy_from_slice(&seen[at..end]);
    finishes
}

// The responses of k jobs that finish at these times.
fn responses(rows: &[u32], k: usize, finishes: &[u32; MOST_JOBS]) -> [u32; MOST_JOBS]
    requires { Rows rows.now k × (k ≤ most_jobs) × Released rows.now k finishes.now }
    ensures { result ≡ per_job k (response_of rows.now k finishes.now) }
{
    let mut words = [0u32; MOST_JOBS];
    for i in 0..k {
        words[i] = finishes[i] - earliest_release(rows, k, i);
    }
    words
}

// From the rows of k jobs and the words of their observed finish ranges.
pub fn accepting(rows: &[u32], k: usize, seen: &[u32], states: u64) -> Checked
    requires { FinishesObserved rows.now k seen.now }
    ensures { result ≡ result_of (jobs_of_rows rows.now k) (accepted (observed_of k seen.now) states) }
{
    let earliest = finish_times(seen, 0);
    let latest = finish_times(seen, MOST_JOBS);
    let best = responses(rows, k, &earliest);
    let worst = responses(rows, k, &latest);
    Checked {
        answer: Answer::Accepted,
        jobs: k,
        earliest,
        latest,
        best,
        worst,
        states,
    }
}
