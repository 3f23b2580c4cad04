// Whether calls and holds lie in the ranges of their jobs.
ghost use Rattle.std.specs.Prelude.{◌≡◌, ◌<◌};
ghost use Rattle.jobs.specs.internal.JobRow.{jobs_of_rows, Rows};
ghost use Rattle.playing.specs.Playing.{scenario_in, in_ranges};
ghost use Rattle.playing.specs.internal.Admitting.{HasJobs, IsFirstOutside};

use crate::scenario::{execution, release};
use fields::rules::is_within;
use jobs::{earliest_release, latest_release, least_execution, most_execution};

fn in_ranges(rows: &[u32], k: usize, playing: &[u8], i: usize) -> bool
    requires { (i < k) × Rows rows.now k × HasJobs playing.now k }
    ensures { result ≡ in_ranges (jobs_of_rows rows.now k) (scenario_in playing.now) i }
{
    let called = is_within(
        earliest_release(rows, k, i),
        latest_release(rows, k, i),
        release(playing, k, i),
    );
    if !called {
        return false;
    }
    is_within(
        least_execution(rows, k, i),
        most_execution(rows, k, i),
        execution(playing, k, i),
    )
}

// The first job with a call or a hold outside its range, if any.
pub fn first_outside(rows: &[u32], k: usize, playing: &[u8]) -> Option<usize>
    requires { Rows rows.now k × HasJobs playing.now k }
    ensures { IsFirstOutside (jobs_of_rows rows.now k) (scenario_in playing.now) k result }
{
    for i in 0..k {
        if !in_ranges(rows, k, playing, i) {
            return Some(i);
        }
    }
    None
}
