// A playing of a phrase, read: its calls and holds, and whether they lie in the phrase's ranges. specs/ has what a playing is, the run that it gives, and
// what is promised of it.
#![tactic(auto)]

mod inside;
pub mod scenario;

ghost use Rattle.std.specs.Prelude.{◌≡◌, ◌≤◌};
ghost use Rattle.model.specs.Limits.{most_jobs};
ghost use Rattle.jobs.specs.internal.JobRow.{jobs_of_rows, Rows};
ghost use Rattle.playing.specs.Playing.{scenario_for, admission_of};

use crate::inside::first_outside;
use crate::scenario::is_playing;
use model::refusals::{OUTSIDE_RANGE, Refusal, WRONG_PLAYING, refuse};

// Reads a playing of the jobs of k rows.
pub fn admit(rows: &[u32], k: usize, playing: &[u8]) -> Result<(), Refusal>
    requires { Rows rows.now k × (k ≤ most_jobs) }
    ensures { result ≡ admission_of (scenario_for (jobs_of_rows rows.now k) playing.now) }
{
    if !is_playing(playing, k) {
        return refuse(WRONG_PLAYING, 0);
    }
    match first_outside(rows, k, playing) {
        Some(i) => refuse(OUTSIDE_RANGE, i),
        None => Ok(()),
    }
}
