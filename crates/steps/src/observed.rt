// The ranges of finish times observed so far.
ghost use Rattle.std.specs.Prelude.{◌≡◌, ◌≤◌, ◌<◌};
ghost use Rattle.model.specs.Limits.{most_jobs};
ghost use Rattle.model.specs.States.{range};
ghost use Rattle.model.specs.Exploration.{observed};
ghost use Rattle.states.specs.declared.starting.JobStart.{JobStart};
ghost use Rattle.steps.specs.internal.Observed.{observed_of, Observed};
ghost use Rattle.steps.specs.internal.Progress.{observed_by};

use model::limits::MOST_JOBS;
use ranges::{FinishRange, widen};
use states::starting::JobStart;

// Where the latest finish times begin.
const LATEST: usize = MOST_JOBS;

// Widens the observed range of job i by an edge that finishes from e to f.
pub fn observe(seen: &mut [u32], k: usize, i: usize, e: u32, f: u32)
    requires { (i < k) × (k ≤ most_jobs) × (1 ≤ f) × Observed k seen.old }
    ensures { (observed_of k seen.new ≡ observed (observed_of k seen.old) i (range e f)) × Observed k seen.new }
{
    let mut r = FinishRange {
        earliest: seen[i],
        latest: seen[LATEST + i],
    };
    widen(&mut r, e, f);
    seen[i] = r.earliest;
    seen[LATEST + i] = r.latest;
}

// Widens what was observed of a job by its edge, where it has one.
pub fn observe_edge(seen: &mut [u32], k: usize, edge: Option<JobStart>)
    requires { (k ≤ most_jobs) × Observed k seen.old × ((x : JobStart) → edge ≡ Some x → (x.job < k) × (1 ≤ x.latest)) }
    ensures { (observed_of k seen.new ≡ observed_by edge (observed_of k seen.old)) × Observed k seen.new }
{
    if let Some(start) = edge {
        observe(seen, k, start.job, start.earliest, start.latest);
    }
}
