// When a job is ready by either end of the times: possibly by the earliest, certainly by the latest.
ghost use Rattle.std.specs.Prelude.{◌≡◌, ℕ, ◌+◌, ◌<◌, ◌≤◌, max, List, length};
ghost use Rattle.model.specs.Folds.{largest, all};
ghost use Rattle.model.specs.Jobs.{Job, job, predecessors, rest_of};
ghost use Rattle.model.specs.States.{State, finish_of};
ghost use Rattle.model.specs.Edges.{possibly_ready, certainly_ready};
ghost use Rattle.model.specs.internal.Bounds.{RestsUpTo, Bounded};
ghost use Rattle.model.proofs.Rests.{earliest_rested_up_to, latest_rested_up_to};
ghost use Rattle.jobs.specs.internal.JobRow.{jobs_of_rows, Rows};
ghost use Rattle.edges.specs.internal.Ends.{possibly_ready_is, certainly_ready_is};

use jobs::{earliest_release, latest_release};
use states::reading::{Earliest, End, Latest};

// An end of the times that a job waits for.
pub trait ReadyEnd: End {
    // This end of its releases, and from when on it is ready.
    ghost released: { Job → ℕ };

    ghost readied: { List Job → State → ℕ → ℕ };

    fn release(rows: &[u32], k: usize, i: usize) -> u32
        requires { (i < k) × Rows rows.now k }
        ensures { result ≡ released (job (jobs_of_rows rows.now k) i) };

    // It is ready from its release on and from the finish of each predecessor with its rest, which is a moment.
    ghost readied_is: { (js : List Job) (σ : State) (i : ℕ) → readied js σ i
        ≡ max (released (job js i)) (largest all (λ w. Self.of (finish_of σ w) + rest_of js i w) (predecessors js i)) };

    ghost rested_up_to: { (js : List Job) (d r : ℕ) → RestsUpTo r js → (σ : State) → Bounded js d σ → (i : ℕ) → i < length js → (w : ℕ)
        → Self.of (finish_of σ w) + rest_of js i w ≤ d + r };
}

impl ReadyEnd for Earliest {
    ghost released = { λ j. j.earliest_release };

    ghost readied = { possibly_ready };

    fn release(rows: &[u32], k: usize, i: usize) -> u32 {
        earliest_release(rows, k, i)
    }

    ghost readied_is = { possibly_ready_is };

    ghost rested_up_to = { earliest_rested_up_to };
}

impl ReadyEnd for Latest {
    ghost released = { λ j. j.latest_release };

    ghost readied = { certainly_ready };

    fn release(rows: &[u32], k: usize, i: usize) -> u32 {
        latest_release(rows, k, i)
    }

    ghost readied_is = { certainly_ready_is };

    ghost rested_up_to = { latest_rested_up_to };
}
