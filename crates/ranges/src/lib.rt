// The range of finish times that was observed of a job so far, widened by an edge.
#![tactic(auto)]

ghost use Rattle.std.specs.Prelude.{◌≡◌};
ghost use Rattle.ranges.specs.internal.Ranges.{widened_by};

// From the earliest to the latest finish time. Where nothing was observed the latest is 0, which needs no more than the two words kept for each job.
#[derive(Clone, Copy)]
pub struct FinishRange {
    pub earliest: u32,
    pub latest: u32,
}

// The smallest range that contains the range and the finish times from e to f.
#[tactic(auto, unfolding(crate::specs::internal::Ranges::widened_by))]
pub fn widened(r: FinishRange, e: u32, f: u32) -> FinishRange
    ensures { result ≡ widened_by r e f }
{
    if r.latest == 0 {
        return FinishRange {
            earliest: e,
            latest: f,
        };
    }
    FinishRange {
        earliest: r.earliest.min(e),
        latest: r.latest.max(f),
    }
}

// The same in place.
pub fn widen(r: &mut FinishRange, e: u32, f: u32)
    ensures { r.new ≡ widened_by r.old e f }
{
    *r = widened(*r, e, f);
}
