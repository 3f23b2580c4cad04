// What a check answers: its result, in code. specs/ has the verdict, the result that carries it, and what is promised of both.
#![tactic(auto)]

ghost use Rattle.std.specs.Prelude.{◌≡◌};
ghost use Rattle.checking.specs.Checking.{refusing};

use model::limits::MOST_JOBS;

// Refusals with their number and place; a late job with its finish times.
#[derive(Clone, Copy)]
pub enum Answer {
    Accepted,
    Refused(u32, usize),
    Late(usize, u32, u32),
}

// The answer, the number of jobs, for each job the bounds of its finish time and of its response, and the number of states stored.
#[derive(Clone, Copy)]
pub struct Checked {
    pub answer: Answer,
    pub jobs: usize,
    pub earliest: [u32; MOST_JOBS],
    pub latest: [u32; MOST_JOBS],
    pub best: [u32; MOST_JOBS],
    pub worst: [u32; MOST_JOBS],
    pub states: u64,
}

// A result with zeros beside its answer.
pub fn refused(answer: Answer) -> Checked
    ensures { result ≡ refusing answer }
{
    Checked {
        answer,
        jobs: 0,
        earliest: [0u32; MOST_JOBS],
        latest: [0u32; MOST_JOBS],
        best: [0u32; MOST_JOBS],
        worst: [0u32; MOST_JOBS],
        states: 0,
    }
}
