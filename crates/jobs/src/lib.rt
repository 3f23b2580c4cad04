// Jobs, read from their rows of words.
#![tactic(auto)]

pub mod row;

ghost use Rattle.std.specs.Prelude.{◌≡◌, ◌<◌, ◌≤◌, get_or, length};
ghost use Rattle.model.specs.Folds.{member};
ghost use Rattle.model.specs.Limits.{most_jobs};
ghost use Rattle.model.specs.Jobs.{job, predecessors};
ghost use Rattle.format.specs.internal.Analysable.{most_predecessors};
ghost use Rattle.jobs.specs.internal.JobRow.{row_words, word, jobs_of_rows, Rows};
ghost use Rattle.jobs.specs.internal.Fields.{field_count, field_at};
ghost use Rattle.jobs.specs.internal.Order.{precedence, places};
ghost use Rattle.jobs.specs.internal.Rests.{last_rest};

use crate::row::{
    DEADLINE, EARLIEST_RELEASE, LATEST_RELEASE, LEAST_EXECUTION, LISTED_COUNT, MOST_EXECUTION,
    PREDECESSOR_COUNT, PREDECESSORS, PRIORITY, REST, ROW_WORDS,
};
use model::limits::MOST_JOBS;

fn word_at(rows: &[u32], k: usize, i: usize, at: usize) -> u32
    requires { (i < k) × (at < row_words) × Rows rows.now k }
    ensures { result ≡ word rows.now i at }
{
    rows[i * ROW_WORDS + at]
}

fn field(rows: &[u32], k: usize, i: usize, at: usize) -> u32
    requires { (i < k) × (at < field_count) × Rows rows.now k }
    ensures { result ≡ field_at at (job (jobs_of_rows rows.now k) i) }
{
    word_at(rows, k, i, at)
}

pub fn earliest_release(rows: &[u32], k: usize, i: usize) -> u32
    requires { (i < k) × Rows rows.now k }
    ensures { result ≡ (job (jobs_of_rows rows.now k) i).earliest_release }
{
    field(rows, k, i, EARLIEST_RELEASE)
}

pub fn latest_release(rows: &[u32], k: usize, i: usize) -> u32
    requires { (i < k) × Rows rows.now k }
    ensures { result ≡ (job (jobs_of_rows rows.now k) i).latest_release }
{
    field(rows, k, i, LATEST_RELEASE)
}

pub fn least_execution(rows: &[u32], k: usize, i: usize) -> u32
    requires { (i < k) × Rows rows.now k }
    ensures { result ≡ (job (jobs_of_rows rows.now k) i).least_execution }
{
    field(rows, k, i, LEAST_EXECUTION)
}

pub fn most_execution(rows: &[u32], k: usize, i: usize) -> u32
    requires { (i < k) × Rows rows.now k }
    ensures { result ≡ (job (jobs_of_rows rows.now k) i).most_execution }
{
    field(rows, k, i, MOST_EXECUTION)
}

pub fn deadline(rows: &[u32], k: usize, i: usize) -> u32
    requires { (i < k) × Rows rows.now k }
    ensures { result ≡ (job (jobs_of_rows rows.now k) i).deadline }
{
    field(rows, k, i, DEADLINE)
}

pub fn priority(rows: &[u32], k: usize, i: usize) -> u32
    requires { (i < k) × Rows rows.now k }
    ensures { result ≡ (job (jobs_of_rows rows.now k) i).priority }
{
    field(rows, k, i, PRIORITY)
}

pub fn predecessor_count(rows: &[u32], k: usize, i: usize) -> usize
    requires { (i < k) × Rows rows.now k }
    ensures { (result ≡ length (predecessors (jobs_of_rows rows.now k) i)) × (result ≤ most_predecessors) }
{
    word_at(rows, k, i, PREDECESSOR_COUNT) as usize
}

pub fn predecessor(rows: &[u32], k: usize, i: usize, j: usize) -> usize
    requires { (i < k) × (j < length (predecessors (jobs_of_rows rows.now k) i)) × Rows rows.now k }
    ensures { (result ≡ get_or (predecessors (jobs_of_rows rows.now k) i) j 0) × (result < i) }
{
    word_at(rows, k, i, PREDECESSORS + j) as usize
}

// The rest of job i's wait for the last of its predecessors, where that is the nearest earlier job of its bell; 0 where there is none. It is there exactly if
// the job has more predecessors than its note lists. Most bells have no rest: one word tells that.
pub fn last_rest(rows: &[u32], k: usize, i: usize) -> u32
    requires { (i < k) × Rows rows.now k }
    ensures { result ≡ last_rest (jobs_of_rows rows.now k) i }
{
    let rest = word_at(rows, k, i, REST);
    if rest == 0 {
        return 0;
    }
    if word_at(rows, k, i, PREDECESSOR_COUNT) == word_at(rows, k, i, LISTED_COUNT) {
        return 0;
    }
    rest
}

// Whether job w is a predecessor of job i.
pub fn is_predecessor(rows: &[u32], k: usize, i: usize, w: usize) -> bool
    requires { (i < k) × Rows rows.now k }
    ensures { result ≡ member w (predecessors (jobs_of_rows rows.now k) i) }
{
    (0..predecessor_count(rows, k, i)).any(|j| w == predecessor(rows, k, i, j))
}

// Where job i stands in the order of priority: of two jobs the one with the smaller number here goes before the other.
pub fn precedence(rows: &[u32], k: usize, i: usize) -> u64
    requires { (i < k) × (k ≤ most_jobs) × Rows rows.now k }
    ensures { (result ≡ precedence (jobs_of_rows rows.now k) i) × (result < places) }
{
    priority(rows, k, i) as u64 * MOST_JOBS as u64 + i as u64
}
