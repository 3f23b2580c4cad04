// The rows of a phrase's jobs, made from the table of the phrase.
#![tactic(auto)]

ghost use Rattle.std.specs.Prelude.{◌≡◌, ◌++◌, ◌+◌, ◌*◌, ◌≤◌, ◌<◌, get_or, length, option_to_list};
ghost use Rattle.model.specs.Limits.{most_jobs};
ghost use Rattle.model.specs.Jobs.{job, nearest, predecessors};
ghost use Rattle.words.specs.internal.Placed.{placed};
ghost use Rattle.format.specs.Layout.{most_listed};
ghost use Rattle.format.specs.internal.Analysable.{most_predecessors};
ghost use Rattle.rows.specs.PhraseTable.{phrase_of};
ghost use Rattle.rows.specs.internal.Handed.{HandedOn};
ghost use Rattle.jobs.specs.internal.JobRow.{row_words, earliest_release_at, predecessor_count_at, rest_at, job_row};
ghost use Rattle.jobs.specs.internal.JobTable.{job_table};
ghost use Rattle.jobs.specs.internal.Fields.{fields};
ghost use Rattle.jobset.specs.internal.Making.{jobs_held, found_of, predecessor_words, origin_words};

use jobs::row::{
    BELL, DEADLINE, EARLIEST_RELEASE, JOB_TABLE, LATEST_RELEASE, LEAST_EXECUTION, LISTED_COUNT,
    MOST_EXECUTION, PREDECESSOR_COUNT, PREDECESSORS, PRIORITY, REST, ROW_WORDS, SPARE,
};
use rows::bell::{
    LEAST_EXECUTION as BELL_LEAST_EXECUTION, MOST_EXECUTION as BELL_MOST_EXECUTION,
    PRIORITY as BELL_PRIORITY, REST as BELL_REST,
};
use rows::note::{
    DEADLINE as NOTE_DEADLINE, EARLIEST_RELEASE as NOTE_EARLIEST_RELEASE,
    LATEST_RELEASE as NOTE_LATEST_RELEASE, LISTED as NOTE_LISTED,
    LISTED_COUNT as NOTE_LISTED_COUNT, STRUCK,
};
use rows::{NOTE_COUNT, PHRASE_WORDS, bell_word, note_word};

// The nearest to `own` of the jobs before it that strike the bell.
fn nearest_job(phrase: &[u32; PHRASE_WORDS], bell: u32, own: usize) -> Option<u32>
    requires { HandedOn phrase.now × (own < length (jobs_held phrase.now)) }
    ensures { result ≡ found_of (nearest (jobs_held phrase.now) bell own) }
{
    for n in (0..own).rev() {
        let struck = note_word(phrase, n, STRUCK);
        if struck == bell {
            return Some(n as u32);
        }
    }
    None
}

// The j-th predecessor of job i, 0 where it has no more: the listed ones, then the nearest of its bell.
fn predecessor_word(phrase: &[u32; PHRASE_WORDS], i: usize, earlier: Option<u32>, j: usize) -> u32
    requires { HandedOn phrase.now × (i < length (jobs_held phrase.now)) × (j < most_predecessors) }
    ensures { result ≡ get_or ((job (jobs_held phrase.now) i).listed ++ option_to_list earlier) j 0 }
{
    let listed = note_word(phrase, i, NOTE_LISTED_COUNT) as usize;
    if j < listed {
        return note_word(phrase, i, NOTE_LISTED + j);
    }
    if listed < j {
        return 0;
    }
    earlier.unwrap_or(0)
}

// The fields of job i that are numbers.
fn write_demand(phrase: &[u32; PHRASE_WORDS], i: usize, row: &mut [u32])
    requires { HandedOn phrase.now × (i < length (jobs_held phrase.now)) × (length row.old ≡ row_words) }
    ensures { row.new ≡ placed row.old earliest_release_at (fields (job (jobs_held phrase.now) i)) }
{
    let bell = note_word(phrase, i, STRUCK) as usize;
    row[EARLIEST_RELEASE] = note_word(phrase, i, NOTE_EARLIEST_RELEASE);
    row[LATEST_RELEASE] = note_word(phrase, i, NOTE_LATEST_RELEASE);
    row[LEAST_EXECUTION] = bell_word(phrase, bell, BELL_LEAST_EXECUTION);
    row[MOST_EXECUTION] = bell_word(phrase, bell, BELL_MOST_EXECUTION);
    row[DEADLINE] = note_word(phrase, i, NOTE_DEADLINE);
    row[PRIORITY] = bell_word(phrase, bell, BELL_PRIORITY);
}

// The number of predecessors of job i, and the predecessors.
fn write_predecessors(phrase: &[u32; PHRASE_WORDS], i: usize, row: &mut [u32])
    requires { HandedOn phrase.now × (i < length (jobs_held phrase.now)) × (length row.old ≡ row_words) }
    ensures { row.new
        ≡ placed row.old predecessor_count_at (predecessor_words (predecessors (jobs_held phrase.now) i)) }
{
    let bell = note_word(phrase, i, STRUCK);
    let listed = note_word(phrase, i, NOTE_LISTED_COUNT);
    let earlier = nearest_job(phrase, bell, i);
    row[PREDECESSOR_COUNT] = listed + u32::from(earlier.is_some());
    row[PREDECESSORS] = predecessor_word(phrase, i, earlier, 0);
    row[PREDECESSORS + 1] = predecessor_word(phrase, i, earlier, 1);
    row[PREDECESSORS + 2] = predecessor_word(phrase, i, earlier, 2);
    row[PREDECESSORS + 3] = predecessor_word(phrase, i, earlier, 3);
    row[PREDECESSORS + 4] = predecessor_word(phrase, i, earlier, 4);
}

// What follows the predecessors: the rest, the bell of job i, how many its note lists, and a zero.
fn write_origin(phrase: &[u32; PHRASE_WORDS], i: usize, row: &mut [u32])
    requires { HandedOn phrase.now × (i < length (jobs_held phrase.now)) × (length row.old ≡ row_words) }
    ensures { row.new ≡ placed row.old rest_at (origin_words (job (jobs_held phrase.now) i)) }
{
    let bell = note_word(phrase, i, STRUCK);
    row[REST] = bell_word(phrase, bell as usize, BELL_REST);
    row[BELL] = bell;
    row[LISTED_COUNT] = note_word(phrase, i, NOTE_LISTED_COUNT);
    row[SPARE] = 0;
}

// The row of job i.
fn write_job(phrase: &[u32; PHRASE_WORDS], i: usize, row: &mut [u32])
    requires { HandedOn phrase.now × (i < length (jobs_held phrase.now)) × (length row.old ≡ row_words) }
    ensures { row.new ≡ job_row (jobs_held phrase.now) i }
{
    write_demand(phrase, i, row);
    write_predecessors(phrase, i, row);
    write_origin(phrase, i, row);
}

// Puts the row of job i in its place.
fn put_job(phrase: &[u32; PHRASE_WORDS], i: usize, rows: &mut [u32])
    requires { HandedOn phrase.now × (i < length (jobs_held phrase.now)) × (most_jobs * row_words ≤ length rows.old) }
    ensures { rows.new ≡ placed rows.old (i * row_words) (job_row (jobs_held phrase.now) i) }
{
    let from = i * ROW_WORDS;
    let end = from + ROW_WORDS;
    write_job(phrase, i, &mut rows[from..end]);
}

// The rows of the jobs, one after the other.
fn write_rows(phrase: &[u32; PHRASE_WORDS], rows: &mut [u32])
    requires { HandedOn phrase.now × (most_jobs * row_words ≤ length rows.old) }
    ensures { rows.new ≡ job_table (phrase_of phrase.now) rows.old }
{
    let count = phrase[NOTE_COUNT] as usize;
    for i in 0..count {
        put_job(phrase, i, rows);
    }
}

// Writes the rows of the phrase's jobs; the words after them stay.
pub fn write_jobs(phrase: &[u32; PHRASE_WORDS], rows: &mut [u32; JOB_TABLE])
    requires { HandedOn phrase.now }
    ensures { rows.new ≡ job_table (phrase_of phrase.now) rows.old }
{
    write_rows(phrase, rows);
}
