// A phrase file checked over a lent table.
#![tactic(auto)]

ghost use Rattle.std.specs.Prelude.{◌≡◌, length, drop};
ghost use Rattle.model.specs.Guarantee.{WellFormed};
ghost use Rattle.format.specs.Outcome.{ok};
ghost use Rattle.format.specs.Reading.{reading};
ghost use Rattle.rows.specs.PhraseTable.{phrase_table, phrase_of};
ghost use Rattle.rows.specs.internal.Handed.{HandedOn};
ghost use Rattle.jobs.specs.internal.JobRow.{jobs_of_rows, Setting};
ghost use Rattle.checking.specs.Checking.{verdict, level_words, TableKept, checked_of, answer_for, values_of, RunsKept};
ghost use Rattle.checking.specs.Certain.{ResultByRun};
ghost use Rattle.checker.specs.internal.Analysed.{analysed_of};

use analysis::levels::analyse;
use checking::refused;
pub use checking::{Answer, Checked};
use jobs::row::JOB_TABLE;
use jobset::write_jobs;
use model::limits::MOST_JOBS;
use model::refusals::{LEVEL_FULL, Refusal};
use reader::read;
use results::accepting;
use rows::{CORES, NOTE_COUNT, PHRASE_WORDS, header_word};
use steps::stop::Stop;

// The words of the observed finish ranges: the earliest finish times of all jobs, then the latest.
const OBSERVED_WORDS: usize = 2 * MOST_JOBS;

// Analyses the jobs of k rows on m cores.
fn analysed(rows: &[u32; JOB_TABLE], k: usize, m: usize, table: &mut [u32]) -> Checked
    requires { Setting rows.now k m × WellFormed (jobs_of_rows rows.now k) m }
    ensures value { result ≡ analysed_of rows.now k m (length table.old) }
    ensures table_unchanged { drop (level_words (length table.old) m k) table.new
        ≡ drop (level_words (length table.old) m k) table.old }
{
    let mut seen = [0u32; OBSERVED_WORDS];
    let answer = match analyse(table, &mut seen, rows, k, m) {
        Ok(states) => return accepting(rows, k, &seen, states),
        Err(Stop::Full(level)) => Answer::Refused(LEVEL_FULL, level as usize),
        Err(Stop::Late(job, earliest, latest)) => Answer::Late(job, earliest, latest),
    };
    refused(answer)
}

// Analyses the jobs of a phrase, from its table.
fn analysed_phrase(phrase: &[u32; PHRASE_WORDS], table: &mut [u32]) -> Checked
    requires { HandedOn phrase.now }
    ensures value { result ≡ checked_of (ok (phrase_of phrase.now)) (length table.old) }
    ensures table_kept { TableKept (ok (phrase_of phrase.now)) table.old table.new }
{
    let mut rows = [0u32; JOB_TABLE];
    write_jobs(phrase, &mut rows);
    let k = header_word(phrase, NOTE_COUNT) as usize;
    let m = header_word(phrase, CORES) as usize;
    analysed(&rows, k, m, table)
}

// Checks a phrase file over a lent table, and keeps the table of its phrase.
pub fn check_phrase(file: &[u8], phrase: &mut [u32; PHRASE_WORDS], table: &mut [u32]) -> Checked
    ensures answer { result ≡ checked_of (reading file.now) (length table.old) }
    ensures phrase { phrase.new ≡ phrase_table (reading file.now) }
    ensures table { TableKept (reading file.now) table.old table.new }
{
    match read(file, phrase) {
        Err(Refusal { number, place }) => refused(Answer::Refused(number, place)),
        Ok(()) => analysed_phrase(phrase, table),
    }
}

// Checks a phrase file over a lent table. An accepted result keeps its promise in every run of the phrase; where nothing of the phrase is uncertain, the
// result says what its one run does.
pub fn check(file: &[u8], table: &mut [u32]) -> Checked
    ensures answer { result ≡ checked_of (reading file.now) (length table.old) }
    ensures number { values_of result.answer
        ≡ values_of (answer_for (verdict (reading file.now) (length table.old))) }
    ensures table { TableKept (reading file.now) table.old table.new }
    ensures runs { RunsKept (reading file.now) result }
    ensures certain { ResultByRun (reading file.now) (length table.old) result }
{
    let mut phrase = [0u32; PHRASE_WORDS];
    check_phrase(file, &mut phrase, table)
}
