// A playing of a phrase file, worked out: the phrase is read, then its playing, then the run.
#![tactic(auto)]

ghost use Rattle.std.specs.Prelude.{◌≡◌, replicate};
ghost use Rattle.model.specs.Limits.{most_jobs};
ghost use Rattle.model.specs.Guarantee.{WellFormed};
ghost use Rattle.format.specs.Outcome.{ok};
ghost use Rattle.format.specs.Reading.{reading};
ghost use Rattle.rows.specs.PhraseTable.{phrase_of};
ghost use Rattle.rows.specs.internal.Handed.{HandedOn};
ghost use Rattle.jobs.specs.internal.JobRow.{jobs_of_rows, Setting};
ghost use Rattle.playing.specs.Playing.{played_for, played_of, starts_of, finishes_of, admission_of};

use dispatch::dispatch;
use jobs::row::JOB_TABLE;
use jobset::write_jobs;
use model::limits::MOST_JOBS;
use model::refusals::Refusal;
use playing::admit;
use reader::read;
use rows::{CORES, NOTE_COUNT, PHRASE_WORDS, header_word};

// Works out a playing of the jobs of k rows on m cores.
fn play_jobs(
    rows: &[u32; JOB_TABLE],
    k: usize,
    m: usize,
    playing: &[u8],
    starts: &mut [u32; MOST_JOBS],
    finishes: &mut [u32; MOST_JOBS],
) -> Result<(), Refusal>
    requires { Setting rows.now k m × WellFormed (jobs_of_rows rows.now k) m
        × (starts.old ≡ replicate most_jobs 0) × (finishes.old ≡ replicate most_jobs 0) }
    ensures value { result ≡ admission_of (played_for (jobs_of_rows rows.now k) m playing.now) }
    ensures starts_after { starts.new ≡ starts_of (played_for (jobs_of_rows rows.now k) m playing.now) }
    ensures finishes_after { finishes.new ≡ finishes_of (played_for (jobs_of_rows rows.now k) m playing.now) }
{
    admit(rows, k, playing)?;
    dispatch(rows, k, m, playing, starts, finishes);
    Ok(())
}

// Works out a playing of a phrase, from its table.
fn play_phrase(
    phrase: &[u32; PHRASE_WORDS],
    playing: &[u8],
    starts: &mut [u32; MOST_JOBS],
    finishes: &mut [u32; MOST_JOBS],
) -> Result<(), Refusal>
    requires { HandedOn phrase.now × (starts.old ≡ replicate most_jobs 0) × (finishes.old ≡ replicate most_jobs 0) }
    ensures value { result ≡ admission_of (played_of (ok (phrase_of phrase.now)) playing.now) }
    ensures starts_after { starts.new ≡ starts_of (played_of (ok (phrase_of phrase.now)) playing.now) }
    ensures finishes_after { finishes.new ≡ finishes_of (played_of (ok (phrase_of phrase.now)) playing.now) }
{
    let mut rows = [0u32; JOB_TABLE];
    write_jobs(phrase, &mut rows);
    let k = header_word(phrase, NOTE_COUNT) as usize;
    let m = header_word(phrase, CORES) as usize;
    play_jobs(&rows, k, m, playing, starts, finishes)
}

// Works out a playing of a phrase file: the start and the finish time of each job, and zeros after them. On a refusal all are zero.
pub fn play(
    file: &[u8],
    playing: &[u8],
    starts: &mut [u32; MOST_JOBS],
    finishes: &mut [u32; MOST_JOBS],
) -> Result<(), Refusal>
    ensures answer { result ≡ admission_of (played_of (reading file.now) playing.now) }
    ensures starts { starts.new ≡ starts_of (played_of (reading file.now) playing.now) }
    ensures finishes { finishes.new ≡ finishes_of (played_of (reading file.now) playing.now) }
{
    starts.fill(0);
    finishes.fill(0);
    let mut phrase = [0u32; PHRASE_WORDS];
    read(file, &mut phrase)?;
    play_phrase(&phrase, playing, starts, finishes)
}
