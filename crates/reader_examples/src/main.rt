// Reads example files from standard input, each after two bytes that say how long it is, and prints what is made of each: every bell and every job, or
// the refusal; and whether all other words of the rows of bells and of notes, which held something before, are zero.
#![tactic(auto)]

ghost use Rattle.rows.specs.internal.Handed.{HandedOn};

use input::read_full;
use jobs::row::{BELL, JOB_TABLE, LISTED_COUNT, REST, ROW_WORDS};
use jobset::write_jobs;
use printing::{Files, MOST_INPUT, Words, print_clear};
use reader::read;
use rows::bell::{BELL_WORDS, SOUNDING, WRITTEN};
use rows::note::{KEY, NOTE_WORDS};
use rows::{BELL_COUNT, BELL_ROWS, NOTE_COUNT, NOTE_ROWS, PHRASE_WORDS, header_word};
use std::io;

// The key that the bell sounds for, what its record holds, the rest last, and a zero.
fn show_bell(rt: &impl Print, row: &[u32; BELL_WORDS]) -> io::Result<()> {
    let written = Words(&row[WRITTEN..SOUNDING]);
    println!(rt; "bell {}{written} 0", row[SOUNDING])
}

// What the analysis asks of the job, its bell, its key, how many jobs its note lists, and its rest.
fn show_job(rt: &impl Print, row: &[u32; ROW_WORDS], note: &[u32; NOTE_WORDS]) -> io::Result<()> {
    let asked = Words(&row[..REST]);
    println!(rt;
        "job{asked} {} {} {} {}",
        row[BELL], note[KEY], row[LISTED_COUNT], row[REST]
    )
}

// The rows of the first bells and jobs, and whether the other rows of bells and of notes are zero.
fn show_rows(
    rt: &impl Print,
    phrase: &[u32; PHRASE_WORDS],
    jobs: &[u32],
    bell_count: usize,
    note_count: usize,
) -> io::Result<()> {
    let (bell_rows, _) = phrase[BELL_ROWS..NOTE_ROWS].as_chunks();
    let (bells, other_bells) = bell_rows.split_at(bell_count.min(bell_rows.len()));
    let (note_rows, _) = phrase[NOTE_ROWS..].as_chunks();
    let (notes, other_notes) = note_rows.split_at(note_count.min(note_rows.len()));
    let (job_rows, _) = jobs.as_chunks();
    for bell in bells {
        show_bell(rt, bell)?;
    }
    for (job, note) in job_rows.iter().zip(notes) {
        show_job(rt, job, note)?;
    }
    print_clear(rt, other_bells.as_flattened())?;
    print_clear(rt, other_notes.as_flattened())
}

// The phrase that a table holds.
fn show_phrase(rt: &impl Print, phrase: &[u32; PHRASE_WORDS]) -> io::Result<()>
    requires { HandedOn phrase.now }
{
    let mut jobs = [7u32; JOB_TABLE];
    write_jobs(phrase, &mut jobs);
    let bells = header_word(phrase, BELL_COUNT) as usize;
    let notes = header_word(phrase, NOTE_COUNT) as usize;
    println!(rt; "read{}", Words(&phrase[..BELL_ROWS]))?;
    show_rows(rt, phrase, &jobs, bells, notes)
}

fn show(rt: &impl Print, file: &[u8]) -> io::Result<()> {
    let mut phrase = [7u32; PHRASE_WORDS];
    match read(file, &mut phrase) {
        Ok(()) => show_phrase(rt, &phrase),
        Err(refusal) => {
            println!(rt; "refused {} at {}", refusal.number, refusal.place)?;
            show_rows(rt, &phrase, &[], 0, 0)
        }
    }
}

fn main(rt: HostRuntime) -> io::Result<()> {
    let mut input = [0u8; MOST_INPUT];
    let n = read_full(&rt, &mut input)?;
    for file in Files(&input[..n]) {
        show(&rt, file)?;
    }
    Ok(())
}
