// The notes of a phrase file, and their rows of words.
ghost use Rattle.std.specs.Prelude.{◌≡◌, List, [], ℕ, ◌+◌, ◌*◌, ◌≤◌, ◌<◌, length};
ghost use Rattle.model.specs.Limits.{most_jobs};
ghost use Rattle.words.specs.internal.Placed.{placed};
ghost use Rattle.format.specs.Bytes.{number};
ghost use Rattle.format.specs.Layout.{first, most_bells, bell_count_at, note_count_at};
ghost use Rattle.format.specs.Phrase.{Bell, Note, find, is_some};
ghost use Rattle.format.specs.Rules.{are_times, rises, note_rules};
ghost use Rattle.format.specs.Reading.{note_in, note_record, notes_from, notes_in};
ghost use Rattle.rows.specs.NoteRow.{note_words, note_row_on};
ghost use Rattle.rows.specs.PhraseTable.{note_rows_at, phrase_words};
ghost use Rattle.fields.specs.internal.Layouts.{layout_of};
ghost use Rattle.fields.specs.internal.NoteRecord.{WholeNote};
ghost use Rattle.records.specs.internal.Answers.{reading_of};
ghost use Rattle.records.specs.internal.Filling.{list_of, bells_held, BellTable, HoldsBells, note_put, HoldsNotes};

use crate::bells::find_bell;
use fields::bytes::{be_32, byte};
use fields::layout::{
    DEADLINE_AT, EARLIEST_RELEASE_AT, KEY_AT, LATEST_RELEASE_AT, LENGTH_AT, Layout,
};
use fields::notes::{do_rise, is_note_length, listed_jobs, write_note};
use fields::rules::are_times;
use model::limits::MOST_JOBS;
use model::refusals::{
    Refusal, SILENT_KEY, TOO_MANY_NOTES, WRONG_END, WRONG_LISTED, WRONG_NOTE_LENGTH, WRONG_TIMES,
    refuse,
};
use rows::NOTE_ROWS;
use rows::note::NOTE_WORDS;

// Writes the row of note `own`, which strikes the bell.
fn put_note(part: &[u8], bell: u32, phrase: &mut [u32], own: usize)
    requires { WholeNote part.now × (own < most_jobs) × (phrase_words ≤ length phrase.old) }
    ensures { phrase.new ≡ placed phrase.old (note_rows_at + own * note_words) (note_row_on bell (note_in first part.now)) }
{
    let from = NOTE_ROWS + own * NOTE_WORDS;
    let end = from + NOTE_WORDS;
    write_note(part, bell, &mut phrase[from..end]);
}

// The first rule that a note breaks, by what was asked of it: its times (11), then its key (10), then what it lists (12).
pub fn first_broken(timely: bool, struck: bool, rising: bool, at: usize) -> Result<(), Refusal>
    ensures { (shift : ℕ) (bells : List Bell) (own : ℕ) (n : Note) → timely ≡ are_times n.earliest_release n.latest_release n.deadline
        → struck ≡ is_some (find n.key shift bells) → rising ≡ rises own 0 n.listed → result ≡ reading_of (note_rules shift bells own at n) }
{
    if !timely {
        return refuse(WRONG_TIMES, at);
    }
    if !struck {
        return refuse(SILENT_KEY, at);
    }
    if !rising {
        return refuse(WRONG_LISTED, at);
    }
    Ok(())
}

// The fields of a note record that is there, after `own` notes: their rules, then its row.
fn note_fields(
    part: &[u8],
    at: usize,
    shift: u32,
    phrase: &mut [u32],
    n: usize,
    own: usize,
) -> Result<(), Refusal>
    requires { WholeNote part.now × (n ≤ most_bells) × (phrase_words ≤ length phrase.old) × BellTable phrase.old n × (own < most_jobs)
        × (shift < 256) }
    ensures value { result ≡ reading_of (note_rules shift (bells_held phrase.old n) own at (note_in first part.now)) }
    ensures phrase_after { phrase.new ≡ note_put shift (bells_held phrase.old n)
        (note_rules shift (bells_held phrase.old n) own at (note_in first part.now)) phrase.old own }
{
    let earliest = be_32(part, EARLIEST_RELEASE_AT);
    let latest = be_32(part, LATEST_RELEASE_AT);
    let deadline = be_32(part, DEADLINE_AT);
    let timely = are_times(earliest, latest, deadline);
    let rising = do_rise(listed_jobs(part), own as u32);
    let key = byte(part, KEY_AT);
    let Some(bell) = find_bell(phrase, n, key, shift) else {
        return first_broken(timely, false, rising, at);
    };
    first_broken(timely, true, rising, at)?;
    put_note(part, bell, phrase, own);
    Ok(())
}

// One note record, from the part of the file that begins at its length byte, after `own` notes.
fn read_note(
    part: &[u8],
    at: usize,
    shift: u32,
    phrase: &mut [u32],
    n: usize,
    own: usize,
) -> Result<(), Refusal>
    requires { (n ≤ most_bells) × (phrase_words ≤ length phrase.old) × BellTable phrase.old n × (own < most_jobs) × (shift < 256) }
    ensures value { result ≡ reading_of (note_record first shift (bells_held phrase.old n) own at part.now) }
    ensures phrase_after { phrase.new ≡ note_put shift (bells_held phrase.old n)
        (note_record first shift (bells_held phrase.old n) own at part.now) phrase.old own }
{
    if part.len() < 1 {
        return refuse(WRONG_END, at);
    }
    let size = byte(part, LENGTH_AT);
    if !is_note_length(size) {
        return refuse(WRONG_NOTE_LENGTH, at);
    }
    if part.len() <= size as usize {
        return refuse(WRONG_END, at);
    }
    note_fields(part, at, shift, phrase, n, own)
}

// `count` notes from `start` on, with which the file ends. The rows of the n bells stay.
fn notes_from(
    file: &[u8],
    start: usize,
    count: usize,
    shift: u32,
    phrase: &mut [u32],
    n: usize,
) -> Result<(), Refusal>
    requires { (start ≤ length file.now) × (count ≤ most_jobs) × (n ≤ most_bells) × (phrase_words ≤ length phrase.old) × BellTable phrase.old n
        × (shift < 256) }
    ensures value { result ≡ reading_of (notes_from first file.now shift (bells_held phrase.old n) count start []) }
    ensures holds_bells { HoldsBells (bells_held phrase.old n) phrase.new }
    ensures holds_notes { HoldsNotes shift (bells_held phrase.old n)
        (list_of (notes_from first file.now shift (bells_held phrase.old n) count start [])) phrase.new }
{
    let mut at = start;
    for i in 0..count {
        read_note(&file[at..], at, shift, phrase, n, i)?;
        at += 1 + byte(file, at) as usize;
    }
    if at < file.len() {
        return refuse(WRONG_END, at);
    }
    Ok(())
}

// The note count and the notes, whose rows are in the table once they are read. `n` is the file's bell count.
pub fn read_notes(
    file: &[u8],
    l: Layout,
    shift: u32,
    phrase: &mut [u32],
    n: usize,
) -> Result<(), Refusal>
    requires { (shift < 256) × (n ≡ number 1 (bell_count_at (layout_of l)) file.now) × (n ≤ most_bells) × (phrase_words ≤ length phrase.old)
        × BellTable phrase.old n }
    ensures value { result ≡ reading_of (notes_in (layout_of l) file.now shift (bells_held phrase.old n) (note_count_at (layout_of l) n)) }
    ensures holds_bells { HoldsBells (bells_held phrase.old n) phrase.new }
    ensures holds_notes { HoldsNotes shift (bells_held phrase.old n)
        (list_of (notes_in (layout_of l) file.now shift (bells_held phrase.old n) (note_count_at (layout_of l) n))) phrase.new }
{
    let at = l.note_count_at(n);
    if file.len() <= at {
        return refuse(WRONG_END, at);
    }
    let count = byte(file, at) as usize;
    if MOST_JOBS < count {
        return refuse(TOO_MANY_NOTES, at);
    }
    notes_from(file, at + 1, count, shift, phrase, n)
}
