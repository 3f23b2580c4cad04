// The phrase file, read into a table of words.
#![tactic(auto)]

ghost use Rattle.std.specs.Prelude.{◌≡◌, ◌+◌, ◌*◌, ◌≤◌, ◌<◌, length};
ghost use Rattle.model.specs.Limits.{most_jobs};
ghost use Rattle.format.specs.Bytes.{number};
ghost use Rattle.format.specs.Layout.{shift_at, bell_count_at, most_bells, note_count_at};
ghost use Rattle.format.specs.Reading.{reading};
ghost use Rattle.fields.specs.internal.Layouts.{layout_of};
ghost use Rattle.rows.specs.PhraseTable.{phrase_words, phrase_table};
ghost use Rattle.records.specs.internal.Answers.{reading_of};
ghost use Rattle.reader.specs.internal.Parts.{header_of, shift_of, body_of};
ghost use Rattle.reader.specs.internal.Filling.{Filled, counts_in, completed};

use fields::bytes::{be_32, byte};
use fields::header::shift_in;
use fields::layout::{
    BYTE_COUNT_AT, CORES_AT, Layout, SHIFT_AT, UNCOUNTED_BYTES, VERSION_AT, VERSIONS,
};
use fields::rules::{is_shift, is_within};
use model::limits::MOST_CORES;
use model::refusals::{
    Refusal, WRONG_CORES, WRONG_COUNT, WRONG_END, WRONG_SHIFT, WRONG_VERSION, refuse,
};
use records::bells::read_bells;
use records::notes::read_notes;
use rows::bell::BELL_WORDS;
use rows::note::NOTE_WORDS;
use rows::{
    BELL_COUNT, BELL_ROWS, CORES, NOTE_COUNT, NOTE_ROWS, PHRASE_WORDS, SHIFT,
    VERSION as VERSION_WORD,
};

// What the header of a table says.
#[derive(Clone, Copy)]
pub struct Counts {
    pub version: u32,
    pub cores: u32,
    pub shift: u32,
    pub bells: u32,
    pub notes: u32,
}

// The version, the count of bytes and the cores.
fn read_header(file: &[u8]) -> Result<(), Refusal>
    ensures { result ≡ reading_of (header_of file.now) }
{
    if file.len() < 1 {
        return refuse(WRONG_COUNT, 0);
    }
    if !is_within(1, VERSIONS, byte(file, VERSION_AT)) {
        return refuse(WRONG_VERSION, 0);
    }
    if file.len() < UNCOUNTED_BYTES {
        return refuse(WRONG_COUNT, 0);
    }
    let count = be_32(file, BYTE_COUNT_AT) as usize;
    if count != file.len() - UNCOUNTED_BYTES {
        return refuse(WRONG_COUNT, 0);
    }
    if file.len() <= CORES_AT {
        return refuse(WRONG_END, CORES_AT);
    }
    if !is_within(1, MOST_CORES as u32, byte(file, CORES_AT)) {
        return refuse(WRONG_CORES, CORES_AT);
    }
    Ok(())
}

// The shift, where the version has one.
fn read_shift(file: &[u8], l: Layout) -> Result<(), Refusal>
    ensures { result ≡ reading_of (shift_of (layout_of l) file.now) }
{
    if file.len() < SHIFT_AT + l.shift {
        return refuse(WRONG_END, SHIFT_AT);
    }
    if !is_shift(l, shift_in(file, l)) {
        return refuse(WRONG_SHIFT, SHIFT_AT);
    }
    Ok(())
}

// What follows the shift: the bells and the notes.
fn read_body(file: &[u8], l: Layout, phrase: &mut [u32]) -> Result<(), Refusal>
    requires { (shift_at + l.shift ≤ length file.now) × (phrase_words ≤ length phrase.old) }
    ensures value { result ≡ reading_of (body_of (layout_of l) file.now) }
    ensures filled { Filled (body_of (layout_of l) file.now) phrase.new }
{
    read_bells(file, l, phrase)?;
    let n = byte(file, l.bell_count_at()) as usize;
    read_notes(file, l, shift_in(file, l), phrase, n)
}

// Reads the rows into their places, and leaves the rest of the table as it comes.
fn read_rows(file: &[u8], phrase: &mut [u32]) -> Result<(), Refusal>
    requires { phrase_words ≤ length phrase.old }
    ensures value { result ≡ reading_of (reading file.now) }
    ensures filled { Filled (reading file.now) phrase.new }
{
    read_header(file)?;
    let l = Layout::of(byte(file, VERSION_AT));
    read_shift(file, l)?;
    read_body(file, l, phrase)
}

// The counts that a file gives, and its shift.
fn counts_in(file: &[u8], l: Layout) -> Counts
    requires { (bell_count_at (layout_of l) < length file.now) × (number 1 (bell_count_at (layout_of l)) file.now ≤ most_bells)
        × (note_count_at (layout_of l) (number 1 (bell_count_at (layout_of l)) file.now) < length file.now) }
    ensures { result ≡ counts_in (layout_of l) file.now }
{
    let version = byte(file, VERSION_AT);
    let cores = byte(file, CORES_AT);
    let shift = shift_in(file, l);
    let bells = byte(file, l.bell_count_at());
    let notes = byte(file, l.note_count_at(bells as usize));
    Counts {
        version,
        cores,
        shift,
        bells,
        notes,
    }
}

// Writes the header, and zeros after the rows that it counts.
fn complete(phrase: &mut [u32], counts: Counts)
    requires { (length phrase.old ≡ phrase_words) × (counts.bells ≤ most_bells) × (counts.notes ≤ most_jobs) }
    ensures { phrase.new ≡ completed counts phrase.old }
{
    phrase[VERSION_WORD] = counts.version;
    phrase[CORES] = counts.cores;
    phrase[BELL_COUNT] = counts.bells;
    phrase[NOTE_COUNT] = counts.notes;
    phrase[SHIFT] = counts.shift;
    let bell_end = BELL_ROWS + counts.bells as usize * BELL_WORDS;
    phrase[bell_end..NOTE_ROWS].fill(0);
    let note_end = NOTE_ROWS + counts.notes as usize * NOTE_WORDS;
    phrase[note_end..PHRASE_WORDS].fill(0);
}

// Reads a phrase file into the table of its phrase: zeros after its rows, and zeros only on a refusal.
pub fn read(file: &[u8], phrase: &mut [u32; PHRASE_WORDS]) -> Result<(), Refusal>
    ensures value { result ≡ reading_of (reading file.now) }
    ensures phrase_after { phrase.new ≡ phrase_table (reading file.now) }
{
    if let Err(refusal) = read_rows(file, phrase) {
        phrase.fill(0);
        return Err(refusal);
    }
    let l = Layout::of(byte(file, VERSION_AT));
    complete(phrase, counts_in(file, l));
    Ok(())
}
