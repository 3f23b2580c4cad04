// The bells of a phrase file, and their rows of words.
ghost use Rattle.std.specs.Prelude.{◌≡◌, [], ◌+◌, ◌*◌, ◌≤◌, ◌<◌, length};
ghost use Rattle.words.specs.internal.Placed.{placed};
ghost use Rattle.format.specs.Layout.{bell_bytes, most_bells, longest_file};
ghost use Rattle.format.specs.Phrase.{sounding, find_sounding, find};
ghost use Rattle.format.specs.Reading.{bell_in, bell_record, bells_from, bells_in};
ghost use Rattle.fields.specs.internal.Layouts.{layout_of};
ghost use Rattle.rows.specs.BellRow.{bell_words, bell_row};
ghost use Rattle.rows.specs.PhraseTable.{bell_rows_at, phrase_words};
ghost use Rattle.records.specs.internal.Answers.{found_of, reading_of};
ghost use Rattle.records.specs.internal.Filling.{list_of, bells_held, BellTable, bell_put, HoldsBells};

use fields::bells::{is_in_range, sounding_key, write_bell};
use fields::bytes::byte;
use fields::layout::Layout;
use fields::rules::{is_within, transposed};
use model::refusals::{DOUBLED_KEY, Refusal, WRONG_BELL, WRONG_BELL_COUNT, WRONG_END, refuse};
use rows::bell::{BELL_WORDS, SOUNDING};
use rows::{BELL_ROWS, MOST_BELLS};

// The first of the first n bells that sounds for the key.
fn find_sounding(phrase: &[u32], n: usize, key: u32) -> Option<u32>
    requires { (n ≤ most_bells) × (phrase_words ≤ length phrase.now) × BellTable phrase.now n }
    ensures { result ≡ found_of (find_sounding key (bells_held phrase.now n)) }
{
    (0..n as u32).find(|&i| phrase[BELL_ROWS + (i as usize * BELL_WORDS + SOUNDING)] == key)
}

// The look-up of a bell: the first of the first n that sounds for the key of a note, moved by the shift.
pub fn find_bell(phrase: &[u32], n: usize, key: u32, shift: u32) -> Option<u32>
    requires { (n ≤ most_bells) × (phrase_words ≤ length phrase.now) × BellTable phrase.now n × (key < 256) × (shift < 256) }
    ensures { result ≡ found_of (find key shift (bells_held phrase.now n)) }
{
    find_sounding(phrase, n, transposed(key, shift))
}

// Writes row i.
fn put_bell(part: &[u8], l: Layout, key: u32, phrase: &mut [u32], i: usize)
    requires { (bell_bytes (layout_of l) ≤ length part.now) × (key ≡ sounding (bell_in (layout_of l) part.now))
        × (i < most_bells) × (phrase_words ≤ length phrase.old) }
    ensures { phrase.new
        ≡ placed phrase.old (bell_rows_at + i * bell_words) (bell_row (bell_in (layout_of l) part.now)) }
{
    let from = BELL_ROWS + i * BELL_WORDS;
    let end = from + BELL_WORDS;
    write_bell(part, l, key, &mut phrase[from..end]);
}

// One bell record, from the part of the file that begins at it, after i bells.
fn read_bell(part: &[u8], l: Layout, at: usize, phrase: &mut [u32], i: usize) -> Result<(), Refusal>
    requires { (i < most_bells) × (phrase_words ≤ length phrase.old) × BellTable phrase.old i }
    ensures value { result ≡ reading_of (bell_record (layout_of l) (bells_held phrase.old i) at part.now) }
    ensures phrase_after { phrase.new
        ≡ bell_put (bell_record (layout_of l) (bells_held phrase.old i) at part.now) phrase.old i }
{
    if part.len() < l.bell_bytes() {
        return refuse(WRONG_END, at);
    }
    let key = sounding_key(part, l);
    if !is_in_range(part, l) {
        return refuse(WRONG_BELL, at);
    }
    if find_sounding(phrase, i, key).is_some() {
        return refuse(DOUBLED_KEY, at);
    }
    put_bell(part, l, key, phrase, i);
    Ok(())
}

// The first n bells, from `start` on, in rows from the first on.
fn bells_from(
    file: &[u8],
    l: Layout,
    start: usize,
    n: usize,
    phrase: &mut [u32],
) -> Result<(), Refusal>
    requires { (start ≤ length file.now) × (start ≤ longest_file) × (n ≤ most_bells) × (phrase_words ≤ length phrase.old) }
    ensures value { result ≡ reading_of (bells_from (layout_of l) file.now n start []) }
    ensures holds_bells { HoldsBells (list_of (bells_from (layout_of l) file.now n start [])) phrase.new }
{
    let size = l.bell_bytes();
    let mut at = start;
    for i in 0..n {
        read_bell(&file[at..], l, at, phrase, i)?;
        at += size;
    }
    Ok(())
}

// The bell count and the bells, whose rows are in the table once they are read.
pub fn read_bells(file: &[u8], l: Layout, phrase: &mut [u32]) -> Result<(), Refusal>
    requires { phrase_words ≤ length phrase.old }
    ensures value { result ≡ reading_of (bells_in (layout_of l) file.now) }
    ensures holds_bells { HoldsBells (list_of (bells_in (layout_of l) file.now)) phrase.new }
{
    let at = l.bell_count_at();
    if file.len() <= at {
        return refuse(WRONG_END, at);
    }
    let count = byte(file, at);
    if !is_within(1, MOST_BELLS as u32, count) {
        return refuse(WRONG_BELL_COUNT, at);
    }
    bells_from(file, l, l.bells_at(), count as usize, phrase)
}
