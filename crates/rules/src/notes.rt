// The rules of the notes of a phrase in words.
ghost use Rattle.std.specs.Prelude.{◌≡◌, true, List, [], suc, ◌+◌, ◌≤◌, length, drop};
ghost use Rattle.model.specs.Limits.{most_jobs};
ghost use Rattle.format.specs.Layout.{first, most_bells, note_count_at, longest_file};
ghost use Rattle.format.specs.Phrase.{Bell};
ghost use Rattle.format.specs.Rules.{highest_key, is_transposition, notes_rules, all_notes};
ghost use Rattle.fields.specs.internal.Layouts.{layout_of};
ghost use Rattle.rows.specs.NoteRow.{note_words, note_of_row, notes_of_rows};
ghost use Rattle.rows.specs.PhraseTable.{note_rows_at, phrase_words, phrase_of};
ghost use Rattle.records.specs.internal.Answers.{reading_of};
ghost use Rattle.rules.specs.internal.Answers.{end_of};
ghost use Rattle.rules.specs.internal.Asking.{Sounded, note_asked, notes_end, body_end};

use crate::sounded::is_struck;
use fields::layout::{Layout, MOST_LISTED, NOTE_BYTES};
use fields::notes::do_rise;
use fields::rules::are_times;
use model::limits::MOST_JOBS;
use model::refusals::{Refusal, TOO_MANY_NOTES, WRONG_NOTE_LENGTH, refuse};
use records::notes::first_broken;
use rows::note::{
    DEADLINE, EARLIEST_RELEASE, KEY, LATEST_RELEASE, LISTED, LISTED_COUNT, NOTE_WORDS,
};
use rows::{BELL_COUNT, NOTE_COUNT, NOTE_ROWS, PHRASE_WORDS, SHIFT};

// The rules of the note of a row: how many it lists, then those that a reader asks as well.
fn ask_note(row: &[u32], own: u32, at: usize, shift: u32, sounded: &[bool]) -> Result<(), Refusal>
    requires { (length row.now ≡ note_words) × (is_transposition shift ≡ true) × (length sounded.now ≡ suc highest_key) }
    ensures { (bells : List Bell) → Sounded bells sounded.now → result ≡ reading_of (note_asked shift bells own at (note_of_row row.now)) }
{
    let count = row[LISTED_COUNT];
    if MOST_LISTED < count {
        return refuse(WRONG_NOTE_LENGTH, at);
    }
    let timely = are_times(row[EARLIEST_RELEASE], row[LATEST_RELEASE], row[DEADLINE]);
    let struck = is_struck(sounded, row[KEY], shift);
    let rising = do_rise(&row[LISTED..LISTED + count as usize], own);
    first_broken(timely, struck, rising, at)
}

// The rules of the first `count` notes, from `start` on; the answer has the place where they end.
fn notes_from(
    phrase: &[u32],
    start: usize,
    count: usize,
    sounded: &[bool],
) -> Result<usize, Refusal>
    requires { (phrase_words ≤ length phrase.now) × (count ≤ most_jobs) × (start ≤ longest_file) × (is_transposition (phrase_of phrase.now).shift ≡ true)
        × (length sounded.now ≡ suc highest_key) × Sounded (phrase_of phrase.now).bells sounded.now }
    ensures { result ≡ end_of (notes_rules first (phrase_of phrase.now).shift (phrase_of phrase.now).bells
        (notes_of_rows (drop note_rows_at phrase.now) count) start [])
        (notes_end start (notes_of_rows (drop note_rows_at phrase.now) count)) }
{
    let shift = phrase[SHIFT];
    let mut at = start;
    for i in 0..count {
        let from = NOTE_ROWS + i * NOTE_WORDS;
        let row = &phrase[from..from + NOTE_WORDS];
        ask_note(row, i as u32, at, shift, sounded)?;
        at += 1 + NOTE_BYTES as usize + row[LISTED_COUNT] as usize;
    }
    Ok(at)
}

// The rules of the note count and of the notes; the answer has the place where the file ends.
pub fn ask_notes(
    phrase: &[u32; PHRASE_WORDS],
    l: Layout,
    sounded: &[bool],
) -> Result<usize, Refusal>
    requires { (length (phrase_of phrase.now).bells ≤ most_bells) × (is_transposition (phrase_of phrase.now).shift ≡ true)
        × (length sounded.now ≡ suc highest_key) × Sounded (phrase_of phrase.now).bells sounded.now }
    ensures { result ≡ end_of (all_notes (layout_of l) (phrase_of phrase.now).shift (phrase_of phrase.now).bells
        (phrase_of phrase.now).notes (note_count_at (layout_of l) (length (phrase_of phrase.now).bells)))
        (body_end (layout_of l) (phrase_of phrase.now)) }
{
    let at = l.note_count_at(phrase[BELL_COUNT] as usize);
    let count = phrase[NOTE_COUNT];
    if (MOST_JOBS as u32) < count {
        return refuse(TOO_MANY_NOTES, at);
    }
    notes_from(phrase, at + 1, count as usize, sounded)
}
