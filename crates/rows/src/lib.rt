// The table of words in which a phrase is handed on, in the order of a C struct: a header, a row for each bell, and a row for each note.
#![tactic(auto)]

pub mod bell;
pub mod note;

ghost use Rattle.std.specs.Prelude.{◌≡◌, ◌<◌, get_or};
ghost use Rattle.model.specs.Limits.{most_jobs};
ghost use Rattle.format.specs.Layout.{most_bells};
ghost use Rattle.rows.specs.BellRow.{bell_words};
ghost use Rattle.rows.specs.NoteRow.{note_words};
ghost use Rattle.rows.specs.PhraseTable.{bell_rows_at};
ghost use Rattle.rows.specs.internal.Handed.{bell_word, note_word};

use crate::bell::BELL_WORDS;
use crate::note::NOTE_WORDS;
use model::limits::MOST_JOBS;

pub const MOST_BELLS: usize = 96;

// The header.
pub const VERSION: usize = 0;

pub const CORES: usize = 1;

pub const BELL_COUNT: usize = 2;

pub const NOTE_COUNT: usize = 3;

// As the file's byte.
pub const SHIFT: usize = 4;

// Where the rows of the bells begin, and those of the notes.
pub const BELL_ROWS: usize = 5;

pub const NOTE_ROWS: usize = BELL_ROWS + MOST_BELLS * BELL_WORDS;

pub const PHRASE_WORDS: usize = NOTE_ROWS + MOST_JOBS * NOTE_WORDS;

// A word of the header.
pub fn header_word(phrase: &[u32; PHRASE_WORDS], at: usize) -> u32
    requires { at < bell_rows_at }
    ensures { result ≡ get_or phrase.now at 0 }
{
    phrase[at]
}

// A word of the row of bell i.
pub fn bell_word(phrase: &[u32; PHRASE_WORDS], i: usize, at: usize) -> u32
    requires { (i < most_bells) × (at < bell_words) }
    ensures { result ≡ bell_word phrase.now i at }
{
    phrase[BELL_ROWS + (i * BELL_WORDS + at)]
}

// A word of the row of note i.
pub fn note_word(phrase: &[u32; PHRASE_WORDS], i: usize, at: usize) -> u32
    requires { (i < most_jobs) × (at < note_words) }
    ensures { result ≡ note_word phrase.now i at }
{
    phrase[NOTE_ROWS + (i * NOTE_WORDS + at)]
}
