// The record of a note.
ghost use Rattle.std.specs.Prelude.{◌≡◌, ◌+◌, ◌≤◌, length, get_or, take, replicate};
ghost use Rattle.words.specs.internal.Placed.{placed};
ghost use Rattle.format.specs.Bytes.{fields_file};
ghost use Rattle.format.specs.Layout.{first, most_listed, note_bytes, note_widths};
ghost use Rattle.format.specs.Fits.{FieldsFit};
ghost use Rattle.format.specs.Writing.{note_fields, note_file};
ghost use Rattle.rows.specs.NoteRow.{note_words, listed_count_word, note_of_row};

use crate::numbers::{put_8, put_32};
use fields::layout::{
    DEADLINE_AT, EARLIEST_RELEASE_AT, KEY_AT, LATEST_RELEASE_AT, LENGTH_AT, LISTED_AT, MOST_LISTED,
    NOTE_BYTES,
};
use rows::note::{DEADLINE, EARLIEST_RELEASE, KEY, LATEST_RELEASE, LISTED, LISTED_COUNT};

// The first `count` jobs of a list, a byte each, after the deadline.
fn put_listed(jobs: &[u32], count: usize, part: &mut [u8])
    requires { (count ≤ length jobs.now) × (1 + note_bytes + count ≤ length part.old)
        × FieldsFit (replicate count 1) (take count jobs.now) }
    ensures { part.new
        ≡ placed part.old (1 + note_bytes) (fields_file (replicate count 1) (take count jobs.now)) }
{
    for (i, job) in jobs[..count].iter().enumerate() {
        put_8(part, LISTED_AT + i, *job);
    }
}

// The record of the note of a row, whose fields fit their bytes.
pub fn put_note(row: &[u32], part: &mut [u8])
    requires { (length row.now ≡ note_words) × (get_or row.now listed_count_word 0 ≤ most_listed)
        × (length part.old ≡ 1 + note_bytes + get_or row.now listed_count_word 0)
        × FieldsFit (note_widths first (length (note_of_row row.now).listed)) (note_fields first (note_of_row row.now)) }
    ensures { part.new ≡ note_file first (note_of_row row.now) }
{
    let count = row[LISTED_COUNT];
    put_8(part, LENGTH_AT, NOTE_BYTES + count);
    put_8(part, KEY_AT, row[KEY]);
    put_32(part, EARLIEST_RELEASE_AT, row[EARLIEST_RELEASE]);
    put_32(part, LATEST_RELEASE_AT, row[LATEST_RELEASE]);
    put_32(part, DEADLINE_AT, row[DEADLINE]);
    // The count is at most four already; said here too, it lets the compiler unroll the loop.
    let listed = count.min(MOST_LISTED) as usize;
    put_listed(&row[LISTED..], listed, part);
}
