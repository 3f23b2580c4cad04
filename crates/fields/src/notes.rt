// The fields of a note record: tested, and written to a row.
ghost use Rattle.std.specs.Prelude.{◌≡◌, ℕ, List, ◌+◌, ◌≤◌, ◌<◌, length, get_or};
ghost use Rattle.format.specs.Layout.{first, most_listed, is_note_length};
ghost use Rattle.format.specs.Rules.{rises};
ghost use Rattle.format.specs.Reading.{note_in};
ghost use Rattle.rows.specs.NoteRow.{note_words, note_row_on};
ghost use Rattle.fields.specs.internal.NoteRecord.{WholeNote};
ghost use Rattle.fields.specs.internal.Numbers.{AreNumbers};

use crate::bytes::{be_32, byte};
use crate::layout::{
    DEADLINE_AT, EARLIEST_RELEASE_AT, KEY_AT, LATEST_RELEASE_AT, LENGTH_AT, LISTED_AT, MOST_LISTED,
    NOTE_BYTES,
};
use crate::rules::is_within;
use rows::note::{DEADLINE, EARLIEST_RELEASE, KEY, LATEST_RELEASE, LISTED, LISTED_COUNT, STRUCK};

// Whether a note's length byte is that of a note that lists at most four jobs.
pub fn is_note_length(size: u32) -> bool
    ensures { result ≡ is_note_length first size }
{
    is_within(NOTE_BYTES, NOTE_BYTES + MOST_LISTED, size)
}

// How many jobs the note lists.
fn listed_count(part: &[u8]) -> u32
    requires { WholeNote part.now }
    ensures { (result ≡ length (note_in first part.now).listed) × (result ≤ most_listed) }
{
    let size = byte(part, LENGTH_AT);
    size - NOTE_BYTES
}

// The j-th job that the note lists, 0 where it lists no more.
fn listed_job(part: &[u8], j: usize) -> u32
    requires { WholeNote part.now × (j < most_listed) }
    ensures { result ≡ get_or (note_in first part.now).listed j 0 }
{
    if listed_count(part) as usize <= j {
        return 0;
    }
    byte(part, LISTED_AT + j)
}

// The jobs that the note lists.
pub fn listed_jobs(part: &[u8]) -> &[u8]
    requires { WholeNote part.now }
    ensures { result.now ≡ (note_in first part.now).listed }
{
    let end = byte(part, LENGTH_AT) as usize + 1;
    &part[LISTED_AT..end]
}

// Whether the jobs rise and stay below the note's own.
pub fn do_rise<T: Copy + Into<u32>>(jobs: &[T], own: u32) -> bool
    ensures { (numbers : List ℕ) → AreNumbers T.converts jobs.now numbers → result ≡ rises own 0 numbers }
{
    let mut low = 0;
    for &listed in jobs {
        let job: u32 = listed.into();
        if job < low {
            return false;
        }
        if own <= job {
            return false;
        }
        low = job + 1;
    }
    true
}

// The row of the note, which strikes the bell.
pub fn write_note(part: &[u8], bell: u32, row: &mut [u32])
    requires { WholeNote part.now × (length row.old ≡ note_words) }
    ensures { row.new ≡ note_row_on bell (note_in first part.now) }
{
    row[KEY] = byte(part, KEY_AT);
    row[EARLIEST_RELEASE] = be_32(part, EARLIEST_RELEASE_AT);
    row[LATEST_RELEASE] = be_32(part, LATEST_RELEASE_AT);
    row[DEADLINE] = be_32(part, DEADLINE_AT);
    row[LISTED_COUNT] = listed_count(part);
    row[LISTED] = listed_job(part, 0);
    row[LISTED + 1] = listed_job(part, 1);
    row[LISTED + 2] = listed_job(part, 2);
    row[LISTED + 3] = listed_job(part, 3);
    row[STRUCK] = bell;
}
