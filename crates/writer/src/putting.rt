// The file of a phrase in words that the rules let pass, put into bytes.
ghost use Rattle.std.specs.Prelude.{◌≡◌, ◌+◌, ◌*◌, ◌≤◌, length, drop};
ghost use Rattle.model.specs.Limits.{most_jobs};
ghost use Rattle.words.specs.internal.Placed.{placed};
ghost use Rattle.format.specs.Bytes.{records};
ghost use Rattle.format.specs.Layout.{first, bell_bytes, most_bells};
ghost use Rattle.format.specs.Valid.{Valid};
ghost use Rattle.format.specs.Writing.{bell_file, note_file, written};
ghost use Rattle.fields.specs.internal.Layouts.{layout_of};
ghost use Rattle.rows.specs.BellRow.{bells_of_rows};
ghost use Rattle.rows.specs.NoteRow.{notes_of_rows};
ghost use Rattle.rows.specs.PhraseTable.{bell_rows_at, note_rows_at, phrase_words, phrase_of};
ghost use Rattle.writer.specs.internal.Putting.{BellsFit, NotesFit};

use encoding::bells::put_bell;
use encoding::head::put_head;
use encoding::notes::put_note;
use encoding::numbers::put_8;
use fields::layout::{Layout, NOTE_BYTES};
use rows::bell::BELL_WORDS;
use rows::note::{LISTED_COUNT, NOTE_WORDS};
use rows::{BELL_COUNT, BELL_ROWS, CORES, NOTE_COUNT, NOTE_ROWS, PHRASE_WORDS, SHIFT, VERSION};

// The records of the first n bells, from `start` on.
fn put_bells(phrase: &[u32], l: Layout, start: usize, n: usize, file: &mut [u8])
    requires { (phrase_words ≤ length phrase.now) × (n ≤ most_bells) × (start + n * bell_bytes (layout_of l) ≤ length file.old)
        × BellsFit (layout_of l) (bells_of_rows (drop bell_rows_at phrase.now) n) }
    ensures { file.new ≡ placed file.old start
        (records (bell_file (layout_of l)) (bells_of_rows (drop bell_rows_at phrase.now) n)) }
{
    let width = l.bell_bytes();
    let mut at = start;
    for i in 0..n {
        let from = BELL_ROWS + i * BELL_WORDS;
        let end = at + width;
        put_bell(&phrase[from..from + BELL_WORDS], l, &mut file[at..end]);
        at = end;
    }
}

// The records of the first `count` notes, from `start` on.
fn put_notes(phrase: &[u32], start: usize, count: usize, file: &mut [u8])
    requires { (phrase_words ≤ length phrase.now) × (count ≤ most_jobs)
        × (start + length (records (note_file first) (notes_of_rows (drop note_rows_at phrase.now) count)) ≤ length file.old)
        × NotesFit (notes_of_rows (drop note_rows_at phrase.now) count) }
    ensures { file.new ≡ placed file.old start
        (records (note_file first) (notes_of_rows (drop note_rows_at phrase.now) count)) }
{
    let mut at = start;
    for i in 0..count {
        let from = NOTE_ROWS + i * NOTE_WORDS;
        let row = &phrase[from..from + NOTE_WORDS];
        let end = at + (1 + NOTE_BYTES as usize + row[LISTED_COUNT] as usize);
        put_note(row, &mut file[at..end]);
        at = end;
    }
}

// The whole file, into as many bytes.
pub fn put_file(phrase: &[u32; PHRASE_WORDS], file: &mut [u8])
    requires { Valid (phrase_of phrase.now) × (length file.old ≡ length (written (phrase_of phrase.now))) }
    ensures { file.new ≡ written (phrase_of phrase.now) }
{
    let version = phrase[VERSION];
    let l = Layout::of(version);
    let first = l.bells_at();
    let bells = phrase[BELL_COUNT];
    let size = file.len() as u32;
    put_head(
        &mut file[..first],
        l,
        version,
        size,
        phrase[CORES],
        phrase[SHIFT],
        bells,
    );
    put_bells(phrase, l, first, bells as usize, file);
    let at = l.note_count_at(bells as usize);
    let count = phrase[NOTE_COUNT];
    put_8(file, at, count);
    put_notes(phrase, at + 1, count as usize, file);
}
