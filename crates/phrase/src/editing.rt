// For editors: a phrase read from its file into words, and written from words as its file.
ghost use Rattle.std.specs.Prelude.{◌≡◌, ◌<◌, length, take};
ghost use Rattle.format.specs.Outcome.{ok};
ghost use Rattle.format.specs.Reading.{reading};
ghost use Rattle.format.specs.Writing.{writing, leaves};
ghost use Rattle.rows.specs.PhraseTable.{phrase_table, phrase_of};
ghost use Rattle.phrase.specs.Host.{places, outcome_number, written_number};

use crate::number_at;
use reader::read;
use rows::PHRASE_WORDS;
use writer::write;

// Reads a phrase file. What was read is written as the very file.
pub fn phrase_read(file: &[u8], phrase: &mut [u32; PHRASE_WORDS]) -> u64
    ensures number { result ≡ outcome_number (reading file.now) }
    ensures phrase { phrase.new ≡ phrase_table (reading file.now) }
    ensures again { result ≡ 0 → writing (phrase_of phrase.new) (length file.now) ≡ ok file.now }
{
    match read(file, phrase) {
        Ok(()) => 0,
        Err(refusal) => number_at(refusal.number, refusal.place),
    }
}

// Writes a phrase as a file. What was written is read as the very phrase.
pub fn phrase_write(phrase: &[u32; PHRASE_WORDS], file: &mut [u8]) -> u64
    ensures number { result ≡ written_number (writing (phrase_of phrase.now) (length file.old)) }
    ensures file { file.new ≡ leaves (writing (phrase_of phrase.now) (length file.old)) file.old }
    ensures again { result < places → reading (take result file.new) ≡ ok (phrase_of phrase.now) }
{
    match write(phrase, file) {
        Ok(size) => size as u64,
        Err(refusal) => number_at(refusal.number, refusal.place),
    }
}
