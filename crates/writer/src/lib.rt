// A phrase in words, written as a phrase file: its fields are tested, then the file is put straight into the buffer.
#![tactic(auto)]

mod putting;

ghost use Rattle.std.specs.Prelude.{◌≡◌, length};
ghost use Rattle.format.specs.Writing.{writing, leaves};
ghost use Rattle.rows.specs.PhraseTable.{phrase_of};
ghost use Rattle.writer.specs.internal.Answers.{writing_of};

use crate::putting::put_file;
use model::refusals::{Refusal, SHORT_FILE, refuse};
use rows::PHRASE_WORDS;
use rules::ask;

// Writes a phrase as a file into a buffer, which is untouched on every refusal; the answer has the file's length.
pub fn write(phrase: &[u32; PHRASE_WORDS], file: &mut [u8]) -> Result<usize, Refusal>
    ensures answer { result ≡ writing_of (writing (phrase_of phrase.now) (length file.old)) }
    ensures file { file.new ≡ leaves (writing (phrase_of phrase.now) (length file.old)) file.old }
{
    let size = ask(phrase)?;
    if file.len() < size {
        return refuse(SHORT_FILE, 0);
    }
    put_file(phrase, &mut file[..size]);
    Ok(size)
}
