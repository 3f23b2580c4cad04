// The report of a check: a file is read and checked, and its text written into a lent buffer.
#![tactic(auto)]

mod accepted;

ghost use Rattle.std.specs.Prelude.{◌≡◌, ◌≤◌, length};
ghost use Rattle.format.specs.Reading.{reading};
ghost use Rattle.text.specs.internal.Written.{Room, Written};
ghost use Rattle.checking.specs.Checking.{TableKept, values_of, RunsKept};
ghost use Rattle.report.specs.Report.{text_of, delivered, reported_in, reported_of, answer_in};
ghost use Rattle.report.specs.internal.Longest.{longest_text};
ghost use Rattle.report.specs.internal.Composed.{Composable, text_in};

use crate::accepted::{accepted_length, put_accepted};
use checker::check_phrase;
use checking::{Answer, Checked, refused};
use lines::lengths::{late_length, refused_length};
use lines::lines::{put_late, put_refused};
use model::refusals::SHORT_BUFFER;
use rows::PHRASE_WORDS;

// The result of the check, and the length of the text.
#[derive(Clone, Copy)]
pub struct Reported {
    pub checked: Checked,
    pub length: usize,
}

// How long the text is.
fn text_length(phrase: &[u32; PHRASE_WORDS], checked: &Checked) -> usize
    requires { Composable phrase.now checked.now.jobs }
    ensures { (result ≡ length (text_in checked.now.answer checked.now phrase.now)) × (result ≤ longest_text) }
{
    match checked.answer {
        Answer::Accepted => accepted_length(phrase, checked),
        Answer::Refused(number, place) => refused_length(number, place),
        Answer::Late(job, earliest, latest) => late_length(job, earliest, latest),
    }
}

// Writes the text from the start of a buffer on.
fn put_text(text: &mut [u8], phrase: &[u32; PHRASE_WORDS], checked: &Checked) -> usize
    requires { Composable phrase.now checked.now.jobs × Room text.old 0 (text_in checked.now.answer checked.now phrase.now) }
    ensures { Written text.old 0 (text_in checked.now.answer checked.now phrase.now) text.new result }
{
    match checked.answer {
        Answer::Accepted => put_accepted(text, phrase, checked),
        Answer::Refused(number, place) => put_refused(text, number, place),
        Answer::Late(job, earliest, latest) => put_late(text, job, earliest, latest),
    }
}

// Writes the text where it has room.
fn deliver(text: &mut [u8], phrase: &[u32; PHRASE_WORDS], checked: Checked) -> Reported
    requires { Composable phrase.now checked.jobs }
    ensures value { result ≡ reported_in checked (text_in checked.answer checked phrase.now) text.old }
    ensures text_after { text.new ≡ delivered (text_in checked.answer checked phrase.now) text.old }
{
    let needed = text_length(phrase, &checked);
    if text.len() < needed {
        return Reported {
            checked: refused(Answer::Refused(SHORT_BUFFER, 0)),
            length: 0,
        };
    }
    let length = put_text(text, phrase, &checked);
    Reported { checked, length }
}

// Reports on a phrase file over a lent table, into a lent buffer.
pub fn report(file: &[u8], table: &mut [u32], text: &mut [u8]) -> Reported
    ensures result { result ≡ reported_of (reading file.now) (length table.old) text.old }
    ensures number { values_of result.checked.answer
        ≡ values_of (answer_in (reading file.now) (length table.old) text.old) }
    ensures text { text.new
        ≡ delivered (text_of (reading file.now) (length table.old)) text.old }
    ensures table { TableKept (reading file.now) table.old table.new }
    ensures runs { RunsKept (reading file.now) result.checked }
{
    let mut phrase = [0u32; PHRASE_WORDS];
    let checked = check_phrase(file, &mut phrase, table);
    deliver(text, &phrase, checked)
}
