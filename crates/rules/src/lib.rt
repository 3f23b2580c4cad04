// The rules of the phrase file, asked of a phrase in words.
#![tactic(auto)]

mod bells;
mod notes;
mod sounded;

ghost use Rattle.std.specs.Prelude.{◌≡◌, true, length};
ghost use Rattle.format.specs.Rules.{is_shift, rules};
ghost use Rattle.format.specs.Writing.{written};
ghost use Rattle.fields.specs.internal.Layouts.{layout_of};
ghost use Rattle.rows.specs.PhraseTable.{phrase_of};
ghost use Rattle.rules.specs.internal.Answers.{end_of};
ghost use Rattle.rules.specs.internal.Asking.{body_asked, body_end};

use crate::bells::ask_bells;
use crate::notes::ask_notes;
use crate::sounded::KEYS;
use fields::layout::{CORES_AT, Layout, SHIFT_AT, VERSIONS};
use fields::rules::{is_shift, is_within};
use model::limits::MOST_CORES;
use model::refusals::{Refusal, WRONG_CORES, WRONG_SHIFT, WRONG_VERSION, refuse};
use rows::{CORES, PHRASE_WORDS, SHIFT, VERSION};

// The rules of the bells and of the notes; the answer has the file's length.
fn ask_body(phrase: &[u32; PHRASE_WORDS], l: Layout) -> Result<usize, Refusal>
    requires { is_shift (layout_of l) (phrase_of phrase.now).shift ≡ true }
    ensures { result ≡ end_of (body_asked (layout_of l) (phrase_of phrase.now)) (body_end (layout_of l) (phrase_of phrase.now)) }
{
    let mut sounded = [false; KEYS];
    ask_bells(phrase, l, &mut sounded)?;
    ask_notes(phrase, l, &sounded)
}

// All rules; the answer has the file's length.
pub fn ask(phrase: &[u32; PHRASE_WORDS]) -> Result<usize, Refusal>
    ensures { result ≡ end_of (rules (phrase_of phrase.now)) (length (written (phrase_of phrase.now))) }
{
    let version = phrase[VERSION];
    if !is_within(1, VERSIONS, version) {
        return refuse(WRONG_VERSION, 0);
    }
    if !is_within(1, MOST_CORES as u32, phrase[CORES]) {
        return refuse(WRONG_CORES, CORES_AT);
    }
    let l = Layout::of(version);
    if !is_shift(l, phrase[SHIFT]) {
        return refuse(WRONG_SHIFT, SHIFT_AT);
    }
    ask_body(phrase, l)
}
