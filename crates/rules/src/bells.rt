// The rules of the bells of a phrase in words.
ghost use Rattle.std.specs.Prelude.{◌≡◌, List, [], ◌∷◌, ◌++◌, ◌≤◌, ◌<◌, length, drop, Ok};
ghost use Rattle.format.specs.Layout.{most_bells, longest_file};
ghost use Rattle.format.specs.Phrase.{Bell};
ghost use Rattle.format.specs.Rules.{highest_key, bell_rules, bells_rules, all_bells};
ghost use Rattle.fields.specs.internal.Layouts.{layout_of};
ghost use Rattle.rows.specs.BellRow.{bell_words, bell_of_row, bells_of_rows};
ghost use Rattle.rows.specs.PhraseTable.{bell_rows_at, phrase_words, phrase_of};
ghost use Rattle.records.specs.internal.Answers.{reading_of};
ghost use Rattle.rules.specs.internal.Asking.{Sounded};

use crate::sounded::is_sounded;
use fields::layout::Layout;
use fields::rules::{is_bell, is_within, transposed};
use model::refusals::{DOUBLED_KEY, Refusal, WRONG_BELL, WRONG_BELL_COUNT, refuse};
use rows::bell::{
    BELL_WORDS, LEAST_EXECUTION, MOST_EXECUTION, PRIORITY, REST, TRANSPOSITION, WRITTEN,
};
use rows::{BELL_COUNT, BELL_ROWS, MOST_BELLS, PHRASE_WORDS};

// The rules of the bell of a row, whose key is marked if it passes.
fn ask_bell(row: &[u32], l: Layout, at: usize, sounded: &mut [bool]) -> Result<(), Refusal>
    requires { (length row.now ≡ bell_words) × (highest_key < length sounded.old) }
    ensures value { (before : List Bell) → Sounded before sounded.old → result ≡ reading_of (bell_rules (layout_of l) before at (bell_of_row row.now)) }
    ensures sounded { result ≡ Ok tt → (before : List Bell) → Sounded before sounded.old
        → Sounded (before ++ bell_of_row row.now ∷ []) sounded.new }
{
    let written = row[WRITTEN];
    let transposition = row[TRANSPOSITION];
    if !is_bell(
        l,
        written,
        transposition,
        row[LEAST_EXECUTION],
        row[MOST_EXECUTION],
        row[REST],
        row[PRIORITY],
    ) {
        return refuse(WRONG_BELL, at);
    }
    let key = transposed(written, transposition);
    if is_sounded(sounded, key) {
        return refuse(DOUBLED_KEY, at);
    }
    sounded[key as usize] = true;
    Ok(())
}

// The rules of the first n bells, from `start` on.
fn bells_from(
    phrase: &[u32],
    l: Layout,
    start: usize,
    n: usize,
    sounded: &mut [bool],
) -> Result<(), Refusal>
    requires { (phrase_words ≤ length phrase.now) × (start ≤ longest_file) × (n ≤ most_bells)
        × (highest_key < length sounded.old) × Sounded [] sounded.old }
    ensures value { result ≡ reading_of (bells_rules (layout_of l) (bells_of_rows (drop bell_rows_at phrase.now) n) start []) }
    ensures sounded { result ≡ Ok tt → Sounded (bells_of_rows (drop bell_rows_at phrase.now) n) sounded.new }
{
    let width = l.bell_bytes();
    let mut at = start;
    for i in 0..n {
        let from = BELL_ROWS + i * BELL_WORDS;
        ask_bell(&phrase[from..from + BELL_WORDS], l, at, sounded)?;
        at += width;
    }
    Ok(())
}

// The rules of the bell count and of the bells.
pub fn ask_bells(
    phrase: &[u32; PHRASE_WORDS],
    l: Layout,
    sounded: &mut [bool],
) -> Result<(), Refusal>
    requires { (highest_key < length sounded.old) × Sounded [] sounded.old }
    ensures value { result ≡ reading_of (all_bells (layout_of l) (phrase_of phrase.now).bells) }
    ensures sounded { result ≡ Ok tt → Sounded (phrase_of phrase.now).bells sounded.new }
{
    let count = phrase[BELL_COUNT];
    if !is_within(1, MOST_BELLS as u32, count) {
        return refuse(WRONG_BELL_COUNT, l.bell_count_at());
    }
    bells_from(phrase, l, l.bells_at(), count as usize, sounded)
}
