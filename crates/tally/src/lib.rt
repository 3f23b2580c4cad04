// The lines of a report that accepts after those of its strokes: a line for each bell with any stroke, and the last.
#![tactic(auto)]

mod bells;

ghost use Rattle.std.specs.Prelude.{◌≡◌, ◌≤◌, length};
ghost use Rattle.text.specs.internal.Written.{Room, Written};
ghost use Rattle.tally.specs.internal.Counted.{Countable, totals_text_in};
ghost use Rattle.tally.specs.internal.Longest.{longest_totals};

use crate::bells::{Bells, tally};
use lines::lengths::last_length;
use lines::lines::put_last;
use rows::{BELL_COUNT, PHRASE_WORDS, header_word};

// How long these lines are for the first k notes.
pub fn totals_length(phrase: &[u32; PHRASE_WORDS], k: usize, states: u64) -> usize
    requires { Countable phrase.now k }
    ensures { (result ≡ length (totals_text_in phrase.now k states)) × (result ≤ longest_totals) }
{
    let counts = tally(phrase, k);
    let n = header_word(phrase, BELL_COUNT) as usize;
    let bells = Bells {
        phrase,
        counts: &counts,
        n,
    };
    bells.length() + last_length(k, states, bells.hold())
}

pub fn put_totals(
    buffer: &mut [u8],
    at: usize,
    phrase: &[u32; PHRASE_WORDS],
    k: usize,
    states: u64,
) -> usize
    requires { Countable phrase.now k × Room buffer.old at (totals_text_in phrase.now k states) }
    ensures { Written buffer.old at (totals_text_in phrase.now k states) buffer.new result }
{
    let counts = tally(phrase, k);
    let n = header_word(phrase, BELL_COUNT) as usize;
    let bells = Bells {
        phrase,
        counts: &counts,
        n,
    };
    let end = bells.put(buffer, at);
    put_last(buffer, end, k, states, bells.hold())
}
