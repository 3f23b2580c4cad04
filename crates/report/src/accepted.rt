// The text of a report that accepts: a line for each stroke, and its totals.
ghost use Rattle.std.specs.Prelude.{◌≡◌, ◌≤◌, length};
ghost use Rattle.text.specs.internal.Written.{Room, Written};
ghost use Rattle.report.specs.internal.Longest.{longest_text};
ghost use Rattle.report.specs.internal.Composed.{Composable, accepted_text};

use checking::Checked;
use rows::PHRASE_WORDS;
use strokes::Strokes;
use tally::{put_totals, totals_length};

pub fn accepted_length(phrase: &[u32; PHRASE_WORDS], checked: &Checked) -> usize
    requires { Composable phrase.now checked.now.jobs }
    ensures { (result ≡ length (accepted_text checked.now phrase.now)) × (result ≤ longest_text) }
{
    let strokes = Strokes {
        phrase,
        earliest: &checked.earliest,
        latest: &checked.latest,
        best: &checked.best,
        worst: &checked.worst,
    };
    strokes.length(checked.jobs) + totals_length(phrase, checked.jobs, checked.states)
}

pub fn put_accepted(buffer: &mut [u8], phrase: &[u32; PHRASE_WORDS], checked: &Checked) -> usize
    requires { Composable phrase.now checked.now.jobs × Room buffer.old 0 (accepted_text checked.now phrase.now) }
    ensures { Written buffer.old 0 (accepted_text checked.now phrase.now) buffer.new result }
{
    let strokes = Strokes {
        phrase,
        earliest: &checked.earliest,
        latest: &checked.latest,
        best: &checked.best,
        worst: &checked.worst,
    };
    let at = strokes.put(buffer, checked.jobs);
    put_totals(buffer, at, phrase, checked.jobs, checked.states)
}
