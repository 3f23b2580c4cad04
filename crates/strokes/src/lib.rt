// The lines of a report's strokes, from the table of a phrase and the bounds of its jobs.
#![tactic(auto)]

ghost use Rattle.std.specs.Prelude.{◌≡◌, ◌*◌, ◌≤◌, ◌<◌, length};
ghost use Rattle.model.specs.Limits.{most_jobs};
ghost use Rattle.text.specs.internal.Written.{Room, Written};
ghost use Rattle.lines.specs.internal.Longest.{longest_stroke};
ghost use Rattle.strokes.specs.internal.Rows.{key_in, stroke_in, strokes_text, SmallKey, Keyed};

use fields::rules::transposed;
use lines::lengths::stroke_length;
use lines::lines::{Stroke, put_stroke};
use model::limits::MOST_JOBS;
use rows::note::{DEADLINE, KEY, STRUCK};
use rows::{PHRASE_WORDS, SHIFT, header_word, note_word};

// The key of stroke i, moved by the shift.
fn shifted_key(phrase: &[u32; PHRASE_WORDS], i: usize) -> u32
    requires { (i < most_jobs) × SmallKey phrase.now i }
    ensures { result ≡ key_in phrase.now i }
{
    let key = note_word(phrase, i, KEY);
    let shift = header_word(phrase, SHIFT);
    transposed(key, shift)
}

// What the lines of strokes show: notes of a phrase, and the bounds of their jobs.
#[derive(Clone, Copy)]
pub struct Strokes<'a> {
    pub phrase: &'a [u32; PHRASE_WORDS],
    pub earliest: &'a [u32; MOST_JOBS],
    pub latest: &'a [u32; MOST_JOBS],
    pub best: &'a [u32; MOST_JOBS],
    pub worst: &'a [u32; MOST_JOBS],
}

impl Strokes<'_> {
    fn stroke(&self, i: usize) -> Stroke
        requires { (i < most_jobs) × SmallKey self.now.phrase.now i }
        ensures { result ≡ stroke_in self.now.phrase.now self.now.earliest.now self.now.latest.now
            self.now.best.now self.now.worst.now i }
    {
        Stroke {
            number: i,
            key: shifted_key(self.phrase, i),
            bell: note_word(self.phrase, i, STRUCK),
            earliest: self.earliest[i],
            latest: self.latest[i],
            best: self.best[i],
            worst: self.worst[i],
            deadline: note_word(self.phrase, i, DEADLINE),
        }
    }

    // How long the lines of k strokes are.
    pub fn length(&self, k: usize) -> usize
        requires { (k ≤ most_jobs) × Keyed self.now.phrase.now k }
        ensures { (result ≡ length (strokes_text self.now.phrase.now self.now.earliest.now self.now.latest.now
            self.now.best.now self.now.worst.now k)) × (result ≤ k * longest_stroke) }
    {
        let mut total = 0;
        for i in 0..k {
            total += stroke_length(self.stroke(i));
        }
        total
    }

    // Writes the lines of k strokes.
    pub fn put(&self, buffer: &mut [u8], k: usize) -> usize
        requires { (k ≤ most_jobs) × Keyed self.now.phrase.now k
            × Room buffer.old 0 (strokes_text self.now.phrase.now self.now.earliest.now self.now.latest.now
            self.now.best.now self.now.worst.now k) }
        ensures { Written buffer.old 0 (strokes_text self.now.phrase.now self.now.earliest.now self.now.latest.now
            self.now.best.now self.now.worst.now k) buffer.new result }
    {
        let mut at = 0;
        for i in 0..k {
            at = put_stroke(buffer, at, self.stroke(i));
        }
        at
    }
}
