// How many strokes each bell has, how long they hold a driver, and the lines of a report that say so.
ghost use Rattle.std.specs.Prelude.{◌≡◌, ◌*◌, ◌≤◌, ◌<◌, length};
ghost use Rattle.model.specs.Limits.{most_jobs};
ghost use Rattle.format.specs.Layout.{most_bells};
ghost use Rattle.text.specs.internal.Written.{Room, Written};
ghost use Rattle.lines.specs.internal.Longest.{longest_bell};
ghost use Rattle.tally.specs.Tally.{bell_text};
ghost use Rattle.tally.specs.internal.Counted.{Struck, tallied, Few, total_in, bells_text_in, all_hold_in};

use lines::lengths::bell_length;
use lines::lines::{BellTotal, put_bell};
use rows::bell::MOST_EXECUTION;
use rows::note::STRUCK;
use rows::{MOST_BELLS, PHRASE_WORDS, bell_word, note_word};

// How many of the first k notes strike each bell.
pub fn tally(phrase: &[u32; PHRASE_WORDS], k: usize) -> [u16; MOST_BELLS]
    requires { (k ≤ most_jobs) × Struck phrase.now k }
    ensures { result ≡ tallied phrase.now k }
{
    let mut counts = [0u16; MOST_BELLS];
    for i in 0..k {
        let bell = note_word(phrase, i, STRUCK) as usize;
        counts[bell] += 1;
    }
    counts
}

fn text_length(b: BellTotal) -> usize
    ensures { (result ≡ length (bell_text b)) × (result ≤ longest_bell) }
{
    if b.strokes == 0 {
        return 0;
    }
    bell_length(b)
}

fn put_text(buffer: &mut [u8], at: usize, b: BellTotal) -> usize
    requires { Room buffer.old at (bell_text b) }
    ensures { Written buffer.old at (bell_text b) buffer.new result }
{
    if b.strokes == 0 {
        return at;
    }
    put_bell(buffer, at, b)
}

// What the lines of a phrase's first n bells are formed from: the phrase, and how many strokes each bell has.
#[derive(Clone, Copy)]
pub struct Bells<'a> {
    pub phrase: &'a [u32; PHRASE_WORDS],
    pub counts: &'a [u16; MOST_BELLS],
    pub n: usize,
}

impl Bells<'_> {
    // What the line of bell b shows. All its strokes have one longest execution, the bell's.
    fn total(&self, b: usize) -> BellTotal
        requires { (b < most_bells) × Few self.now.counts.now }
        ensures { (result ≡ total_in self.now.phrase.now self.now.counts.now b) × (result.hold ≤ most_jobs * 4294967295) }
    {
        let strokes = self.counts[b] as u32;
        let execution = bell_word(self.phrase, b, MOST_EXECUTION);
        BellTotal {
            number: b,
            strokes,
            hold: strokes as u64 * execution as u64,
        }
    }

    // How long the lines are.
    pub fn length(&self) -> usize
        requires { (self.now.n ≤ most_bells) × Few self.now.counts.now }
        ensures { (result ≡ length (bells_text_in self.now.phrase.now self.now.counts.now self.now.n)) × (result ≤ self.now.n * longest_bell) }
    {
        let mut total = 0;
        for b in 0..self.n {
            total += text_length(self.total(b));
        }
        total
    }

    // Writes the lines.
    pub fn put(&self, buffer: &mut [u8], start: usize) -> usize
        requires { (self.now.n ≤ most_bells) × Few self.now.counts.now
            × Room buffer.old start (bells_text_in self.now.phrase.now self.now.counts.now self.now.n) }
        ensures { Written buffer.old start (bells_text_in self.now.phrase.now self.now.counts.now self.now.n) buffer.new result }
    {
        let mut at = start;
        for b in 0..self.n {
            at = put_text(buffer, at, self.total(b));
        }
        at
    }

    // The hold of all strokes, formed from the lines.
    pub fn hold(&self) -> u64
        requires { (self.now.n ≤ most_bells) × Few self.now.counts.now }
        ensures { result ≡ all_hold_in self.now.phrase.now self.now.counts.now self.now.n }
    {
        let mut total = 0u64;
        for b in 0..self.n {
            total += self.total(b).hold;
        }
        total
    }
}
