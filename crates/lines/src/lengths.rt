// How long the lines of a report are: their fixed bytes, and the digits of their numbers.
ghost use Rattle.std.specs.Prelude.{◌≡◌, ◌≤◌, length};
ghost use Rattle.format.specs.Rules.{lowest_key};
ghost use Rattle.lines.specs.Lines.{stroke_line, bell_line, accepted_line, place_label, refused_line, late_line};
ghost use Rattle.lines.specs.internal.Longest.{longest_stroke, longest_bell, longest_last};

use crate::lines::{BellTotal, Stroke};
use model::refusals::{LATE_JOB, LEVEL_FULL};
use text::{digits, key_length};

// `stroke `, ` key `, ` bell `, ` ends `, `..`, ` response `, `..`, ` due ` and the line end.
const STROKE_BYTES: usize = 44;

// `bell `, ` strokes `, ` hold ` and the line end.
const BELL_BYTES: usize = 21;

// `accepted strokes `, ` states `, ` hold ` and the line end.
const ACCEPTED_BYTES: usize = 32;

// `refused ` and the line end.
const REFUSED_BYTES: usize = 9;

// `refused `, ` stroke `, ` ends `, `..` and the line end.
const LATE_BYTES: usize = 25;

pub fn stroke_length(s: Stroke) -> usize
    requires { lowest_key ≤ s.key }
    ensures { (result ≡ length (stroke_line s)) × (result ≤ longest_stroke) }
{
    let origin = digits(s.number as u64) + key_length(s.key) + digits(s.bell as u64);
    let ends = digits(s.earliest as u64) + digits(s.latest as u64);
    let responses = digits(s.best as u64) + digits(s.worst as u64);
    STROKE_BYTES + origin + ends + responses + digits(s.deadline as u64)
}

pub fn bell_length(b: BellTotal) -> usize
    ensures { (result ≡ length (bell_line b)) × (result ≤ longest_bell) }
{
    BELL_BYTES + digits(b.number as u64) + digits(b.strokes as u64) + digits(b.hold)
}

pub fn last_length(jobs: usize, states: u64, hold: u64) -> usize
    ensures { (result ≡ length (accepted_line jobs states hold)) × (result ≤ longest_last) }
{
    ACCEPTED_BYTES + digits(jobs as u64) + digits(states) + digits(hold)
}

// ` level ` or ` at `.
fn place_label_length(number: u32) -> usize
    ensures { (result ≡ length (place_label number)) × (result ≤ 7) }
{
    if number == LEVEL_FULL {
        return 7;
    }
    4
}

pub fn refused_length(number: u32, place: usize) -> usize
    ensures { (result ≡ length (refused_line number place)) × (result ≤ longest_last) }
{
    REFUSED_BYTES + digits(number as u64) + place_label_length(number) + digits(place as u64)
}

pub fn late_length(job: usize, earliest: u32, latest: u32) -> usize
    ensures { (result ≡ length (late_line job earliest latest)) × (result ≤ longest_last) }
{
    let number = digits(LATE_JOB as u64);
    LATE_BYTES + number + digits(job as u64) + digits(earliest as u64) + digits(latest as u64)
}
