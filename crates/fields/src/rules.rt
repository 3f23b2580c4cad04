// The rules of fields, on numbers that may be wider than the bytes of the file.
ghost use Rattle.std.specs.Prelude.{◌≡◌, ◌<◌};
ghost use Rattle.format.specs.Bytes.{within};
ghost use Rattle.format.specs.Phrase.{transposed};
ghost use Rattle.format.specs.Rules.{is_transposition, is_shift, is_execution_range, is_rest, bell_in_range, are_times};
ghost use Rattle.fields.specs.internal.BellWith.{bell_with};
ghost use Rattle.fields.specs.internal.Layouts.{layout_of};

use crate::layout::Layout;
use model::limits::{LATEST_TIME, LONGEST_EXECUTION, LONGEST_REST};

const LOWEST_KEY: u32 = 12;

const HIGHEST_KEY: u32 = 119;

const MOST_TRANSPOSED: u32 = 24;

pub fn is_within(low: u32, high: u32, x: u32) -> bool
    ensures { result ≡ within low high x }
{
    low <= x && x <= high
}

// -24 to 24, as a signed byte.
fn is_transposition(t: u32) -> bool
    ensures { result ≡ is_transposition t }
{
    t <= MOST_TRANSPOSED || is_within(256 - MOST_TRANSPOSED, 255, t)
}

// The shift of a phrase: 0 where the version has none.
pub fn is_shift(l: Layout, shift: u32) -> bool
    ensures { result ≡ is_shift (layout_of l) shift }
{
    if l.shift == 0 {
        return shift == 0;
    }
    is_transposition(shift)
}

fn is_execution_range(least: u32, most: u32) -> bool
    ensures { result ≡ is_execution_range least most }
{
    if least < 1 {
        return false;
    }
    if most < least {
        return false;
    }
    most <= LONGEST_EXECUTION
}

// The rest of a bell: 0 where the version has none.
fn is_rest(l: Layout, rest: u32) -> bool
    ensures { result ≡ is_rest (layout_of l) rest }
{
    if l.rest == 0 {
        return rest == 0;
    }
    rest <= LONGEST_REST
}

// A key moved by a transposition or a shift, which is a signed byte; a sum below zero is no key, and 0 here.
pub fn transposed(written: u32, transposition: u32) -> u32
    requires { (written < 256) × (transposition < 256) }
    ensures { result ≡ transposed written transposition }
{
    if transposition < 128 {
        return written + transposition;
    }
    (written + transposition).saturating_sub(256)
}

// Whether every field of a bell is in its range.
pub fn is_bell(
    l: Layout,
    written: u32,
    transposition: u32,
    least: u32,
    most: u32,
    rest: u32,
    priority: u32,
) -> bool
    ensures { result ≡ bell_in_range (layout_of l) (bell_with written transposition least most rest priority) }
{
    if !is_within(LOWEST_KEY, HIGHEST_KEY, written) {
        return false;
    }
    if !is_transposition(transposition) {
        return false;
    }
    let key = transposed(written, transposition);
    if !is_within(LOWEST_KEY, HIGHEST_KEY, key) {
        return false;
    }
    if !is_execution_range(least, most) {
        return false;
    }
    if !is_rest(l, rest) {
        return false;
    }
    priority < 256
}

// The deadline is free against the releases.
pub fn are_times(earliest: u32, latest: u32, deadline: u32) -> bool
    ensures { result ≡ are_times earliest latest deadline }
{
    if latest < earliest {
        return false;
    }
    if LATEST_TIME < latest {
        return false;
    }
    deadline <= LATEST_TIME
}
