// The fields of a bell record: tested, and written to a row.
ghost use Rattle.std.specs.Prelude.{◌≡◌, ◌≤◌, length};
ghost use Rattle.format.specs.Layout.{bell_bytes};
ghost use Rattle.format.specs.Phrase.{sounding};
ghost use Rattle.format.specs.Rules.{bell_in_range};
ghost use Rattle.format.specs.Reading.{bell_in};
ghost use Rattle.rows.specs.BellRow.{bell_words, bell_row};
ghost use Rattle.fields.specs.internal.Layouts.{layout_of};

use crate::bytes::{be_16, byte};
use crate::layout::{
    LEAST_EXECUTION_AT, Layout, MOST_EXECUTION_AT, REST_AT, TRANSPOSITION_AT, WRITTEN_AT,
};
use crate::rules::{is_bell, transposed};
use rows::bell::{
    LEAST_EXECUTION, MOST_EXECUTION, PRIORITY, REST, SOUNDING, TRANSPOSITION, WRITTEN,
};

// The rest: 0 where the version has none.
fn rest_in(part: &[u8], l: Layout) -> u32
    requires { (bell_bytes (layout_of l) ≤ length part.now) }
    ensures { result ≡ (bell_in (layout_of l) part.now).rest }
{
    if l.rest == 0 {
        return 0;
    }
    be_16(part, REST_AT)
}

// The priority, which stands after the rest.
fn priority_in(part: &[u8], l: Layout) -> u32
    requires { (bell_bytes (layout_of l) ≤ length part.now) }
    ensures { result ≡ (bell_in (layout_of l) part.now).priority }
{
    byte(part, REST_AT + l.rest)
}

// The key that the bell sounds for.
pub fn sounding_key(part: &[u8], l: Layout) -> u32
    requires { bell_bytes (layout_of l) ≤ length part.now }
    ensures { result ≡ sounding (bell_in (layout_of l) part.now) }
{
    transposed(byte(part, WRITTEN_AT), byte(part, TRANSPOSITION_AT))
}

// Whether every field of the bell is in its range.
pub fn is_in_range(part: &[u8], l: Layout) -> bool
    requires { (bell_bytes (layout_of l) ≤ length part.now) }
    ensures { result ≡ bell_in_range (layout_of l) (bell_in (layout_of l) part.now) }
{
    is_bell(
        l,
        byte(part, WRITTEN_AT),
        byte(part, TRANSPOSITION_AT),
        be_16(part, LEAST_EXECUTION_AT),
        be_16(part, MOST_EXECUTION_AT),
        rest_in(part, l),
        priority_in(part, l),
    )
}

// The bell's row; `key` is the one that it sounds for.
pub fn write_bell(part: &[u8], l: Layout, key: u32, row: &mut [u32])
    requires { (bell_bytes (layout_of l) ≤ length part.now) × (key ≡ sounding (bell_in (layout_of l) part.now))
        × (length row.old ≡ bell_words) }
    ensures { row.new ≡ bell_row (bell_in (layout_of l) part.now) }
{
    row[WRITTEN] = byte(part, WRITTEN_AT);
    row[TRANSPOSITION] = byte(part, TRANSPOSITION_AT);
    row[LEAST_EXECUTION] = be_16(part, LEAST_EXECUTION_AT);
    row[MOST_EXECUTION] = be_16(part, MOST_EXECUTION_AT);
    row[PRIORITY] = priority_in(part, l);
    row[REST] = rest_in(part, l);
    row[SOUNDING] = key;
}
