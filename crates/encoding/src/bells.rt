// The record of a bell.
ghost use Rattle.std.specs.Prelude.{◌≡◌, length};
ghost use Rattle.format.specs.Layout.{bell_bytes, bell_widths};
ghost use Rattle.format.specs.Fits.{FieldsFit};
ghost use Rattle.format.specs.Writing.{bell_fields, bell_file};
ghost use Rattle.fields.specs.internal.Layouts.{layout_of};
ghost use Rattle.rows.specs.BellRow.{bell_words, bell_of_row};

use crate::numbers::{put_8, put_16};
use fields::layout::{
    LEAST_EXECUTION_AT, Layout, MOST_EXECUTION_AT, REST_AT, TRANSPOSITION_AT, WRITTEN_AT,
};
use rows::bell::{LEAST_EXECUTION, MOST_EXECUTION, PRIORITY, REST, TRANSPOSITION, WRITTEN};

// The record of the bell of a row, whose fields fit their bytes.
pub fn put_bell(row: &[u32], l: Layout, part: &mut [u8])
    requires { (length row.now ≡ bell_words) × (length part.old ≡ bell_bytes (layout_of l))
        × FieldsFit (bell_widths (layout_of l)) (bell_fields (bell_of_row row.now)) }
    ensures { part.new ≡ bell_file (layout_of l) (bell_of_row row.now) }
{
    put_8(part, WRITTEN_AT, row[WRITTEN]);
    put_8(part, TRANSPOSITION_AT, row[TRANSPOSITION]);
    put_16(part, LEAST_EXECUTION_AT, row[LEAST_EXECUTION]);
    put_16(part, MOST_EXECUTION_AT, row[MOST_EXECUTION]);
    if l.rest != 0 {
        put_16(part, REST_AT, row[REST]);
    }
    put_8(part, REST_AT + l.rest, row[PRIORITY]);
}
