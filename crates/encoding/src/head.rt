// What a file begins with.
ghost use Rattle.std.specs.Prelude.{◌≡◌, [], ◌∷◌, ◌-◌, ◌^◌, ◌≤◌, ◌<◌, length};
ghost use Rattle.format.specs.Bytes.{fields_file};
ghost use Rattle.format.specs.Layout.{uncounted_bytes, bells_at, head_widths};
ghost use Rattle.fields.specs.internal.Layouts.{layout_of};

use crate::numbers::{put_8, put_32};
use fields::layout::{BYTE_COUNT_AT, CORES_AT, Layout, SHIFT_AT, UNCOUNTED_BYTES, VERSION_AT};

// The header of a file of so many bytes, of which it counts those after the count.
pub fn put_head(
    part: &mut [u8],
    l: Layout,
    version: u32,
    size: u32,
    cores: u32,
    shift: u32,
    bells: u32,
)
    requires { (length part.old ≡ bells_at (layout_of l)) × (version < 256) × (uncounted_bytes ≤ size) × (cores < 256)
        × (shift < 256 ^ l.shift) × (bells < 256) }
    ensures { part.new ≡ fields_file (head_widths (layout_of l)) (version ∷ (size - uncounted_bytes) ∷ cores ∷ shift ∷ bells ∷ []) }
{
    put_8(part, VERSION_AT, version);
    put_32(part, BYTE_COUNT_AT, size - UNCOUNTED_BYTES as u32);
    put_8(part, CORES_AT, cores);
    if l.shift != 0 {
        put_8(part, SHIFT_AT, shift);
    }
    put_8(part, l.bell_count_at(), bells);
}
