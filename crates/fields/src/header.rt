// The shift, in the header of a file.
ghost use Rattle.std.specs.Prelude.{◌≡◌, ◌+◌, ◌≤◌, ◌<◌, length};
ghost use Rattle.format.specs.Layout.{shift_at};
ghost use Rattle.format.specs.Reading.{shift_in};
ghost use Rattle.fields.specs.internal.Layouts.{layout_of};

use crate::bytes::byte;
use crate::layout::{Layout, SHIFT_AT};

// 0 where the version has none.
pub fn shift_in(file: &[u8], l: Layout) -> u32
    requires { (shift_at + l.shift ≤ length file.now) }
    ensures { (result ≡ shift_in (layout_of l) file.now) × (result < 256) }
{
    if l.shift == 0 {
        return 0;
    }
    byte(file, SHIFT_AT)
}
