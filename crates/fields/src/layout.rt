// Where each field of a phrase file stands, by format/specs/Layout. What the versions differ in is a row of LAYOUTS; the records of notes are the same in
// all of them.
ghost use Rattle.std.specs.Prelude.{◌≡◌, true, ◌≤◌};
ghost use Rattle.format.specs.Layout.{is_version, layout, bell_count_at, bells_at, bell_bytes, note_count_at, most_bells};

// The widths of what not every version has: 0 where it has none.
#[derive(Clone, Copy)]
pub struct Layout {
    pub shift: usize,
    pub rest: usize,
    pub ghost shift_fits: { shift ≤ 1 },
    pub ghost rest_fits: { (rest ≡ 0 → ⊥) → rest ≡ 2 },
}

// The last version; the first is 1.
pub const VERSIONS: u32 = 3;

const LAYOUTS: [Layout; 3] = [
    Layout { shift: 0, rest: 0 },
    Layout { shift: 1, rest: 0 },
    Layout { shift: 1, rest: 2 },
];

// The header. The count at BYTE_COUNT_AT is of all bytes after the first UNCOUNTED_BYTES.
pub const VERSION_AT: usize = 0;

pub const BYTE_COUNT_AT: usize = 1;

pub const UNCOUNTED_BYTES: usize = 5;

pub const CORES_AT: usize = 5;

pub const SHIFT_AT: usize = 6;

// A bell record. BELL_BYTES are without the rest, which stands at REST_AT; after it the priority.
const BELL_BYTES: usize = 7;

pub const WRITTEN_AT: usize = 0;

pub const TRANSPOSITION_AT: usize = 1;

pub const LEAST_EXECUTION_AT: usize = 2;

pub const MOST_EXECUTION_AT: usize = 4;

pub const REST_AT: usize = 6;

// A note record: its length byte counts what follows it, NOTE_BYTES and a byte for each job listed.
pub const LENGTH_AT: usize = 0;

pub const KEY_AT: usize = 1;

pub const EARLIEST_RELEASE_AT: usize = 2;

pub const LATEST_RELEASE_AT: usize = 6;

pub const DEADLINE_AT: usize = 10;

pub const LISTED_AT: usize = 14;

pub const NOTE_BYTES: u32 = 13;

pub const MOST_LISTED: u32 = 4;

impl Layout {
    ghost use Rattle.fields.specs.internal.Layouts.{layout_of};

    // The layout of a version.
    pub fn of(version: u32) -> Layout
        requires { is_version version ≡ true }
        ensures { layout_of result ≡ layout version }
    {
        LAYOUTS[(version - 1) as usize]
    }

    pub fn bell_count_at(self) -> usize
        ensures { result ≡ bell_count_at (layout_of self) }
    {
        SHIFT_AT + self.shift
    }

    pub fn bells_at(self) -> usize
        ensures { result ≡ bells_at (layout_of self) }
    {
        self.bell_count_at() + 1
    }

    pub fn bell_bytes(self) -> usize
        ensures { result ≡ bell_bytes (layout_of self) }
    {
        BELL_BYTES + self.rest
    }

    // Where the note count stands, after n bells.
    pub fn note_count_at(self, n: usize) -> usize
        requires { (n ≤ most_bells) }
        ensures { result ≡ note_count_at (layout_of self) n }
    {
        self.bells_at() + n * self.bell_bytes()
    }
}
