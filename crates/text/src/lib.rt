// Text written into a buffer: fixed bytes, decimal numbers, names of keys, and how long these are. A writer answers where its text ends.
#![tactic(auto)]

ghost use Rattle.std.specs.Prelude.{◌≡◌, [], ◌∷◌, ◌+◌, ◌/◌, ◌%◌, ◌≤◌, ◌<◌, get_or, length};
ghost use Rattle.text.specs.Decimal.{digit, decimal};
ghost use Rattle.text.specs.Keys.{names, key_text};
ghost use Rattle.text.specs.internal.Written.{Room, Written};

pub fn put_bytes(buffer: &mut [u8], at: usize, s: &[u8]) -> usize
    requires { Room buffer.old at s.now }
    ensures { Written buffer.old at s.now buffer.new result }
{
    for (i, byte) in s.iter().enumerate() {
        buffer[at + i] = *byte;
    }
    at + s.len()
}

// The last digit of n.
fn put_digit(buffer: &mut [u8], at: usize, n: u64) -> usize
    requires { at < length buffer.old }
    ensures { Written buffer.old at (digit n ∷ []) buffer.new result }
{
    buffer[at] = b'0' + (n % 10) as u8;
    at + 1
}

// The last two digits of n.
fn put_pair(buffer: &mut [u8], at: usize, n: u64) -> usize
    requires { at + 2 ≤ length buffer.old }
    ensures { Written buffer.old at (digit (n / 10) ∷ digit n ∷ []) buffer.new result }
{
    let last = put_digit(buffer, at, n / 10);
    put_digit(buffer, last, n)
}

// Two digits at a time: half as many calls and divisions. Not by `write!`: the buffer is lent (no heap), and into a byte slice std promises neither the
// text nor that there is no error.
pub fn put_decimal(buffer: &mut [u8], at: usize, n: u64) -> usize
    requires { Room buffer.old at (decimal n) }
    ensures { Written buffer.old at (decimal n) buffer.new result }
{
    if n < 10 {
        return put_digit(buffer, at, n);
    }
    if n < 100 {
        return put_pair(buffer, at, n);
    }
    let last = put_decimal(buffer, at, n / 100);
    put_pair(buffer, last, n)
}

// How many digits a number below ten thousand has.
fn few_digits(n: u64) -> usize
    requires { n < 10000 }
    ensures { result ≡ length (decimal n) }
{
    if 1000 <= n {
        return 4;
    }
    if 100 <= n {
        return 3;
    }
    if 10 <= n {
        return 2;
    }
    1
}

// How many digits n has. Four at a time: most numbers of a report then take no division.
pub fn digits(n: u64) -> usize
    ensures { (result ≡ length (decimal n)) × (result ≤ 20) }
{
    let mut rest = n;
    let mut count = 0;
    while 10000 <= rest {
        rest /= 10000;
        count += 4;
    }
    count + few_digits(rest)
}

// The names of the notes of an octave, from C on.
const NAMES: [&[u8]; 12] = [
    b"C", b"C#", b"D", b"D#", b"E", b"F", b"F#", b"G", b"G#", b"A", b"A#", b"B",
];

// The name of a key's note.
fn name_of(key: u32) -> &'static [u8]
    ensures { result.now ≡ get_or names (key % 12) [] }
{
    NAMES[(key % 12) as usize]
}

pub fn put_key(buffer: &mut [u8], at: usize, key: u32) -> usize
    requires { (12 ≤ key) × Room buffer.old at (key_text key) }
    ensures { Written buffer.old at (key_text key) buffer.new result }
{
    let end = put_bytes(buffer, at, name_of(key));
    put_decimal(buffer, end, (key / 12 - 1) as u64)
}

// How long the name of a key is.
pub fn key_length(key: u32) -> usize
    requires { 12 ≤ key }
    ensures { (result ≡ length (key_text key)) × (result ≤ 11) }
{
    name_of(key).len() + digits((key / 12 - 1) as u64)
}
