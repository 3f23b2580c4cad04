// Numbers in a slice of bytes: big-endian, unsigned.
ghost use Rattle.std.specs.Prelude.{◌≡◌, ◌+◌, ◌≤◌, ◌<◌, length};
ghost use Rattle.format.specs.Bytes.{number};

// One byte, as a word.
pub fn byte(part: &[u8], at: usize) -> u32
    requires { at < length part.now }
    ensures { (result ≡ number 1 at part.now) × (result < 256) }
{
    u32::from(part[at])
}

pub fn be_16(part: &[u8], at: usize) -> u32
    requires { at + 2 ≤ length part.now }
    ensures { (result ≡ number 2 at part.now) × (result < 65536) }
{
    u32::from(u16::from_be_bytes([part[at], part[at + 1]]))
}

pub fn be_32(part: &[u8], at: usize) -> u32
    requires { at + 4 ≤ length part.now }
    ensures { result ≡ number 4 at part.now }
{
    u32::from_be_bytes([part[at], part[at + 1], part[at + 2], part[at + 3]])
}
