// Numbers put into a slice of bytes: big-endian, unsigned.
ghost use Rattle.std.specs.Prelude.{◌≡◌, ◌+◌, ◌≤◌, ◌<◌, length};
ghost use Rattle.words.specs.internal.Placed.{placed};
ghost use Rattle.format.specs.Bytes.{digits};

// One byte.
pub fn put_8(part: &mut [u8], at: usize, x: u32)
    requires { (at < length part.old) × (x < 256) }
    ensures { part.new ≡ placed part.old at (digits 1 x) }
{
    part[at] = x as u8;
}

pub fn put_16(part: &mut [u8], at: usize, x: u32)
    requires { (at + 2 ≤ length part.old) × (x < 65536) }
    ensures { part.new ≡ placed part.old at (digits 2 x) }
{
    part[at..at + 2].copy_from_slice(&(x as u16).to_be_bytes());
}

pub fn put_32(part: &mut [u8], at: usize, x: u32)
    requires { at + 4 ≤ length part.old }
    ensures { part.new ≡ placed part.old at (digits 4 x) }
{
    part[at..at + 4].copy_from_slice(&x.to_be_bytes());
}
