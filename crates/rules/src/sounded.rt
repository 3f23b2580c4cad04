// Which keys the bells sound for.
ghost use Rattle.std.specs.Prelude.{◌≡◌, true, false, suc, length, get_or};
ghost use Rattle.format.specs.Phrase.{transposed};
ghost use Rattle.format.specs.Rules.{highest_key, is_transposition};

use fields::rules::transposed;

// So many keys are marked; a bell sounds for none above.
pub const KEYS: usize = 120;

// Whether a bell sounds for the key.
pub fn is_sounded(sounded: &[bool], key: u32) -> bool
    ensures { result ≡ get_or sounded.now key false }
{
    sounded.get(key as usize).copied().unwrap_or(false)
}

// Whether a bell sounds for the key moved by the shift. A key wider than a byte is moved to none of a bell.
pub fn is_struck(sounded: &[bool], key: u32, shift: u32) -> bool
    requires { (length sounded.now ≡ suc highest_key) × (is_transposition shift ≡ true) }
    ensures { result ≡ get_or sounded.now (transposed key shift) false }
{
    if 255 < key {
        return false;
    }
    is_sounded(sounded, transposed(key, shift))
}
