//! The hasher of a table's keys.
ghost use Rattle.std.specs.Prelude.{◌≡◌};
ghost use Rattle.cg_kinds.specs.KeyHash.{spread, key_write, initial};

use std::hash::{BuildHasherDefault, Hasher};

/// Builds a hasher for each key.
pub type KeyHashing = BuildHasherDefault<KeyHasher>;

/// Hashes the number of one key, for an `IndexMap`.
///
/// It multiplies and takes bits from the middle, so consecutive or evenly spaced numbers fill the
/// groups of the map nearly evenly. A random hash overfills some groups, and a group that was once
/// overfull has less room afterwards. The factor is the best of about three thousand tried for runs
/// of numbers at distances from 1 to 2^48, in maps of 36 to 36,864 keys: one key in a thousand is
/// outside its group, against one in eighty with std's hasher.
#[derive(Clone, Copy)]
pub struct KeyHasher {
    hash: u64,
}

impl Default for KeyHasher {
    ghost is_default = { λ s. s ≡ initial };

    fn default() -> KeyHasher {
        KeyHasher { hash: 0 }
    }
}

/// The hash of a number: bits 32 to 63 of its product with the factor, and bits 96 to 127, which
/// distinguish large numbers.
#[inline(always)]
fn spread(number: u64) -> u64
    ensures { result ≡ spread number }
{
    let product = number as u128 * 0xda7e_1043_acb0_46c7;
    let middle = product / 0x1_0000_0000 % 0x1_0000_0000;
    let high = product / 0x1_0000_0000_0000_0000_0000_0000;
    middle as u64 ^ high as u64
}

impl Hasher for KeyHasher {
    ghost write = { key_write };

    ghost finish = { λ h. h.hash };

    #[inline(always)]
    fn finish(&self) -> u64 {
        self.hash
    }

    #[inline(always)]
    fn write(&mut self, bytes: &[u8]) {
        if bytes.len() == 8 {
            let number = u64::from_le_bytes([
                bytes[0], bytes[1], bytes[2], bytes[3], bytes[4], bytes[5], bytes[6], bytes[7],
            ]);
            self.hash = spread(number);
        }
    }
}

/// Builds a hasher for each key.
#[inline(always)]
pub fn key_hashing() -> KeyHashing {
    BuildHasherDefault::new()
}
