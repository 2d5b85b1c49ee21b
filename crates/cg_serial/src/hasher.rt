//! The hasher of serials.
ghost use Rattle.std.specs.Prelude.{◌≡◌};
ghost use Rattle.cg_serial.specs.Serials.{spread, serial_write, initial};

use std::hash::{BuildHasherDefault, Hasher};

/// Builds a hasher for each serial.
pub type SerialHashing = BuildHasherDefault<SerialHasher>;

/// Hashes one serial, for an `IndexMap`.
///
/// Eight consecutive serials share a group of the map, which is one cache line, and differ in their
/// tags. A multiplication spreads the groups of eight, so those of a dense range fill the map's
/// groups evenly. The factor was chosen among about a hundred tried: it keeps the longest probes
/// short for dense serials and for every 2nd, 3rd, 8th, 64th, 100th, 1,000th and more.
#[derive(Clone, Copy)]
pub struct SerialHasher {
    hash: u64,
}

impl Default for SerialHasher {
    ghost is_default = { λ s. s ≡ initial };

    fn default() -> SerialHasher {
        SerialHasher { hash: 0 }
    }
}

/// The hash of a serial: its group of eight in the bits below the tag, its position within the
/// group in the tag.
#[inline(always)]
fn spread(serial: u64) -> u64
    ensures { result ≡ spread serial }
{
    serial % 8 * 0x2000_0000 + (serial / 8).wrapping_mul(0xfb1f_f91a_c50e_2b99) / 0x8_0000_0000
}

impl Hasher for SerialHasher {
    ghost write = { serial_write };

    ghost finish = { λ h. h.hash };

    #[inline(always)]
    fn finish(&self) -> u64 {
        self.hash
    }

    #[inline(always)]
    fn write(&mut self, bytes: &[u8]) {
        if bytes.len() == 8 {
            let serial = u64::from_le_bytes([
                bytes[0], bytes[1], bytes[2], bytes[3], bytes[4], bytes[5], bytes[6], bytes[7],
            ]);
            self.hash = spread(serial);
        }
    }
}

/// Builds a hasher for each serial.
pub fn serial_hashing() -> SerialHashing {
    BuildHasherDefault::new()
}
