//! Guesses of the nodes' slots.
ghost use Rattle.std.specs.Prelude.{◌≡◌, ◌≢◌, ◌⊎◌, ◌<◌, ◌^◌, ℕ, ◌↔◌, IsTrue, IsFalse, length};
ghost use Rattle.cg_arena.specs.Index.{guess_at, guess_index};

use std::alloc::{AllocError, Global};

/// The likely slot of each serial that was noted. The caller checks whether the serial is really
/// there.
///
/// Consecutive serials have consecutive guesses, so neighbours share a cache line. The higher bits
/// are mixed into the index, so that evenly spaced serials do not collide.
#[derive(Drop)]
pub struct Hints {
    // Its length is a power of two, or 0.
    guesses: Vec<u32>,
    // The exponent of that power.
    bits: u32,
    // Masks the bits that select a guess.
    mask: usize,
}

/// The initial number of guesses, a power of two.
const FIRST: usize = 64;

const FIRST_BITS: u32 = 6;

/// The guess where nothing is noted.
const NONE: u32 = 0;

impl Hints {
    /// No guesses. It allocates nothing yet.
    pub fn new(alloc: Global) -> Hints {
        Hints {
            guesses: Vec::new(alloc),
            bits: 0,
            mask: 0,
        }
    }

    /// The number of guesses.
    #[inline(always)]
    pub fn len(&self) -> usize {
        self.guesses.len()
    }

    /// The index of a serial's guess.
    #[inline(always)]
    fn index_of(&self, serial: u64) -> usize
        ensures { result ≡ guess_index self.now serial }
    {
        let mixed = serial ^ serial.wrapping_shr(self.bits);
        mixed as usize & self.mask
    }

    /// The likely slot of a serial.
    #[inline(always)]
    pub fn guess(&self, serial: u64) -> usize
        ensures { result ≡ guess_at self.now serial }
    {
        match self.guesses.get(self.index_of(serial)) {
            Some(slot) => *slot as usize,
            None => NONE as usize,
        }
    }

    /// Whether two serials share a guess.
    #[inline(always)]
    pub fn is_shared(&self, serial: u64, other: u64) -> bool
        ensures { IsTrue result ↔ (guess_index self.now other ≡ guess_index self.now serial) }
    {
        self.index_of(other) == self.index_of(serial)
    }

    /// Notes the slot of a serial, overwriting what another serial with the same guess had noted.
    /// Returns whether there is a guess for the serial and the slot's number fits.
    #[inline(always)]
    pub fn tell(&mut self, serial: u64, slot: usize) -> bool
        ensures can { IsTrue result ↔ (slot < 2 ^ 32)
            × (guess_index self.old serial < length self.old.guesses.items) }
        ensures told { IsTrue result → guess_at self.new serial ≡ slot }
        ensures others { (q : ℕ) → guess_index self.old q ≢ guess_index self.old serial →
            guess_at self.new q ≡ guess_at self.old q }
        ensures not { IsFalse result → (q : ℕ) → guess_at self.new q ≡ guess_at self.old q }
    {
        if slot > u32::MAX as usize {
            return false;
        }
        let index = self.index_of(serial);
        match self.guesses.get_mut(index) {
            Some(guess) => {
                *guess = slot as u32;
                true
            }
            None => false,
        }
    }

    /// Clears the guess of a serial if it names this slot.
    #[inline(always)]
    pub fn forget(&mut self, serial: u64, slot: usize)
        ensures others { (q : ℕ) → (guess_at self.new q ≡ guess_at self.old q)
            ⊎ (guess_at self.old q ≡ slot) }
        ensures forgotten { guess_at self.new serial ≡ slot → slot ≡ 0 }
    {
        let index = self.index_of(serial);
        if let Some(guess) = self.guesses.get_mut(index) {
            if *guess as usize == slot {
                *guess = NONE;
            }
        }
    }

    /// Twice as many guesses, all empty.
    pub fn doubled(&self, alloc: Global) -> Result<Hints, AllocError> {
        let (count, bits) = match self.guesses.len() {
            0 => (FIRST, FIRST_BITS),
            count => (count.saturating_mul(2), self.bits.saturating_add(1)),
        };
        Ok(Hints {
            guesses: Vec::from_elem(alloc, NONE, count)?,
            bits,
            mask: count.saturating_sub(1),
        })
    }
}
