//! Values in nine bytes, as tables store their keys and values.
ghost use Rattle.std.specs.Prelude.{◌≡◌};
ghost use Rattle.cg_value.specs.contracts.ValPartialEq.TheImpl as val_partial_eq;
ghost use Rattle.cg_value.specs.contracts.ValPartialEq.TheImpl.Laws as val_partial_eq_laws;
ghost use Rattle.cg_value.specs.contracts.ValEq.TheImpl.Laws as val_eq_laws;
ghost use Rattle.cg_graph.specs.Value.{reference_in};
ghost use Rattle.cg_kinds.specs.Numbers.{hashed, equal_hashed};

use crate::values::{reference_of, val_of, words_of};
use cg_value::Val;
use std::hash::{Hash, Hasher};
use std::marker::Model;

/// A value in nine bytes: the little-endian bytes of its number, then its sort.
///
/// The number comes first because a put then moves a value in fewer pieces. Bytes need no
/// alignment, so a run of these has no gaps; a `Val` takes sixteen bytes. Each value has only one
/// encoding, so two values are compared by their bytes.
#[derive(Drop)]
pub struct Nine {
    number: [u8; 8],
    sort: u8,
}

impl Model for Nine {
    ghost use Rattle.std.specs.Int.{from_le_bytes, w64};
    ghost use Rattle.cg_value.specs.declared.Val.{Val};
    ghost use Rattle.cg_kinds.specs.Values.{value_in, AreOnlyWords};

    ghost Value = { Val };

    ghost view = { λ n. value_in n.sort (from_le_bytes w64 n.number) };

    ghost invariant = { λ n. AreOnlyWords n.sort (from_le_bytes w64 n.number) };
}

impl Nine {
    /// Packs a value.
    #[inline(always)]
    pub fn new(val: Val) -> Nine
        ensures { result ≡ val }
    {
        let (sort, number) = words_of(val);
        Nine {
            sort,
            number: number.to_le_bytes(),
        }
    }

    /// The value.
    #[inline(always)]
    pub fn val(&self) -> Val
        ensures { result ≡ self.now }
    {
        val_of(self.sort, u64::from_le_bytes(self.number))
    }

    /// The serial of a reference.
    #[inline(always)]
    pub fn reference(&self) -> Option<u64>
        ensures { result ≡ reference_in self.now }
    {
        reference_of(self.sort as u64, u64::from_le_bytes(self.number))
    }
}

impl PartialEq for Nine {
    ghost eq = { (val_partial_eq.ghosts).eq };

    ghost laws = { val_partial_eq_laws.laws-law };

    #[inline(always)]
    fn eq(&self, other: &Nine) -> bool {
        // Most distinct keys have the same sort, so the number is compared first.
        u64::from_le_bytes(self.number) == u64::from_le_bytes(other.number)
            && self.sort == other.sort
    }
}

impl Eq for Nine {
    ghost laws = { val_eq_laws.laws-law };
}

impl Hash for Nine {
    ghost hash_input = { hashed };

    ghost respects_eq = { equal_hashed };

    // Only the number, so that a key takes one round of the hasher. Keys of two sorts with the same
    // number share a hash.
    #[inline(always)]
    fn hash<H: Hasher>(&self, state: &mut H) {
        state.write_u64(u64::from_le_bytes(self.number));
    }
}
