//! The contents of a slot, in four bytes.
ghost use Rattle.std.specs.Prelude.{◌≡◌, ◌<◌, ◌-◌, ◌^◌, ℕ, None, Some, is_some};

use std::marker::Model;

/// The index of a pair, or a gap.
///
/// A 32-bit word: 0 for a gap, else the index plus one. An `Option<u32>` takes eight bytes.
#[derive(Drop)]
pub struct IndexOrGap {
    word: u32,
}

impl Model for IndexOrGap {
    ghost use Rattle.std.specs.Prelude.{Option, ℕ};
    ghost use Rattle.cg_kinds.specs.Order.{index_in};

    ghost Value = { Option ℕ };

    ghost view = { λ s. index_in s.word };
}

impl IndexOrGap {
    /// A gap.
    #[inline(always)]
    pub fn gap() -> IndexOrGap
        ensures { result ≡ None }
    {
        IndexOrGap { word: 0 }
    }

    /// An index. The largest 32-bit number is not allowed.
    #[inline(always)]
    pub fn of(index: u32) -> IndexOrGap
        requires { index < 2 ^ 32 - 1 }
        ensures { result ≡ Some index }
    {
        IndexOrGap { word: index + 1 }
    }

    /// The index; `None` for a gap.
    #[inline(always)]
    pub fn index(&self) -> Option<u32>
        ensures index { result ≡ self.now }
        ensures small { (index : ℕ) → result ≡ Some index → index < 2 ^ 32 - 1 }
    {
        if self.word == 0 {
            None
        } else {
            Some(self.word - 1)
        }
    }

    /// Whether it is not a gap.
    #[inline(always)]
    pub fn is_index(&self) -> bool
        ensures { result ≡ is_some self.now }
    {
        self.word != 0
    }
}
