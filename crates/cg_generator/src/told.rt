//! Bytes that only contracts see; they take no memory.
ghost use Rattle.std.specs.Prelude.{◌≡◌, ℕ, List, [], ◌∷◌, ◌++◌};
ghost use Rattle.std.specs.Borrow.{ftrue};
ghost use Rattle.std.specs.Coded.{coded_list, coded_ℕ};

use std::marker::Model;

/// The bytes given so far. Only contracts see them: nothing exists at run time.
#[derive(Drop)]
pub struct Told {
    pub ghost bytes: { List ℕ } by { coded_list coded_ℕ },
}

impl Model for Told {
    ghost also_owns = { λ _. ftrue };
}

impl Told {
    /// No bytes.
    pub fn nothing() -> Told
        ensures { result.bytes ≡ [] }
    {
        Told {}
    }

    /// These bytes, and one more.
    pub fn and(&self, _byte: &u8) -> Told
        ensures { result.bytes ≡ self.now.bytes ++ _byte.now ∷ [] }
    {
        Told {}
    }
}
