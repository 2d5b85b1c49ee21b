//! Serials in order; contracts see a list.
ghost use Rattle.std.specs.Prelude.{◌≡◌, ◌++◌, ◌∷◌, [], OnOk};
ghost use Rattle.cg_records.specs.Lists.{none_in};

use std::alloc::AllocError;
use std::marker::Model;

/// Serials of objects, in order.
#[derive(Drop)]
pub struct Serials {
    members: Vec<u64>,
}

impl Model for Serials {
    ghost use Rattle.std.specs.Prelude.{ℕ, List};

    ghost Value = { List ℕ };

    ghost view = { λ m. m.members.items };
}

impl Serials {
    /// These serials in order. It does not allocate.
    pub fn new(members: Vec<u64>) -> Serials
        ensures { result ≡ members.items }
    {
        Serials { members }
    }

    /// The serials in order.
    pub fn as_slice(&self) -> &[u64]
        ensures { result.now ≡ self.now }
    {
        self.members.as_slice()
    }

    pub(crate) fn is_empty(&self) -> bool
        ensures { result ≡ none_in self.now }
    {
        self.members.is_empty()
    }

    pub(crate) fn push(&mut self, serial: u64) -> Result<(), AllocError>
        ensures { OnOk result (self.new ≡ self.old ++ serial ∷ []) }
    {
        self.members.push(serial)?;
        Ok(())
    }
}
