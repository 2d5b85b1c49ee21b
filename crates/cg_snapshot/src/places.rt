//! Places of members in order; contracts see a list.
ghost use Rattle.std.specs.Prelude.{◌≡◌, ◌++◌, ◌∷◌, [], OnOk, IfOk};
ghost use Rattle.cg_records.specs.Lists.{none_in};

use cg_search::Node;
use std::alloc::{AllocError, Global};
use std::marker::Model;

/// Places of members, in order.
#[derive(Drop)]
pub struct Places {
    places: Vec<usize>,
}

impl Model for Places {
    ghost use Rattle.std.specs.Prelude.{ℕ, List};

    ghost Value = { List ℕ };

    ghost view = { λ m. m.places.items };
}

impl Places {
    /// These places in order. It does not allocate.
    pub fn new(places: Vec<usize>) -> Places
        ensures { result ≡ places.items }
    {
        Places { places }
    }

    /// A copy of these places, without spare capacity.
    pub(crate) fn from_slice(alloc: Global, places: &[usize]) -> Result<Places, AllocError>
        ensures { IfOk result (λ copy. copy ≡ places.now) }
    {
        Ok(Places {
            places: Vec::from_slice(alloc, places)?,
        })
    }

    /// The places in order.
    pub fn as_slice(&self) -> &[usize]
        ensures { result.now ≡ self.now }
    {
        self.places.as_slice()
    }

    pub fn is_empty(&self) -> bool
        ensures { result ≡ none_in self.now }
    {
        self.places.is_empty()
    }

    pub(crate) fn push(&mut self, place: usize) -> Result<(), AllocError>
        ensures { OnOk result (self.new ≡ self.old ++ place ∷ []) }
    {
        self.places.push(place)?;
        Ok(())
    }
}

impl Node for Places {
    ghost points_to = { λ p. p };

    fn targets(&self) -> &[usize] {
        self.as_slice()
    }
}
