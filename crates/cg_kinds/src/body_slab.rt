//! The objects of one kind, at the keys of a slab.
ghost use Rattle.std.specs.Prelude.{◌≡◌};
ghost use Rattle.std.specs.FinMap as fin;
ghost use Rattle.cg_kinds.specs.Places.{bodies_of};

use crate::contents::Contents;
use cg_kind::{Kind, Noted};
use cg_value::{Entry, KindCode, Val};
use slab::Slab;
use std::alloc::{AllocError, Global};

/// The contents of each object of one kind, at the keys of a slab.
#[derive(Drop)]
pub struct BodySlab<C> {
    alloc: Global,
    slab: Slab<C>,
}

impl<C: Contents> BodySlab<C> {
    /// A kind without objects.
    pub fn new(alloc: Global) -> Self
        ensures kind { ⟦<BodySlab<C> as Kind>⟧.kind result ≡ C.kind }
        ensures empty { ⟦<BodySlab<C> as Kind>⟧.bodies result ≡ fin.empty }
    {
        BodySlab {
            alloc,
            slab: Slab::new(alloc),
        }
    }
}

impl<C: Contents> Kind for BodySlab<C> {
    ghost kind = { λ _. C.kind };

    ghost bodies = { λ s. bodies_of C.body s.slab };

    fn code(&self) -> KindCode {
        C::code()
    }

    fn make(&mut self, parts: &[Entry]) -> Result<usize, AllocError> {
        let contents = C::make(self.alloc, parts)?;
        let at = self.slab.insert(contents)?;
        Ok(at)
    }

    fn len(&self, at: usize) -> usize {
        self.slab[at].len()
    }

    fn entry_at(&self, at: usize, i: usize) -> Entry {
        self.slab[at].entry_at(i)
    }

    fn get(&self, at: usize, i: usize) -> Option<Entry> {
        self.slab[at].get(i)
    }

    fn note_from(&self, at: usize, from: usize, found: &mut [u64]) -> Noted {
        self.slab[at].note_from(from, found)
    }

    fn find(&self, at: usize, key: Val) -> Option<usize> {
        self.slab[at].find(key)
    }

    fn value_of(&self, at: usize, key: Val) -> Option<Val> {
        self.slab[at].value_of(key)
    }

    fn put(&mut self, at: usize, key: Val, val: Val) -> Result<Option<Val>, AllocError> {
        self.slab[at].put(key, val)
    }

    fn take(&mut self, at: usize, i: usize) -> Entry {
        self.slab[at].take(i)
    }

    fn take_key(&mut self, at: usize, key: Val) -> Option<Entry> {
        self.slab[at].take_key(key)
    }

    fn detach(&mut self, at: usize) -> Option<Entry> {
        self.slab[at].detach()
    }

    fn reserve(&mut self, at: usize, n: usize) -> Result<(), AllocError> {
        self.slab[at].reserve(n)
    }

    fn append_reserved(&mut self, at: usize, val: Val) {
        self.slab[at].append_reserved(val);
    }

    fn append(&mut self, at: usize, val: Val) -> Result<(), AllocError> {
        self.slab[at].append(val)
    }

    fn is_empty(&self) -> bool {
        self.slab.is_empty()
    }

    fn free(&mut self, at: usize) {
        let _ = self.slab.remove(at);
    }
}
