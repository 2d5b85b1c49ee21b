//! Tuples.
ghost use Rattle.cg_value.specs.declared.KindCode.TheVariants as code;
ghost use Rattle.cg_kinds.specs.Contents.{fixed_body};

use crate::body_slab::BodySlab;
use crate::contents::Contents;
use crate::items::{find_item, item_of, values_of};
use crate::kept::note_slice;
use cg_kind::Noted;
use cg_value::{Entry, KindCode, Val};
use std::alloc::{AllocError, Global};

/// Tuples, each by its items.
pub type TupleKind = BodySlab<TupleItems>;

/// The items of a tuple. They are fixed when it is made and only leave one by one.
#[derive(Drop)]
pub struct TupleItems {
    values: Vec<Val>,
}

impl Contents for TupleItems {
    ghost kind = { code.Tuple };

    ghost body = { λ t. fixed_body t.values.items };

    fn code() -> KindCode {
        KindCode::Tuple
    }

    fn make(alloc: Global, parts: &[Entry]) -> Result<Self, AllocError> {
        let values = values_of(alloc, parts)?;
        Ok(TupleItems { values })
    }

    fn len(&self) -> usize {
        self.values.len()
    }

    fn entry_at(&self, i: usize) -> Entry {
        item_of(self.values[i])
    }

    #[inline(always)]
    fn note_from(&self, from: usize, found: &mut [u64]) -> Noted {
        note_slice(self.values.as_slice(), from, found)
    }

    fn find(&self, key: Val) -> Option<usize> {
        find_item(self.values.len(), key)
    }

    fn put(&mut self, key: Val, val: Val) -> Result<Option<Val>, AllocError> {
        let _ = (key, val);
        Ok(None)
    }

    fn take(&mut self, i: usize) -> Entry {
        self.entry_at(i)
    }

    fn detach(&mut self) -> Option<Entry> {
        match self.values.pop() {
            Some(val) => Some(item_of(val)),
            None => None,
        }
    }

    fn reserve(&mut self, n: usize) -> Result<(), AllocError> {
        let _ = n;
        Ok(())
    }

    fn append_reserved(&mut self, val: Val) {
        let _ = val;
    }
}
