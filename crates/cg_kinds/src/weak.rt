//! Weak references.
ghost use Rattle.std.specs.Prelude.{option_to_list};
ghost use Rattle.cg_value.specs.declared.KindCode.TheVariants as code;
ghost use Rattle.cg_kinds.specs.Contents.{fixed_body};

use crate::body_slab::BodySlab;
use crate::contents::Contents;
use crate::items::{find_item, item_of};
use cg_value::{Entry, KindCode, Val};
use std::alloc::{AllocError, Global};

/// Weak references, each by its callback.
pub type WeakKind = BodySlab<Callback>;

/// The callback of a weak reference, if it has one.
#[derive(Drop)]
pub struct Callback {
    callback: Option<Val>,
}

impl Contents for Callback {
    ghost kind = { code.Weak };

    ghost body = { λ w. fixed_body (option_to_list w.callback) };

    fn code() -> KindCode {
        KindCode::Weak
    }

    fn make(alloc: Global, parts: &[Entry]) -> Result<Self, AllocError> {
        let _ = alloc;
        let callback = match parts.first() {
            Some(part) => Some(part.val),
            None => None,
        };
        Ok(Callback { callback })
    }

    fn len(&self) -> usize {
        match self.callback {
            Some(_) => 1,
            None => 0,
        }
    }

    fn entry_at(&self, i: usize) -> Entry {
        let _ = i;
        match self.callback {
            Some(val) => item_of(val),
            None => unreachable!(),
        }
    }

    fn find(&self, key: Val) -> Option<usize> {
        find_item(self.len(), key)
    }

    fn put(&mut self, key: Val, val: Val) -> Result<Option<Val>, AllocError> {
        let _ = (key, val);
        Ok(None)
    }

    fn take(&mut self, i: usize) -> Entry {
        self.entry_at(i)
    }

    fn detach(&mut self) -> Option<Entry> {
        match self.callback.take() {
            Some(val) => Some(item_of(val)),
            None => None,
        }
    }

    fn reserve(&mut self, n: usize) -> Result<(), AllocError> {
        let _ = n;
        Ok(())
    }

    fn append_reserved(&mut self, val: Val) {
        let _ = val;
    }
}
