//! Lists.
ghost use Rattle.std.specs.Prelude.{◌≡◌, ◌<◌, pos};
ghost use Rattle.cg_value.specs.declared.KindCode.TheVariants as code;
ghost use Rattle.cg_value.specs.declared.Val.TheVariants as val;
ghost use Rattle.cg_kinds.specs.Contents.{list_body, IsIndex};

use crate::body_slab::BodySlab;
use crate::contents::Contents;
use crate::items::{find_item, item_of};
use crate::listed::Listed;
use cg_kind::Noted;
use cg_value::{Entry, KindCode, Val};
use std::alloc::{AllocError, Global};

/// Lists, each by its items.
pub type ListKind = BodySlab<ListItems>;

/// The items of a list.
#[derive(Drop)]
pub struct ListItems {
    values: Listed,
}

/// The index that a key of a list denotes.
fn index_of(key: Val) -> usize
    requires { IsIndex key }
    ensures { key ≡ val.Int (pos result) }
{
    match key {
        Val::Int(number) => number as usize,
        _ => 0,
    }
}

impl Contents for ListItems {
    ghost kind = { code.List };

    ghost body = { λ l. list_body l.values };

    fn code() -> KindCode {
        KindCode::List
    }

    fn make(alloc: Global, parts: &[Entry]) -> Result<Self, AllocError> {
        let values = Listed::of_items(alloc, parts)?;
        Ok(ListItems { values })
    }

    #[inline(always)]
    fn len(&self) -> usize {
        self.values.len()
    }

    #[inline(always)]
    fn entry_at(&self, i: usize) -> Entry {
        item_of(self.values.val(i))
    }

    #[inline(always)]
    fn note_from(&self, from: usize, found: &mut [u64]) -> Noted {
        self.values.note_from(from, found)
    }

    fn find(&self, key: Val) -> Option<usize> {
        find_item(self.values.len(), key)
    }

    #[inline(always)]
    fn put(&mut self, key: Val, val: Val) -> Result<Option<Val>, AllocError> {
        let i = index_of(key);
        let replaced = self.values.val(i);
        self.values.set(i, val);
        Ok(Some(replaced))
    }

    fn take(&mut self, i: usize) -> Entry {
        item_of(self.values.remove(i))
    }

    fn detach(&mut self) -> Option<Entry> {
        match self.values.pop() {
            Some(last) => Some(item_of(last)),
            None => None,
        }
    }

    #[inline(always)]
    fn reserve(&mut self, n: usize) -> Result<(), AllocError> {
        self.values.reserve(n)?;
        Ok(())
    }

    #[inline(always)]
    fn append_reserved(&mut self, val: Val) {
        self.values.push_reserved(val);
    }
}
