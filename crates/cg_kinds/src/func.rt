//! Functions.
ghost use Rattle.std.specs.Prelude.{map};
ghost use Rattle.cg_value.specs.declared.KindCode.TheVariants as code;
ghost use Rattle.cg_kinds.specs.Contents.{fixed_body};

use crate::body_slab::BodySlab;
use crate::contents::Contents;
use crate::items::{find_item, item_of};
use crate::kept::{KeepsEntry, note_slice};
use arrayvec::ArrayVec;
use cg_kind::{Noted, note_entry};
use cg_value::{Entry, KindCode, Val};
use std::alloc::{AllocError, Global};

/// Functions, each by its cells.
pub type FuncKind = BodySlab<Cells>;

/// The cells of a function, at most eight. They are fixed when it is made and only leave one by
/// one.
#[derive(Drop)]
pub struct Cells {
    cells: ArrayVec<Cell, 8>,
}

/// The contents of a cell.
#[derive(Clone, Copy, Drop)]
struct Cell(Val);

impl Default for Cell {
    fn default() -> Self {
        Cell(Val::None)
    }
}

impl KeepsEntry for Cell {
    ghost use Rattle.cg_graph.specs.Value.{item};

    ghost kept = { λ c. item c.0 };

    #[inline(always)]
    fn note(&self, found: &mut [u64], count: usize) -> usize {
        note_entry(found, count, item_of(self.0))
    }
}

impl Contents for Cells {
    ghost kind = { code.Func };

    ghost body = { λ f. fixed_body (map (λ c. c.0) f.cells.items) };

    fn code() -> KindCode {
        KindCode::Func
    }

    fn make(alloc: Global, parts: &[Entry]) -> Result<Self, AllocError> {
        let _ = alloc;
        let mut cells = ArrayVec::new();
        for part in parts {
            cells.push(Cell(part.val));
        }
        Ok(Cells { cells })
    }

    fn len(&self) -> usize {
        self.cells.len()
    }

    fn entry_at(&self, i: usize) -> Entry {
        item_of(self.cells[i].0)
    }

    #[inline(always)]
    fn note_from(&self, from: usize, found: &mut [u64]) -> Noted {
        note_slice(self.cells.as_slice(), from, found)
    }

    fn find(&self, key: Val) -> Option<usize> {
        find_item(self.cells.len(), key)
    }

    fn put(&mut self, key: Val, val: Val) -> Result<Option<Val>, AllocError> {
        let _ = (key, val);
        Ok(None)
    }

    fn take(&mut self, i: usize) -> Entry {
        self.entry_at(i)
    }

    fn detach(&mut self) -> Option<Entry> {
        match self.cells.pop() {
            Some(cell) => Some(item_of(cell.0)),
            None => None,
        }
    }

    fn reserve(&mut self, n: usize) -> Result<(), AllocError> {
        let _ = n;
        Ok(())
    }

    fn append_reserved(&mut self, val: Val) {
        let _ = val;
    }
}
