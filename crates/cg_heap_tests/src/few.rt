//! A kind that runs out of memory after its first object.
ghost use Rattle.std.specs.Prelude.{◌≡◌, map, replicate, IfOk};
ghost use Rattle.std.specs.FinMap as fin;
ghost use Rattle.cg_heap.specs.Boxes.{six_kinds};

use cg_any_kind::AnyKind;
use cg_kind::Kind;
use cg_value::{Entry, KindCode, Val};
use std::alloc::{AllocError, Global};

/// A kind that makes a limited number of objects.
#[derive(Drop)]
pub struct Few {
    kind: AnyKind,
    left: u32,
}

impl Kind for Few {
    ghost kind = { λ f. ⟦<AnyKind as Kind>⟧.kind f.kind };

    ghost bodies = { λ f. ⟦<AnyKind as Kind>⟧.bodies f.kind };

    fn code(&self) -> KindCode {
        self.kind.code()
    }

    fn make(&mut self, parts: &[Entry]) -> Result<usize, AllocError> {
        if self.left == 0 {
            return Err(AllocError);
        }
        self.left -= 1;
        self.kind.make(parts)
    }

    fn len(&self, at: usize) -> usize {
        self.kind.len(at)
    }

    fn entry_at(&self, at: usize, i: usize) -> Entry {
        self.kind.entry_at(at, i)
    }

    fn find(&self, at: usize, key: Val) -> Option<usize> {
        self.kind.find(at, key)
    }

    fn put(&mut self, at: usize, key: Val, val: Val) -> Result<Option<Val>, AllocError> {
        self.kind.put(at, key, val)
    }

    fn take(&mut self, at: usize, i: usize) -> Entry {
        self.kind.take(at, i)
    }

    fn detach(&mut self, at: usize) -> Option<Entry> {
        self.kind.detach(at)
    }

    fn reserve(&mut self, at: usize, n: usize) -> Result<(), AllocError> {
        self.kind.reserve(at, n)
    }

    fn append_reserved(&mut self, at: usize, val: Val) {
        self.kind.append_reserved(at, val);
    }

    fn free(&mut self, at: usize) {
        self.kind.free(at);
    }
}

/// An empty kind that makes one object.
fn one(alloc: Global, code: KindCode) -> Few
    ensures kind { ⟦<Few as Kind>⟧.kind result ≡ code }
    ensures empty { ⟦<Few as Kind>⟧.bodies result ≡ fin.empty }
{
    Few {
        kind: AnyKind::new(alloc, code),
        left: 1,
    }
}

/// Six empty kinds that make one object each.
pub fn six_of_one(alloc: Global) -> Result<Vec<Few>, AllocError>
    ensures kinds { IfOk result (λ kinds. map ⟦<Few as Kind>⟧.kind kinds.items ≡ six_kinds) }
    ensures empty { IfOk result (λ kinds. map ⟦<Few as Kind>⟧.bodies kinds.items ≡
        replicate 6 fin.empty) }
{
    let mut few = Vec::new(alloc);
    few.push(one(alloc, KindCode::List))?;
    few.push(one(alloc, KindCode::Tuple))?;
    few.push(one(alloc, KindCode::Dict))?;
    few.push(one(alloc, KindCode::Inst))?;
    few.push(one(alloc, KindCode::Func))?;
    few.push(one(alloc, KindCode::Weak))?;
    Ok(few)
}
