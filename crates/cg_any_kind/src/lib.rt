//! Any of the six kinds in one type, and six of them for a heap: `Heap<AnyKind>` is a heap without
//! boxes. The tests of the layers above use it.
#![tactic(auto)]

ghost use Rattle.std.specs.Prelude.{◌≡◌, IfOk, map, replicate};
ghost use Rattle.std.specs.FinMap as fin;
ghost use Rattle.cg_kind.specs.Six.{six_kinds};
ghost use Rattle.cg_any_kind.specs.AnyKind.{by_kind};

use cg_kind::{Kind, Noted};
use cg_kinds::{DictKind, FuncKind, InstKind, ListKind, TupleKind, WeakKind};
use cg_value::{Entry, KindCode, Val};
use std::alloc::{AllocError, Global};

/// One of the six kinds.
#[derive(Drop)]
pub enum AnyKind {
    List(ListKind),
    Tuple(TupleKind),
    Dict(DictKind),
    Inst(InstKind),
    Func(FuncKind),
    Weak(WeakKind),
}

/// Dispatches a call to the kind.
macro_rules! pass_on {
    ($any:expr, $kind:ident => $call:expr) => {
        match $any {
            AnyKind::List($kind) => $call,
            AnyKind::Tuple($kind) => $call,
            AnyKind::Dict($kind) => $call,
            AnyKind::Inst($kind) => $call,
            AnyKind::Func($kind) => $call,
            AnyKind::Weak($kind) => $call,
        }
    };
}

impl Kind for AnyKind {
    ghost kind = { by_kind ⟦<ListKind as Kind>⟧.kind ⟦<TupleKind as Kind>⟧.kind ⟦<DictKind as Kind>⟧.kind
        ⟦<InstKind as Kind>⟧.kind ⟦<FuncKind as Kind>⟧.kind ⟦<WeakKind as Kind>⟧.kind };

    ghost bodies = { by_kind ⟦<ListKind as Kind>⟧.bodies ⟦<TupleKind as Kind>⟧.bodies ⟦<DictKind as Kind>⟧.bodies
        ⟦<InstKind as Kind>⟧.bodies ⟦<FuncKind as Kind>⟧.bodies ⟦<WeakKind as Kind>⟧.bodies };

    fn code(&self) -> KindCode {
        pass_on!(self, kind => kind.code())
    }

    fn make(&mut self, parts: &[Entry]) -> Result<usize, AllocError> {
        pass_on!(self, kind => kind.make(parts))
    }

    fn len(&self, at: usize) -> usize {
        pass_on!(self, kind => kind.len(at))
    }

    fn entry_at(&self, at: usize, i: usize) -> Entry {
        pass_on!(self, kind => kind.entry_at(at, i))
    }

    fn get(&self, at: usize, i: usize) -> Option<Entry> {
        pass_on!(self, kind => kind.get(at, i))
    }

    fn note_from(&self, at: usize, from: usize, found: &mut [u64]) -> Noted {
        pass_on!(self, kind => kind.note_from(at, from, found))
    }

    fn find(&self, at: usize, key: Val) -> Option<usize> {
        pass_on!(self, kind => kind.find(at, key))
    }

    fn value_of(&self, at: usize, key: Val) -> Option<Val> {
        pass_on!(self, kind => kind.value_of(at, key))
    }

    fn put(&mut self, at: usize, key: Val, val: Val) -> Result<Option<Val>, AllocError> {
        pass_on!(self, kind => kind.put(at, key, val))
    }

    fn take(&mut self, at: usize, i: usize) -> Entry {
        pass_on!(self, kind => kind.take(at, i))
    }

    fn take_key(&mut self, at: usize, key: Val) -> Option<Entry> {
        pass_on!(self, kind => kind.take_key(at, key))
    }

    fn detach(&mut self, at: usize) -> Option<Entry> {
        pass_on!(self, kind => kind.detach(at))
    }

    fn reserve(&mut self, at: usize, n: usize) -> Result<(), AllocError> {
        pass_on!(self, kind => kind.reserve(at, n))
    }

    fn append_reserved(&mut self, at: usize, val: Val) {
        pass_on!(self, kind => kind.append_reserved(at, val))
    }

    fn append(&mut self, at: usize, val: Val) -> Result<(), AllocError> {
        pass_on!(self, kind => kind.append(at, val))
    }

    fn free(&mut self, at: usize) {
        pass_on!(self, kind => kind.free(at))
    }
}

impl AnyKind {
    /// A kind with no object.
    pub fn new(alloc: Global, code: KindCode) -> Self
        ensures kind { ⟦<AnyKind as Kind>⟧.kind result ≡ code }
        ensures empty { ⟦<AnyKind as Kind>⟧.bodies result ≡ fin.empty }
    {
        match code {
            KindCode::List => AnyKind::List(ListKind::new(alloc)),
            KindCode::Tuple => AnyKind::Tuple(TupleKind::new(alloc)),
            KindCode::Dict => AnyKind::Dict(DictKind::new(alloc)),
            KindCode::Inst => AnyKind::Inst(InstKind::new(alloc)),
            KindCode::Func => AnyKind::Func(FuncKind::new(alloc)),
            KindCode::Weak => AnyKind::Weak(WeakKind::new(alloc)),
        }
    }
}

/// Six kinds without objects, in the order of their codes. Fails only if memory runs out.
pub fn six(alloc: Global) -> Result<Vec<AnyKind>, AllocError>
    ensures kinds { IfOk result (λ kinds. map ⟦<AnyKind as Kind>⟧.kind kinds.items ≡ six_kinds) }
    ensures empty { IfOk result (λ kinds. map ⟦<AnyKind as Kind>⟧.bodies kinds.items ≡
        replicate 6 fin.empty) }
{
    let mut kinds = Vec::new(alloc);
    kinds.push(AnyKind::new(alloc, KindCode::List))?;
    kinds.push(AnyKind::new(alloc, KindCode::Tuple))?;
    kinds.push(AnyKind::new(alloc, KindCode::Dict))?;
    kinds.push(AnyKind::new(alloc, KindCode::Inst))?;
    kinds.push(AnyKind::new(alloc, KindCode::Func))?;
    kinds.push(AnyKind::new(alloc, KindCode::Weak))?;
    Ok(kinds)
}
