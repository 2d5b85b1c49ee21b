//! Six kinds in boxes, for a run.
ghost use Rattle.std.specs.Prelude.{◌≡◌, ◌++◌, ◌∷◌, [], OnOk, map, replicate, IfOk};
ghost use Rattle.std.specs.FinMap as fin;
ghost use Rattle.cg_value.specs.declared.KindCode.TheVariants as code;
ghost use Rattle.cg_kind.specs.Six.{six_kinds};

use cg_any_kind::AnyKind;
use cg_kind::Kind;
use cg_kinds::ListKind;
use cg_value::{Entry, KindCode, Val};
use std::alloc::{AllocError, Global};

/// A list kind that fails the (n+1)th call of `make`.
#[derive(Drop)]
struct Refusing {
    kind: ListKind,
    before: Option<usize>,
}

impl Kind for Refusing {
    ghost kind = { λ f. ⟦<ListKind as Kind>⟧.kind f.kind };

    ghost bodies = { λ f. ⟦<ListKind as Kind>⟧.bodies f.kind };

    fn code(&self) -> KindCode {
        self.kind.code()
    }

    fn make(&mut self, parts: &[Entry]) -> Result<usize, AllocError> {
        match self.before {
            None => self.kind.make(parts),
            Some(0) => {
                self.before = None;
                Err(AllocError)
            }
            Some(before) => {
                self.before = Some(before - 1);
                self.kind.make(parts)
            }
        }
    }

    fn len(&self, at: usize) -> usize {
        self.kind.len(at)
    }

    fn entry_at(&self, at: usize, i: usize) -> Entry {
        self.kind.entry_at(at, i)
    }

    fn find(&self, at: usize, key: Val) -> Option<usize> {
        self.kind.find(at, key)
    }

    fn put(&mut self, at: usize, key: Val, val: Val) -> Result<Option<Val>, AllocError> {
        self.kind.put(at, key, val)
    }

    fn take(&mut self, at: usize, i: usize) -> Entry {
        self.kind.take(at, i)
    }

    fn detach(&mut self, at: usize) -> Option<Entry> {
        self.kind.detach(at)
    }

    fn reserve(&mut self, at: usize, n: usize) -> Result<(), AllocError> {
        self.kind.reserve(at, n)
    }

    fn append_reserved(&mut self, at: usize, val: Val) {
        self.kind.append_reserved(at, val);
    }

    fn free(&mut self, at: usize) {
        self.kind.free(at);
    }
}

/// An empty kind, in a box.
fn boxed(alloc: Global, code: KindCode) -> Result<Box<dyn Kind>, AllocError>
    ensures kind { IfOk result (λ b. kind b ≡ code) }
    ensures empty { IfOk result (λ b. bodies b ≡ fin.empty) }
{
    let kind = AnyKind::new(alloc, code);
    let boxed: Box<dyn Kind> = Box::new(alloc, kind)?;
    Ok(boxed)
}

/// Lists, which refuse one call of `make`, or none.
fn lists(alloc: Global, before: Option<usize>) -> Result<Box<dyn Kind>, AllocError>
    ensures kind { IfOk result (λ b. kind b ≡ code.List) }
    ensures empty { IfOk result (λ b. bodies b ≡ fin.empty) }
{
    if before.is_none() {
        return boxed(alloc, KindCode::List);
    }
    let kind = ListKind::new(alloc);
    let boxed: Box<dyn Kind> = Box::new(alloc, Refusing { kind, before })?;
    Ok(boxed)
}

/// One box more.
fn push(kinds: &mut Vec<Box<dyn Kind>>, made: Box<dyn Kind>) -> Result<(), AllocError>
    ensures codes { OnOk result (map (λ b. kind b) kinds.new.items ≡
        map (λ b. kind b) kinds.old.items ++ kind made ∷ []) }
    ensures bodies { OnOk result (map (λ b. bodies b) kinds.new.items ≡
        map (λ b. bodies b) kinds.old.items ++ bodies made ∷ []) }
{
    kinds.push(made)?;
    Ok(())
}

/// Six empty kinds; the lists refuse the call of `make` before which so many were made, if any.
pub fn six(alloc: Global, before: Option<usize>) -> Result<Vec<Box<dyn Kind>>, AllocError>
    ensures kinds { IfOk result (λ kinds. map (λ b. kind b) kinds.items ≡ six_kinds) }
    ensures empty { IfOk result (λ kinds. map (λ b. bodies b) kinds.items ≡ replicate 6 fin.empty) }
{
    let mut kinds: Vec<Box<dyn Kind>> = Vec::new(alloc);
    push(&mut kinds, lists(alloc, before)?)?;
    push(&mut kinds, boxed(alloc, KindCode::Tuple)?)?;
    push(&mut kinds, boxed(alloc, KindCode::Dict)?)?;
    push(&mut kinds, boxed(alloc, KindCode::Inst)?)?;
    push(&mut kinds, boxed(alloc, KindCode::Func)?)?;
    push(&mut kinds, boxed(alloc, KindCode::Weak)?)?;
    Ok(kinds)
}
