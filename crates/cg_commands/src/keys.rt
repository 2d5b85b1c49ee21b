//! Entries under keys of dictionaries and instances.
ghost use Rattle.std.specs.Prelude.{◌≡◌, ◌<◌, true, IfErr, OnOk, Option, Some, length};
ghost use Rattle.cg_graph.specs.Value.{references_of_value, entry_references};
ghost use Rattle.cg_heap.specs.Calls.{HasFewHolds, IsLiveValue};
ghost use Rattle.cg_commands.specs.Answers.{PerformsOnHeap, gives};
ghost use Rattle.cg_commands.specs.Keys.{kind_of, missing_in, binds_under, takes_under, puts_under};
ghost use Rattle.cg_commands.specs.Objects.{IsKey, DeclinesKey};
ghost use Rattle.cg_commands.specs.declared.locals.Locals.{Locals as AnyLocals};

use crate::bindings::{bind_to, given_up};
use crate::done::{Refusal, refusal_by};
use crate::locals::Locals;
use crate::operands::{Wanted, object};
use cg_arena::Near;
use cg_heap::Heap;
use cg_kind::Kind;
use cg_value::{Entry, KindCode, Val};

/// The kinds of objects that have entries under keys.
#[derive(Clone, Copy, Drop)]
pub(crate) enum Keyed {
    Dict,
    Inst,
}

impl Keyed {
    /// The kind.
    #[inline(always)]
    fn code(self) -> KindCode
        ensures { result ≡ kind_of self }
    {
        match self {
            Keyed::Dict => KindCode::Dict,
            Keyed::Inst => KindCode::Inst,
        }
    }

    /// Why a missing key is refused.
    #[inline(always)]
    fn missing(self) -> Refusal
        ensures { result ≡ missing_in self }
    {
        match self {
            Keyed::Dict => Refusal::NoKey,
            Keyed::Inst => Refusal::NoAttribute,
        }
    }
}

/// Binds a name to the value under a key of the object that a value refers to.
#[inline(always)]
pub(crate) fn bind_under<B: Kind>(
    heap: &mut Heap<B>,
    locals: &Option<Locals>,
    name: u32,
    kind: Keyed,
    holder: Val,
    near: Near,
    key: Val,
) -> Result<Entry, Refusal>
    requires name { name < length heap.old.names }
    requires live { IsLiveValue heap.old holder }
    requires few { HasFewHolds heap.old }
    ensures { PerformsOnHeap heap.old locals.now (λ w. binds_under w name kind holder key) heap.new
        (gives result) }
{
    let Val::Ref(target) = holder else {
        return Err(Refusal::WrongKind);
    };
    heap.sound();
    match heap.value_if(kind.code(), target, near, key) {
        Some(Some(found)) => bind_to(heap, locals, name, found),
        Some(None) => Err(kind.missing()),
        None => Err(Refusal::WrongKind),
    }
}

/// Removes the entry under a key of the object that a value refers to.
#[inline(always)]
pub(crate) fn take_under<B: Kind>(
    heap: &mut Heap<B>,
    kind: Keyed,
    holder: Val,
    near: Near,
    key: Val,
) -> Result<Entry, Refusal>
    requires live { IsLiveValue heap.old holder }
    requires few { HasFewHolds heap.old }
    ensures { (locals : Option AnyLocals) → PerformsOnHeap heap.old locals
        (λ w. takes_under w kind holder key) heap.new (gives result) }
{
    let Val::Ref(target) = holder else {
        return Err(Refusal::WrongKind);
    };
    heap.sound();
    match heap.take_key_if(kind.code(), target, near, key) {
        Some(Some(entry)) => Ok(references_of(entry)),
        Some(None) => Err(kind.missing()),
        None => Err(Refusal::WrongKind),
    }
}

/// Puts a value under a key of the object that another value refers to; the old value is to be
/// given up.
#[inline(always)]
pub(crate) fn put_under<B: Kind>(
    heap: &mut Heap<B>,
    kind: Keyed,
    holder: Val,
    near: Near,
    key: Val,
    val: Val,
    val_near: Near,
) -> Result<Entry, Refusal>
    requires live { IsLiveValue heap.old holder }
    requires live_key { IsLiveValue heap.old key }
    requires live_val { IsLiveValue heap.old val }
    requires few { HasFewHolds heap.old }
    ensures { (locals : Option AnyLocals) → PerformsOnHeap heap.old locals
        (λ w. puts_under w kind holder key val) heap.new (gives result) }
{
    let Val::Ref(target) = holder else {
        return Err(Refusal::WrongKind);
    };
    heap.sound();
    match heap.put_if(kind.code(), target, near, key, val, val_near) {
        Some(Ok(old)) => Ok(given_up(old)),
        Some(Err(fault)) => Err(refusal_by(fault)),
        None => Err(Refusal::WrongKind),
    }
}

/// Refuses a key that is not allowed, but a value that is no dictionary first.
#[inline(always)]
pub(crate) fn check_key<B: Kind>(heap: &Heap<B>, val: Val, key: Val) -> Result<(), Refusal>
    requires val { IsLiveValue heap.now val }
    requires key { IsLiveValue heap.now key }
    ensures key { OnOk result (IsKey heap.now key true) }
    ensures err { IfErr result (λ r. DeclinesKey heap.now val key r) }
{
    if !is_hashable(heap, key) {
        let _dict = object(heap, val, Wanted::Dict)?;
        return Err(Refusal::Unhashable);
    }
    Ok(())
}

/// Whether a value may be a key: an atom, an instance or a function.
#[inline(always)]
fn is_hashable<B: Kind>(heap: &Heap<B>, key: Val) -> bool
    requires { IsLiveValue heap.now key }
    ensures { IsKey heap.now key result }
{
    let Val::Ref(target) = key else { return true };
    Wanted::Referable.admits(heap.kind_of(target), target)
}

/// An entry with the references of this one; only references have to be given up.
#[inline(always)]
fn references_of(entry: Entry) -> Entry
    ensures { entry_references result ≡ entry_references entry }
{
    Entry {
        key: reference_or_none(entry.key),
        val: reference_or_none(entry.val),
    }
}

/// A value that is a reference, else none.
#[inline(always)]
fn reference_or_none(val: Val) -> Val
    ensures { references_of_value (Some result) ≡ references_of_value (Some val) }
{
    match val {
        Val::Ref(object) => Val::Ref(object),
        _ => Val::None,
    }
}
