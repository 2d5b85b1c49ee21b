//! Adding, removing and changing entries. Each command answers the entry to give up next.
ghost use Rattle.std.specs.Prelude.{◌<◌, ◌++◌, length};
ghost use Rattle.std.specs.List.{All};
ghost use Rattle.cg_script.specs.Texts.{operand_texts};
ghost use Rattle.cg_script.specs.Spelled.{IsSpelledCommand};
ghost use Rattle.cg_script.specs.declared.command.Command.TheVariants as command;
ghost use Rattle.cg_heap.specs.Calls.{HasFewHolds};
ghost use Rattle.cg_machine.specs.Commands.{effect};
ghost use Rattle.cg_commands.specs.Answers.{PerformsOnHeap, gives};
ghost use Rattle.cg_commands.specs.Stands.{LocalsLive};

use crate::bindings::given_up;
use crate::done::{Refusal, refusal_by};
use crate::keys::{Keyed, check_key, put_under, take_under};
use crate::locals::Locals;
use crate::lookups::index_in;
use crate::operands::{Wanted, object_near, target_of, two_values, value_located, value_near};
use cg_arena::Near;
use cg_heap::Heap;
use cg_kind::Kind;
use cg_script::Operand;
use cg_value::{Entry, KindCode, Val};

/// `append L v`: appends the value.
#[tactic(auto, using(crate::proofs::Reading::refers_live))]
#[inline(never)]
pub(crate) fn append<B: Kind>(
    heap: &mut Heap<B>,
    locals: &Option<Locals>,
    list: &Operand,
    operand: &Operand,
) -> Result<Entry, Refusal>
    requires spelled { IsSpelledCommand (length heap.old.names)
        (command.Append list.now operand.now) }
    requires locals { LocalsLive heap.old locals.now }
    ensures { PerformsOnHeap heap.old locals.now
        (λ w. effect w (command.Append list.now operand.now)) heap.new (gives result) }
{
    let mut near = Near::default();
    let mut val_near = Near::default();
    let (list, val) = two_values(heap, locals, list, operand, &mut near, &mut val_near)?;
    let target = object_near(heap, list, Wanted::ScriptList, &mut near)?;
    heap.sound();
    match heap.append_near(target, near, val) {
        Ok(()) => Ok(given_up(None)),
        Err(fault) => Err(refusal_by(fault)),
    }
}

/// `setitem L i v`: replaces an item; the old one is to be given up.
#[tactic(auto, using(crate::proofs::Reading::refers_live))]
#[inline(never)]
pub(crate) fn set_item<B: Kind>(
    heap: &mut Heap<B>,
    locals: &Option<Locals>,
    list: &Operand,
    index: i64,
    operand: &Operand,
) -> Result<Entry, Refusal>
    requires known { All (λ n. n < length heap.old.names) (operand_texts list.now
        ++ operand_texts operand.now) }
    requires locals { LocalsLive heap.old locals.now }
    requires few { HasFewHolds heap.old }
    ensures { PerformsOnHeap heap.old locals.now
        (λ w. effect w (command.SetItem list.now index operand.now)) heap.new (gives result) }
{
    let mut near = Near::default();
    let mut val_near = Near::default();
    let (list, val) = two_values(heap, locals, list, operand, &mut near, &mut val_near)?;
    let target = object_near(heap, list, Wanted::ScriptList, &mut near)?;
    let _i = index_in(heap, target, near, index)?;
    heap.sound();
    match heap.put_if(KindCode::List, target, near, Val::Int(index), val, val_near) {
        Some(Ok(old)) => Ok(given_up(old)),
        Some(Err(fault)) => Err(refusal_by(fault)),
        None => unreachable!(),
    }
}

/// `delitem L i`: removes an item, also of the garbage list.
#[tactic(auto, using(crate::proofs::Reading::refers_live))]
#[inline(never)]
pub(crate) fn del_item<B: Kind>(
    heap: &mut Heap<B>,
    locals: &Option<Locals>,
    list: &Operand,
    index: i64,
) -> Result<Entry, Refusal>
    requires known { All (λ n. n < length heap.old.names) (operand_texts list.now) }
    requires locals { LocalsLive heap.old locals.now }
    requires few { HasFewHolds heap.old }
    ensures { PerformsOnHeap heap.old locals.now (λ w. effect w (command.DelItem list.now index))
        heap.new (gives result) }
{
    let mut near = Near::default();
    let target = target_of(heap, locals, list, Wanted::List, &mut near)?;
    let i = index_in(heap, target, near, index)?;
    heap.sound();
    let entry = heap.take_near(target, near, i);
    Ok(entry)
}

/// `put D K v`: sets the value under the key; the old value is to be given up.
#[tactic(auto, using(crate::proofs::Reading::refers_live))]
#[inline(never)]
pub(crate) fn put<B: Kind>(
    heap: &mut Heap<B>,
    locals: &Option<Locals>,
    dict: &Operand,
    key: &Operand,
    operand: &Operand,
) -> Result<Entry, Refusal>
    requires spelled { IsSpelledCommand (length heap.old.names)
        (command.Put dict.now key.now operand.now) }
    requires locals { LocalsLive heap.old locals.now }
    requires few { HasFewHolds heap.old }
    ensures { PerformsOnHeap heap.old locals.now
        (λ w. effect w (command.Put dict.now key.now operand.now)) heap.new (gives result) }
{
    let mut near = Near::default();
    let mut key_near = Near::default();
    let (dict, key) = two_values(heap, locals, dict, key, &mut near, &mut key_near)?;
    let mut val_near = Near::default();
    let val = value_located(heap, locals, operand, &mut val_near)?;
    check_key(heap, dict, key)?;
    put_under(heap, Keyed::Dict, dict, near, key, val, val_near)
}

/// `drop D K`: removes the entry of the key.
#[tactic(auto, using(crate::proofs::Reading::refers_live))]
#[inline(never)]
pub(crate) fn remove<B: Kind>(
    heap: &mut Heap<B>,
    locals: &Option<Locals>,
    dict: &Operand,
    key: &Operand,
) -> Result<Entry, Refusal>
    requires spelled { IsSpelledCommand (length heap.old.names) (command.Remove dict.now key.now) }
    requires locals { LocalsLive heap.old locals.now }
    requires few { HasFewHolds heap.old }
    ensures { PerformsOnHeap heap.old locals.now (λ w. effect w (command.Remove dict.now key.now))
        heap.new (gives result) }
{
    let mut near = Near::default();
    let mut key_near = Near::default();
    let (dict, key) = two_values(heap, locals, dict, key, &mut near, &mut key_near)?;
    check_key(heap, dict, key)?;
    take_under(heap, Keyed::Dict, dict, near, key)
}

/// `setattr O n v`: sets the attribute; the old value is to be given up.
#[tactic(auto, using(crate::proofs::Reading::refers_live))]
#[inline(never)]
pub(crate) fn set_attr<B: Kind>(
    heap: &mut Heap<B>,
    locals: &Option<Locals>,
    instance: &Operand,
    attr: u32,
    operand: &Operand,
) -> Result<Entry, Refusal>
    requires spelled { IsSpelledCommand (length heap.old.names)
        (command.SetAttr instance.now attr operand.now) }
    requires locals { LocalsLive heap.old locals.now }
    requires few { HasFewHolds heap.old }
    ensures { PerformsOnHeap heap.old locals.now
        (λ w. effect w (command.SetAttr instance.now attr operand.now)) heap.new (gives result) }
{
    let mut near = Near::default();
    let mut val_near = Near::default();
    let (holder, val) = two_values(heap, locals, instance, operand, &mut near, &mut val_near)?;
    put_under(
        heap,
        Keyed::Inst,
        holder,
        near,
        Val::Str(attr),
        val,
        val_near,
    )
}

/// `delattr O n`: removes the attribute.
#[tactic(auto, using(crate::proofs::Reading::refers_live))]
#[inline(never)]
pub(crate) fn del_attr<B: Kind>(
    heap: &mut Heap<B>,
    locals: &Option<Locals>,
    instance: &Operand,
    attr: u32,
) -> Result<Entry, Refusal>
    requires spelled { IsSpelledCommand (length heap.old.names)
        (command.DelAttr instance.now attr) }
    requires locals { LocalsLive heap.old locals.now }
    requires few { HasFewHolds heap.old }
    ensures { PerformsOnHeap heap.old locals.now (λ w. effect w (command.DelAttr instance.now attr))
        heap.new (gives result) }
{
    let mut near = Near::default();
    let holder = value_near(heap, locals, instance, &mut near)?;
    take_under(heap, Keyed::Inst, holder, near, Val::Str(attr))
}
