//! Commands that bind a name to what an object holds. Each answers the entry to give up next.
ghost use Rattle.std.specs.Prelude.{◌≡◌, ◌<◌, ◌∷◌, IfOk, IfErr, length, slice_get, Some, None};
ghost use Rattle.std.specs.List.{All};
ghost use Rattle.cg_graph.specs.Store.{IsLive, entries_of};
ghost use Rattle.cg_script.specs.Texts.{operand_texts};
ghost use Rattle.cg_script.specs.Spelled.{IsSpelledCommand};
ghost use Rattle.cg_script.specs.declared.command.Command.TheVariants as command;
ghost use Rattle.cg_heap.specs.Calls.{HasFewHolds};
ghost use Rattle.cg_machine.specs.Commands.{effect};
ghost use Rattle.cg_machine.specs.Effects.{valid_index};
ghost use Rattle.cg_commands.specs.declared.done.Refusal.TheVariants as refusal;
ghost use Rattle.cg_commands.specs.Answers.{PerformsOnHeap, gives};
ghost use Rattle.cg_commands.specs.Stands.{LocalsLive};

use crate::bindings::bind_to;
use crate::done::Refusal;
use crate::keys::{Keyed, bind_under, check_key};
use crate::locals::Locals;
use crate::operands::{Wanted, target_of, two_values, value_near};
use cg_arena::Near;
use cg_heap::Heap;
use cg_kind::Kind;
use cg_script::Operand;
use cg_value::{Entry, Val};

/// `x = item L i`: binds the name to an item of a list or a tuple.
#[tactic(auto, using(crate::proofs::Reading::refers_live))]
#[inline(never)]
pub(crate) fn item<B: Kind>(
    heap: &mut Heap<B>,
    locals: &Option<Locals>,
    name: u32,
    list: &Operand,
    index: i64,
) -> Result<Entry, Refusal>
    requires known { All (λ n. n < length heap.old.names) (name ∷ operand_texts list.now) }
    requires locals { LocalsLive heap.old locals.now }
    requires few { HasFewHolds heap.old }
    ensures { PerformsOnHeap heap.old locals.now (λ w. effect w (command.Item name list.now index))
        heap.new (gives result) }
{
    let mut near = Near::default();
    let target = target_of(heap, locals, list, Wanted::Sequence, &mut near)?;
    let found = entry_in(heap, target, near, index)?;
    heap.sound();
    bind_to(heap, locals, name, found.entry.val)
}

/// `x = get D K`: binds the name to the value under a key of a dictionary.
#[tactic(auto, using(crate::proofs::Reading::refers_live))]
#[inline(never)]
pub(crate) fn get<B: Kind>(
    heap: &mut Heap<B>,
    locals: &Option<Locals>,
    name: u32,
    dict: &Operand,
    key: &Operand,
) -> Result<Entry, Refusal>
    requires spelled { IsSpelledCommand (length heap.old.names)
        (command.Get name dict.now key.now) }
    requires locals { LocalsLive heap.old locals.now }
    requires few { HasFewHolds heap.old }
    ensures { PerformsOnHeap heap.old locals.now (λ w. effect w (command.Get name dict.now key.now))
        heap.new (gives result) }
{
    let mut near = Near::default();
    let mut key_near = Near::default();
    let (dict, key) = two_values(heap, locals, dict, key, &mut near, &mut key_near)?;
    check_key(heap, dict, key)?;
    bind_under(heap, locals, name, Keyed::Dict, dict, near, key)
}

/// `x = attr O n`: binds the name to an attribute of an instance.
#[tactic(auto, using(crate::proofs::Reading::refers_live))]
#[inline(never)]
pub(crate) fn attr<B: Kind>(
    heap: &mut Heap<B>,
    locals: &Option<Locals>,
    name: u32,
    instance: &Operand,
    attr: u32,
) -> Result<Entry, Refusal>
    requires spelled { IsSpelledCommand (length heap.old.names)
        (command.Attr name instance.now attr) }
    requires locals { LocalsLive heap.old locals.now }
    requires few { HasFewHolds heap.old }
    ensures { PerformsOnHeap heap.old locals.now
        (λ w. effect w (command.Attr name instance.now attr)) heap.new (gives result) }
{
    let mut near = Near::default();
    let holder = value_near(heap, locals, instance, &mut near)?;
    bind_under(
        heap,
        locals,
        name,
        Keyed::Inst,
        holder,
        near,
        Val::Str(attr),
    )
}

/// `x = deref w`: binds the name to the referent, or to none if there is none or the callback
/// waits.
#[tactic(auto, using(crate::proofs::Reading::refers_live))]
#[inline(never)]
pub(crate) fn deref<B: Kind>(
    heap: &mut Heap<B>,
    locals: &Option<Locals>,
    name: u32,
    weak: &Operand,
) -> Result<Entry, Refusal>
    requires spelled { IsSpelledCommand (length heap.old.names) (command.Deref name weak.now) }
    requires locals { LocalsLive heap.old locals.now }
    requires few { HasFewHolds heap.old }
    ensures { PerformsOnHeap heap.old locals.now (λ w. effect w (command.Deref name weak.now))
        heap.new (gives result) }
{
    let mut near = Near::default();
    let target = target_of(heap, locals, weak, Wanted::Weak, &mut near)?;
    heap.sound();
    match heap.referent_of(target) {
        Some(referent) => bind_to(heap, locals, name, Val::Ref(referent)),
        None => bind_to(heap, locals, name, Val::None),
    }
}

/// An entry, and its position.
#[derive(Clone, Copy)]
struct Found {
    at: usize,
    entry: Entry,
}

/// The entry at an index of an object that is near.
#[inline(always)]
fn entry_in<B: Kind>(heap: &Heap<B>, target: u64, near: Near, index: i64) -> Result<Found, Refusal>
    requires { IsLive heap.now target }
    ensures ok { IfOk result (λ f. valid_index index (length (entries_of heap.now target))
        ≡ Some f.at) }
    ensures entry { IfOk result (λ f. slice_get (entries_of heap.now target) f.at ≡ Some f.entry) }
    ensures none { IfErr result (λ r. valid_index index (length (entries_of heap.now target))
        ≡ None) }
    ensures err { IfErr result (λ r. r ≡ refusal.NoIndex) }
{
    if index < 0 {
        return Err(Refusal::NoIndex);
    }
    let at = index as usize;
    match heap.get_near(target, at, near) {
        Some(entry) => Ok(Found { at, entry }),
        None => Err(Refusal::NoIndex),
    }
}

/// An index below the length of an object that is near.
#[inline(always)]
pub(crate) fn index_in<B: Kind>(
    heap: &Heap<B>,
    target: u64,
    near: Near,
    index: i64,
) -> Result<usize, Refusal>
    requires { IsLive heap.now target }
    ensures ok { IfOk result (λ i. valid_index index (length (entries_of heap.now target))
        ≡ Some i) }
    ensures below { IfOk result (λ i. i < length (entries_of heap.now target)) }
    ensures none { IfErr result (λ r. valid_index index (length (entries_of heap.now target))
        ≡ None) }
    ensures err { IfErr result (λ r. r ≡ refusal.NoIndex) }
{
    if index < 0 {
        return Err(Refusal::NoIndex);
    }
    let i = index as usize;
    if i < heap.len_near(target, near) {
        Ok(i)
    } else {
        Err(Refusal::NoIndex)
    }
}
