//! Objects that are made.
ghost use Rattle.std.specs.Prelude.{◌≡◌, ◌<◌, ◌≤◌, ◌+◌, ◌↔◌, ◌++◌, ◌∷◌, [], List, Option, IfOk, IfSome, OnOk, OnErr, Some, None, Err, true, length, map, slice_get};
ghost use Rattle.std.specs.List.{All};
ghost use Rattle.cg_value.specs.declared.KindCode.TheVariants as code;
ghost use Rattle.cg_value.specs.declared.Val.{Val as AnyVal};
ghost use Rattle.cg_kind.specs.Calls.{IsParts};
ghost use Rattle.cg_graph.specs.Value.{item};
ghost use Rattle.cg_graph.specs.Store.{IsLive};
ghost use Rattle.cg_script.specs.Texts.{operand_texts, operands_texts};
ghost use Rattle.cg_script.specs.declared.command.Command.TheVariants as command;
ghost use Rattle.cg_heap.specs.declared.fault.HeapFault.TheVariants as fault;
ghost use Rattle.cg_heap.specs.Calls.{HasFewHolds, object_number, entry_number, made_named};
ghost use Rattle.cg_heap.specs.Keeps.{HasClass};
ghost use Rattle.cg_heap.specs.Weak.{HasReferent};
ghost use Rattle.cg_machine.specs.Commands.{effect};
ghost use Rattle.cg_machine.specs.Effects.{makes, makes_of};
ghost use Rattle.cg_commands.specs.Answers.{PerformsOnHeap};
ghost use Rattle.cg_commands.specs.Parts.{AreLive};
ghost use Rattle.cg_commands.specs.Stands.{LocalsLive};
ghost use Rattle.cg_commands.specs.declared.locals.Locals.{Locals as AnyLocals};

use crate::bindings::given_up;
use crate::done::{Done, Refusal, refusal_by};
use crate::locals::Locals;
use crate::operands::{Wanted, object, value};
use crate::parts::{Parts, callback_parts, gather};
use cg_graph::{MOST_ENTRIES, MOST_OBJECTS};
use cg_heap::{Heap, HeapFault};
use cg_kind::Kind;
use cg_machine::Event;
use cg_script::Operand;
use cg_value::{Entry, KindCode, Val};

/// Most lists and tuples start with at most so many items, so only that much room is cleared for them.
const FEW: usize = 2;

/// Of the others most start with at most so many.
const SOME: usize = 8;

/// What a new object is besides its entries.
#[derive(Clone, Copy, Drop)]
struct NewObject {
    code: KindCode,
    class: Option<u32>,
    referent: Option<u64>,
}

/// `x = list v*`: a new list of the values is bound to the name.
pub(crate) fn make_list<B: Kind>(
    heap: &mut Heap<B>,
    locals: &Option<Locals>,
    name: u32,
    items: &[Operand],
    room: bool,
) -> Result<Done, Refusal>
    requires known { All (λ n. n < length heap.old.names) (name ∷ operands_texts items.now) }
    requires count { length items.now ≤ 64 }
    requires locals { LocalsLive heap.old locals.now }
    requires few { HasFewHolds heap.old }
    requires last { heap.old.last < 9223372036854775808 }
    ensures performs { PerformsOnHeap heap.old locals.now
        (λ w. effect w (command.MakeList name items.now)) heap.new result }
    ensures room { OnOk result (room ≡ true) }
{
    make_sequence(heap, locals, name, KindCode::List, items, room)
}

/// `x = tuple v v*`: a new tuple.
pub(crate) fn make_tuple<B: Kind>(
    heap: &mut Heap<B>,
    locals: &Option<Locals>,
    name: u32,
    items: &[Operand],
    room: bool,
) -> Result<Done, Refusal>
    requires known { All (λ n. n < length heap.old.names) (name ∷ operands_texts items.now) }
    requires count { length items.now ≤ 64 }
    requires locals { LocalsLive heap.old locals.now }
    requires few { HasFewHolds heap.old }
    requires last { heap.old.last < 9223372036854775808 }
    ensures performs { PerformsOnHeap heap.old locals.now
        (λ w. effect w (command.MakeTuple name items.now)) heap.new result }
    ensures room { OnOk result (room ≡ true) }
{
    make_sequence(heap, locals, name, KindCode::Tuple, items, room)
}

/// A list or a tuple.
fn make_sequence<B: Kind>(
    heap: &mut Heap<B>,
    locals: &Option<Locals>,
    name: u32,
    code: KindCode,
    items: &[Operand],
    room: bool,
) -> Result<Done, Refusal>
    requires known { All (λ n. n < length heap.old.names) (name ∷ operands_texts items.now) }
    requires count { length items.now ≤ 64 }
    requires parts { (vs : List AnyVal) → IsParts code (map item vs) }
    requires class { HasClass code None }
    requires referent { HasReferent code None }
    requires locals { LocalsLive heap.old locals.now }
    requires few { HasFewHolds heap.old }
    requires last { heap.old.last < 9223372036854775808 }
    ensures performs { PerformsOnHeap heap.old locals.now (λ w. makes_of w name code None items.now)
        heap.new result }
    ensures room { OnOk result (room ≡ true) }
{
    if items.len() <= FEW {
        make_of::<B, FEW>(heap, locals, name, code, None, items, room)
    } else if items.len() <= SOME {
        make_of::<B, SOME>(heap, locals, name, code, None, items, room)
    } else {
        make_of::<B, 64>(heap, locals, name, code, None, items, room)
    }
}

/// Makes an object with the values of at most `N` operands, and binds it to a name.
#[inline(never)]
fn make_of<B: Kind, const N: usize>(
    heap: &mut Heap<B>,
    locals: &Option<Locals>,
    name: u32,
    code: KindCode,
    class: Option<u32>,
    items: &[Operand],
    room: bool,
) -> Result<Done, Refusal>
    requires known { All (λ n. n < length heap.old.names) (name ∷ operands_texts items.now) }
    requires most { N ≤ 64 }
    requires count { length items.now ≤ N }
    requires parts { (vs : List AnyVal) → length vs ≤ N → IsParts code (map item vs) }
    requires class { HasClass code class }
    requires referent { HasReferent code None }
    requires locals { LocalsLive heap.old locals.now }
    requires few { HasFewHolds heap.old }
    requires last { heap.old.last < 9223372036854775808 }
    ensures performs { PerformsOnHeap heap.old locals.now (λ w. makes_of w name code class
        items.now) heap.new result }
    ensures room { OnOk result (room ≡ true) }
{
    let mut parts = Parts::new();
    gather::<B, N>(heap, locals, items, &mut parts)?;
    let object = NewObject {
        code,
        class,
        referent: None,
    };
    make_bound(heap, name, object, parts.as_slice(), room)
}

/// `x = dict`: a new empty dictionary.
#[inline(never)]
pub(crate) fn make_dict<B: Kind>(
    heap: &mut Heap<B>,
    locals: &Option<Locals>,
    name: u32,
    room: bool,
) -> Result<Done, Refusal>
    requires known { All (λ n. n < length heap.old.names) (name ∷ []) }
    requires few { HasFewHolds heap.old }
    requires last { heap.old.last < 9223372036854775808 }
    ensures performs { PerformsOnHeap heap.old locals.now (λ w. effect w (command.MakeDict name))
        heap.new result }
    ensures room { OnOk result (room ≡ true) }
{
    let object = NewObject {
        code: KindCode::Dict,
        class: None,
        referent: None,
    };
    make_bound(heap, name, object, &[], room)
}

/// `x = new C`: a new instance of a class, without attributes.
#[inline(never)]
pub(crate) fn make_instance<B: Kind>(
    heap: &mut Heap<B>,
    locals: &Option<Locals>,
    name: u32,
    class: u32,
    room: bool,
) -> Result<Done, Refusal>
    requires known { All (λ n. n < length heap.old.names) (name ∷ []) }
    requires few { HasFewHolds heap.old }
    requires last { heap.old.last < 9223372036854775808 }
    ensures performs { PerformsOnHeap heap.old locals.now
        (λ w. effect w (command.MakeInst name class)) heap.new result }
    ensures room { OnOk result (room ≡ true) }
{
    let object = NewObject {
        code: KindCode::Inst,
        class: Some(class),
        referent: None,
    };
    make_bound(heap, name, object, &[], room)
}

/// `x = func P v*`: a new function of a procedure, with at most 8 cells.
pub(crate) fn make_function<B: Kind>(
    heap: &mut Heap<B>,
    locals: &Option<Locals>,
    name: u32,
    proc: u32,
    cells: &[Operand],
    room: bool,
) -> Result<Done, Refusal>
    requires known { All (λ n. n < length heap.old.names) (name ∷ operands_texts cells.now) }
    requires count { length cells.now ≤ 8 }
    requires locals { LocalsLive heap.old locals.now }
    requires few { HasFewHolds heap.old }
    requires last { heap.old.last < 9223372036854775808 }
    ensures performs { PerformsOnHeap heap.old locals.now
        (λ w. effect w (command.MakeFunc name proc cells.now)) heap.new result }
    ensures room { OnOk result (room ≡ true) }
{
    make_of::<B, 8>(heap, locals, name, KindCode::Func, Some(proc), cells, room)
}

/// `x = ref y [f]`: a new weak reference to an instance or a function, with or without a callback.
#[tactic(auto, using(crate::proofs::Reading::refers_live))]
#[inline(never)]
pub(crate) fn make_weak<B: Kind>(
    heap: &mut Heap<B>,
    locals: &Option<Locals>,
    name: u32,
    target: &Operand,
    callback: &Operand,
    room: bool,
) -> Result<Done, Refusal>
    requires known { All (λ n. n < length heap.old.names)
        (name ∷ (operand_texts target.now ++ operand_texts callback.now)) }
    requires locals { LocalsLive heap.old locals.now }
    requires few { HasFewHolds heap.old }
    requires last { heap.old.last < 9223372036854775808 }
    ensures performs { PerformsOnHeap heap.old locals.now
        (λ w. effect w (command.MakeRef name target.now callback.now)) heap.new result }
    ensures room { OnOk result (room ≡ true) }
{
    let val = value(heap, locals, target)?;
    let callback = value(heap, locals, callback)?;
    let referent = object(heap, val, Wanted::Referable)?;
    let parts = callback_parts(heap, locals, callback)?;
    let object = NewObject {
        code: KindCode::Weak,
        class: None,
        referent: Some(referent),
    };
    make_bound(heap, name, object, parts.as_slice(), room)
}

/// Makes an object and binds it to a name. The name's old value is to be given up.
fn make_bound<B: Kind>(
    heap: &mut Heap<B>,
    name: u32,
    object: NewObject,
    parts: &[Entry],
    room: bool,
) -> Result<Done, Refusal>
    requires name { name < length heap.old.names }
    requires parts { IsParts object.code parts.now }
    requires class { HasClass object.code object.class }
    requires referent { HasReferent object.code object.referent }
    requires live { AreLive heap.old parts.now }
    requires live_referent { IfSome object.referent (λ s. IsLive heap.old s) }
    requires few { HasFewHolds heap.old }
    requires last { heap.old.last < 9223372036854775808 }
    ensures performs { (locals : Option AnyLocals) →
        PerformsOnHeap heap.old locals (λ w. makes w name object.code object.class parts.now
        object.referent) heap.new result }
    ensures room { OnOk result (room ≡ true) }
{
    heap.sound();
    match make_where_room(heap, name, object, parts, room) {
        Ok((serial, old)) => Ok(Done::Changed {
            line: Some(Event::Made {
                code: object.code,
                serial,
            }),
            given_up: given_up(old),
        }),
        Err(fault) => Err(refusal_by(fault)),
    }
}

/// Makes and binds an object as the heap does, if there is room for one more. If not, memory is
/// refused, unless the heap has another refusal.
fn make_where_room<B: Kind>(
    heap: &mut Heap<B>,
    name: u32,
    object: NewObject,
    parts: &[Entry],
    room: bool,
) -> Result<(u64, Option<Val>), HeapFault>
    requires name { name < length heap.old.names }
    requires parts { IsParts object.code parts.now }
    requires class { HasClass object.code object.class }
    requires referent { HasReferent object.code object.referent }
    requires live { AreLive heap.old parts.now }
    requires live_referent { IfSome object.referent (λ s. IsLive heap.old s) }
    requires few { HasFewHolds heap.old }
    requires last { heap.old.last < 9223372036854775808 }
    ensures serial { IfOk result (λ bound. bound.0 ≡ heap.old.last + 1) }
    ensures old { IfOk result (λ bound. slice_get heap.old.names name ≡ Some bound.1) }
    ensures ok { IfOk result (λ bound. heap.new ≡
        made_named name bound.1 object.code object.class parts.now object.referent heap.old) }
    ensures room { OnOk result (room ≡ true) }
    ensures object_limit { (result ≡ Err fault.ObjectLimit) ↔ (MOST_OBJECTS ≤ object_number
        heap.old) }
    ensures entry_limit { (result ≡ Err fault.EntryLimit)
        ↔ ((object_number heap.old < MOST_OBJECTS)
        × (MOST_ENTRIES < entry_number heap.old + length parts.now)) }
    ensures err { OnErr result (heap.new ≡ heap.old) }
{
    if room {
        heap.make_named(name, object.code, object.class, parts, object.referent)
    } else {
        Err(fault_without_room(heap, parts.len()))
    }
}

/// The refusal of an object with `parts` entries, when there is no room for one more object.
fn fault_without_room<B: Kind>(heap: &Heap<B>, parts: usize) -> HeapFault
    ensures object_limit { (result ≡ fault.ObjectLimit) ↔ (MOST_OBJECTS ≤ object_number heap.now) }
    ensures entry_limit { (result ≡ fault.EntryLimit)
        ↔ ((object_number heap.now < MOST_OBJECTS)
        × (MOST_ENTRIES < entry_number heap.now + parts)) }
{
    heap.sound();
    if heap.live() >= MOST_OBJECTS {
        HeapFault::ObjectLimit
    } else if parts as u64 > MOST_ENTRIES - heap.entries() {
        HeapFault::EntryLimit
    } else {
        HeapFault::OutOfMemory
    }
}
