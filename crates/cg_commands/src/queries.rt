//! Queries: they print a line and change nothing.
ghost use Rattle.std.specs.Prelude.{◌≡◌, length};
ghost use Rattle.cg_value.specs.declared.Place.TheVariants as where_it_is;
ghost use Rattle.cg_graph.specs.Object as machine_object;
ghost use Rattle.cg_script.specs.Spelled.{IsSpelledCommand};
ghost use Rattle.cg_script.specs.declared.command.Command.TheVariants as command;
ghost use Rattle.cg_heap.specs.Calls.{IsLiveValue};
ghost use Rattle.cg_machine.specs.Commands.{effect};
ghost use Rattle.cg_commands.specs.Answers.{PerformsOnHeap};
ghost use Rattle.cg_commands.specs.Objects.{Tells};
ghost use Rattle.cg_commands.specs.Stands.{LocalsLive};

use crate::done::{Done, Refusal, told};
use crate::locals::Locals;
use crate::operands::{Wanted, target_of, value};
use cg_arena::Near;
use cg_heap::Heap;
use cg_kind::Kind;
use cg_machine::Event;
use cg_script::Operand;
use cg_value::{Place, Val};

/// `print v`: the value.
#[inline(never)]
pub(crate) fn print<B: Kind>(
    heap: &Heap<B>,
    locals: &Option<Locals>,
    operand: &Operand,
) -> Result<Done, Refusal>
    requires spelled { IsSpelledCommand (length heap.now.names) (command.Print operand.now) }
    requires locals { LocalsLive heap.now locals.now }
    ensures { PerformsOnHeap heap.now locals.now (λ w. effect w (command.Print operand.now))
        heap.now result }
{
    let val = value(heap, locals, operand)?;
    Ok(told(Some(Event::Value(val))))
}

/// `refs v`: the in-degree of an object.
#[tactic(auto, using(crate::proofs::Reading::refers_live))]
#[inline(never)]
pub(crate) fn refs<B: Kind>(
    heap: &Heap<B>,
    locals: &Option<Locals>,
    operand: &Operand,
) -> Result<Done, Refusal>
    requires spelled { IsSpelledCommand (length heap.now.names) (command.Refs operand.now) }
    requires locals { LocalsLive heap.now locals.now }
    ensures { PerformsOnHeap heap.now locals.now (λ w. effect w (command.Refs operand.now)) heap.now
        result }
{
    let mut near = Near::default();
    let target = target_of(heap, locals, operand, Wanted::Any, &mut near)?;
    let count = heap.refs(target);
    Ok(told(Some(Event::RefCount(count))))
}

/// `tracked v`: whether an object is tracked.
#[inline(never)]
pub(crate) fn tracked<B: Kind>(
    heap: &Heap<B>,
    locals: &Option<Locals>,
    operand: &Operand,
) -> Result<Done, Refusal>
    requires spelled { IsSpelledCommand (length heap.now.names) (command.Tracked operand.now) }
    requires locals { LocalsLive heap.now locals.now }
    ensures { PerformsOnHeap heap.now locals.now (λ w. effect w (command.Tracked operand.now))
        heap.now result }
{
    let val = value(heap, locals, operand)?;
    let answer = is_tracked(heap, val);
    Ok(told(Some(Event::Tracked(answer))))
}

/// `finalized v`: whether an object's finalizer was called.
#[inline(never)]
pub(crate) fn finalized<B: Kind>(
    heap: &Heap<B>,
    locals: &Option<Locals>,
    operand: &Operand,
) -> Result<Done, Refusal>
    requires spelled { IsSpelledCommand (length heap.now.names) (command.Finalized operand.now) }
    requires locals { LocalsLive heap.now locals.now }
    ensures { PerformsOnHeap heap.now locals.now (λ w. effect w (command.Finalized operand.now))
        heap.now result }
{
    let val = value(heap, locals, operand)?;
    let answer = is_finalized(heap, val);
    Ok(told(Some(Event::Finalized(answer))))
}

/// Whether the value is a tracked object.
fn is_tracked<B: Kind>(heap: &Heap<B>, val: Val) -> bool
    requires { IsLiveValue heap.now val }
    ensures { Tells heap.now machine_object.is_tracked val result }
{
    let Val::Ref(target) = val else { return false };
    !is_untracked(heap.place_of(target))
}

/// Whether it is the place of untracked objects.
fn is_untracked(place: Place) -> bool
    ensures { result ≡ machine_object.same_place place where_it_is.Untracked }
{
    matches!(place, Place::Untracked)
}

/// Whether the value is an object marked as finalized.
fn is_finalized<B: Kind>(heap: &Heap<B>, val: Val) -> bool
    requires { IsLiveValue heap.now val }
    ensures { Tells heap.now (λ x. x.finalized) val result }
{
    let Val::Ref(target) = val else { return false };
    heap.is_finalized(target)
}
