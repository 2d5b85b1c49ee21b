//! `x = v` and `del x`. Each answers the entry to give up next.
ghost use Rattle.std.specs.Prelude.{◌≡◌, ◌<◌, length, Some};
ghost use Rattle.cg_graph.specs.Value.{references_of_value, entry_references};
ghost use Rattle.cg_script.specs.Spelled.{IsSpelledCommand};
ghost use Rattle.cg_script.specs.declared.command.Command.TheVariants as command;
ghost use Rattle.cg_heap.specs.Calls.{HasFewHolds, IsLiveValue};
ghost use Rattle.cg_machine.specs.Commands.{effect};
ghost use Rattle.cg_machine.specs.Effects.{binds};
ghost use Rattle.cg_commands.specs.Answers.{PerformsOnHeap, gives};
ghost use Rattle.cg_commands.specs.Stands.{LocalsLive};

use crate::done::Refusal;
use crate::locals::Locals;
use crate::operands::value;
use cg_heap::Heap;
use cg_kind::Kind;
use cg_script::Operand;
use cg_value::{Entry, Val};

/// `x = v`: the name is bound to the value.
#[inline(never)]
pub(crate) fn bind<B: Kind>(
    heap: &mut Heap<B>,
    locals: &Option<Locals>,
    name: u32,
    operand: &Operand,
) -> Result<Entry, Refusal>
    requires spelled { IsSpelledCommand (length heap.old.names) (command.Bind name operand.now) }
    requires locals { LocalsLive heap.old locals.now }
    requires few { HasFewHolds heap.old }
    ensures { PerformsOnHeap heap.old locals.now (λ w. effect w (command.Bind name operand.now))
        heap.new (gives result) }
{
    let val = value(heap, locals, operand)?;
    bind_to(heap, locals, name, val)
}

/// `del x`: the name is unbound.
#[inline(never)]
pub(crate) fn unbind<B: Kind>(
    heap: &mut Heap<B>,
    locals: &Option<Locals>,
    name: u32,
) -> Result<Entry, Refusal>
    requires spelled { IsSpelledCommand (length heap.old.names) (command.Del name) }
    requires few { HasFewHolds heap.old }
    ensures { PerformsOnHeap heap.old locals.now (λ w. effect w (command.Del name)) heap.new
        (gives result) }
{
    heap.sound();
    match heap.unbind(name) {
        Some(val) => Ok(given_up(Some(val))),
        None => Err(Refusal::NoName),
    }
}

/// Binds a name to a value. Its old value is to be given up.
#[inline(always)]
pub(crate) fn bind_to<B: Kind>(
    heap: &mut Heap<B>,
    locals: &Option<Locals>,
    name: u32,
    val: Val,
) -> Result<Entry, Refusal>
    requires name { name < length heap.old.names }
    requires live { IsLiveValue heap.old val }
    requires few { HasFewHolds heap.old }
    ensures { PerformsOnHeap heap.old locals.now (λ w. binds w name val) heap.new (gives result) }
{
    heap.sound();
    let old = heap.bind(name, val);
    Ok(given_up(old))
}

/// An entry with the reference of a value, if any.
#[inline(always)]
pub(crate) fn given_up(val: Option<Val>) -> Entry
    ensures { entry_references result ≡ references_of_value val }
{
    Entry {
        key: Val::None,
        val: val.unwrap_or(Val::None),
    }
}
