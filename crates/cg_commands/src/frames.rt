//! `call f` and `quit v`.
ghost use Rattle.std.specs.Prelude.{length};
ghost use Rattle.cg_script.specs.Spelled.{IsSpelledCommand};
ghost use Rattle.cg_script.specs.declared.command.Command.TheVariants as command;
ghost use Rattle.cg_machine.specs.Commands.{effect};
ghost use Rattle.cg_commands.specs.Answers.{PerformsOnHeap};
ghost use Rattle.cg_commands.specs.Stands.{LocalsLive};

use crate::done::{Done, Refusal, told};
use crate::locals::Locals;
use crate::operands::{Wanted, target_of, value};
use cg_arena::Near;
use cg_heap::Heap;
use cg_kind::Kind;
use cg_script::Operand;
use cg_value::Val;

/// `call f`: a frame of the function's procedure is to start.
#[inline(never)]
pub(crate) fn call<B: Kind>(
    heap: &Heap<B>,
    locals: &Option<Locals>,
    operand: &Operand,
) -> Result<Done, Refusal>
    requires spelled { IsSpelledCommand (length heap.now.names) (command.Call operand.now) }
    requires locals { LocalsLive heap.now locals.now }
    ensures { PerformsOnHeap heap.now locals.now (λ w. effect w (command.Call operand.now)) heap.now
        result }
{
    let mut near = Near::default();
    let target = target_of(heap, locals, operand, Wanted::Func, &mut near)?;
    Ok(Done::Calls(target))
}

/// `quit v`: if the value is none, the frame ends, or the script.
#[inline(never)]
pub(crate) fn quit<B: Kind>(
    heap: &Heap<B>,
    locals: &Option<Locals>,
    operand: &Operand,
) -> Result<Done, Refusal>
    requires spelled { IsSpelledCommand (length heap.now.names) (command.Quit operand.now) }
    requires locals { LocalsLive heap.now locals.now }
    ensures { PerformsOnHeap heap.now locals.now (λ w. effect w (command.Quit operand.now)) heap.now
        result }
{
    let val = value(heap, locals, operand)?;
    match val {
        Val::None => Ok(Done::Quits),
        _ => Ok(told(None)),
    }
}
