//! Inspections of objects that print several lines and change nothing: what an object refers to,
//! what refers to it, and why it is alive. Each is refused while a collection is under way.
ghost use Rattle.std.specs.Prelude.{◌≡◌, ◌<◌, ◌++◌, ◌∷◌, [], false, IfOk, IfErr, filter, length, map};
ghost use Rattle.std.specs.List.{All};
ghost use Rattle.cg_script.specs.Texts.{operand_texts};
ghost use Rattle.cg_script.specs.declared.command.Command.TheVariants as command;
ghost use Rattle.cg_graph.specs.Value.{references};
ghost use Rattle.cg_graph.specs.Object.{serials};
ghost use Rattle.cg_graph.specs.Path.{refers_to};
ghost use Rattle.cg_graph.specs.Store.{IsLive, entries_of, objects_of};
ghost use Rattle.cg_inspect.specs.Inspection.{IsIdle, IsReason};
ghost use Rattle.cg_machine.specs.declared.event.Event.TheVariants as event;
ghost use Rattle.cg_machine.specs.Commands.{effect, path_lines};
ghost use Rattle.cg_commands.specs.Inspections.{Inspects, IsInspected, IsNotInspected, line_of};
ghost use Rattle.cg_commands.specs.Reasons.{reason_lines};
ghost use Rattle.cg_commands.specs.Stands.{LocalsLive};

use crate::done::{Done, Refusal};
use crate::lines::Lines;
use crate::locals::Locals;
use crate::operands::{Wanted, target_of};
use cg_arena::Near;
use cg_heap::{Heap, Steps};
use cg_inspect::Why;
use cg_kind::Kind;
use cg_machine::Event;
use cg_script::Operand;
use std::alloc::{AllocError, Global};
use std::marker::Brand;
use std::sync::ledger::{Blank, Ledger};

/// `referents v`: the objects that an object refers to.
#[inline(never)]
pub(crate) fn referents<B: Kind>(
    alloc: Global,
    heap: &Heap<B>,
    running: bool,
    locals: &Option<Locals>,
    operand: &Operand,
) -> Result<Done, Refusal>
    requires known { All (λ n. n < length heap.now.names) (operand_texts operand.now) }
    requires locals { LocalsLive heap.now locals.now }
    requires idle { running ≡ false → IsIdle heap.now }
    ensures { Inspects heap.now running locals.now (λ w. effect w (command.Referents operand.now))
        result }
{
    let target = inspected(heap, running, locals, operand)?;
    let Ok(objects) = referents_of::<B, Brand>(alloc, heap, target, Blank::new(1)) else {
        return Err(Refusal::OutOfMemory);
    };
    let Ok(lines) = listing(alloc, &objects, Listed::Referents) else {
        return Err(Refusal::OutOfMemory);
    };
    Ok(Done::Tells(lines))
}

/// `referrers v`: the objects that refer to an object.
#[inline(never)]
pub(crate) fn referrers<B: Kind>(
    alloc: Global,
    heap: &Heap<B>,
    running: bool,
    locals: &Option<Locals>,
    operand: &Operand,
) -> Result<Done, Refusal>
    requires known { All (λ n. n < length heap.now.names) (operand_texts operand.now) }
    requires locals { LocalsLive heap.now locals.now }
    requires idle { running ≡ false → IsIdle heap.now }
    ensures { Inspects heap.now running locals.now (λ w. effect w (command.Referrers operand.now))
        result }
{
    let target = inspected(heap, running, locals, operand)?;
    let Ok(objects) = referrers_of::<B, Brand>(alloc, heap, target, Blank::new(1)) else {
        return Err(Refusal::OutOfMemory);
    };
    let Ok(lines) = listing(alloc, &objects, Listed::Referrers) else {
        return Err(Refusal::OutOfMemory);
    };
    Ok(Done::Tells(lines))
}

/// `why x`: a shortest path of holders to an object, apart from one name that holds it.
#[inline(never)]
pub(crate) fn why<B: Kind>(
    alloc: Global,
    heap: &Heap<B>,
    running: bool,
    locals: &Option<Locals>,
    name: u32,
) -> Result<Done, Refusal>
    requires known { name < length heap.now.names }
    requires locals { LocalsLive heap.now locals.now }
    requires idle { running ≡ false → IsIdle heap.now }
    ensures { Inspects heap.now running locals.now (λ w. effect w (command.Why name)) result }
{
    let target = inspected(heap, running, locals, &Operand::Name(name))?;
    let Ok(reason) = reason_of::<B, Brand>(alloc, heap, target, Blank::new(1)) else {
        return Err(Refusal::OutOfMemory);
    };
    let Ok(lines) = explanation(alloc, &reason) else {
        return Err(Refusal::OutOfMemory);
    };
    Ok(Done::Tells(lines))
}

/// What an object refers to. The counter is its own: only contracts count the looks.
fn referents_of<B: Kind, L: Ledger>(
    alloc: Global,
    heap: &Heap<B>,
    object: u64,
    blank: Blank,
) -> Result<Vec<u64>, AllocError>
    requires name { blank.name ≡ L.name }
    requires parts { blank.parts ≡ L.parts }
    requires some { 0 < blank.parts }
    requires live { IsLive heap.now object }
    ensures { IfOk result (λ listed. listed.items ≡ references (entries_of heap.now object)) }
{
    let mut steps = Steps::<L>::new(blank);
    cg_inspect::referents(alloc, heap, object, &mut steps)
}

/// What refers to an object, with a counter of its own.
fn referrers_of<B: Kind, L: Ledger>(
    alloc: Global,
    heap: &Heap<B>,
    object: u64,
    blank: Blank,
) -> Result<Vec<u64>, AllocError>
    requires name { blank.name ≡ L.name }
    requires parts { blank.parts ≡ L.parts }
    requires some { 0 < blank.parts }
    requires idle { IsIdle heap.now }
    ensures { IfOk result (λ listed. listed.items
        ≡ serials (filter (refers_to object) (objects_of heap.now))) }
{
    let mut steps = Steps::<L>::new(blank);
    cg_inspect::referrers(alloc, heap, object, &mut steps)
}

/// Why an object is alive, with a counter of its own.
fn reason_of<B: Kind, L: Ledger>(
    alloc: Global,
    heap: &Heap<B>,
    object: u64,
    blank: Blank,
) -> Result<Why, AllocError>
    requires name { blank.name ≡ L.name }
    requires parts { blank.parts ≡ L.parts }
    requires some { 0 < blank.parts }
    requires idle { IsIdle heap.now }
    ensures { IfOk result (IsReason heap.now object) }
{
    let mut steps = Steps::<L>::new(blank);
    cg_inspect::why(alloc, heap, object, &mut steps)
}

/// The object that the operand refers to. Refuses any while a collection is under way.
fn inspected<B: Kind>(
    heap: &Heap<B>,
    running: bool,
    locals: &Option<Locals>,
    operand: &Operand,
) -> Result<u64, Refusal>
    requires known { All (λ n. n < length heap.now.names) (operand_texts operand.now) }
    requires locals { LocalsLive heap.now locals.now }
    ensures ok { IfOk result (λ o. IsInspected heap.now running locals.now operand.now o) }
    ensures err { IfErr result (λ r. IsNotInspected heap.now running locals.now operand.now r) }
{
    let mut near = Near::default();
    let target = target_of(heap, locals, operand, Wanted::Any, &mut near)?;
    if running {
        return Err(Refusal::InCollection);
    }
    Ok(target)
}

/// Which objects a list contains.
#[derive(Clone, Copy, Debug, PartialEq, Eq, Drop)]
enum Listed {
    Referents,
    Referrers,
}

impl Listed {
    /// The line of one of them.
    fn line(self, object: u64) -> Event
        ensures { result ≡ line_of self object }
    {
        match self {
            Listed::Referents => Event::Referent(object),
            Listed::Referrers => Event::Referrer(object),
        }
    }
}

/// A line for each object, then their number.
fn listing(alloc: Global, objects: &[u64], listed: Listed) -> Result<Lines, AllocError>
    ensures { IfOk result (λ lines. lines ≡ map (line_of listed) objects.now
        ++ event.Listed (length objects.now) ∷ []) }
{
    let mut events = Vec::with_capacity(alloc, objects.len() + 1)?;
    'objects: for object in objects.iter() {
        events.push(listed.line(*object))?;
    }
    events.push(Event::Listed(objects.len() as u64))?;
    Ok(Lines::new(events))
}

/// The lines of a path, or that there is none.
pub(crate) fn explanation(alloc: Global, reason: &Why) -> Result<Lines, AllocError>
    ensures { IfOk result (λ lines. lines ≡ reason_lines reason.now) }
{
    match reason {
        Why::Path(path) => path_lines(alloc, path.as_slice()),
        Why::Unreachable => unreachable_line(alloc),
    }
}

/// The line that no path leads to the object.
fn unreachable_line(alloc: Global) -> Result<Lines, AllocError>
    ensures { IfOk result (λ lines. lines ≡ event.Unreachable ∷ []) }
{
    let mut events = Vec::new(alloc);
    events.push(Event::Unreachable)?;
    Ok(Lines::new(events))
}

/// The lines of a path: a root holds the first object, and each object holds the next.
fn path_lines(alloc: Global, path: &[u64]) -> Result<Lines, AllocError>
    ensures { IfOk result (λ lines. lines ≡ path_lines path.now) }
{
    let mut events = Vec::with_capacity(alloc, path.len())?;
    if let Some((first, rest)) = path.split_first() {
        events.push(Event::Held(*first))?;
        'holders: for object in rest.iter() {
            events.push(Event::Via(*object))?;
        }
    }
    Ok(Lines::new(events))
}
