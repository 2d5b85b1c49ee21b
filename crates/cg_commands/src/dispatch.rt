//! Any command.
ghost use Rattle.std.specs.Prelude.{◌≡◌, ◌<◌, Bool, Option, false, true, length};
ghost use Rattle.cg_heap.specs.Calls.{HasFewHolds};
ghost use Rattle.cg_inspect.specs.Inspection.{IsIdle};
ghost use Rattle.cg_script.specs.Spelled.{IsSpelledCommand};
ghost use Rattle.cg_policy.specs.Policy.{Policy as AnyPolicy, IsBounded, with_one_made};
ghost use Rattle.cg_commands.specs.Answers.{gives};
ghost use Rattle.cg_commands.specs.Attempts.{Attempts, counted, only_changes};
ghost use Rattle.cg_commands.specs.Controls.{IsControl};
ghost use Rattle.cg_commands.specs.Growth.{makes_object};
ghost use Rattle.cg_commands.specs.Stands.{LocalsLive};
ghost use Rattle.cg_commands.specs.declared.locals.Locals.{Locals as AnyLocals};

use crate::bindings::{bind, unbind};
use crate::done::{Done, Refusal, told};
use crate::entries::{append, del_attr, del_item, put, remove, set_attr, set_item};
use crate::frames::{call, quit};
use crate::generations::{collect, counts, freeze, sizes, unfreeze};
use crate::inspections::{referents, referrers, why};
use crate::locals::Locals;
use crate::lookups::{attr, deref, get, item};
use crate::makes::{make_dict, make_function, make_instance, make_list, make_tuple, make_weak};
use crate::queries::{finalized, print, refs, tracked};
use bitflags::Flags;
use cg_heap::Heap;
use cg_kind::Kind;
use cg_policy::{Flagset, Policy};
use cg_script::Command;
use cg_value::Entry;
use std::alloc::Global;

/// Does a command that changes names or entries and prints no line, as `perform` does the others.
/// It answers the entry to give up, which is small to move; most commands are of this sort.
#[inline(always)]
pub fn change<B: Kind>(
    heap: &mut Heap<B>,
    locals: &Option<Locals>,
    command: &Command,
) -> Result<Entry, Refusal>
    requires spelled { IsSpelledCommand (length heap.old.names) command.now }
    requires locals { LocalsLive heap.old locals.now }
    requires few { HasFewHolds heap.old }
    requires changes { only_changes command.now ≡ true }
    ensures { (policy : AnyPolicy) → Attempts heap.old policy locals.now false command.now heap.new
        policy (gives result) }
{
    match command {
        Command::Bind { name, value } => bind(heap, locals, *name, value),
        Command::Del { name } => unbind(heap, locals, *name),
        Command::Append { list, value } => append(heap, locals, list, value),
        Command::SetItem { list, index, value } => set_item(
            heap,
            locals,
            list,
            number(index),
            value,
        ),
        Command::DelItem { list, index } => del_item(heap, locals, list, number(index)),
        Command::Put { dict, key, value } => put(heap, locals, dict, key, value),
        Command::Remove { dict, key } => remove(heap, locals, dict, key),
        Command::SetAttr {
            object,
            attr,
            value,
        } => set_attr(heap, locals, object, *attr, value),
        Command::DelAttr { object, attr } => del_attr(heap, locals, object, *attr),
        Command::Item { name, list, index } => item(heap, locals, *name, list, number(index)),
        Command::Get { name, dict, key } => get(heap, locals, *name, dict, key),
        Command::Attr {
            name,
            object,
            attr: named,
        } => attr(heap, locals, *name, object, *named),
        Command::Deref { name, weak } => deref(heap, locals, *name, weak),
        _ => unreachable!(),
    }
}

/// Does any other command: what the machine's definition of effects says, in every world that the
/// heap, the policy and the locals stand for. `locals` are those of the frame on top, if one is.
/// The policy counts an object that is made. `room` says whether there is room for one more object:
/// where there is none, the heap has no more objects after it than before.
///
/// A refusal changes nothing. `OutOfMemory` only if the effect may allocate and no other refusal
/// applies. A command of the collector allocates nothing, gives up nothing, and changes only places
/// and numbers, or nothing if it asks for a collection. The lines are allocated from `alloc`.
///
/// The command is one of a script that some bytes spell, the objects among the locals live, and
/// fewer than 2^63 objects have been made. Where no collection is running, nothing stands in the
/// places that collections use.
///
/// Each command has a call of its own that is not inlined; those that make something, or are for
/// the collector, share one call. Otherwise this function's frame would have the locals of all
/// commands, and clear them each time.
#[inline(always)]
pub fn perform<B: Kind>(
    alloc: Global,
    heap: &mut Heap<B>,
    policy: &mut Policy,
    locals: &Option<Locals>,
    command: &Command,
    room: bool,
) -> Result<Done, Refusal>
    requires spelled { IsSpelledCommand (length heap.old.names) command.now }
    requires locals { LocalsLive heap.old locals.now }
    requires few { HasFewHolds heap.old }
    requires last { heap.old.last < 9223372036854775808 }
    requires bounded { IsBounded (with_one_made policy.old.numbers) }
    requires idle { policy.old.running ≡ false → IsIdle heap.old }
    requires other { only_changes command.now ≡ false }
    ensures { Attempts heap.old policy.old locals.now room command.now heap.new policy.new result }
{
    match command {
        Command::Call { func } => call(heap, locals, func),
        Command::Quit { value } => quit(heap, locals, value),
        Command::Print { value } => print(heap, locals, value),
        Command::Refs { value } => refs(heap, locals, value),
        Command::Tracked { value } => tracked(heap, locals, value),
        Command::Finalized { value } => finalized(heap, locals, value),
        Command::Referents { value } => referents(alloc, heap, policy.running(), locals, value),
        Command::Referrers { value } => referrers(alloc, heap, policy.running(), locals, value),
        Command::Why { name } => why(alloc, heap, policy.running(), locals, *name),
        Command::MakeList { .. }
        | Command::MakeTuple { .. }
        | Command::MakeDict { .. }
        | Command::MakeInst { .. }
        | Command::MakeFunc { .. }
        | Command::MakeRef { .. } => make(heap, policy, locals, command, room),
        Command::Collect { .. }
        | Command::Enable
        | Command::Disable
        | Command::Threshold { .. }
        | Command::Flags { .. }
        | Command::Freeze
        | Command::Unfreeze
        | Command::Count
        | Command::Gens => control(heap, policy, command),
        _ => unreachable!(),
    }
}

/// Does a command that makes an object, where there is room for it, and counts the object.
#[inline(never)]
fn make<B: Kind>(
    heap: &mut Heap<B>,
    policy: &mut Policy,
    locals: &Option<Locals>,
    command: &Command,
    room: bool,
) -> Result<Done, Refusal>
    requires spelled { IsSpelledCommand (length heap.old.names) command.now }
    requires locals { LocalsLive heap.old locals.now }
    requires few { HasFewHolds heap.old }
    requires last { heap.old.last < 9223372036854775808 }
    requires bounded { IsBounded (with_one_made policy.old.numbers) }
    requires makes { makes_object command.now ≡ true }
    ensures { Attempts heap.old policy.old locals.now room command.now heap.new policy.new result }
{
    match command {
        Command::MakeList { name, items } => {
            let made = make_list(heap, locals, *name, items.as_slice(), room);
            count(policy, made)
        }
        Command::MakeTuple { name, items } => {
            let made = make_tuple(heap, locals, *name, items.as_slice(), room);
            count(policy, made)
        }
        Command::MakeDict { name } => {
            let made = make_dict(heap, locals, *name, room);
            count(policy, made)
        }
        Command::MakeInst { name, class } => {
            let made = make_instance(heap, locals, *name, *class, room);
            count(policy, made)
        }
        Command::MakeFunc { name, proc, cells } => {
            let made = make_function(heap, locals, *name, *proc, cells.as_slice(), room);
            count(policy, made)
        }
        Command::MakeRef {
            name,
            target,
            callback,
        } => {
            let made = make_weak(heap, locals, *name, target, callback, room);
            count(policy, made)
        }
        _ => unreachable!(),
    }
}

/// Does a command of the collector.
#[inline(never)]
fn control<B: Kind>(
    heap: &mut Heap<B>,
    policy: &mut Policy,
    command: &Command,
) -> Result<Done, Refusal>
    requires idle { policy.old.running ≡ false → IsIdle heap.old }
    requires control { IsControl command.now }
    ensures { (locals : Option AnyLocals) (room : Bool) → Attempts heap.old policy.old locals room
        command.now heap.new policy.new result }
{
    match command {
        Command::Collect { generation } => collect(number(generation)),
        Command::Enable => {
            policy.set_enabled(true);
            Ok(told(None))
        }
        Command::Disable => {
            policy.set_enabled(false);
            Ok(told(None))
        }
        Command::Threshold {
            first,
            second,
            third,
        } => {
            policy.set_threshold(*first, *second, *third);
            Ok(told(None))
        }
        Command::Flags { bits } => {
            policy.set_flags(Flagset::from_bits_retain(*bits));
            Ok(told(None))
        }
        Command::Freeze => {
            freeze(heap);
            policy.zero_counts();
            Ok(told(None))
        }
        Command::Unfreeze => {
            unfreeze(heap);
            Ok(told(None))
        }
        Command::Count => Ok(told(Some(counts(policy)))),
        Command::Gens => Ok(told(Some(sizes(heap)))),
        _ => unreachable!(),
    }
}

/// Counts an object, if one was made.
fn count(policy: &mut Policy, made: Result<Done, Refusal>) -> Result<Done, Refusal>
    requires { IsBounded (with_one_made policy.old.numbers) }
    ensures same { result ≡ made }
    ensures counts { policy.new ≡ counted made policy.old }
{
    if made.is_ok() {
        policy.made();
    }
    made
}

// By its type it is a number of 64 bits.
fn number(index: &i64) -> i64
    ensures { result ≡ index.now }
{
    *index
}

/// Whether a command makes an object.
pub fn makes_object(command: &Command) -> bool
    ensures { result ≡ makes_object command.now }
{
    matches!(
        command,
        Command::MakeList { .. }
            | Command::MakeTuple { .. }
            | Command::MakeDict { .. }
            | Command::MakeInst { .. }
            | Command::MakeFunc { .. }
            | Command::MakeRef { .. }
    )
}

/// Whether a command is only a change of names or entries, without a line.
#[inline(always)]
pub fn only_changes(command: &Command) -> bool
    ensures { result ≡ only_changes command.now }
{
    matches!(
        command,
        Command::Bind { .. }
            | Command::Del { .. }
            | Command::Append { .. }
            | Command::SetItem { .. }
            | Command::DelItem { .. }
            | Command::Put { .. }
            | Command::Remove { .. }
            | Command::SetAttr { .. }
            | Command::DelAttr { .. }
            | Command::Item { .. }
            | Command::Get { .. }
            | Command::Attr { .. }
            | Command::Deref { .. }
    )
}
