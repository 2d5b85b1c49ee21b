//! What the commands that inspect tell of two lists, one in the other, as `a = list; b = list a`
//! leaves them, where `a` alone is a name. Each is asked of a heap of its own: no clause says what
//! a command leaves where the heap stands for no world.
ghost use Rattle.std.specs.Prelude.{◌≡◌, ◌<◌, false, map, replicate, length, IfOk, IfSome};
ghost use Rattle.std.specs.FinMap as fin;
ghost use Rattle.cg_graph.specs.Store.{IsLive};
ghost use Rattle.cg_heap.specs.Boxes.{six_kinds};
ghost use Rattle.cg_heap.specs.Calls.{HasFewHolds};
ghost use Rattle.cg_script.specs.Spelled.{IsSpelledCommand};
ghost use Rattle.cg_policy.specs.Policy.{IsBounded, with_one_made};
ghost use Rattle.cg_commands.specs.Attempts.{only_changes};
ghost use Rattle.cg_commands.specs.Stands.{LocalsLive};

use crate::scene::{Scene, assert_idle};
use cg_any_kind::six;
use cg_commands::{Done, Locals, Refusal, perform};
use cg_heap::Heap;
use cg_kind::Kind;
use cg_machine::{Event, FrameSort};
use cg_policy::Policy;
use cg_script::{Command, Operand};
use cg_value::Val;
use std::alloc::Global;
use std::process::Abort;
use std::test::Fail;

/// A command.
#[derive(Clone, Copy, Drop)]
enum Asked {
    /// `referents self`
    Referents,
    /// `referrers self`
    Referrers,
    /// `referrers 5`
    ReferrersOfNumber,
    /// `why a`
    Why,
}

#[derive(Clone, Copy, Drop)]
enum Answer {
    Lines(&'static [Event]),
    Refused(u8),
}

/// A name; a command, the object in the frame of whose finalizer it is given, whether the outer
/// list is held, whether a collection is running; and the answer.
type Row = (&'static str, Asked, Option<u64>, bool, bool, Answer);

static ROWS: [Row; 12] = [
    (
        "what refers to the inner list",
        Asked::Referrers,
        Some(2),
        true,
        false,
        Answer::Lines(&[Event::Referrer(3), Event::Listed(1)]),
    ),
    (
        "what the outer list refers to",
        Asked::Referents,
        Some(3),
        true,
        false,
        Answer::Lines(&[Event::Referent(2), Event::Listed(1)]),
    ),
    (
        "what the inner list refers to",
        Asked::Referents,
        Some(2),
        true,
        false,
        Answer::Lines(&[Event::Listed(0)]),
    ),
    (
        "why the inner list is alive",
        Asked::Why,
        None,
        true,
        false,
        Answer::Lines(&[Event::Held(3), Event::Via(2)]),
    ),
    (
        "why it is where nothing holds the outer one",
        Asked::Why,
        None,
        false,
        false,
        Answer::Lines(&[Event::Unreachable]),
    ),
    (
        "referents while a collection runs",
        Asked::Referents,
        Some(2),
        true,
        true,
        Answer::Refused(13),
    ),
    (
        "referrers while a collection runs",
        Asked::Referrers,
        Some(2),
        true,
        true,
        Answer::Refused(13),
    ),
    (
        "why while a collection runs",
        Asked::Why,
        None,
        true,
        true,
        Answer::Refused(13),
    ),
    // No object is refused before a collection is.
    (
        "no subject",
        Asked::Referents,
        None,
        true,
        false,
        Answer::Refused(1),
    ),
    (
        "no subject while a collection runs",
        Asked::Referents,
        None,
        true,
        true,
        Answer::Refused(1),
    ),
    (
        "a number",
        Asked::ReferrersOfNumber,
        None,
        true,
        false,
        Answer::Refused(2),
    ),
    (
        "a number while a collection runs",
        Asked::ReferrersOfNumber,
        None,
        true,
        true,
        Answer::Refused(2),
    ),
];

fn rows() -> &'static [Row] {
    &ROWS
}

/// A policy with or without a collection under way.
fn policy_of(running: bool) -> Policy
    ensures { IsBounded (with_one_made result.numbers) }
{
    let mut policy = Policy::new();
    if running {
        policy.begin(0);
    }
    policy
}

/// The locals of the frame of an object's finalizer. Panics if the object does not live.
fn locals_of<B: Kind>(rt: &impl Abort, heap: &Heap<B>, subject: Option<u64>) -> Option<Locals>
    ensures { LocalsLive heap.now result }
{
    let object = subject?;
    assert!(rt; heap.has(object));
    Some(Locals {
        sort: FrameSort::Del,
        subject: object,
        func: None,
    })
}

/// Does a command, in the frame of an object's finalizer, if any.
fn inspect<B: Kind>(
    rt: &impl Abort,
    alloc: Global,
    heap: &mut Heap<B>,
    running: bool,
    subject: Option<u64>,
    command: &Command,
) -> Result<Done, Refusal>
    requires spelled { IsSpelledCommand (length heap.old.names) command.now }
    requires few { HasFewHolds heap.old }
    requires last { heap.old.last < 9223372036854775808 }
    requires other { only_changes command.now ≡ false }
{
    assert_idle(rt, heap);
    let locals = locals_of(rt, heap, subject);
    let mut policy = policy_of(running);
    perform(alloc, heap, &mut policy, &locals, command, false)
}

/// The command, where the heap has one name.
fn command_of(asked: Asked) -> Command
    ensures spelled { IsSpelledCommand 1 result }
    ensures other { only_changes result ≡ false }
{
    match asked {
        Asked::Referents => Command::Referents {
            value: Operand::SelfLocal,
        },
        Asked::Referrers => Command::Referrers {
            value: Operand::SelfLocal,
        },
        Asked::ReferrersOfNumber => Command::Referrers {
            value: Operand::Int(5),
        },
        Asked::Why => Command::Why { name: 0 },
    }
}

/// #2 in #3, which alone is held, or is not.
fn build<B: Kind>(rt: &impl Abort, scene: &mut Scene<B>, held: bool) -> Result<(), Fail> {
    let inner = scene.list(rt)?;
    scene.list_of(rt, Val::Ref(inner))?;
    scene.bind(rt, 0, Val::Ref(inner));
    scene.release(rt, inner);
    if !held {
        scene.release(rt, 3);
    }
    Ok(())
}

/// A heap of its own.
fn two_lists<B: Kind>(
    rt: &impl Abort,
    alloc: Global,
    kinds: Vec<B>,
    held: bool,
) -> Result<Heap<B>, Fail>
    requires kinds { map B.kind kinds.items ≡ six_kinds }
    requires empty { map B.bodies kinds.items ≡ replicate 6 fin.empty }
    ensures few { IfOk result (λ h. HasFewHolds h) }
    ensures last { IfOk result (λ h. h.last < 9223372036854775808) }
    ensures names { IfOk result (λ h. length h.names ≡ 1) }
{
    let mut scene = Scene::new(alloc, kinds, 1)?;
    build(rt, &mut scene, held)?;
    assert!(rt; scene.names() == 1);
    Ok(scene.into_heap(rt))
}

/// It stops where an answer is another.
fn assert_answer(rt: &impl Abort, found: Result<Done, Refusal>, expected: Answer, name: &str) {
    match (found, expected) {
        (Ok(Done::Tells(lines)), Answer::Lines(expected)) => {
            assert_eq!(rt; lines.as_slice(), expected, "at {name:?}");
        }
        (Err(refusal), Answer::Refused(number)) => {
            assert_eq!(rt; refusal.number(), number, "at {name:?}");
        }
        _ => panic!(rt; "{name:?} is answered in another way"),
    }
}

fn check_row<B: Kind>(rt: &impl Abort, alloc: Global, kinds: Vec<B>, row: Row) -> Result<(), Fail>
    requires kinds { map B.kind kinds.items ≡ six_kinds }
    requires empty { map B.bodies kinds.items ≡ replicate 6 fin.empty }
{
    let (name, asked, subject, held, running, answer) = row;
    let mut heap = two_lists(rt, alloc, kinds, held)?;
    let command = command_of(asked);
    let found = inspect(rt, alloc, &mut heap, running, subject, &command);
    assert_answer(rt, found, answer, name);
    Ok(())
}

#[test]
fn two_lists_are_inspected(rt: HostRuntime) -> Result<(), Fail> {
    let alloc = rt.alloc();
    for row in rows() {
        check_row(&rt, alloc, six(alloc)?, *row)?;
    }
    Ok(())
}
