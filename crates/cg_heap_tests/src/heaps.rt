//! Whole heaps over six kinds. The expected answers come from counting references by hand, as
//! `sys.getrefcount` of Python does.
ghost use Rattle.std.specs.Prelude.{◌≡◌, map, replicate};
ghost use Rattle.std.specs.FinMap as fin;
ghost use Rattle.cg_heap.specs.Boxes.{six_kinds};

use crate::few::six_of_one;
use crate::scene::Scene;
use cg_any_kind::six;
use cg_heap::{Heap, HeapFault};
use cg_kind::Kind;
use cg_value::{Entry, KindCode, Place, Val};
use std::alloc::{AllocError, Global};
use std::process::Abort;
use std::test::Fail;

#[derive(Clone, Copy, Debug, Drop)]
pub enum Step {
    List,
    ListOf(Val),
    Dict,
    Inst,
    Weak(u64),
    Append(u64, Val),
    Put(u64, Val, Val),
    Take(u64, usize),
    TakeKey(u64, Val),
    Value(u64, Val),
    GiveUp(u64),
    Newest(u64),
    Older(u64),
    Referent(u64),
    Clear(u64, bool),
    Forget(u64),
    Bind(u32, Val),
    Unbind(u32),
    Greatest,
    Live,
    Entries,
    Size(Place),
}

#[derive(Clone, Copy, Debug, PartialEq, Drop)]
pub enum Answer {
    Nothing,
    Made(Result<u64, HeapFault>),
    Appended(Result<(), HeapFault>),
    Replaced(Result<Option<Val>, HeapFault>),
    Taken(Entry),
    TakenIf(Option<Entry>),
    Value(Option<Val>),
    Died(bool),
    Object(Option<u64>),
    Name(Option<u32>),
    Number(u64),
}

/// Gives up a hold, and frees the object if that was the last. Answers whether it was.
fn give_up<B: Kind>(rt: &impl Abort, scene: &mut Scene<B>, object: u64) -> bool {
    let died = scene.release(rt, object);
    if died {
        scene.free(rt, object);
    }
    died
}

/// A step that makes or frees an object.
fn change_objects<B: Kind>(rt: &impl Abort, scene: &mut Scene<B>, step: Step) -> Option<Answer> {
    match step {
        Step::List => Some(Answer::Made(scene.list(rt))),
        Step::ListOf(val) => Some(Answer::Made(scene.list_of(rt, val))),
        Step::Dict => Some(Answer::Made(scene.dict(rt))),
        Step::Inst => Some(Answer::Made(scene.make(rt, KindCode::Inst, Some(4), None))),
        Step::Weak(object) => {
            Some(Answer::Made(scene.make(rt, KindCode::Weak, None, Some(object))))
        }
        Step::GiveUp(object) => Some(Answer::Died(give_up(rt, scene, object))),
        _ => None,
    }
}

/// A step that adds or removes an entry.
fn change_entries<B: Kind>(
    rt: &impl Abort,
    scene: &mut Scene<B>,
    step: Step,
) -> Result<Option<Answer>, AllocError> {
    match step {
        Step::Append(list, val) => Ok(Some(Answer::Appended(scene.append(rt, list, val)))),
        Step::Put(object, key, val) => Ok(Some(Answer::Replaced(scene.put(rt, object, key, val)))),
        Step::Take(object, i) => {
            let entry = scene.take(rt, object, i)?;
            Ok(Some(Answer::Taken(entry)))
        }
        Step::TakeKey(object, key) => {
            let entry = scene.take_key(rt, object, key)?;
            Ok(Some(Answer::TakenIf(entry)))
        }
        _ => Ok(None),
    }
}

/// A step that changes a name or a weak reference.
fn change_others<B: Kind>(rt: &impl Abort, scene: &mut Scene<B>, step: Step) -> Option<Answer> {
    match step {
        Step::Bind(name, val) => {
            scene.bind(rt, name, val);
            Some(Answer::Nothing)
        }
        Step::Unbind(name) => {
            scene.unbind(rt, name);
            Some(Answer::Nothing)
        }
        Step::Greatest => Some(Answer::Name(scene.greatest_name())),
        Step::Clear(weak, wait) => {
            scene.clear_weak(rt, weak, wait);
            Some(Answer::Nothing)
        }
        Step::Forget(object) => Some(Answer::Object(scene.forget_newest(rt, object))),
        _ => None,
    }
}

/// A step that changes nothing.
fn look<B: Kind>(rt: &impl Abort, heap: &Heap<B>, step: Step) -> Answer {
    match step {
        Step::Value(object, key) => {
            assert!(rt; heap.has(object));
            Answer::Value(heap.value_of(object, key))
        }
        Step::Newest(object) => {
            assert!(rt; heap.has(object));
            Answer::Object(heap.newest_of(object))
        }
        Step::Older(weak) => {
            assert!(rt; heap.has(weak) && heap.referent_of(weak).is_some());
            Answer::Object(heap.older_of(weak))
        }
        Step::Referent(weak) => {
            assert!(rt; heap.has(weak));
            Answer::Object(heap.referent_of(weak))
        }
        Step::Live => Answer::Number(heap.live()),
        Step::Entries => Answer::Number(heap.entries()),
        Step::Size(Place::Untracked) => Answer::Number(heap.size(Place::Untracked)),
        Step::Size(_) => Answer::Number(heap.size(Place::Gen(0))),
        _ => Answer::Nothing,
    }
}

/// Any step.
fn answer_to<B: Kind>(
    rt: &impl Abort,
    scene: &mut Scene<B>,
    step: Step,
) -> Result<Answer, AllocError> {
    if let Some(answer) = change_objects(rt, scene, step) {
        return Ok(answer);
    }
    if let Some(answer) = change_entries(rt, scene, step)? {
        return Ok(answer);
    }
    if let Some(answer) = change_others(rt, scene, step) {
        return Ok(answer);
    }
    Ok(look(rt, &scene.heap, step))
}

/// A step and what it answers.
pub type Row = (Step, Answer);

/// Steps from a new heap on, with their name.
type Case = (&'static str, &'static [Row]);

/// Takes a heap through the steps.
pub fn follow<B: Kind>(
    rt: &impl Abort,
    scene: &mut Scene<B>,
    name: &str,
    rows: &[Row],
) -> Result<(), Fail> {
    'rows: for (step, answer) in rows {
        assert_eq!(rt;
            answer_to(rt, scene, *step)?,
            *answer,
            "{name}, at {step:?}"
        );
    }
    Ok(())
}

/// Takes a new heap through the steps.
fn drive<B: Kind>(rt: &impl Abort, alloc: Global, kinds: Vec<B>, case: Case) -> Result<(), Fail>
    requires kinds { map B.kind kinds.items ≡ six_kinds }
    requires empty { map B.bodies kinds.items ≡ replicate 6 fin.empty }
{
    let (name, rows) = case;
    let mut scene = Scene::new(alloc, kinds, 4)?;
    follow(rt, &mut scene, name, rows)
}

const LIST: Val = Val::Ref(2);

const INST: Val = Val::Ref(3);

const NUMBER: Val = Val::Int(5);

const YOUNG: Place = Place::Gen(0);

const BOTH: Entry = Entry {
    key: INST,
    val: LIST,
};

const SEVEN: Entry = Entry {
    key: INST,
    val: Val::Int(7),
};

const NO_MEMORY: Answer = Answer::Made(Err(HeapFault::OutOfMemory));

/// An entry that is taken holds value and key from outside.
static TAKEN: [Row; 17] = [
    (Step::List, Answer::Made(Ok(2))),
    (Step::Inst, Answer::Made(Ok(3))),
    (Step::Dict, Answer::Made(Ok(4))),
    // A dictionary is untracked, as the garbage list is, until it holds what may be tracked.
    (Step::Size(Place::Untracked), Answer::Number(2)),
    (Step::Put(4, INST, LIST), Answer::Replaced(Ok(None))),
    (Step::Size(YOUNG), Answer::Number(3)),
    // The entry holds both.
    (Step::GiveUp(2), Answer::Died(false)),
    (Step::GiveUp(3), Answer::Died(false)),
    (Step::Entries, Answer::Number(1)),
    (Step::Take(4, 0), Answer::Taken(BOTH)),
    (Step::Live, Answer::Number(3)),
    // And now nothing but its taker does.
    (Step::GiveUp(2), Answer::Died(true)),
    (Step::GiveUp(3), Answer::Died(true)),
    (Step::GiveUp(4), Answer::Died(true)),
    (Step::Live, Answer::Number(0)),
    (Step::Entries, Answer::Number(0)),
    (Step::Size(YOUNG), Answer::Number(0)),
];

fn taken() -> &'static [Row] {
    &TAKEN
}

/// An entry is taken by its key.
static BY_KEY: [Row; 15] = [
    (Step::Dict, Answer::Made(Ok(2))),
    (Step::Inst, Answer::Made(Ok(3))),
    (Step::Put(2, NUMBER, LIST), Answer::Replaced(Ok(None))),
    // Atoms make no dictionary tracked, and itself does.
    (Step::Size(YOUNG), Answer::Number(2)),
    (Step::Put(2, INST, Val::Int(6)), Answer::Replaced(Ok(None))),
    (
        Step::Put(2, INST, Val::Int(7)),
        Answer::Replaced(Ok(Some(Val::Int(6)))),
    ),
    (Step::Value(2, INST), Answer::Value(Some(Val::Int(7)))),
    (Step::Value(2, LIST), Answer::Value(None)),
    (Step::TakeKey(2, LIST), Answer::TakenIf(None)),
    (Step::TakeKey(2, INST), Answer::TakenIf(Some(SEVEN))),
    (Step::Value(2, INST), Answer::Value(None)),
    (Step::Value(2, NUMBER), Answer::Value(Some(LIST))),
    (Step::Entries, Answer::Number(1)),
    // Its maker and the taker held the instance, which the entry held before.
    (Step::GiveUp(3), Answer::Died(false)),
    (Step::GiveUp(3), Answer::Died(true)),
];

fn by_key() -> &'static [Row] {
    &BY_KEY
}

/// A list that is refused changes nothing: the garbage list is the one that is made.
static REFUSED: [Row; 7] = [
    (Step::List, NO_MEMORY),
    (Step::Live, Answer::Number(0)),
    (Step::Size(YOUNG), Answer::Number(0)),
    // The refusal used no serial, and the other kinds go on.
    (Step::Inst, Answer::Made(Ok(2))),
    (Step::List, NO_MEMORY),
    (Step::Size(YOUNG), Answer::Number(1)),
    (Step::Live, Answer::Number(1)),
];

fn refused() -> &'static [Row] {
    &REFUSED
}

/// Weak references are cleared and forgotten.
static WEAK: [Row; 20] = [
    (Step::List, Answer::Made(Ok(2))),
    (Step::Weak(2), Answer::Made(Ok(3))),
    (Step::Weak(2), Answer::Made(Ok(4))),
    (Step::Weak(2), Answer::Made(Ok(5))),
    (Step::Newest(2), Answer::Object(Some(5))),
    (Step::Older(5), Answer::Object(Some(4))),
    (Step::Older(4), Answer::Object(Some(3))),
    (Step::Older(3), Answer::Object(None)),
    (Step::Clear(4, false), Answer::Nothing),
    (Step::Referent(4), Answer::Object(None)),
    (Step::Older(5), Answer::Object(Some(3))),
    (Step::Clear(3, true), Answer::Nothing),
    (Step::Referent(3), Answer::Object(None)),
    (Step::Referent(5), Answer::Object(Some(2))),
    (Step::Clear(5, true), Answer::Nothing),
    (Step::Newest(2), Answer::Object(None)),
    // What waits is met from the newest on; what was cleared without waiting is not.
    (Step::Forget(2), Answer::Object(Some(5))),
    (Step::Forget(2), Answer::Object(Some(3))),
    (Step::Forget(2), Answer::Object(None)),
    // A weak reference does not hold its referent.
    (Step::GiveUp(2), Answer::Died(true)),
];

fn weak() -> &'static [Row] {
    &WEAK
}

/// The greatest bound name is answered.
static NAMES: [Row; 11] = [
    (Step::Greatest, Answer::Name(None)),
    (Step::Bind(1, Val::Int(7)), Answer::Nothing),
    (Step::Bind(3, Val::None), Answer::Nothing),
    (Step::Greatest, Answer::Name(Some(3))),
    (Step::Unbind(3), Answer::Nothing),
    (Step::Greatest, Answer::Name(Some(1))),
    // One above it is bound before it is given up, as finalizers may do.
    (Step::Bind(2, Val::Int(8)), Answer::Nothing),
    (Step::Unbind(1), Answer::Nothing),
    (Step::Greatest, Answer::Name(Some(2))),
    (Step::Unbind(2), Answer::Nothing),
    (Step::Greatest, Answer::Name(None)),
];

fn names() -> &'static [Row] {
    &NAMES
}

/// Each call that may be refused succeeds where there is memory.
static CALLS: [Row; 9] = [
    (Step::Live, Answer::Number(0)),
    (Step::List, Answer::Made(Ok(2))),
    (Step::Append(2, Val::Int(5)), Answer::Appended(Ok(()))),
    (Step::ListOf(Val::Int(7)), Answer::Made(Ok(3))),
    (Step::Dict, Answer::Made(Ok(4))),
    (
        Step::Put(4, Val::Int(1), Val::Int(2)),
        Answer::Replaced(Ok(None)),
    ),
    (
        Step::Put(4, Val::Int(1), Val::Int(3)),
        Answer::Replaced(Ok(Some(Val::Int(2)))),
    ),
    (Step::Live, Answer::Number(3)),
    (Step::Entries, Answer::Number(3)),
];

fn calls() -> &'static [Row] {
    &CALLS
}

#[test]
fn heaps_answer_step_by_step(rt: HostRuntime) -> Result<(), Fail> {
    let alloc = rt.alloc();
    for case in [
        ("an entry that is taken", taken()),
        ("an entry that is taken by its key", by_key()),
        ("weak references", weak()),
        ("names", names()),
        ("each call", calls()),
    ] {
        drive(&rt, alloc, six(alloc)?, case)?;
    }
    // A kind that does not write the calls by key has the bodies of the trait.
    for case in [
        ("an entry that is taken by its key", by_key()),
        ("a list that is refused", refused()),
    ] {
        drive(&rt, alloc, six_of_one(alloc)?, case)?;
    }
    Ok(())
}
