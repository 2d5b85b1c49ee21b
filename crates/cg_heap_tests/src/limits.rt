//! Heaps at their limits. The numbers are the limits in the contracts of the heap's calls.
ghost use Rattle.std.specs.Prelude.{◌≡◌, map, replicate};
ghost use Rattle.std.specs.FinMap as fin;
ghost use Rattle.cg_heap.specs.Boxes.{six_kinds};

use crate::heaps::{Answer, Row, Step, follow};
use crate::scene::Scene;
use cg_any_kind::six;
use cg_graph::reference_in;
use cg_heap::HeapFault;
use cg_kind::Kind;
use cg_value::{Place, Val};
use std::alloc::{AllocError, Global};
use std::process::Abort;
use std::test::Fail;

/// Takes all entries of an object off. It answers the object to which the last one that was taken
/// refers, and which is held then, if there is one.
fn empty<B: Kind>(
    rt: &impl Abort,
    scene: &mut Scene<B>,
    object: u64,
) -> Result<Option<u64>, AllocError> {
    assert!(rt; scene.heap.has(object));
    let mut found = None;
    'entries: for _ in 0..scene.heap.len(object) {
        if let Some(entry) = scene.detach(rt, object)? {
            found = reference_in(entry.val);
        }
    }
    Ok(found)
}

/// Frees an object that nothing else holds, after removing its entries. Answers the object of its
/// first entry, which is then held, if any.
fn give_up<B: Kind>(
    rt: &impl Abort,
    scene: &mut Scene<B>,
    object: u64,
) -> Result<Option<u64>, AllocError> {
    assert!(rt; scene.release(rt, object));
    let found = empty(rt, scene, object)?;
    scene.move_to(rt, object, Place::Untracked);
    scene.free(rt, object);
    Ok(found)
}

/// A list of numbers that only the test holds.
fn fill_one<B: Kind>(
    rt: &impl Abort,
    scene: &mut Scene<B>,
    numbers: i64,
) -> Result<u64, HeapFault> {
    scene.forget_holds();
    let list = scene.list(rt)?;
    'numbers: for number in 0..numbers {
        scene.append(rt, list, Val::Int(number))?;
    }
    Ok(list)
}

/// Makes lists of numbers, and answers the last one.
fn fill<B: Kind>(
    rt: &impl Abort,
    scene: &mut Scene<B>,
    lists: u32,
    numbers: i64,
) -> Result<u64, HeapFault> {
    let mut last = 0;
    'lists: for _ in 0..lists {
        last = fill_one(rt, scene, numbers)?;
    }
    Ok(last)
}

const FULL: Answer = Answer::Made(Err(HeapFault::ObjectLimit));

/// A million lists of four numbers: one object more is refused.
static MILLION: [Row; 4] = [
    (Step::Live, Answer::Number(1_000_000)),
    (Step::Entries, Answer::Number(4_000_000)),
    (Step::List, FULL),
    (Step::Dict, FULL),
];

fn million() -> &'static [Row] {
    &MILLION
}

/// One was let go. No serial was used by a refusal, and none is used again.
static ONE_LESS: [Row; 5] = [
    (Step::Live, Answer::Number(999_999)),
    (Step::Entries, Answer::Number(3_999_996)),
    (Step::List, Answer::Made(Ok(1_000_002))),
    (Step::Live, Answer::Number(1_000_000)),
    (Step::List, FULL),
];

fn one_less() -> &'static [Row] {
    &ONE_LESS
}

fn reach_objects<B: Kind>(rt: &impl Abort, scene: &mut Scene<B>) -> Result<(), Fail> {
    let last = fill(rt, scene, 1_000_000, 4)?;
    follow(rt, scene, "a million objects", million())?;
    assert!(rt; give_up(rt, scene, last)?.is_none());
    follow(rt, scene, "a million objects but one", one_less())
}

const LIMIT: HeapFault = HeapFault::EntryLimit;

/// A thousand lists of four thousand numbers: one entry more is refused, an object without entries
/// is not.
static ENTRIES: [Row; 8] = [
    (Step::Entries, Answer::Number(4_000_000)),
    (
        Step::Append(1001, Val::Int(1)),
        Answer::Appended(Err(LIMIT)),
    ),
    (Step::ListOf(Val::Int(7)), Answer::Made(Err(LIMIT))),
    (Step::List, Answer::Made(Ok(1002))),
    (Step::Dict, Answer::Made(Ok(1003))),
    (
        Step::Put(1003, Val::Int(1), Val::Int(2)),
        Answer::Replaced(Err(LIMIT)),
    ),
    (Step::Live, Answer::Number(1002)),
    (Step::Entries, Answer::Number(4_000_000)),
];

fn entries() -> &'static [Row] {
    &ENTRIES
}

fn reach_entries<B: Kind>(rt: &impl Abort, scene: &mut Scene<B>) -> Result<(), Fail> {
    fill(rt, scene, 1000, 4000)?;
    follow(rt, scene, "four million entries", entries())
}

/// Lists that each hold the previous one, which nothing else holds. Answers the last one.
fn chain<B: Kind>(rt: &impl Abort, scene: &mut Scene<B>, lists: u32) -> Result<u64, HeapFault> {
    let mut last = scene.list(rt)?;
    'links: for _ in 1..lists {
        let next = scene.list_of(rt, Val::Ref(last))?;
        scene.release(rt, last);
        last = next;
    }
    Ok(last)
}

/// Frees them, last first. Answers what is left of them.
fn unchain<B: Kind>(
    rt: &impl Abort,
    scene: &mut Scene<B>,
    last: u64,
    lists: u32,
) -> Result<Option<u64>, AllocError> {
    let mut left = Some(last);
    'unlinks: for _ in 0..lists {
        match left {
            Some(object) => left = give_up(rt, scene, object)?,
            None => panic!(rt; "the chain is shorter"),
        }
    }
    Ok(left)
}

/// A long chain.
static LONG_CHAIN: [Row; 2] = [
    (Step::Live, Answer::Number(300_000)),
    (Step::Entries, Answer::Number(299_999)),
];

fn long_chain() -> &'static [Row] {
    &LONG_CHAIN
}

/// The garbage list is left.
static NOTHING: [Row; 4] = [
    (Step::Live, Answer::Number(0)),
    (Step::Entries, Answer::Number(0)),
    (Step::Size(Place::Untracked), Answer::Number(1)),
    (Step::Size(Place::Gen(0)), Answer::Number(0)),
];

fn nothing() -> &'static [Row] {
    &NOTHING
}

/// A long chain is made and given up.
fn give_up_chain<B: Kind>(rt: &impl Abort, scene: &mut Scene<B>) -> Result<(), Fail> {
    let last = chain(rt, scene, 300_000)?;
    follow(rt, scene, "a chain", long_chain())?;
    assert!(rt; unchain(rt, scene, last, 300_000)?.is_none());
    follow(rt, scene, "no chain", nothing())
}

/// The experiments on a heap.
#[derive(Clone, Copy)]
enum Trial {
    Objects,
    Entries,
    Chain,
}

fn attempt<B: Kind>(rt: &impl Abort, scene: &mut Scene<B>, trial: Trial) -> Result<(), Fail> {
    match trial {
        Trial::Objects => reach_objects(rt, scene),
        Trial::Entries => reach_entries(rt, scene),
        Trial::Chain => give_up_chain(rt, scene),
    }
}

/// Runs one on a new heap, which it borrows: the proof of a function that owned the heap and made
/// all these calls would take minutes.
fn check<B: Kind>(rt: &impl Abort, alloc: Global, kinds: Vec<B>, trial: Trial) -> Result<(), Fail>
    requires kinds { map B.kind kinds.items ≡ six_kinds }
    requires empty { map B.bodies kinds.items ≡ replicate 6 fin.empty }
{
    let mut scene = Scene::new(alloc, kinds, 0)?;
    attempt(rt, &mut scene, trial)
}

#[test]
fn a_million_objects_are_the_most(rt: HostRuntime) -> Result<(), Fail> {
    let alloc = rt.alloc();
    check(&rt, alloc, six(alloc)?, Trial::Objects)
}

#[test]
fn four_million_entries_are_the_most_and_a_long_chain_is_given_up(
    rt: HostRuntime,
) -> Result<(), Fail> {
    let alloc = rt.alloc();
    check(&rt, alloc, six(alloc)?, Trial::Entries)?;
    check(&rt, alloc, six(alloc)?, Trial::Chain)
}
