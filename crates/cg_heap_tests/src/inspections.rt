//! Small graphs in a heap over six kinds. References and paths are worked out by hand.
ghost use Rattle.std.specs.Prelude.{◌≡◌, ◌<◌, map, replicate};
ghost use Rattle.std.specs.FinMap as fin;
ghost use Rattle.cg_heap.specs.Boxes.{six_kinds};

use crate::scene::{Scene, assert_idle};
use cg_any_kind::six;
use cg_heap::{Heap, Steps};
use cg_inspect::{Why, referents, referrers, why};
use cg_kind::Kind;
use cg_value::Val;
use std::alloc::{AllocError, Global};
use std::marker::Brand;
use std::process::Abort;
use std::sync::ledger::{Blank, Ledger};
use std::test::Fail;

/// Why an object is alive.
fn reason<B: Kind, L: Ledger>(
    rt: &impl Abort,
    alloc: Global,
    heap: &Heap<B>,
    object: u64,
    blank: Blank,
) -> Result<Why, AllocError>
    requires name { blank.name ≡ L.name }
    requires parts { blank.parts ≡ L.parts }
    requires some { 0 < blank.parts }
{
    assert_idle(rt, heap);
    why(alloc, heap, object, &mut Steps::<L>::new(blank))
}

/// The objects to which its entries refer.
fn forwards<B: Kind, L: Ledger>(
    rt: &impl Abort,
    alloc: Global,
    heap: &Heap<B>,
    object: u64,
    blank: Blank,
) -> Result<Vec<u64>, AllocError>
    requires name { blank.name ≡ L.name }
    requires parts { blank.parts ≡ L.parts }
    requires some { 0 < blank.parts }
{
    assert!(rt; heap.has(object));
    referents(alloc, heap, object, &mut Steps::<L>::new(blank))
}

/// The objects whose entries refer to it.
fn backwards<B: Kind, L: Ledger>(
    rt: &impl Abort,
    alloc: Global,
    heap: &Heap<B>,
    object: u64,
    blank: Blank,
) -> Result<Vec<u64>, AllocError>
    requires name { blank.name ≡ L.name }
    requires parts { blank.parts ≡ L.parts }
    requires some { 0 < blank.parts }
{
    assert_idle(rt, heap);
    referrers(alloc, heap, object, &mut Steps::<L>::new(blank))
}

/// A name; which items the lists #2 to #6 get, which of them stay held, which two the names have,
/// which the garbage list gets, and the path by which #2 is alive then, empty where there is none.
type Row = (
    &'static str,
    &'static [(u64, u64)],
    &'static [u64],
    [u64; 2],
    Option<u64>,
    &'static [u64],
);

static ROWS: [Row; 10] = [
    (
        "a name holds #3, which holds #2",
        &[(3, 2)],
        &[],
        [2, 3],
        None,
        &[3, 2],
    ),
    (
        "what nobody holds does not hold #2",
        &[(3, 2)],
        &[],
        [2, 6],
        None,
        &[],
    ),
    (
        "a cycle through #2 does not hold it",
        &[(2, 3), (3, 2), (2, 2)],
        &[],
        [2, 6],
        None,
        &[],
    ),
    ("two names hold it", &[(3, 2)], &[3], [2, 2], None, &[2]),
    (
        "a name and a hold from outside hold it",
        &[(3, 2)],
        &[2, 3],
        [2, 6],
        None,
        &[2],
    ),
    (
        "a hold from outside alone holds #4",
        &[(4, 3), (3, 2)],
        &[4],
        [2, 6],
        None,
        &[4, 3, 2],
    ),
    (
        "the garbage list names #3",
        &[(3, 2)],
        &[],
        [2, 6],
        Some(3),
        &[1, 3, 2],
    ),
    (
        "the shorter of two paths from one holder",
        &[(5, 4), (4, 3), (3, 2), (5, 2)],
        &[5],
        [2, 6],
        None,
        &[5, 2],
    ),
    (
        "the shorter of two paths from two holders",
        &[(5, 4), (4, 2), (3, 2)],
        &[3, 5],
        [2, 6],
        None,
        &[3, 2],
    ),
    (
        "a long path, with cycles beside it",
        &[(6, 6), (6, 5), (5, 6), (5, 4), (4, 3), (4, 5), (3, 2)],
        &[],
        [2, 6],
        None,
        &[6, 5, 4, 3, 2],
    ),
];

fn rows() -> &'static [Row] {
    &ROWS
}

/// No path is empty.
fn path_in(answer: &Why) -> &[u64] {
    match answer {
        Why::Path(path) => path,
        Why::Unreachable => &[],
    }
}

/// Builds the graph of a row, and asks why the object is alive. The heap's owner is a separate
/// function: together their proof would take minutes.
fn ask_row<B: Kind>(
    scene: &mut Scene<B>,
    rt: &impl Abort,
    alloc: Global,
    row: Row,
) -> Result<(), Fail> {
    let (name, links, held, [first, second], saved, path) = row;
    scene.build_lists(rt, 5, links)?;
    scene.bind(rt, 0, Val::Ref(first));
    scene.bind(rt, 1, Val::Ref(second));
    if let Some(object) = saved {
        scene.save(rt, object);
    }
    scene.release_others(rt, alloc, held)?;
    let answer = reason::<B, Brand>(rt, alloc, &scene.heap, 2, Blank::new(1))?;
    assert_eq!(rt; path_in(&answer), path, "{name}");
    Ok(())
}

/// Objects, what the entries of each refer to, and the objects whose entries refer to it.
static REFERENCES: [(u64, &[u64], &[u64]); 4] = [
    (2, &[4, 3], &[5]),
    (3, &[], &[2]),
    (4, &[], &[2, 5]),
    (5, &[4, 2, 4], &[]),
];

fn references() -> &'static [(u64, &'static [u64], &'static [u64])] {
    &REFERENCES
}

/// The dictionary #2 has the list #4 under the list #3, and the list #5 has #4, #2 and #4.
fn ask_references<B: Kind>(
    scene: &mut Scene<B>,
    rt: &impl Abort,
    alloc: Global,
) -> Result<(), Fail> {
    scene.dict(rt)?;
    for _ in 0..3u32 {
        scene.list(rt)?;
    }
    scene.put(rt, 2, Val::Ref(3), Val::Ref(4))?;
    for object in [4, 2, 4] {
        scene.append(rt, 5, Val::Ref(object))?;
    }
    for (object, to, from) in references() {
        let listed = forwards::<B, Brand>(rt, alloc, &scene.heap, *object, Blank::new(1))?;
        assert_eq!(rt; listed.as_slice(), *to, "of {object}");
        let listed = backwards::<B, Brand>(rt, alloc, &scene.heap, *object, Blank::new(1))?;
        assert_eq!(rt; listed.as_slice(), *from, "to {object}");
    }
    Ok(())
}

/// Asks of a new heap: of a row, or of the references.
fn check<B: Kind>(
    rt: &impl Abort,
    alloc: Global,
    kinds: Vec<B>,
    row: Option<Row>,
) -> Result<(), Fail>
    requires kinds { map B.kind kinds.items ≡ six_kinds }
    requires empty { map B.bodies kinds.items ≡ replicate 6 fin.empty }
{
    let mut scene = Scene::new(alloc, kinds, 2)?;
    match row {
        Some(row) => ask_row(&mut scene, rt, alloc, row),
        None => ask_references(&mut scene, rt, alloc),
    }
}

#[test]
fn references_are_told_and_objects_are_alive_by_shortest_paths(
    rt: HostRuntime,
) -> Result<(), Fail> {
    let alloc = rt.alloc();
    check(&rt, alloc, six(alloc)?, None)?;
    for row in rows() {
        check(&rt, alloc, six(alloc)?, Some(*row))?;
    }
    Ok(())
}
