//! Small graphs in a heap over six kinds, split. What is to be left is found by hand, and what is
//! kept by the plain search.
ghost use Rattle.std.specs.Prelude.{◌≡◌, ◌<◌, map, replicate, IfOk};
ghost use Rattle.std.specs.List.{All};
ghost use Rattle.std.specs.FinMap as fin;
ghost use Rattle.cg_graph.specs.Store.{IsLive, list_at};
ghost use Rattle.cg_arena.specs.Nodes.{IsPlace};
ghost use Rattle.cg_heap.specs.Boxes.{six_kinds};
ghost use Rattle.cg_trial.specs.Split.{IsSplitPlace};

use crate::scene::Scene;
use cg_any_kind::{AnyKind, six};
use cg_graph::{Edge, reach_plain};
use cg_heap::{Heap, HeapFault, Steps};
use cg_kind::Kind;
use cg_trial::split;
use cg_value::{KindCode, Place, Val};
use std::alloc::{AllocError, Global};
use std::marker::Brand;
use std::process::Abort;
use std::sync::ledger::{Blank, Ledger};
use std::test::Fail;

/// A graph.
#[derive(Clone, Copy, Drop)]
enum Graph {
    /// So many lists from #2 on, and their items.
    Lists(u32, &'static [(u64, u64)]),
    /// The dictionary #2 has the object #4 under the object #3, and the function #5 has the
    /// dictionary as a cell.
    KeyAndCell,
}

/// #2 holds itself twice.
const TWICE: Graph = Graph::Lists(1, &[(2, 2), (2, 2)]);

/// #2 holds itself three times.
const THRICE: Graph = Graph::Lists(1, &[(2, 2), (2, 2), (2, 2)]);

/// #2 and #3 hold each other, so do #4 and #5, and #3 holds #4.
const BRIDGE: Graph = Graph::Lists(4, &[(2, 3), (3, 2), (4, 5), (5, 4), (3, 4)]);

/// #2 holds #3, which holds #4, which holds #2; #5 stands alone.
const RING: Graph = Graph::Lists(4, &[(2, 3), (3, 4), (4, 2)]);

/// #2 and #3 hold each other, #4 holds #2, and #5 holds #4.
const CHAIN: Graph = Graph::Lists(4, &[(2, 3), (3, 2), (4, 2), (5, 4)]);

/// A name, a graph, the objects that stay held from outside, what is unreachable, and whether all
/// objects are candidates before.
type Row = (&'static str, Graph, &'static [u64], &'static [u64], bool);

static ROWS: [Row; 14] = [
    ("#2 holds itself twice", TWICE, &[], &[2], false),
    (
        "#2 holds itself twice, and is held",
        TWICE,
        &[2],
        &[],
        false,
    ),
    ("#2 holds itself three times", THRICE, &[], &[2], false),
    ("two rings with a bridge", BRIDGE, &[], &[2, 3, 4, 5], false),
    (
        "two rings with a bridge, the first held",
        BRIDGE,
        &[3],
        &[],
        false,
    ),
    (
        "two rings with a bridge, the second held",
        BRIDGE,
        &[4],
        &[2, 3],
        false,
    ),
    (
        "a ring of three that is held, and one alone",
        RING,
        &[3],
        &[5],
        false,
    ),
    (
        "a chain into a ring, held at its front",
        CHAIN,
        &[5],
        &[],
        false,
    ),
    (
        "a chain into a ring, held behind its front",
        CHAIN,
        &[4],
        &[5],
        false,
    ),
    ("a chain into a ring", CHAIN, &[], &[2, 3, 4, 5], false),
    (
        "a key and a cell, the function held",
        Graph::KeyAndCell,
        &[5],
        &[],
        false,
    ),
    (
        "a key and a cell, the dictionary held",
        Graph::KeyAndCell,
        &[2],
        &[5],
        false,
    ),
    (
        "a key and a cell",
        Graph::KeyAndCell,
        &[],
        &[2, 3, 4, 5],
        false,
    ),
    (
        "two rings with a bridge among the candidates, the second held",
        BRIDGE,
        &[4],
        &[2, 3],
        true,
    ),
];

fn rows() -> &'static [Row] {
    &ROWS
}

fn build<B: Kind>(scene: &mut Scene<B>, rt: &impl Abort, graph: Graph) -> Result<(), HeapFault> {
    match graph {
        Graph::Lists(count, links) => scene.build_lists(rt, count, links),
        Graph::KeyAndCell => build_key_and_cell(scene, rt),
    }
}

fn build_key_and_cell<B: Kind>(scene: &mut Scene<B>, rt: &impl Abort) -> Result<(), HeapFault> {
    let dict = scene.dict(rt)?;
    let key = scene.make(rt, KindCode::Inst, Some(0), None)?;
    let value = scene.list(rt)?;
    scene.put(rt, dict, Val::Ref(key), Val::Ref(value))?;
    scene.make_of(rt, KindCode::Func, Some(0), Val::Ref(dict))?;
    Ok(())
}

/// The objects of a place, in order.
fn serials_in<B: Kind>(alloc: Global, heap: &Heap<B>, place: Place) -> Result<Vec<u64>, AllocError>
    requires { IsPlace place }
    ensures { IfOk result (λ serials. serials.items ≡ list_at heap.now place) }
{
    heap.sound();
    let mut serials = Vec::new(alloc);
    let mut cursor = heap.first(place);
    'objects: while let Some(object) = cursor {
        serials.push(object)?;
        cursor = heap.next(object);
    }
    Ok(serials)
}

fn push_edge(edges: &mut Vec<Edge>, from: u64, val: Val) -> Result<(), AllocError> {
    if let Val::Ref(to) = val {
        edges.push(Edge { from, to })?;
    }
    Ok(())
}

/// One edge for each reference of the object's entries.
fn push_edges<B: Kind>(edges: &mut Vec<Edge>, heap: &Heap<B>, object: u64) -> Result<(), AllocError>
    requires { IsLive heap.now object }
{
    for i in 0..heap.len(object) {
        let entry = heap.entry_at(object, i);
        push_edge(edges, object, entry.val)?;
        push_edge(edges, object, entry.key)?;
    }
    Ok(())
}

/// The members with more holds than edges.
fn held_beyond<B: Kind>(
    alloc: Global,
    heap: &Heap<B>,
    members: &[u64],
    edges: &[Edge],
) -> Result<Vec<u64>, AllocError>
    requires { All (λ o. IsLive heap.now o) members.now }
{
    let mut held = Vec::new(alloc);
    for member in members {
        if heap.refs(*member) > edges.iter().filter(|edge| edge.to == *member).count() as u64 {
            held.push(*member)?;
        }
    }
    Ok(held)
}

/// What the plain search finds among the members.
fn reached_plainly<B: Kind>(
    alloc: Global,
    heap: &Heap<B>,
    members: &[u64],
) -> Result<Vec<u64>, AllocError>
    requires { All (λ o. IsLive heap.now o) members.now }
{
    let mut edges = Vec::new(alloc);
    for member in members {
        push_edges(&mut edges, heap, *member)?;
    }
    let held = held_beyond(alloc, heap, members, &edges)?;
    reach_plain(alloc, &edges, members, &held)
}

/// Splits the place. Answers what is left, what is kept, and what the plain search finds, each
/// rising.
fn split_place<B: Kind, L: Ledger>(
    rt: &impl Abort,
    alloc: Global,
    heap: &mut Heap<B>,
    from: Place,
    steps: &mut Steps<L>,
) -> Result<(Vec<u64>, Vec<u64>, Vec<u64>), AllocError>
    requires { IsSplitPlace from }
{
    let kept_place = match from {
        Place::Cand => Place::Back,
        place => place,
    };
    let members = serials_in(alloc, heap, from)?;
    heap.sound();
    let reached = reached_plainly(alloc, heap, &members)?;
    assert!(rt; heap.size(Place::Back) == 0);
    assert!(rt; from == Place::Cand || heap.size(Place::Cand) == 0);
    split(heap, from, steps);
    let mut left = serials_in(alloc, heap, Place::Cand)?;
    let mut kept = serials_in(alloc, heap, kept_place)?;
    left.sort()?;
    kept.sort()?;
    Ok((left, kept, reached))
}

/// A heap with only this graph, and some held objects. The heap's owner is a separate function:
/// together with the many calls its proof would take minutes.
fn heap_of<B: Kind>(
    rt: &impl Abort,
    alloc: Global,
    kinds: Vec<B>,
    graph: Graph,
    held: &[u64],
) -> Result<Heap<B>, Fail>
    requires kinds { map B.kind kinds.items ≡ six_kinds }
    requires empty { map B.bodies kinds.items ≡ replicate 6 fin.empty }
{
    let mut scene = Scene::new(alloc, kinds, 0)?;
    set(rt, alloc, &mut scene, graph, held)?;
    Ok(scene.into_heap(rt))
}

/// Builds a graph, and gives up all holds except some.
fn set<B: Kind>(
    rt: &impl Abort,
    alloc: Global,
    scene: &mut Scene<B>,
    graph: Graph,
    held: &[u64],
) -> Result<(), Fail> {
    build(scene, rt, graph)?;
    scene.release_others(rt, alloc, held)?;
    Ok(())
}

/// Splits the place of a row, and checks what is kept against the plain search, and what is left
/// against the row.
fn split_as_row<B: Kind, L: Ledger>(
    rt: &impl Abort,
    alloc: Global,
    heap: &mut Heap<B>,
    steps: &mut Steps<L>,
    row: Row,
) -> Result<(), Fail> {
    let (name, _, _, expected, among_candidates) = row;
    let from = if among_candidates {
        heap.merge(Place::Gen(0), Place::Cand);
        Place::Cand
    } else {
        Place::Gen(0)
    };
    let (left, kept, reached) = split_place(rt, alloc, heap, from, steps)?;
    assert_eq!(rt; kept.as_slice(), reached.as_slice(), "at {name:?}");
    assert_eq!(rt; left.as_slice(), expected, "at {name:?}");
    Ok(())
}

/// The same in a heap of its own.
fn check_row<B: Kind, L: Ledger>(
    rt: &impl Abort,
    alloc: Global,
    kinds: Vec<B>,
    blank: Blank,
    row: Row,
) -> Result<(), Fail>
    requires kinds { map B.kind kinds.items ≡ six_kinds }
    requires empty { map B.bodies kinds.items ≡ replicate 6 fin.empty }
    requires name { blank.name ≡ L.name }
    requires parts { blank.parts ≡ L.parts }
    requires some { 0 < blank.parts }
{
    let mut heap = heap_of(rt, alloc, kinds, row.1, row.2)?;
    let mut steps = Steps::<L>::new(blank);
    split_as_row(rt, alloc, &mut heap, &mut steps, row)
}

#[test]
fn what_no_path_reaches_is_left(rt: HostRuntime) -> Result<(), Fail> {
    let alloc = rt.alloc();
    for row in rows() {
        check_row::<AnyKind, Brand>(&rt, alloc, six(alloc)?, Blank::new(1), *row)?;
    }
    Ok(())
}
