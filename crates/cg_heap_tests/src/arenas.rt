//! Nodes that come, move and go, in an arena without a heap. The lists are found by hand.
ghost use Rattle.std.specs.Prelude.{IsTrue};
ghost use Rattle.cg_arena.specs.Nodes.{IsPlace};

use cg_arena::Arena;
use cg_value::{KindCode, Place};
use std::alloc::{AllocError, Global};
use std::process::Abort;
use std::test::Fail;

const PLACES: [Place; 10] = [
    Place::Untracked,
    Place::Frozen,
    Place::Cand,
    Place::Seen,
    Place::Back,
    Place::Legacy,
    Place::Pend,
    Place::Gen(0),
    Place::Gen(1),
    Place::Gen(2),
];

/// The content of a place, read by `first` and `next`.
fn serials_in(alloc: Global, arena: &Arena, place: Place) -> Result<Vec<u64>, AllocError>
    requires { IsPlace place }
{
    let mut serials = Vec::new(alloc);
    let mut at = arena.first(place);
    // One turn more than the size, so that an endless list shows.
    for _ in 0..=arena.size(place) {
        let Some(serial) = at else { break };
        serials.push(serial)?;
        at = if arena.has(serial) {
            arena.next(serial)
        } else {
            None
        };
    }
    Ok(serials)
}

fn put(arena: &mut Arena, serial: u64, place: Place) -> Result<(), AllocError>
    requires { IsPlace place }
{
    if !arena.has(serial) {
        arena.add(serial, KindCode::List, None, serial as usize, place)?;
    }
    Ok(())
}

fn shift(arena: &mut Arena, serial: u64, place: Place)
    requires { IsPlace place }
{
    if arena.has(serial) {
        arena.move_to(serial, place);
    }
}

fn discard(arena: &mut Arena, serial: u64) {
    if arena.has(serial) && arena.count_of(serial) == 0 {
        arena.drop_node(serial);
    }
}

fn put_reserved(arena: &mut Arena, serial: u64, place: Place) -> Result<(), AllocError>
    requires { IsPlace place }
{
    if !arena.has(serial) {
        arena.reserve()?;
        arena.add_reserved(serial, KindCode::Inst, Some(3), 11, place);
    }
    Ok(())
}

fn hold(arena: &mut Arena, serial: u64) {
    if arena.has(serial) && arena.count_of(serial) < 1000 {
        arena.inc(serial);
    }
}

/// Whether the count is now 0.
fn unhold(arena: &mut Arena, serial: u64) -> bool {
    arena.has(serial) && arena.count_of(serial) > 0 && arena.dec(serial)
}

fn finalize(arena: &mut Arena, serial: u64) {
    if arena.has(serial) {
        arena.set_finalized(serial);
    }
}

fn renumber(arena: &mut Arena, serial: u64, number: u32) {
    if !arena.has(serial) {
        return;
    }
    match arena.place_of(serial) {
        Place::Gen(_) | Place::Cand => arena.set_gc(serial, number),
        _ => {}
    }
}

/// The count, the collector's number and the mark.
fn marks_of(arena: &Arena, serial: u64) -> Option<(u32, u32, bool)> {
    if !arena.has(serial) {
        return None;
    }
    Some((
        arena.count_of(serial),
        arena.gc_of(serial),
        arena.is_finalized(serial),
    ))
}

/// The kind, the class, the body and the place.
fn parts_of(arena: &Arena, serial: u64) -> Option<(KindCode, Option<u32>, usize, Place)> {
    if !arena.has(serial) {
        return None;
    }
    Some((
        arena.code_of(serial),
        arena.class_of(serial),
        arena.body_of(serial),
        arena.place_of(serial),
    ))
}

/// Whether it is one of the places.
fn is_place(place: Place) -> bool
    ensures { IsTrue result → IsPlace place }
{
    match place {
        Place::Gen(generation) => generation <= 2,
        _ => true,
    }
}

/// A step, with what it answers, or a look at nodes.
#[derive(Clone, Copy)]
enum Row {
    Put(u64, Place),
    PutReserved(u64, Place),
    Shift(u64, Place),
    Discard(u64),
    Merge(Place, Place),
    Hold(u64),
    Unhold(u64, bool),
    Finalize(u64),
    Renumber(u64, u32),
    /// What stands in generation 0, among the candidates, and in generation 2.
    Lists(&'static [u64], &'static [u64], &'static [u64]),
    /// The count, the collector's number and the mark.
    Marks(u64, Option<(u32, u32, bool)>),
    /// The kind, the class, the body and the place.
    Parts(u64, Option<(KindCode, Option<u32>, usize, Place)>),
}

/// Puts or moves a node, or merges two lists.
fn place_nodes(rt: &impl Abort, arena: &mut Arena, row: Row) -> Result<(), AllocError> {
    match row {
        Row::Put(serial, place) => {
            assert!(rt; is_place(place));
            put(arena, serial, place)?;
        }
        Row::PutReserved(serial, place) => {
            assert!(rt; is_place(place));
            put_reserved(arena, serial, place)?;
        }
        Row::Shift(serial, place) => {
            assert!(rt; is_place(place));
            shift(arena, serial, place);
        }
        Row::Merge(from, to) => {
            assert!(rt; is_place(from) && is_place(to) && from != to);
            arena.merge(from, to);
        }
        Row::Discard(serial) => discard(arena, serial),
        _ => {}
    }
    Ok(())
}

/// Changes what a node keeps.
fn mark_nodes(rt: &impl Abort, arena: &mut Arena, row: Row) {
    match row {
        Row::Hold(serial) => hold(arena, serial),
        Row::Unhold(serial, last) => assert_eq!(rt; unhold(arena, serial), last, "of {serial}"),
        Row::Finalize(serial) => finalize(arena, serial),
        Row::Renumber(serial, number) => renumber(arena, serial, number),
        _ => {}
    }
}

/// Looks at nodes.
fn look(rt: &impl Abort, alloc: Global, arena: &Arena, row: Row) -> Result<(), AllocError> {
    match row {
        Row::Lists(young, candidates, old) => {
            assert_eq!(rt; serials_in(alloc, arena, Place::Gen(0))?.as_slice(), young);
            assert_eq!(rt;
                serials_in(alloc, arena, Place::Cand)?.as_slice(),
                candidates
            );
            assert_eq!(rt; serials_in(alloc, arena, Place::Gen(2))?.as_slice(), old);
        }
        Row::Marks(serial, marks) => assert_eq!(rt; marks_of(arena, serial), marks, "of {serial}"),
        Row::Parts(serial, parts) => assert_eq!(rt; parts_of(arena, serial), parts, "of {serial}"),
        _ => {}
    }
    Ok(())
}

/// Takes an arena through the rows. What owns an arena stands apart: with all that is asked of it,
/// it would be proved for minutes.
fn follow(rt: &impl Abort, alloc: Global, arena: &mut Arena, rows: &[Row]) -> Result<(), Fail> {
    'rows: for row in rows {
        place_nodes(rt, arena, *row)?;
        mark_nodes(rt, arena, *row);
        look(rt, alloc, arena, *row)?;
    }
    Ok(())
}

const YOUNG: Place = Place::Gen(0);

const OLD: Place = Place::Gen(2);

/// Four nodes in generation 0 and two candidates move to the ends of lists.
static MOVES: [Row; 21] = [
    Row::Put(1, YOUNG),
    Row::Put(2, YOUNG),
    Row::Put(3, YOUNG),
    Row::Put(4, YOUNG),
    Row::Put(5, Place::Cand),
    Row::Put(6, Place::Cand),
    Row::Lists(&[1, 2, 3, 4], &[5, 6], &[]),
    // From the middle, the front and the end of a list, and from an end to the same end.
    Row::Shift(2, Place::Cand),
    Row::Lists(&[1, 3, 4], &[5, 6, 2], &[]),
    Row::Shift(1, OLD),
    Row::Lists(&[3, 4], &[5, 6, 2], &[1]),
    Row::Shift(4, OLD),
    Row::Lists(&[3], &[5, 6, 2], &[1, 4]),
    Row::Shift(2, Place::Cand),
    Row::Lists(&[3], &[5, 6, 2], &[1, 4]),
    Row::Shift(5, Place::Cand),
    Row::Lists(&[3], &[6, 2, 5], &[1, 4]),
    // The only one of a list.
    Row::Shift(3, YOUNG),
    Row::Lists(&[3], &[6, 2, 5], &[1, 4]),
    Row::Shift(3, Place::Cand),
    Row::Lists(&[], &[6, 2, 5, 3], &[1, 4]),
];

fn moves() -> &'static [Row] {
    &MOVES
}

/// The lists of such six are merged in order.
static MERGES: [Row; 17] = [
    Row::Put(1, YOUNG),
    Row::Put(2, YOUNG),
    Row::Put(3, YOUNG),
    Row::Put(4, YOUNG),
    Row::Put(5, Place::Cand),
    Row::Put(6, Place::Cand),
    Row::Merge(YOUNG, Place::Cand),
    Row::Lists(&[], &[5, 6, 1, 2, 3, 4], &[]),
    // An empty list is appended, and one is appended to an empty list.
    Row::Merge(YOUNG, Place::Cand),
    Row::Merge(Place::Cand, OLD),
    Row::Lists(&[], &[], &[5, 6, 1, 2, 3, 4]),
    Row::Discard(1),
    Row::Discard(5),
    Row::Discard(4),
    Row::Lists(&[], &[], &[6, 2, 3]),
    // Each node of the merged list knows its place.
    Row::Shift(3, YOUNG),
    Row::Lists(&[3], &[], &[6, 2]),
];

fn merges() -> &'static [Row] {
    &MERGES
}

/// Fields are kept by serial, and counts come down to zero.
static FIELDS: [Row; 16] = [
    Row::PutReserved(7, YOUNG),
    Row::Put(9, Place::Gen(1)),
    Row::Marks(7, Some((0, 0, false))),
    Row::Hold(7),
    Row::Renumber(7, 5),
    Row::Shift(7, Place::Pend),
    Row::Finalize(7),
    Row::Marks(7, Some((1, 5, true))),
    Row::Parts(7, Some((KindCode::Inst, Some(3), 11, Place::Pend))),
    Row::Hold(9),
    Row::Hold(9),
    Row::Unhold(9, false),
    Row::Unhold(9, true),
    Row::Discard(9),
    Row::Marks(9, None),
    Row::Marks(7, Some((1, 5, true))),
];

fn fields() -> &'static [Row] {
    &FIELDS
}

/// Those that share a guess keep their nodes; the slot of a node that is gone is another's.
static SHARED: [Row; 17] = [
    Row::Put(SHARING[0], YOUNG),
    Row::Put(SHARING[1], YOUNG),
    Row::Put(SHARING[2], YOUNG),
    Row::Put(SHARING[3], YOUNG),
    Row::Hold(68),
    Row::Finalize(135),
    Row::Renumber(198, 9),
    Row::Marks(5, Some((0, 0, false))),
    Row::Marks(68, Some((1, 0, false))),
    Row::Marks(135, Some((0, 0, true))),
    Row::Marks(198, Some((0, 9, false))),
    Row::Discard(198),
    Row::Put(7, YOUNG),
    Row::Marks(198, None),
    Row::Marks(68, Some((1, 0, false))),
    Row::Parts(7, Some((KindCode::List, None, 7, YOUNG))),
    Row::Parts(135, Some((KindCode::List, None, 135, YOUNG))),
];

fn shared() -> &'static [Row] {
    &SHARED
}

#[test]
fn nodes_move_are_merged_and_keep_their_fields(rt: HostRuntime) -> Result<(), Fail> {
    let alloc = rt.alloc();
    for rows in [moves(), merges(), fields(), shared()] {
        follow(&rt, alloc, &mut Arena::new(alloc), rows)?;
    }
    Ok(())
}

/// These four pick the same of the first 64 guesses, so all but the last added are looked up by
/// their rows.
const SHARING: [u64; 4] = [5, 68, 135, 198];

#[test]
fn nodes_are_found_as_guesses_grow(rt: HostRuntime) -> Result<(), Fail> {
    let mut arena = Arena::new(rt.alloc());
    for serial in SHARING {
        put(&mut arena, serial, Place::Gen(1))?;
    }
    // The guesses are doubled three times after the 64th node.
    for serial in 0..300 {
        put(&mut arena, serial, Place::Gen(0))?;
        let was = if SHARING.contains(&serial) {
            Place::Gen(1)
        } else {
            Place::Gen(0)
        };
        assert_eq!(rt;
            parts_of(&arena, serial),
            Some((KindCode::List, None, serial as usize, was))
        );
    }
    for serial in SHARING {
        assert_eq!(rt;
            parts_of(&arena, serial),
            Some((KindCode::List, None, serial as usize, Place::Gen(1)))
        );
        discard(&mut arena, serial);
    }
    for serial in 0..300 {
        assert_eq!(rt; arena.has(serial), !SHARING.contains(&serial));
    }
    Ok(())
}

#[test]
fn a_hundred_thousand_nodes_come_and_go(rt: HostRuntime) -> Result<(), Fail> {
    let mut arena = Arena::new(rt.alloc());
    for serial in 0..100_000 {
        put(&mut arena, serial, Place::Gen(0))?;
    }
    arena.merge(Place::Gen(0), Place::Cand);
    assert_eq!(rt; arena.size(Place::Cand), 100_000);
    for serial in 0..100_000 {
        shift(&mut arena, serial, Place::Gen(2));
    }
    assert_eq!(rt; arena.first(Place::Gen(2)), Some(0));
    for serial in 0..100_000 {
        discard(&mut arena, serial);
    }
    for place in PLACES {
        assert!(rt; is_place(place));
        assert_eq!(rt; arena.size(place), 0);
    }
    Ok(())
}
