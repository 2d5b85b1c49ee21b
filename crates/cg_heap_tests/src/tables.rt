//! Dictionaries around the size at which their pairs move from the list to the map. They answer
//! what a plain list in insertion order would.
ghost use Rattle.std.specs.Prelude.{[]};
ghost use Rattle.cg_kind.specs.Bodies.{Holds};
ghost use Rattle.cg_kind.specs.Calls.{IsParts};

use crate::kinds::{Answer, answer_of, detach_each, entries, make, put_value, take, take_key};
use cg_kind::Kind;
use cg_kinds::{DictKind, InstKind};
use cg_value::{Entry, Val};
use std::alloc::{AllocError, Global};
use std::process::Abort;
use std::test::Fail;

/// Puts a value under a key of a plain list of entries.
fn put_plainly(entries: &mut Vec<Entry>, key: Val, val: Val) -> Result<(), AllocError> {
    'entries: for i in 0..entries.len() {
        if entries[i].key == key {
            entries[i] = Entry { key, val };
            return Ok(());
        }
    }
    entries.push(Entry { key, val })?;
    Ok(())
}

/// Removes the entry of a key from a plain list of entries.
fn take_plainly(entries: &mut Vec<Entry>, key: Val) -> Option<Entry> {
    'entries: for i in 0..entries.len() {
        if entries[i].key == key {
            return Some(entries.remove(i));
        }
    }
    None
}

/// The next random number.
fn next(draw: u64) -> u64 {
    draw.wrapping_mul(6_364_136_223_846_793_005)
        .wrapping_add(1_442_695_040_888_963_407)
}

/// An object has these entries, and finds the key and the value of each.
fn assert_has<K: Kind>(
    rt: &impl Abort,
    alloc: Global,
    kind: &K,
    at: usize,
    expected: &[Entry],
) -> Result<(), Fail>
    requires { Holds (K.bodies kind.now) at }
{
    assert_eq!(rt; entries(alloc, kind, at)?.as_slice(), expected);
    'expected: for i in 0..expected.len() {
        assert_eq!(rt; kind.find(at, expected[i].key), Some(i));
        assert_eq!(rt; kind.value_of(at, expected[i].key), Some(expected[i].val));
    }
    Ok(())
}

/// Puts a value under a key of an object and of a plain list. A refusal leaves the object
/// unchanged; then the put is repeated.
fn put_both<K: Kind>(
    rt: &impl Abort,
    alloc: Global,
    kind: &mut K,
    at: usize,
    plain: &mut Vec<Entry>,
    key: Val,
    val: Val,
) -> Result<(), Fail>
    requires { Holds (K.bodies kind.old) at }
    ensures { Holds (K.bodies kind.new) at }
{
    match put_value(kind, at, key, val) {
        Ok(_) => {}
        Err(_) => {
            assert_has(rt, alloc, kind, at, plain.as_slice())?;
            put_value(kind, at, key, val)?;
        }
    }
    put_plainly(plain, key, val)?;
    Ok(())
}

/// Takes the entry at a place out of an object and out of a plain list, where there is one. Its key
/// is found no more.
fn take_both<K: Kind>(
    rt: &impl Abort,
    kind: &mut K,
    at: usize,
    plain: &mut Vec<Entry>,
    place: usize,
)
    requires { Holds (K.bodies kind.old) at }
    ensures { Holds (K.bodies kind.new) at }
{
    if place < plain.len() {
        let _ = take(kind, at, place);
        let gone = plain.remove(place);
        assert_eq!(rt; kind.find(at, gone.key), None);
    }
}

/// Takes the entry of a key out of an object and out of a plain list, where there is one. The key
/// is found no more.
fn take_key_of_both<K: Kind>(
    rt: &impl Abort,
    kind: &mut K,
    at: usize,
    plain: &mut Vec<Entry>,
    key: Val,
)
    requires { Holds (K.bodies kind.old) at }
    ensures { Holds (K.bodies kind.new) at }
{
    let expected = match take_plainly(plain, key) {
        Some(entry) => answer_of(entry),
        None => Answer::Nothing,
    };
    assert_eq!(rt; take_key(kind, at, key), expected);
    assert_eq!(rt; kind.value_of(at, key), None);
    assert_eq!(rt; take_key(kind, at, key), Answer::Nothing);
}

/// What is done to an object and to a plain list.
#[derive(Clone, Copy, Drop)]
enum Step {
    Put(Val, Val),
    Take(usize),
    TakeKey(Val),
}

/// Does a step of both.
fn advance<K: Kind>(
    rt: &impl Abort,
    alloc: Global,
    kind: &mut K,
    at: usize,
    plain: &mut Vec<Entry>,
    step: Step,
) -> Result<(), Fail>
    requires { Holds (K.bodies kind.old) at }
    ensures { Holds (K.bodies kind.new) at }
{
    match step {
        Step::Put(key, val) => put_both(rt, alloc, kind, at, plain, key, val)?,
        Step::Take(place) => take_both(rt, kind, at, plain, place),
        Step::TakeKey(key) => take_key_of_both(rt, kind, at, plain, key),
    }
    Ok(())
}

/// The keys from the first to before the last are put, each with ten times itself or with 10; then
/// come steps, each so many times; so many entries are left.
type Row = (i64, i64, bool, &'static [(u32, Step)], usize);

/// Takes an object through a row, and looks at all entries after each step.
fn follow<K: Kind>(rt: &impl Abort, alloc: Global, kind: &mut K, row: Row) -> Result<(), Fail>
    requires { IsParts (K.kind kind.old) [] }
{
    let (first, past, tenfold, steps, left) = row;
    let at = make(kind, &[])?;
    let mut plain = Vec::new(alloc);
    'keys: for key in first..past {
        let val = if tenfold { key.wrapping_mul(10) } else { 10 };
        let step = Step::Put(Val::Int(key), Val::Int(val));
        advance(rt, alloc, kind, at, &mut plain, step)?;
        assert_has(rt, alloc, kind, at, &plain)?;
    }
    'steps: for (times, step) in steps {
        'times: for _ in 0..*times {
            advance(rt, alloc, kind, at, &mut plain, *step)?;
            assert_has(rt, alloc, kind, at, &plain)?;
        }
    }
    assert_eq!(rt; plain.len(), left);
    Ok(())
}

/// A value is replaced, the first key goes and comes again, and two keys are taken, one of which is
/// not there.
const CHANGES: &[(u32, Step)] = &[
    (1, Step::Put(Val::Int(3), Val::Int(30))),
    (1, Step::Take(0)),
    (1, Step::Put(Val::Int(0), Val::Int(40))),
    (1, Step::TakeKey(Val::Int(2))),
    (1, Step::TakeKey(Val::Int(99))),
];

/// Some keys of 48 are taken, two are put again, and one more is taken. The newest goes while the
/// map keeps the order, the others from an order that the oldest brought. The keys that are left: 2
/// to 45 without 12 and 44, and then 12 and 0.
const AGAIN: &[(u32, Step)] = &[
    (1, Step::TakeKey(Val::Int(47))),
    (1, Step::TakeKey(Val::Int(0))),
    (1, Step::TakeKey(Val::Int(12))),
    (1, Step::TakeKey(Val::Int(1))),
    (1, Step::TakeKey(Val::Int(46))),
    (1, Step::Put(Val::Int(12), Val::Int(120))),
    (1, Step::Put(Val::Int(0), Val::Int(0))),
    (1, Step::TakeKey(Val::Int(44))),
];

/// Values at the ends of their ranges, as keys and as values. They come out as they went in, from
/// the map's own order, and from another once the first keys are gone.
const ENDS: &[(u32, Step)] = &[
    (1, Step::Put(Val::None, Val::Ref(u64::MAX))),
    (1, Step::Put(Val::Int(i64::MIN), Val::Ref(u32::MAX as u64))),
    (1, Step::Put(Val::Int(-1), Val::Ref(0))),
    (1, Step::Put(Val::Int(0), Val::Str(u32::MAX))),
    (1, Step::Put(Val::Int(i64::MAX), Val::Str(0))),
    (1, Step::Put(Val::Str(0), Val::Int(i64::MAX))),
    (1, Step::Put(Val::Str(u32::MAX), Val::Int(0))),
    (1, Step::Put(Val::Ref(0), Val::Int(-1))),
    (1, Step::Put(Val::Ref(u32::MAX as u64), Val::Int(i64::MIN))),
    (1, Step::Put(Val::Ref(u64::MAX), Val::None)),
    (48, Step::Take(0)),
];

/// Dictionaries: one key too many for a list; enough keys behind the first for its drop to note the
/// order down; keys that come again; values at the ends of their ranges.
static DICTS: [Row; 12] = [
    (0, 23, false, CHANGES, 22),
    (0, 24, false, CHANGES, 23),
    (0, 25, false, CHANGES, 24),
    (0, 26, false, CHANGES, 25),
    (0, 27, false, CHANGES, 26),
    (0, 45, false, CHANGES, 44),
    (0, 46, false, CHANGES, 45),
    (0, 47, false, CHANGES, 46),
    (0, 48, false, CHANGES, 47),
    (0, 49, false, CHANGES, 48),
    (0, 48, true, AGAIN, 44),
    (1, 49, false, ENDS, 10),
];

fn dicts() -> &'static [Row] {
    &DICTS
}

static INSTANCES: [Row; 3] = [
    (0, 25, false, CHANGES, 24),
    (0, 46, false, CHANGES, 45),
    (1, 49, false, ENDS, 10),
];

fn instances() -> &'static [Row] {
    &INSTANCES
}

#[test]
fn dictionaries_and_instances_keep_the_order_of_a_plain_list(rt: HostRuntime) -> Result<(), Fail> {
    let alloc = rt.alloc();
    for row in dicts() {
        follow(&rt, alloc, &mut DictKind::new(alloc), *row)?;
    }
    for row in instances() {
        follow(&rt, alloc, &mut InstKind::new(alloc), *row)?;
    }
    Ok(())
}

/// The step that a number at random stands for, over so many keys.
fn drawn(number: u64, keys: u64) -> Step {
    let key = number / 6 % keys.clamp(1, 1000);
    if number % 6 == 0 {
        Step::TakeKey(Val::Int(key as i64))
    } else if number % 6 == 3 {
        Step::Take(key as usize)
    } else {
        Step::Put(Val::Int(key as i64), Val::Int((number % 1000) as i64))
    }
}

/// Takes an object through steps at random, over so many keys, and looks at all entries each time
/// after so many of them. At the end they are taken off, past the end.
fn walk<K: Kind>(
    rt: &impl Abort,
    alloc: Global,
    kind: &mut K,
    first: u64,
    steps: u32,
    keys: u64,
    between_looks: u64,
) -> Result<(), Fail>
    requires { IsParts (K.kind kind.old) [] }
{
    let at = make(kind, &[])?;
    let mut plain = Vec::new(alloc);
    let mut draw = first;
    'steps: for _ in 0..steps {
        draw = next(draw);
        advance(rt, alloc, kind, at, &mut plain, drawn(draw >> 20, keys))?;
        if draw % between_looks.max(1) == 0 {
            assert_has(rt, alloc, kind, at, &plain)?;
        }
    }
    assert_has(rt, alloc, kind, at, &plain)?;
    detach_each(rt, kind, at, &mut plain, 600);
    Ok(())
}

#[test]
fn steps_at_random_are_those_of_a_plain_list(rt: HostRuntime) -> Result<(), Fail> {
    let alloc = rt.alloc();
    // About the limit of a list.
    for first in 1..=20 {
        walk(&rt, alloc, &mut DictKind::new(alloc), first, 200, 32, 1)?;
    }
    walk(&rt, alloc, &mut DictKind::new(alloc), 1, 6_000, 600, 16)
}
