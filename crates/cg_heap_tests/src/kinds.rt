//! All six kinds, through the boxed interface. The expected entries are those that Python's lists,
//! tuples and dictionaries have after the same steps.
ghost use Rattle.std.specs.Prelude.{◌≡◌, ℕ, List, [], length, IsTrue, IfOk};
ghost use Rattle.cg_value.specs.declared.Entry.{Entry};
ghost use Rattle.cg_graph.specs.Value.{item};
ghost use Rattle.cg_kind.specs.Bodies.{Holds};
ghost use Rattle.cg_kind.specs.Calls.{CanPut, IsParts, AreItems};

use cg_kind::Kind;
use cg_kinds::{DictKind, FuncKind, InstKind, ListKind, TupleKind, WeakKind};
use cg_value::{Entry, KindCode, Val};
use std::alloc::{AllocError, Global};
use std::process::Abort;
use std::test::Fail;

const NO: Val = Val::None;

const A: Val = Val::Str(1);

const B: Val = Val::Str(2);

const C: Val = Val::Ref(3);

#[derive(Clone, Copy, Debug, Drop)]
pub enum Step {
    Put(Val, i64),
    Find(Val),
    Value(Val),
    Take(usize),
    TakeKey(Val),
    Detach,
    Append(i64),
}

#[derive(Clone, Copy, Debug, PartialEq, Drop)]
pub enum Answer {
    Nothing,
    Position(Option<usize>),
    Value(Option<Val>),
    Replaced(Option<Val>),
    Entry(Val, i64),
    NotDone,
}

/// A step, what it answers, and the entries after it.
type Row = (Step, Answer, &'static [(Val, i64)]);

/// The entry of a value that has no key.
fn item_of(val: Val) -> Entry
    ensures { result ≡ item val }
{
    Entry {
        key: Val::None,
        val,
    }
}

/// Whether `put` may be called at this key of an object with `count` entries.
fn can_put(code: KindCode, count: usize, key: Val) -> bool
    ensures { IsTrue result → (entries : List Entry) → length entries ≡ count
        → CanPut code entries key }
{
    match code {
        KindCode::List => match key {
            Val::Int(i) => i >= 0 && (i as usize) < count,
            _ => false,
        },
        _ => true,
    }
}

/// Puts a value under a key, if the kind has keys.
pub fn put_value<K: Kind>(kind: &mut K, at: usize, key: Val, val: Val) -> Result<Answer, AllocError>
    requires { Holds (K.bodies kind.old) at }
    ensures { (place : ℕ) → Holds (K.bodies kind.old) place → Holds (K.bodies kind.new) place }
{
    if !can_put(kind.code(), kind.len(at), key) {
        return Ok(Answer::NotDone);
    }
    let replaced = kind.put(at, key, val)?;
    Ok(Answer::Replaced(replaced))
}

pub fn put<K: Kind>(kind: &mut K, at: usize, key: Val, val: i64) -> Result<Answer, AllocError>
    requires { Holds (K.bodies kind.old) at }
    ensures { (place : ℕ) → Holds (K.bodies kind.old) place → Holds (K.bodies kind.new) place }
{
    put_value(kind, at, key, Val::Int(val))
}

pub fn answer_of(entry: Entry) -> Answer {
    match entry.val {
        Val::Int(number) => Answer::Entry(entry.key, number),
        _ => Answer::NotDone,
    }
}

pub fn take<K: Kind>(kind: &mut K, at: usize, i: usize) -> Answer
    requires { Holds (K.bodies kind.old) at }
    ensures { (place : ℕ) → Holds (K.bodies kind.old) place → Holds (K.bodies kind.new) place }
{
    if i >= kind.len(at) {
        return Answer::NotDone;
    }
    answer_of(kind.take(at, i))
}

pub fn take_key<K: Kind>(kind: &mut K, at: usize, key: Val) -> Answer
    requires { Holds (K.bodies kind.old) at }
    ensures { (place : ℕ) → Holds (K.bodies kind.old) place → Holds (K.bodies kind.new) place }
{
    match kind.take_key(at, key) {
        Some(entry) => answer_of(entry),
        None => Answer::Nothing,
    }
}

pub fn detach<K: Kind>(kind: &mut K, at: usize) -> Answer
    requires { Holds (K.bodies kind.old) at }
    ensures { (place : ℕ) → Holds (K.bodies kind.old) place → Holds (K.bodies kind.new) place }
{
    match kind.detach(at) {
        Some(entry) => answer_of(entry),
        None => Answer::Nothing,
    }
}

pub fn append<K: Kind>(kind: &mut K, at: usize, val: Val) -> Result<(), AllocError>
    requires { Holds (K.bodies kind.old) at }
    ensures { (place : ℕ) → Holds (K.bodies kind.old) place → Holds (K.bodies kind.new) place }
{
    kind.reserve(at, 1)?;
    kind.append_reserved(at, val);
    Ok(())
}

/// Removes the first entry, if there is one, and answers its value.
pub fn take_first<K: Kind>(kind: &mut K, at: usize) -> Option<Val>
    requires { Holds (K.bodies kind.old) at }
    ensures { (place : ℕ) → Holds (K.bodies kind.old) place → Holds (K.bodies kind.new) place }
{
    if kind.len(at) == 0 {
        return None;
    }
    Some(kind.take(at, 0).val)
}

/// Does a step.
pub fn advance<K: Kind>(kind: &mut K, at: usize, step: Step) -> Result<Answer, AllocError>
    requires { Holds (K.bodies kind.old) at }
    ensures { (place : ℕ) → Holds (K.bodies kind.old) place → Holds (K.bodies kind.new) place }
{
    match step {
        Step::Put(key, val) => put(kind, at, key, val),
        Step::Find(key) => Ok(Answer::Position(kind.find(at, key))),
        Step::Value(key) => Ok(Answer::Value(kind.value_of(at, key))),
        Step::Take(i) => Ok(take(kind, at, i)),
        Step::TakeKey(key) => Ok(take_key(kind, at, key)),
        Step::Detach => Ok(detach(kind, at)),
        Step::Append(val) => {
            append(kind, at, Val::Int(val))?;
            Ok(Answer::Nothing)
        }
    }
}

/// The entries of an object.
pub fn entries<K: Kind>(alloc: Global, kind: &K, at: usize) -> Result<Vec<Entry>, AllocError>
    requires { Holds (K.bodies kind.now) at }
{
    let mut entries = Vec::new(alloc);
    for i in 0..kind.len(at) {
        entries.push(kind.entry_at(at, i))?;
    }
    Ok(entries)
}

/// Panics unless these are the entries of an object.
fn assert_entries<K: Kind>(
    rt: &impl Abort,
    alloc: Global,
    kind: &K,
    at: usize,
    expected: &[Entry],
) -> Result<(), AllocError>
    requires { Holds (K.bodies kind.now) at }
{
    let now = entries(alloc, kind, at)?;
    assert_eq!(rt; now.as_slice(), expected);
    Ok(())
}

fn items(alloc: Global, values: &[i64]) -> Result<Vec<Entry>, AllocError>
    ensures items { IfOk result (λ entries. AreItems entries.items) }
    ensures len { IfOk result (λ entries. length entries.items ≡ length values.now) }
{
    let mut entries = Vec::new(alloc);
    for value in values {
        entries.push(item_of(Val::Int(*value)))?;
    }
    Ok(entries)
}

fn items_with(alloc: Global, values: &[Val]) -> Result<Vec<Entry>, AllocError>
    ensures { IfOk result (λ entries. AreItems entries.items) }
{
    let mut entries = Vec::new(alloc);
    for value in values {
        entries.push(item_of(*value))?;
    }
    Ok(entries)
}

fn listed(alloc: Global, pairs: &[(Val, i64)]) -> Result<Vec<Entry>, AllocError> {
    let mut entries = Vec::new(alloc);
    for (key, val) in pairs {
        entries.push(Entry {
            key: *key,
            val: Val::Int(*val),
        })?;
    }
    Ok(entries)
}

/// Makes an object.
pub fn make<K: Kind>(kind: &mut K, parts: &[Entry]) -> Result<usize, AllocError>
    requires { IsParts (K.kind kind.old) parts.now }
    ensures held { IfOk result (λ at. Holds (K.bodies kind.new) at) }
    ensures others { (place : ℕ) → Holds (K.bodies kind.old) place → Holds (K.bodies kind.new)
        place }
    ensures same_kind { K.kind kind.new ≡ K.kind kind.old }
{
    let at = kind.make(parts)?;
    Ok(at)
}

/// Frees the object's slot if it is empty.
fn free<K: Kind>(kind: &mut K, at: usize)
    requires { Holds (K.bodies kind.old) at }
{
    if kind.len(at) == 0 {
        kind.free(at);
    }
}

/// Takes an object through the steps, and checks the entries after each. A second object stays as
/// it is.
fn drive<K: Kind>(
    rt: &impl Abort,
    alloc: Global,
    kind: &mut K,
    parts: &[Entry],
    rows: &[Row],
) -> Result<(), Fail>
    requires { IsParts (K.kind kind.old) parts.now }
{
    let other = make(kind, parts)?;
    let at = make(kind, parts)?;
    'rows: for (taken, answer, left) in rows {
        assert_eq!(rt; advance(kind, at, *taken)?, *answer, "at {taken:?}");
        assert_entries(rt, alloc, kind, at, &listed(alloc, left)?)?;
    }
    assert_entries(rt, alloc, kind, other, parts)?;
    free(kind, at);
    Ok(())
}

/// Lists: three items, 10, 20 and 30.
static LIST: [Row; 17] = [
    (
        Step::Find(NO),
        Answer::Position(Some(0)),
        &[(NO, 10), (NO, 20), (NO, 30)],
    ),
    (
        Step::Find(A),
        Answer::Position(None),
        &[(NO, 10), (NO, 20), (NO, 30)],
    ),
    (
        Step::Value(NO),
        Answer::Value(Some(Val::Int(10))),
        &[(NO, 10), (NO, 20), (NO, 30)],
    ),
    (
        Step::Value(A),
        Answer::Value(None),
        &[(NO, 10), (NO, 20), (NO, 30)],
    ),
    (
        Step::Put(Val::Int(1), 21),
        Answer::Replaced(Some(Val::Int(20))),
        &[(NO, 10), (NO, 21), (NO, 30)],
    ),
    (
        Step::Put(Val::Int(3), 41),
        Answer::NotDone,
        &[(NO, 10), (NO, 21), (NO, 30)],
    ),
    (
        Step::Append(40),
        Answer::Nothing,
        &[(NO, 10), (NO, 21), (NO, 30), (NO, 40)],
    ),
    (
        Step::Take(0),
        Answer::Entry(NO, 10),
        &[(NO, 21), (NO, 30), (NO, 40)],
    ),
    (Step::Detach, Answer::Entry(NO, 40), &[(NO, 21), (NO, 30)]),
    (Step::TakeKey(A), Answer::Nothing, &[(NO, 21), (NO, 30)]),
    (
        Step::Append(50),
        Answer::Nothing,
        &[(NO, 21), (NO, 30), (NO, 50)],
    ),
    (
        Step::TakeKey(NO),
        Answer::Entry(NO, 21),
        &[(NO, 30), (NO, 50)],
    ),
    (Step::Detach, Answer::Entry(NO, 50), &[(NO, 30)]),
    (Step::TakeKey(NO), Answer::Entry(NO, 30), &[]),
    (Step::TakeKey(NO), Answer::Nothing, &[]),
    (Step::Value(NO), Answer::Value(None), &[]),
    (Step::Detach, Answer::Nothing, &[]),
];

fn list() -> &'static [Row] {
    &LIST
}

/// Tuples, which lose their last item alone: 10 and 20.
static TUPLE: [Row; 10] = [
    (
        Step::Find(NO),
        Answer::Position(Some(0)),
        &[(NO, 10), (NO, 20)],
    ),
    (
        Step::Put(Val::Int(1), 21),
        Answer::Replaced(None),
        &[(NO, 10), (NO, 20)],
    ),
    (Step::Append(40), Answer::Nothing, &[(NO, 10), (NO, 20)]),
    (
        Step::Value(NO),
        Answer::Value(Some(Val::Int(10))),
        &[(NO, 10), (NO, 20)],
    ),
    (Step::Take(0), Answer::Entry(NO, 10), &[(NO, 10), (NO, 20)]),
    (
        Step::TakeKey(NO),
        Answer::Entry(NO, 10),
        &[(NO, 10), (NO, 20)],
    ),
    (Step::TakeKey(A), Answer::Nothing, &[(NO, 10), (NO, 20)]),
    (Step::Detach, Answer::Entry(NO, 20), &[(NO, 10)]),
    (Step::Detach, Answer::Entry(NO, 10), &[]),
    (Step::Detach, Answer::Nothing, &[]),
];

fn tuple() -> &'static [Row] {
    &TUPLE
}

/// Dictionaries and instances, which keep the order: nothing at first.
static PAIRS: [Row; 21] = [
    (Step::Put(A, 10), Answer::Replaced(None), &[(A, 10)]),
    (
        Step::Put(B, 20),
        Answer::Replaced(None),
        &[(A, 10), (B, 20)],
    ),
    (
        Step::Put(C, 30),
        Answer::Replaced(None),
        &[(A, 10), (B, 20), (C, 30)],
    ),
    (
        Step::Put(B, 21),
        Answer::Replaced(Some(Val::Int(20))),
        &[(A, 10), (B, 21), (C, 30)],
    ),
    (
        Step::Find(C),
        Answer::Position(Some(2)),
        &[(A, 10), (B, 21), (C, 30)],
    ),
    (
        Step::Find(NO),
        Answer::Position(None),
        &[(A, 10), (B, 21), (C, 30)],
    ),
    (
        Step::Value(B),
        Answer::Value(Some(Val::Int(21))),
        &[(A, 10), (B, 21), (C, 30)],
    ),
    (
        Step::Value(NO),
        Answer::Value(None),
        &[(A, 10), (B, 21), (C, 30)],
    ),
    (
        Step::TakeKey(NO),
        Answer::Nothing,
        &[(A, 10), (B, 21), (C, 30)],
    ),
    (
        Step::Append(40),
        Answer::Nothing,
        &[(A, 10), (B, 21), (C, 30)],
    ),
    (Step::Take(0), Answer::Entry(A, 10), &[(B, 21), (C, 30)]),
    (
        Step::Put(A, 11),
        Answer::Replaced(None),
        &[(B, 21), (C, 30), (A, 11)],
    ),
    (
        Step::Find(A),
        Answer::Position(Some(2)),
        &[(B, 21), (C, 30), (A, 11)],
    ),
    (Step::TakeKey(C), Answer::Entry(C, 30), &[(B, 21), (A, 11)]),
    (
        Step::Put(C, 31),
        Answer::Replaced(None),
        &[(B, 21), (A, 11), (C, 31)],
    ),
    (
        Step::Value(C),
        Answer::Value(Some(Val::Int(31))),
        &[(B, 21), (A, 11), (C, 31)],
    ),
    (Step::TakeKey(A), Answer::Entry(A, 11), &[(B, 21), (C, 31)]),
    (Step::Detach, Answer::Entry(C, 31), &[(B, 21)]),
    (Step::Take(0), Answer::Entry(B, 21), &[]),
    (Step::TakeKey(B), Answer::Nothing, &[]),
    (Step::Detach, Answer::Nothing, &[]),
];

fn pairs() -> &'static [Row] {
    &PAIRS
}

/// Functions, of up to eight cells: the numbers from 1 to 8.
static CELLS: [Row; 2] = [
    (
        Step::Find(B),
        Answer::Position(None),
        &[
            (NO, 1),
            (NO, 2),
            (NO, 3),
            (NO, 4),
            (NO, 5),
            (NO, 6),
            (NO, 7),
            (NO, 8),
        ],
    ),
    (
        Step::Detach,
        Answer::Entry(NO, 8),
        &[
            (NO, 1),
            (NO, 2),
            (NO, 3),
            (NO, 4),
            (NO, 5),
            (NO, 6),
            (NO, 7),
        ],
    ),
];

fn cells() -> &'static [Row] {
    &CELLS
}

/// Weak references, which keep one callback: 10.
static CALLBACK: [Row; 9] = [
    (Step::Find(NO), Answer::Position(Some(0)), &[(NO, 10)]),
    (Step::Put(NO, 11), Answer::Replaced(None), &[(NO, 10)]),
    (
        Step::Value(NO),
        Answer::Value(Some(Val::Int(10))),
        &[(NO, 10)],
    ),
    (Step::Take(0), Answer::Entry(NO, 10), &[(NO, 10)]),
    (Step::TakeKey(NO), Answer::Entry(NO, 10), &[(NO, 10)]),
    (Step::Detach, Answer::Entry(NO, 10), &[]),
    (Step::Value(NO), Answer::Value(None), &[]),
    (Step::TakeKey(NO), Answer::Nothing, &[]),
    (Step::Detach, Answer::Nothing, &[]),
];

fn callback() -> &'static [Row] {
    &CALLBACK
}

#[test]
fn lists_and_tuples_change_as_in_python(rt: HostRuntime) -> Result<(), Fail> {
    let alloc = rt.alloc();
    let mut lists: Box<dyn Kind> = Box::new(alloc, ListKind::new(alloc))?;
    drive(
        &rt,
        alloc,
        &mut lists,
        &items(alloc, &[10, 20, 30])?,
        list(),
    )?;
    let mut tuples: Box<dyn Kind> = Box::new(alloc, TupleKind::new(alloc))?;
    drive(&rt, alloc, &mut tuples, &items(alloc, &[10, 20])?, tuple())
}

#[test]
fn dictionaries_and_instances_keep_the_order(rt: HostRuntime) -> Result<(), Fail> {
    let alloc = rt.alloc();
    let mut dicts: Box<dyn Kind> = Box::new(alloc, DictKind::new(alloc))?;
    drive(&rt, alloc, &mut dicts, &[], pairs())?;
    let mut instances: Box<dyn Kind> = Box::new(alloc, InstKind::new(alloc))?;
    drive(&rt, alloc, &mut instances, &[], pairs())
}

#[test]
fn functions_keep_eight_cells_and_weak_references_one_callback(
    rt: HostRuntime,
) -> Result<(), Fail> {
    let alloc = rt.alloc();
    let mut functions: Box<dyn Kind> = Box::new(alloc, FuncKind::new(alloc))?;
    let parts = items(alloc, &[1, 2, 3, 4, 5, 6, 7, 8])?;
    drive(&rt, alloc, &mut functions, &parts, cells())?;
    let mut weak: Box<dyn Kind> = Box::new(alloc, WeakKind::new(alloc))?;
    drive(&rt, alloc, &mut weak, &items(alloc, &[10])?, callback())
}

/// Makes an object of items, appends the same items to an empty one, and removes them.
fn pass_through<K: Kind>(
    rt: &impl Abort,
    alloc: Global,
    kind: &mut K,
    parts: &[Entry],
) -> Result<(), Fail>
    requires parts { IsParts (K.kind kind.old) parts.now }
    requires none { IsParts (K.kind kind.old) [] }
{
    let made = make(kind, parts)?;
    let at = make(kind, &[])?;
    'appends: for part in parts {
        append(kind, at, part.val)?;
    }
    assert_entries(rt, alloc, kind, made, parts)?;
    assert_entries(rt, alloc, kind, at, parts)?;
    'takes: for part in parts {
        assert_eq!(rt; take_first(kind, at), Some(part.val));
    }
    free(kind, at);
    Ok(())
}

/// Values at the ends of their ranges.
const ENDS: [Val; 10] = [
    Val::None,
    Val::Int(i64::MIN),
    Val::Int(-1),
    Val::Int(0),
    Val::Int(i64::MAX),
    Val::Str(0),
    Val::Str(u32::MAX),
    Val::Ref(0),
    Val::Ref(1 << 32),
    Val::Ref(u64::MAX),
];

/// Appends items, and removes each again.
fn append_many<K: Kind>(rt: &impl Abort, kind: &mut K, count: u32) -> Result<(), Fail>
    requires { IsParts (K.kind kind.old) [] }
{
    let at = make(kind, &[])?;
    'appends: for _ in 0..count {
        append(kind, at, Val::Int(7))?;
    }
    assert_eq!(rt; kind.len(at) as u64, count as u64);
    'detaches: for _ in 0..count {
        assert_eq!(rt; detach(kind, at), Answer::Entry(NO, 7));
    }
    free(kind, at);
    Ok(())
}

/// The items of the numbers from 0 below the count.
fn numbers(alloc: Global, count: i64) -> Result<Vec<Entry>, AllocError>
    ensures { IfOk result (λ entries. AreItems entries.items) }
{
    let mut entries = Vec::new(alloc);
    for number in 0..count {
        entries.push(item_of(Val::Int(number)))?;
    }
    Ok(entries)
}

/// What `list(range(200))` is in Python after `l[70] = -70` and `del l[100]`.
fn numbers_changed(alloc: Global) -> Result<Vec<Entry>, AllocError> {
    let mut entries = Vec::new(alloc);
    for number in 0..200 {
        if number == 70 {
            entries.push(item_of(Val::Int(-70)))?;
        } else if number != 100 {
            entries.push(item_of(Val::Int(number)))?;
        }
    }
    Ok(entries)
}

/// Removes the last of these entries.
pub fn last_of(entries: &mut Vec<Entry>) -> Answer {
    match entries.pop() {
        Some(entry) => answer_of(entry),
        None => Answer::Nothing,
    }
}

/// Appends the numbers below 200 one by one, and checks all after each.
fn append_numbers<K: Kind>(
    rt: &impl Abort,
    alloc: Global,
    kind: &mut K,
    at: usize,
) -> Result<(), Fail>
    requires { Holds (K.bodies kind.old) at }
    ensures { Holds (K.bodies kind.new) at }
{
    'appends: for number in 0..200 {
        append(kind, at, Val::Int(number))?;
        let expected = numbers(alloc, number + 1)?;
        assert_entries(rt, alloc, kind, at, expected.as_slice())?;
    }
    Ok(())
}

/// Removes the last entry repeatedly, past the end.
pub fn detach_each<K: Kind>(
    rt: &impl Abort,
    kind: &mut K,
    at: usize,
    left: &mut Vec<Entry>,
    count: u32,
)
    requires { Holds (K.bodies kind.old) at }
    ensures { Holds (K.bodies kind.new) at }
{
    'detaches: for _ in 0..count {
        assert_eq!(rt; detach(kind, at), last_of(left));
    }
}

/// Replaces item 70 of 200, removes item 100, and then all.
fn change_numbers<K: Kind>(
    rt: &impl Abort,
    alloc: Global,
    kind: &mut K,
    at: usize,
) -> Result<(), Fail>
    requires { Holds (K.bodies kind.old) at }
    ensures { Holds (K.bodies kind.new) at }
{
    let replaced = put(kind, at, Val::Int(70), -70)?;
    assert_eq!(rt; replaced, Answer::Replaced(Some(Val::Int(70))));
    assert_eq!(rt; take(kind, at, 100), Answer::Entry(NO, 100));
    let mut left = numbers_changed(alloc)?;
    assert_eq!(rt; left.len(), 199);
    assert_entries(rt, alloc, kind, at, left.as_slice())?;
    detach_each(rt, kind, at, &mut left, 200);
    Ok(())
}

/// An object of items that gets 200 numbers, loses all, and gets one again.
fn grow_and_shrink<K: Kind>(rt: &impl Abort, alloc: Global, kind: &mut K) -> Result<(), Fail>
    requires { IsParts (K.kind kind.old) [] }
{
    let at = make(kind, &[])?;
    append_numbers(rt, alloc, kind, at)?;
    change_numbers(rt, alloc, kind, at)?;
    assert_eq!(rt; kind.len(at), 0);
    append(kind, at, Val::Int(7))?;
    assert_eq!(rt; detach(kind, at), Answer::Entry(NO, 7));
    free(kind, at);
    Ok(())
}

#[test]
fn lists_keep_what_they_get_and_become_long_and_short_again(rt: HostRuntime) -> Result<(), Fail> {
    let alloc = rt.alloc();
    let ends = items_with(alloc, &ENDS)?;
    pass_through(&rt, alloc, &mut ListKind::new(alloc), &ends)?;
    let long = numbers(alloc, 200)?;
    pass_through(&rt, alloc, &mut ListKind::new(alloc), &long)?;
    grow_and_shrink(&rt, alloc, &mut ListKind::new(alloc))?;
    append_many(&rt, &mut ListKind::new(alloc), 4_000_000)
}
