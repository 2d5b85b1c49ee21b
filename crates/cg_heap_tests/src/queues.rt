//! Items removed at the front of a long list, as in a queue.
ghost use Rattle.std.specs.Prelude.{[], IfOk};
ghost use Rattle.cg_kind.specs.Bodies.{Holds};
ghost use Rattle.cg_kind.specs.Calls.{IsParts};

use crate::kinds::{Answer, Step, advance, append, make, take_first};
use cg_kind::Kind;
use cg_kinds::ListKind;
use cg_value::Val;
use std::alloc::{AllocError, Global};
use std::process::Abort;
use std::test::Fail;

/// The whole numbers from one to before another, which are the items of a list: appended one by
/// one, and taken off in the same order.
#[derive(Clone, Copy, Drop)]
struct Numbers {
    first: i64,
    next: i64,
}

const NONE: Numbers = Numbers { first: 0, next: 0 };

/// Appends `count` numbers.
fn append_some<K: Kind>(
    kind: &mut K,
    at: usize,
    numbers: Numbers,
    count: u32,
) -> Result<Numbers, AllocError>
    requires { Holds (K.bodies kind.old) at }
    ensures { Holds (K.bodies kind.new) at }
{
    let mut next = numbers.next;
    'appends: for _ in 0..count {
        append(kind, at, Val::Int(next))?;
        next = next.wrapping_add(1);
    }
    Ok(Numbers { next, ..numbers })
}

/// Checks all numbers.
fn look<K: Kind>(rt: &impl Abort, kind: &K, at: usize, numbers: Numbers)
    requires { Holds (K.bodies kind.now) at }
{
    let mut number = numbers.first;
    'places: for i in 0..kind.len(at) {
        assert_eq!(rt; kind.entry_at(at, i).val, Val::Int(number));
        number = number.wrapping_add(1);
    }
    assert_eq!(rt; number, numbers.next);
}

/// Removes numbers, and checks the rest after each.
fn take_each<K: Kind>(
    rt: &impl Abort,
    kind: &mut K,
    at: usize,
    numbers: Numbers,
    count: u32,
) -> Numbers
    requires { Holds (K.bodies kind.old) at }
    ensures { Holds (K.bodies kind.new) at }
{
    let mut left = numbers;
    'takes: for _ in 0..count {
        assert_eq!(rt; take_first(kind, at), Some(Val::Int(left.first)));
        left.first = left.first.wrapping_add(1);
        look(rt, kind, at, left);
    }
    left
}

/// Each turn removes this many numbers, and then appends one.
fn take_and_append<K: Kind>(
    rt: &impl Abort,
    kind: &mut K,
    at: usize,
    numbers: Numbers,
    turns: u32,
    taken: u32,
) -> Result<Numbers, AllocError>
    requires { Holds (K.bodies kind.old) at }
    ensures { Holds (K.bodies kind.new) at }
{
    let mut left = numbers;
    'turns: for _ in 0..turns {
        left = take_each(rt, kind, at, left, taken);
        left = append_some(kind, at, left, 1)?;
    }
    Ok(left)
}

/// A queue that shrinks, grows, stays full, and becomes empty.
fn queue_up<K: Kind>(rt: &impl Abort, kind: &mut K) -> Result<(), Fail>
    requires { IsParts (K.kind kind.old) [] }
{
    let at = make(kind, &[])?;
    let some = append_some(kind, at, NONE, 200)?;
    let fewer = take_and_append(rt, kind, at, some, 75, 2)?;
    look(rt, kind, at, fewer);
    let many = append_some(kind, at, fewer, 1000)?;
    look(rt, kind, at, many);
    let others = take_and_append(rt, kind, at, many, 2000, 1)?;
    let none = take_each(rt, kind, at, others, 1125);
    assert_eq!(rt; take_first(kind, at), None);
    let last = append_some(kind, at, none, 3)?;
    take_each(rt, kind, at, last, 3);
    Ok(())
}

/// A list of the numbers from 10 to 99, of which the first ten have left at the front.
fn ninety<K: Kind>(rt: &impl Abort, kind: &mut K) -> Result<usize, AllocError>
    requires { IsParts (K.kind kind.old) [] }
    ensures { IfOk result (λ at. Holds (K.bodies kind.new) at) }
{
    let at = make(kind, &[])?;
    let hundred = append_some(kind, at, NONE, 100)?;
    take_each(rt, kind, at, hundred, 10);
    Ok(at)
}

/// What leaves at the front moves the places of the others.
static PLACES: [(Step, Answer); 7] = [
    (
        Step::Put(Val::Int(0), -10),
        Answer::Replaced(Some(Val::Int(10))),
    ),
    (
        Step::Put(Val::Int(89), -99),
        Answer::Replaced(Some(Val::Int(99))),
    ),
    (Step::Take(1), Answer::Entry(Val::None, 11)),
    (Step::Detach, Answer::Entry(Val::None, -99)),
    (Step::Detach, Answer::Entry(Val::None, 98)),
    (Step::Take(0), Answer::Entry(Val::None, -10)),
    (Step::Take(0), Answer::Entry(Val::None, 12)),
];

fn places() -> &'static [(Step, Answer)] {
    &PLACES
}

fn change_ninety<K: Kind>(rt: &impl Abort, kind: &mut K) -> Result<(), Fail>
    requires { IsParts (K.kind kind.old) [] }
{
    let at = ninety(rt, kind)?;
    'rows: for (step, answer) in places() {
        let found = advance(kind, at, *step)?;
        assert_eq!(rt; found, *answer, "at {step:?}");
    }
    assert!(rt; kind.len(at) == 85);
    Ok(())
}

#[test]
fn numbers_leave_at_the_front_and_places_count_from_the_first_left(
    rt: HostRuntime,
) -> Result<(), Fail> {
    queue_up(&rt, &mut ListKind::new(rt.alloc()))?;
    change_ninety(&rt, &mut ListKind::new(rt.alloc()))
}
