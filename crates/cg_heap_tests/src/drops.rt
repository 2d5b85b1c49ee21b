//! Keys that are dropped in large numbers. What a dictionary answers is what a plain list in order
//! of insertion would.
ghost use Rattle.std.specs.Prelude.{[]};
ghost use Rattle.cg_kind.specs.Bodies.{Holds};
ghost use Rattle.cg_kind.specs.Calls.{IsParts};

use crate::kinds::{Answer, make, put, take, take_key};
use cg_kind::Kind;
use cg_kinds::DictKind;
use cg_value::Val;
use std::alloc::Global;
use std::process::Abort;
use std::test::Fail;

/// What a pair is taken by.
#[derive(Clone, Copy, Drop)]
enum By {
    Place,
    Key,
}

/// Which key goes next.
#[derive(Clone, Copy, Drop)]
enum Order {
    OldestFirst,
    NewestFirst,
    FromTheMiddle,
    /// The oldest, and a new one comes for it.
    InTurn,
}

/// Takes the pair at a place by that or by its key; a search for the key must find the place.
fn drop_key<K: Kind>(rt: &impl Abort, kind: &mut K, at: usize, place: usize, key: u64, by: By)
    requires { Holds (K.bodies kind.old) at }
    ensures { Holds (K.bodies kind.new) at }
{
    let found = kind.find(at, Val::Ref(key));
    let value = kind.value_of(at, Val::Ref(key));
    assert!(rt;
        found == Some(place) && value == Some(Val::Int(7)),
        "at {key}"
    );
    let dropped = match by {
        By::Place => take(kind, at, place),
        By::Key => take_key(kind, at, Val::Ref(key)),
    };
    assert_eq!(rt; dropped, Answer::Entry(Val::Ref(key), 7));
    let found = kind.find(at, Val::Ref(key));
    let value = kind.value_of(at, Val::Ref(key));
    let again = take_key(kind, at, Val::Ref(key));
    assert!(rt;
        found.is_none() && value.is_none() && again == Answer::Nothing,
        "at {key}"
    );
}

/// The place and the key of the pair that goes next, of keys from 0 to before `count` of which so
/// many are gone.
fn next_of(order: Order, count: u64, gone: u64) -> (usize, u64) {
    let left = count.saturating_sub(gone);
    match order {
        Order::OldestFirst | Order::InTurn => (0, gone),
        Order::NewestFirst => (left.saturating_sub(1) as usize, left.saturating_sub(1)),
        Order::FromTheMiddle if gone % 2 == 0 => {
            ((left / 2) as usize, (count / 2).saturating_add(gone / 2))
        }
        Order::FromTheMiddle => ((left / 2) as usize, left / 2),
    }
}

/// Fills a dictionary with the keys from 0 on, and drops as many in an order.
fn fill_and_drop<K: Kind>(
    rt: &impl Abort,
    kind: &mut K,
    count: u64,
    drops: u64,
    order: Order,
    by: By,
) -> Result<(), Fail>
    requires { IsParts (K.kind kind.old) [] }
{
    let at = make(kind, &[])?;
    'keys: for key in 0..count {
        put(kind, at, Val::Ref(key), 7)?;
    }
    'drops: for gone in 0..drops {
        let (place, key) = next_of(order, count, gone);
        drop_key(rt, kind, at, place, key, by);
        if let Order::InTurn = order {
            put(kind, at, Val::Ref(gone.saturating_add(count)), 7)?;
        }
    }
    let left = match order {
        Order::InTurn => count,
        _ => count.saturating_sub(drops),
    };
    assert_eq!(rt; kind.len(at) as u64, left);
    Ok(())
}

/// A hundred thousand keys go in each order.
fn drop_in_each_order(rt: &impl Abort, alloc: Global, by: By) -> Result<(), Fail> {
    for (count, order) in [
        (100_000, Order::OldestFirst),
        (100_000, Order::NewestFirst),
        (100_000, Order::FromTheMiddle),
        (1_000, Order::InTurn),
    ] {
        fill_and_drop(rt, &mut DictKind::new(alloc), count, 100_000, order, by)?;
    }
    Ok(())
}

#[test]
fn a_hundred_thousand_keys_go_by_their_places(rt: HostRuntime) -> Result<(), Fail> {
    drop_in_each_order(&rt, rt.alloc(), By::Place)
}

#[test]
fn a_hundred_thousand_keys_go_by_themselves(rt: HostRuntime) -> Result<(), Fail> {
    drop_in_each_order(&rt, rt.alloc(), By::Key)
}
