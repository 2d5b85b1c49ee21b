//! Weak references that are added, wait and leave, in a table without a heap. The walks are worked
//! out by hand.
ghost use Rattle.std.specs.Prelude.{◌<◌};
ghost use Rattle.std.specs.List.{All};

use cg_weak::WeakTable;
use std::alloc::{AllocError, Global};
use std::marker::Model;
use std::process::Abort;
use std::test::Fail;

/// A table that numbers its weak references from `next` on, as a heap does.
#[derive(Drop)]
struct Numbered {
    table: WeakTable,
    next: u64,
}

impl Model for Numbered {
    ghost use Rattle.std.specs.Prelude.{ℕ, ◌<◌};
    ghost use Rattle.std.specs.List.{All};

    ghost Value = { ℕ };

    ghost view = { λ n. n.next };

    ghost invariant = { λ n. All (λ r. r.weak < n.next) n.table.rows };
}

impl Numbered {
    fn new(alloc: Global, next: u64) -> Numbered {
        Numbered {
            table: WeakTable::new(alloc),
            next,
        }
    }

    fn attach(&mut self, referent: u64) -> Result<(), AllocError> {
        if self.next == u64::MAX {
            return Ok(());
        }
        self.table.attach(self.next, referent)?;
        self.next += 1;
        Ok(())
    }

    fn attach_reserved(&mut self, referent: u64) -> Result<(), AllocError> {
        if self.next == u64::MAX {
            return Ok(());
        }
        self.table.reserve()?;
        self.table.attach_reserved(self.next, referent);
        self.next += 1;
        Ok(())
    }

    fn clear(&mut self, weak: u64, wait: bool) {
        if self.table.referent_of(weak).is_some() {
            self.table.clear(weak, wait);
        }
    }

    fn forget_newest(&mut self, referent: u64) -> Option<u64> {
        let weak = self.table.newest_waiting(referent)?;
        let _referent = self.table.referent_of(weak);
        self.table.forget(weak);
        Some(weak)
    }

    fn older_of(&self, weak: u64) -> Option<u64> {
        let _referent = self.table.referent_of(weak)?;
        self.table.older_of(weak)
    }

    /// The weak references to an object, by `newest_of` and `older_of`.
    fn walk(&self, alloc: Global, referent: u64) -> Result<Vec<u64>, AllocError> {
        let mut met = Vec::new(alloc);
        let mut at = self.table.newest_of(referent);
        // One turn more than there are numbers, so that an endless walk shows.
        for _ in 0..=self.next {
            let Some(weak) = at else { break };
            met.push(weak)?;
            at = self.older_of(weak);
        }
        Ok(met)
    }
}

/// A step, with what it answers, or a look at the table.
#[derive(Clone, Copy)]
enum Row {
    Attach(u64),
    AttachReserved(u64),
    Clear(u64, bool),
    /// The weak references to the objects 1, 2 and 3.
    Walks(&'static [u64], &'static [u64], &'static [u64]),
    Referent(u64, Option<u64>),
    Newest(u64, Option<u64>),
    Waiting(u64, Option<u64>),
    Forget(u64, Option<u64>),
}

/// Changes the table.
fn change(rt: &impl Abort, numbered: &mut Numbered, row: Row) -> Result<(), AllocError> {
    match row {
        Row::Attach(referent) => numbered.attach(referent)?,
        Row::AttachReserved(referent) => numbered.attach_reserved(referent)?,
        Row::Clear(weak, wait) => numbered.clear(weak, wait),
        Row::Forget(referent, want) => {
            assert_eq!(rt; numbered.forget_newest(referent), want, "of {referent}");
        }
        _ => {}
    }
    Ok(())
}

/// Looks at the table.
fn look(rt: &impl Abort, alloc: Global, numbered: &Numbered, row: Row) -> Result<(), AllocError> {
    let (found, want, object) = match row {
        Row::Walks(first, second, third) => {
            assert!(rt;
                numbered.walk(alloc, 1)?.as_slice() == first,
                "the walk of 1"
            );
            assert!(rt;
                numbered.walk(alloc, 2)?.as_slice() == second,
                "the walk of 2"
            );
            assert!(rt;
                numbered.walk(alloc, 3)?.as_slice() == third,
                "the walk of 3"
            );
            return Ok(());
        }
        Row::Referent(weak, want) => (numbered.table.referent_of(weak), want, weak),
        Row::Newest(object, want) => (numbered.table.newest_of(object), want, object),
        Row::Waiting(object, want) => (numbered.table.newest_waiting(object), want, object),
        _ => return Ok(()),
    };
    assert_eq!(rt; found, want, "of {object}");
    Ok(())
}

/// Takes a table through the rows. What owns a table stands apart: with all that is asked of it, it
/// would be proved for long.
fn follow(
    rt: &impl Abort,
    alloc: Global,
    numbered: &mut Numbered,
    rows: &[Row],
) -> Result<(), Fail> {
    'rows: for row in rows {
        change(rt, numbered, *row)?;
        look(rt, alloc, numbered, *row)?;
    }
    Ok(())
}

/// The weak references 11, 13, 14, 16 to object 1, and 12, 15 to object 2.
static SIX: [Row; 6] = [
    Row::Attach(1),
    Row::Attach(2),
    Row::Attach(1),
    Row::Attach(1),
    Row::Attach(2),
    Row::Attach(1),
];

fn six() -> &'static [Row] {
    &SIX
}

/// Walks go from the newest to the oldest.
static WALKS: [Row; 13] = [
    Row::Walks(&[16, 14, 13, 11], &[15, 12], &[]),
    // From the middle, the newest end and the oldest end; the one of another object stays.
    Row::Clear(14, false),
    Row::Walks(&[16, 13, 11], &[15, 12], &[]),
    Row::Clear(16, true),
    Row::Clear(11, false),
    Row::Walks(&[13], &[15, 12], &[]),
    // A new one is the newest; one of an object that had none is alone.
    Row::AttachReserved(1),
    Row::Attach(3),
    Row::Walks(&[17, 13], &[15, 12], &[18]),
    Row::Clear(18, true),
    Row::Clear(12, true),
    Row::Clear(15, true),
    Row::Walks(&[17, 13], &[], &[]),
];

fn walks() -> &'static [Row] {
    &WALKS
}

/// A weak reference has its referent until it is cleared.
static REFERENTS: [Row; 10] = [
    Row::Clear(13, true),
    Row::Clear(15, false),
    Row::Referent(10, None),
    Row::Referent(11, Some(1)),
    Row::Referent(12, Some(2)),
    Row::Referent(13, None),
    Row::Referent(14, Some(1)),
    Row::Referent(15, None),
    Row::Referent(16, Some(1)),
    Row::Referent(17, None),
];

fn referents() -> &'static [Row] {
    &REFERENTS
}

/// Those that wait are forgotten newest first. They are set waiting in an order that is neither
/// rising nor falling.
static WAITING: [Row; 20] = [
    Row::Clear(14, true),
    Row::Clear(16, true),
    Row::Clear(11, true),
    Row::Clear(13, true),
    Row::Clear(12, true),
    Row::Newest(1, None),
    Row::Newest(2, Some(15)),
    Row::Waiting(3, None),
    Row::Waiting(1, Some(16)),
    Row::Forget(1, Some(16)),
    Row::Waiting(1, Some(14)),
    Row::Forget(1, Some(14)),
    Row::Waiting(1, Some(13)),
    Row::Forget(1, Some(13)),
    Row::Waiting(1, Some(11)),
    Row::Forget(1, Some(11)),
    Row::Waiting(1, None),
    Row::Forget(1, None),
    Row::Forget(2, Some(12)),
    Row::Forget(2, None),
];

fn waiting() -> &'static [Row] {
    &WAITING
}

#[test]
fn weak_references_are_walked_cleared_and_forgotten(rt: HostRuntime) -> Result<(), Fail> {
    let alloc = rt.alloc();
    for rows in [walks(), referents(), waiting()] {
        let mut numbered = Numbered::new(alloc, 11);
        follow(&rt, alloc, &mut numbered, six())?;
        follow(&rt, alloc, &mut numbered, rows)?;
    }
    Ok(())
}

const MANY: u64 = 100_000;

/// A table with `MANY` weak references to object 1, from 1 on.
fn many(alloc: Global) -> Result<Numbered, AllocError> {
    let mut numbered = Numbered::new(alloc, 1);
    for _ in 0..MANY {
        numbered.attach(1)?;
    }
    Ok(numbered)
}

#[test]
fn many_are_cleared_newest_first(rt: HostRuntime) -> Result<(), Fail> {
    let mut numbered = many(rt.alloc())?;
    // As in a death: all are cleared, every other one waits, and those are called.
    for weak in (1..=MANY).rev() {
        assert_eq!(&rt; numbered.table.newest_of(1), Some(weak));
        numbered.clear(weak, weak % 2 == 0);
    }
    assert_eq!(&rt; numbered.table.newest_of(1), None);
    for half in (1..=MANY / 2).rev() {
        assert_eq!(&rt; numbered.forget_newest(1), Some(2 * half));
    }
    assert_eq!(&rt; numbered.table.newest_waiting(1), None);
    Ok(())
}

#[test]
fn many_are_cleared_from_the_middle(rt: HostRuntime) -> Result<(), Fail> {
    let mut numbered = many(rt.alloc())?;
    // Those whose number is not a multiple of 4 wait, oldest first, or leave.
    for weak in 1..=MANY {
        if weak % 4 != 0 {
            numbered.clear(weak, weak % 4 == 1);
        }
    }
    let mut at = numbered.table.newest_of(1);
    for quarter in (1..=MANY / 4).rev() {
        assert_eq!(&rt; at, Some(4 * quarter));
        assert_eq!(&rt; numbered.forget_newest(1), Some(4 * quarter - 3));
        at = numbered.older_of(4 * quarter);
    }
    assert_eq!(&rt; at, None);
    assert_eq!(&rt; numbered.table.newest_waiting(1), None);
    Ok(())
}
