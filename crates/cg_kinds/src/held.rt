//! The pairs of a dictionary or an instance: at most one in place, few in a list, or any number in a
//! map.
ghost use Rattle.std.specs.Prelude.{◌≡◌, ◌<◌, ◌+◌, ◌≤◌, ◌++◌, [], length, take, IfOk, IsOk, IsNone, IsSome, OnOk, OnErr, option_to_list, position, slice_get, remove};
ghost use Rattle.cg_graph.specs.Value.{value_at, put, without_key, references, entry_at as entry_under};
ghost use Rattle.cg_kind.specs.Calls.{has_key, next_entries};
ghost use Rattle.cg_kinds.specs.Held.{entries_held};

use crate::few::Few;
use crate::one::One;
use crate::pair::Pair;
use crate::table::Table;
use cg_kind::{Noted, ROOM};
use cg_value::{Entry, Val};
use std::alloc::{AllocError, Global};

/// Pairs in insertion order.
///
/// When they become too many for one form, all move into the next and stay there, however many
/// leave. So one pair takes no block of memory, and a search visits a few pairs and hashes nothing,
/// or hashes once and visits none.
#[derive(Drop)]
pub enum Held {
    One(One<Pair>),
    Few(Few),
    Many(Box<Table>),
}

// A pair in place takes no more room than the vector of a few.
const _: () = prove!(size_of::<Held>() == 32);

/// Removes the pair of a key from a few, if there is one.
///
/// A separate function, so that its result is not moved together with the caller's other results.
#[inline(always)]
fn take_from(few: &mut Few, key: Val) -> Option<Entry>
    ensures entry { result ≡ entry_under few.old key }
    ensures rest { few.new ≡ without_key few.old key }
{
    let taken = few.take_key(key);
    taken
}

impl Held {
    /// No pairs.
    pub fn new(alloc: Global) -> Held
        ensures { entries_held result ≡ [] }
    {
        Held::One(One { alloc, kept: None })
    }

    /// The number of pairs.
    #[inline(always)]
    pub fn len(&self) -> usize
        ensures { result ≡ length (entries_held self.now) }
    {
        match self {
            Held::One(one) => one.len(),
            Held::Few(few) => few.len(),
            Held::Many(table) => table.len(),
        }
    }

    /// The pair at a position.
    #[inline(always)]
    pub fn entry_at(&self, i: usize) -> Entry
        requires { i < length (entries_held self.now) }
        ensures { slice_get (entries_held self.now) i ≡ Some result }
    {
        match self {
            Held::One(one) => one.get().entry(),
            Held::Few(few) => few.entry_at(i),
            Held::Many(table) => table.entry_at(i),
        }
    }

    /// Visits pairs from a position on, as `cg_kind::Kind::note_from` specifies.
    #[inline(always)]
    pub fn note_from(&self, from: usize, found: &mut [u64]) -> Noted
        requires within { from ≤ length (entries_held self.now) }
        requires room { ROOM ≤ length found.old }
        ensures next { result.next ≡ from + length (next_entries (entries_held self.now) from) }
        ensures references { take result.references found.new
            ≡ references (next_entries (entries_held self.now) from) }
        ensures few { result.references ≤ ROOM }
        ensures room { length found.new ≡ length found.old }
    {
        match self {
            Held::One(one) => one.note_from(from, found),
            Held::Few(few) => few.note_from(from, found),
            Held::Many(table) => table.note_from(from, found),
        }
    }

    /// The position of a key.
    #[inline(always)]
    pub fn find(&self, key: Val) -> Option<usize>
        ensures { result ≡ position (has_key key) (entries_held self.now) }
    {
        match self {
            Held::One(one) => one.find(key),
            Held::Few(few) => few.find(key),
            Held::Many(table) => table.find(key),
        }
    }

    /// The value under a key.
    #[inline(always)]
    pub fn value_of(&self, key: Val) -> Option<Val>
        ensures { result ≡ value_at (entries_held self.now) key }
    {
        match self {
            Held::One(one) => one.value_of(key),
            Held::Few(few) => few.value_of(key),
            Held::Many(table) => table.value_of(key),
        }
    }

    /// An existing key gets the value; a new one goes last. Returns the old value of the key.
    #[inline(always)]
    pub fn put(&mut self, key: Val, val: Val) -> Result<Option<Val>, AllocError>
        ensures ok { OnOk result (entries_held self.new ≡ put (entries_held self.old) key val) }
        ensures replaced { IfOk result (λ was. was ≡ value_at (entries_held self.old) key) }
        ensures present { IsSome (value_at (entries_held self.old) key) → IsOk result }
        ensures err { OnErr result (entries_held self.new ≡ entries_held self.old) }
    {
        match self {
            Held::One(one) => match one.replace(key, val) {
                Some(was) => Ok(Some(was)),
                None => {
                    self.add(Entry { key, val })?;
                    Ok(None)
                }
            },
            Held::Few(few) => match few.replace(key, val) {
                Some(was) => Ok(Some(was)),
                None => {
                    self.add(Entry { key, val })?;
                    Ok(None)
                }
            },
            Held::Many(table) => {
                let replaced = table.put(key, val)?;
                Ok(replaced)
            }
        }
    }

    /// Appends a pair with a new key. The map is complete before the list is dropped, so an error
    /// keeps the list.
    ///
    /// It takes an entry, built only for this call; a key and a value would be copied at each
    /// `put`.
    #[inline(never)]
    fn add(&mut self, pair: Entry) -> Result<(), AllocError>
        requires new { value_at (entries_held self.old) pair.key ≡ None }
        ensures ok { OnOk result (entries_held self.new ≡ put (entries_held self.old) pair.key
            pair.val) }
        ensures err { OnErr result (entries_held self.new ≡ entries_held self.old) }
    {
        match self {
            Held::One(one) => match &one.kept {
                Some(first) => {
                    let mut few = Few::of_one(one.alloc, first.entry())?;
                    few.push(pair.key, pair.val)?;
                    *self = Held::Few(few);
                }
                None => one.kept = Some(Pair::new(pair)),
            },
            Held::Few(few) => {
                if few.is_full() {
                    *self = Held::Many(few.table_with(pair.key, pair.val)?);
                } else {
                    few.push(pair.key, pair.val)?;
                }
            }
            Held::Many(table) => {
                let _ = table.put(pair.key, pair.val)?;
            }
        }
        Ok(())
    }

    /// Removes the pair at a position; later ones move down.
    #[inline(always)]
    pub fn take(&mut self, i: usize) -> Entry
        requires { i < length (entries_held self.old) }
        ensures entry { slice_get (entries_held self.old) i ≡ Some result }
        ensures rest { entries_held self.new ≡ remove (entries_held self.old) i }
    {
        match self {
            Held::One(one) => {
                let entry = one.get().entry();
                one.kept = None;
                entry
            }
            Held::Few(few) => few.take(i),
            Held::Many(table) => table.take(i),
        }
    }

    /// Removes the pair of a key, if there is one; later ones move down.
    #[inline(always)]
    pub fn take_key(&mut self, key: Val) -> Option<Entry>
        ensures entry { result ≡ entry_under (entries_held self.old) key }
        ensures rest { entries_held self.new ≡ without_key (entries_held self.old) key }
    {
        match self {
            Held::One(one) => one.take_key(key),
            Held::Few(few) => take_from(few, key),
            Held::Many(table) => table.take_key(key),
        }
    }

    /// Removes the last pair, if there is one.
    #[inline(always)]
    pub fn detach(&mut self) -> Option<Entry>
        ensures pairs { entries_held self.old ≡ entries_held self.new ++ option_to_list result }
        ensures empty { IsNone result → entries_held self.old ≡ [] }
    {
        match self {
            Held::One(one) => match one.kept.take() {
                Some(last) => Some(last.entry()),
                None => None,
            },
            Held::Few(few) => few.detach(),
            Held::Many(table) => table.detach(),
        }
    }
}
