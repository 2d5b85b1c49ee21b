//! A few pairs, searched one by one.
ghost use Rattle.std.specs.Prelude.{◌≡◌, ◌<◌, ◌≤◌, ◌↔◌, ◌++◌, ◌+◌, ◌∷◌, [], length, take, IsTrue, None, IfOk, IfNone, IsNone, OnOk, OnErr, OnSome, option_to_list, position, slice_get, remove};
ghost use Rattle.std.specs.List.{position_from};
ghost use Rattle.cg_graph.specs.Value.{value_at, put, without_key, references, entry_at as entry_under};
ghost use Rattle.cg_kind.specs.Calls.{has_key, next_entries};
ghost use Rattle.cg_kinds.specs.Pairs.{AreKeysOnce};

use crate::kept::note_slice;
use crate::nine::Nine;
use crate::pair::Pair;
use crate::table::Table;
use cg_kind::{Noted, ROOM};
use cg_value::{Entry, Val};
use std::alloc::{AllocError, Global};
use std::marker::Model;

/// The most pairs kept in a list. From about eight pairs on a map is faster to search, but a small
/// map takes too much memory: one of ten pairs that has just grown takes more than 64 bytes a pair.
const FEW: usize = 24;

/// Pairs in insertion order, with distinct keys.
///
/// They have no spare capacity, and nothing is hashed.
#[derive(Drop)]
pub struct Few {
    pairs: Vec<Pair>,
}

impl Model for Few {
    ghost use Rattle.std.specs.Prelude.{List};
    ghost use Rattle.cg_value.specs.declared.Entry.{Entry};
    ghost use Rattle.cg_kinds.specs.Pairs.{AreKeysOnce};

    ghost Value = { List Entry };

    ghost view = { λ f. f.pairs.items };

    ghost invariant = { λ f. AreKeysOnce f.pairs.items };
}

/// The first position of a key.
fn place_in(pairs: &[Pair], key: Val) -> Option<usize>
    ensures { result ≡ position_from (has_key key) 0 pairs.now }
{
    let wanted = Nine::new(key);
    'pairs: for at in 0..pairs.len() {
        if pairs[at].is_under(&wanted) {
            return Some(at);
        }
    }
    None
}

/// Replaces the value of a key if it is present; returns the old one.
fn replace_in(pairs: &mut Vec<Pair>, key: Val, val: Val) -> Option<Val>
    ensures replaced { result ≡ value_at pairs.old.items key }
    ensures put { OnSome result (pairs.new.items ≡ put pairs.old.items key val) }
    ensures stays { IfNone result (pairs.new.items ≡ pairs.old.items) }
{
    match place_in(pairs.as_slice(), key) {
        Some(at) => {
            let pair = &mut pairs[at];
            let was = pair.val();
            pair.set_val(val);
            Some(was)
        }
        None => None,
    }
}

/// Adds a pair. A full list grows by half and one, so one pair takes the room of one, and two that
/// of two; a vector would reserve room for at least four.
fn push_to(pairs: &mut Vec<Pair>, pair: Entry) -> Result<(), AllocError>
    ensures ok { OnOk result (pairs.new.items ≡ pairs.old.items ++ pair ∷ []) }
    ensures err { OnErr result (pairs.new.items ≡ pairs.old.items) }
{
    if pairs.len() == pairs.capacity() {
        let more = pairs.len() / 2 + 1;
        pairs.reserve_exact(more)?;
    }
    pairs.push_reserved(Pair::new(pair));
    Ok(())
}

/// The pairs in a map, in the same order, with room for at least one more.
fn table_of(alloc: Global, pairs: &[Pair]) -> Result<Table, AllocError>
    requires { AreKeysOnce pairs.now }
    ensures { IfOk result (λ table. table ≡ pairs.now) }
{
    let mut table = Table::with_room(alloc, pairs.len() + 1)?;
    'moved: for at in 0..pairs.len() {
        let pair = pairs[at].entry();
        let _ = table.put(pair.key, pair.val)?;
    }
    Ok(table)
}

impl Few {
    /// One pair, with room for another.
    pub fn of_one(alloc: Global, pair: Entry) -> Result<Few, AllocError>
        ensures { IfOk result (λ few. few ≡ pair ∷ []) }
    {
        let mut pairs = Vec::with_capacity(alloc, 2)?;
        pairs.push_reserved(Pair::new(pair));
        Ok(Few { pairs })
    }

    /// The number of pairs.
    pub fn len(&self) -> usize
        ensures { result ≡ length self.now }
    {
        self.pairs.len()
    }

    /// Whether the list is full.
    pub fn is_full(&self) -> bool
        ensures { IsTrue result ↔ (FEW ≤ length self.now) }
    {
        self.pairs.len() >= FEW
    }

    /// The pair at a position.
    pub fn entry_at(&self, i: usize) -> Entry
        requires { i < length self.now }
        ensures { slice_get self.now i ≡ Some result }
    {
        self.pairs[i].entry()
    }

    /// Visits pairs from a position on, as `cg_kind::Kind::note_from` specifies.
    #[inline(always)]
    pub fn note_from(&self, from: usize, found: &mut [u64]) -> Noted
        requires within { from ≤ length self.now }
        requires room { ROOM ≤ length found.old }
        ensures next { result.next ≡ from + length (next_entries self.now from) }
        ensures references { take result.references found.new
            ≡ references (next_entries self.now from) }
        ensures few { result.references ≤ ROOM }
        ensures room { length found.new ≡ length found.old }
    {
        note_slice(self.pairs.as_slice(), from, found)
    }

    /// The position of a key.
    pub fn find(&self, key: Val) -> Option<usize>
        ensures { result ≡ position (has_key key) self.now }
    {
        place_in(self.pairs.as_slice(), key)
    }

    /// The value under a key.
    pub fn value_of(&self, key: Val) -> Option<Val>
        ensures { result ≡ value_at self.now key }
    {
        match self.find(key) {
            Some(at) => Some(self.pairs[at].val()),
            None => None,
        }
    }

    /// Replaces the value of a key if it is present; returns the old one.
    pub fn replace(&mut self, key: Val, val: Val) -> Option<Val>
        ensures replaced { result ≡ value_at self.old key }
        ensures put { OnSome result (self.new ≡ put self.old key val) }
        ensures stays { IfNone result (self.new ≡ self.old) }
    {
        let replaced = replace_in(&mut self.pairs, key, val);
        replaced
    }

    /// Appends a pair with a new key.
    pub fn push(&mut self, key: Val, val: Val) -> Result<(), AllocError>
        requires new { value_at self.old key ≡ None }
        ensures ok { OnOk result (self.new ≡ put self.old key val) }
        ensures err { OnErr result (self.new ≡ self.old) }
    {
        push_to(&mut self.pairs, Entry { key, val })?;
        Ok(())
    }

    /// Removes the pair at a position; later ones move down.
    #[inline(always)]
    pub fn take(&mut self, i: usize) -> Entry
        requires { i < length self.old }
        ensures entry { slice_get self.old i ≡ Some result }
        ensures rest { self.new ≡ remove self.old i }
    {
        self.pairs.remove(i).entry()
    }

    /// Removes the pair of a key, if there is one; later ones move down.
    pub fn take_key(&mut self, key: Val) -> Option<Entry>
        ensures entry { result ≡ entry_under self.old key }
        ensures rest { self.new ≡ without_key self.old key }
    {
        match self.find(key) {
            Some(at) => Some(Entry {
                key,
                val: self.take(at).val,
            }),
            None => None,
        }
    }

    /// Removes the last pair, if there is one.
    pub fn detach(&mut self) -> Option<Entry>
        ensures pairs { self.old ≡ self.new ++ option_to_list result }
        ensures empty { IsNone result → self.old ≡ [] }
    {
        match self.pairs.pop() {
            Some(last) => Some(last.entry()),
            None => None,
        }
    }

    /// The pairs in a map, and one more with a new key after them. These pairs are unchanged.
    ///
    /// Not inlined: otherwise each put would carry the locals of a new map and clear them.
    #[inline(never)]
    pub fn table_with(&self, key: Val, val: Val) -> Result<Box<Table>, AllocError>
        ensures { IfOk result (λ table. table.value ≡ put self.now key val) }
    {
        let alloc = *self.pairs.allocator();
        let mut table = table_of(alloc, self.pairs.as_slice())?;
        let _ = table.put(key, val)?;
        let boxed = Box::new(alloc, table)?;
        Ok(boxed)
    }
}
