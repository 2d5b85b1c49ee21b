//! Pairs in insertion order, in a map that may have another order.
ghost use Rattle.std.specs.Prelude.{◌≡◌, ◌<◌, ◌^◌, ◌+◌, ◌≤◌, ◌++◌, ◌∷◌, [], All, length, Some, None, IfSome, IfNone, IsNone, IsSome, IsOk, IfOk, OnOk, OnErr, option_to_list, position, slice_get, remove, swap_remove, take, drop, slice_index_or, option_map, ◌-◌};
ghost use Rattle.std.specs.List.{range_with_len};
ghost use Rattle.cg_graph.specs.Value.{value_at, put, without_key, entry_references, references, entry_at as entry_under};
ghost use Rattle.cg_kind.specs.Calls.{has_key, next_entries};
ghost use Rattle.cg_kinds.specs.Pairs.{pair_entry, pairs_of, nothing, picked, unboxed, IsSoundOrder};

use crate::hasher::{KeyHashing, key_hashing};
use crate::nine::Nine;
use crate::order::Order;
use crate::pair::note_pair;
use cg_kind::{AT_ONCE, Noted, ROOM};
use cg_value::{Entry, Val};
use indexmap::IndexMap;
use indexmap::map::Entry as MapEntry;
use std::alloc::{AllocError, Global};
use std::marker::Model;

/// A map of packed keys and values.
type Map = IndexMap<Nine, Nine, KeyHashing>;

/// Pairs in insertion order.
///
/// The map itself keeps that order until a pair with many after it is removed. As it grows it keeps
/// little more room than its pairs need.
#[derive(Drop)]
pub struct Table {
    map: Map,
    /// Boxed, since most tables have no order.
    order: Option<Box<Order>>,
    room: Room,
}

/// A record of a map's room, in eight bytes.
#[derive(Drop)]
struct Room {
    /// The map's room in pairs when it last grew. More room than this means that it has grown
    /// again.
    all: u32,
    /// The map cannot grow before this many new keys arrive. Removed keys leave more room than this
    /// counts.
    left: u32,
}

impl Model for Table {
    ghost use Rattle.std.specs.Prelude.{List, length};
    ghost use Rattle.cg_value.specs.declared.Entry.{Entry};
    ghost use Rattle.cg_kinds.specs.Pairs.{ordered, unboxed, IsOrderOf};

    ghost Value = { List Entry };

    ghost view = { λ t. ordered t.map.entries (unboxed t.order) };

    ghost invariant = { λ t. IsOrderOf (length t.map.entries) (unboxed t.order) };
}

/// If at most this many pairs remain from a removed one on, itself included, the later ones shift
/// down. An order for fewer would not fit in 300 bytes plus 64 a pair, since the map doubles its
/// index at the 37th.
const CLOSE: usize = 44;

/// The entry of a packed key and a packed value.
#[inline(always)]
fn entry_of(key: &Nine, val: &Nine) -> Entry
    ensures { result ≡ pair_entry (key.now, val.now) }
{
    Entry {
        key: key.val(),
        val: val.val(),
    }
}

#[inline(always)]
fn pair_at(map: &Map, index: usize) -> Entry
    requires { index < length map.now.entries }
    ensures { result ≡ slice_index_or (pairs_of map.now.entries) index nothing }
{
    match map.get_index(index) {
        Some((key, val)) => entry_of(key, val),
        None => unreachable!(),
    }
}

/// Writes the references of the pair at an index of a map after the first `count`; returns the new
/// count.
#[inline(always)]
fn note_pair_at(map: &Map, index: usize, found: &mut [u64], count: usize) -> usize
    requires within { index < length map.now.entries }
    requires room { count + 2 ≤ length found.old }
    ensures noted { take result found.new ≡
        take count found.old ++ entry_references (slice_index_or (pairs_of map.now.entries) index
        nothing) }
    ensures few { result ≤ count + 2 }
    ensures room { length found.new ≡ length found.old }
{
    match map.get_index(index) {
        Some((key, val)) => note_pair(found, count, key, val),
        None => unreachable!(),
    }
}

/// Writes the references of the pairs at these indexes, at most `AT_ONCE`. Returns their number.
fn note_at(map: &Map, indexes: &[usize], found: &mut [u64]) -> usize
    requires within { All (λ index. index < length map.now.entries) indexes.now }
    requires few { length indexes.now ≤ AT_ONCE }
    requires room { ROOM ≤ length found.old }
    ensures references { take result found.new
        ≡ references (picked (pairs_of map.now.entries) indexes.now) }
    ensures few { result ≤ ROOM }
    ensures room { length found.new ≡ length found.old }
{
    let mut count = 0;
    'indexes: for index in indexes {
        count = note_pair_at(map, *index, found, count);
    }
    count
}

/// Writes the references of the pairs in a range of indexes, at most `AT_ONCE`. Returns their
/// number.
fn note_between(map: &Map, from: usize, next: usize, found: &mut [u64]) -> usize
    requires order { from ≤ next }
    requires within { next ≤ length map.now.entries }
    requires few { next ≤ from + AT_ONCE }
    requires room { ROOM ≤ length found.old }
    ensures references { take result found.new ≡
        references (take (next - from) (drop from (pairs_of map.now.entries))) }
    ensures few { result ≤ ROOM }
    ensures room { length found.new ≡ length found.old }
{
    let mut count = 0;
    'pairs: for index in from..next {
        count = note_pair_at(map, index, found, count);
    }
    count
}

/// Removes the pair at an index. The last pair moves into its place.
fn swap_out(map: &mut Map, index: usize) -> Entry
    requires { index < length map.old.entries }
    ensures entry { result ≡ slice_index_or (pairs_of map.old.entries) index nothing }
    ensures rest { pairs_of map.new.entries ≡ swap_remove (pairs_of map.old.entries) index nothing }
{
    match map.swap_remove_index(index) {
        Some((key, val)) => entry_of(&key, &val),
        None => unreachable!(),
    }
}

/// Removes the pair of a key, and returns its index. The last pair moves into its place.
#[inline(always)]
fn swap_out_key(map: &mut Map, key: Val) -> Option<(usize, Entry)>
    ensures index { option_map (λ p. p.0) result ≡ position (has_key key)
        (pairs_of map.old.entries) }
    ensures entry { IfSome result (λ p. p.1 ≡ slice_index_or (pairs_of map.old.entries) p.0
        nothing) }
    ensures rest { IfSome result (λ p. pairs_of map.new.entries
        ≡ swap_remove (pairs_of map.old.entries) p.0 nothing) }
    ensures stays { IfNone result (map.new.entries ≡ map.old.entries) }
{
    match map.swap_remove_full(&Nine::new(key)) {
        Some((index, _, val)) => Some((
            index,
            Entry {
                key,
                val: val.val(),
            },
        )),
        None => None,
    }
}

/// Removes the pair at an index; later ones move down.
fn shift_out(map: &mut Map, index: usize) -> Entry
    requires { index < length map.old.entries }
    ensures entry { result ≡ slice_index_or (pairs_of map.old.entries) index nothing }
    ensures rest { pairs_of map.new.entries ≡ remove (pairs_of map.old.entries) index }
{
    match map.shift_remove_index(index) {
        Some((key, val)) => entry_of(&key, &val),
        None => unreachable!(),
    }
}

/// Exposes to proofs that each index has one place in the order, if there is an order. Does nothing
/// at run time.
#[inline(always)]
fn sound(order: &Option<Box<Order>>)
    ensures { IsSoundOrder (unboxed order.now) }
{
    match order {
        Some(order) => order.sound(),
        None => {}
    }
}

/// Puts a value under a key; a new key goes last. Returns the old value of the key.
///
/// It uses the map's entry: the error of `insert` would carry the value, which would then be moved
/// in pieces.
#[inline(always)]
fn put_in(map: &mut Map, key: Val, val: Val) -> Result<Option<Val>, AllocError>
    ensures ok { OnOk result (pairs_of map.new.entries ≡ put (pairs_of map.old.entries) key val) }
    ensures replaced { IfOk result (λ was. was ≡ value_at (pairs_of map.old.entries) key) }
    ensures present { IsSome (value_at (pairs_of map.old.entries) key) → IsOk result }
    ensures err { OnErr result (map.new.entries ≡ map.old.entries) }
{
    // Packed before the search: its two words then take less to keep than a `Val`.
    let packed = Nine::new(val);
    match map.entry(Nine::new(key)) {
        Ok(MapEntry::Occupied(there)) => {
            let value = there.into_mut();
            let was = value.val();
            *value = packed;
            Ok(Some(was))
        }
        Ok(MapEntry::Vacant(place)) => {
            let _ = place.insert_entry(packed);
            Ok(None)
        }
        Err(_) => Err(AllocError),
    }
}

/// Records a new key. The map is only asked whether it has grown if it may have.
#[inline(always)]
fn fit(map: &mut Map, room: &mut Room)
    ensures { map.new.entries ≡ map.old.entries }
{
    if room.left == 0 {
        fit_again(map, room);
    } else {
        room.left -= 1;
    }
}

/// Gives part of a grown map's new room back, and records how many keys may come before it grows
/// again.
#[inline(never)]
fn fit_again(map: &mut Map, room: &mut Room)
    ensures { map.new.entries ≡ map.old.entries }
{
    if map.capacity() > room.all as usize {
        give_back(map);
        room.all = in_32_bits(map.capacity());
    }
    room.left = in_32_bits(map.capacity() - map.len());
}

/// A number in 32 bits, saturating.
fn in_32_bits(number: usize) -> u32 {
    number.min(0xFFFF_FFFF) as u32
}

/// Shrinks a map to the room of its pairs plus about two fifths.
///
/// Each growth leaves holes in the process's memory, so growths must be rare. Of the fractions
/// tried, only this one kept every table measured (25 to 300 pairs as they were put, and about 90
/// sizes with an order) within 300 bytes plus 64 a pair.
fn give_back(map: &mut Map)
    ensures { map.new.entries ≡ map.old.entries }
{
    let more = map.len().saturating_mul(25) / 64;
    map.shrink_to(map.len() + more + 1);
}

/// The indexes below a number, in ascending order, boxed.
fn boxed_order(alloc: Global, count: usize) -> Result<Box<Order>, AllocError>
    ensures { IfOk result (λ order. order.value ≡ range_with_len 0 count) }
{
    let order = Order::new(alloc, count)?;
    let boxed = Box::new(alloc, order)?;
    Ok(boxed)
}

/// The order of a map's pairs, boxed. It allocates, so the map first gives back the room that it
/// does not need.
fn noted_order(map: &mut Map) -> Result<Box<Order>, AllocError>
    ensures same { map.new.entries ≡ map.old.entries }
    ensures order { IfOk result (λ order. order.value ≡ range_with_len 0 (length map.old.entries)) }
{
    map.shrink_to_fit();
    let order = boxed_order(*map.allocator(), map.len())?;
    Ok(order)
}

/// Removes the newest pair of a map again. Not inlined, since few puts reach it.
#[inline(never)]
fn lose_last(map: &mut Map)
    ensures { map.new.entries ≡ take (length map.old.entries - 1) map.old.entries }
{
    let _ = map.pop();
}

/// Appends a map's newest pair to the order, or removes it from the map again.
#[inline(always)]
fn order_last(map: &mut Map, order: &mut Option<Box<Order>>) -> Result<(), AllocError>
    ensures ok { OnOk result (map.new.entries ≡ map.old.entries) }
    ensures order { OnOk result (unboxed order.new ≡ option_map (λ o. o ++ length o ∷ [])
        (unboxed order.old)) }
    ensures err { OnErr result (map.new.entries ≡ take (length map.old.entries - 1)
        map.old.entries) }
    ensures same_order { OnErr result (unboxed order.new ≡ unboxed order.old) }
{
    match order {
        Some(order) => match order.push() {
            Ok(()) => Ok(()),
            Err(error) => {
                lose_last(map);
                Err(error)
            }
        },
        None => Ok(()),
    }
}

impl Table {
    /// No pairs.
    pub fn new(alloc: Global) -> Table
        ensures { result ≡ [] }
    {
        Table {
            map: IndexMap::with_hasher(alloc, key_hashing()),
            order: None,
            room: Room { all: 0, left: 0 },
        }
    }

    /// No pairs, with room for `count`.
    pub fn with_room(alloc: Global, count: usize) -> Result<Table, AllocError>
        ensures { IfOk result (λ table. table ≡ []) }
    {
        let mut map = IndexMap::with_capacity_and_hasher(alloc, count, key_hashing())?;
        // The map reserves room for all that its groups can hold.
        map.shrink_to(count);
        let all = in_32_bits(map.capacity());
        Ok(Table {
            map,
            order: None,
            room: Room { all, left: 0 },
        })
    }

    /// The number of pairs.
    pub fn len(&self) -> usize
        ensures count { result ≡ length self.now }
        ensures small { result < 2 ^ 63 }
    {
        self.map.len()
    }

    /// The pair at a position.
    pub fn entry_at(&self, i: usize) -> Entry
        requires { i < length self.now }
        ensures { slice_get self.now i ≡ Some result }
    {
        match &self.order {
            Some(order) => pair_at(&self.map, order.index_at(i)),
            None => pair_at(&self.map, i),
        }
    }

    /// Visits pairs from a position on, as `cg_kind::Kind::note_from` specifies. With an order it
    /// walks from slot to slot.
    pub fn note_from(&self, from: usize, found: &mut [u64]) -> Noted
        requires within { from ≤ length self.now }
        requires room { ROOM ≤ length found.old }
        ensures next { result.next ≡ from + length (next_entries self.now from) }
        ensures references { take result.references found.new
            ≡ references (next_entries self.now from) }
        ensures few { result.references ≤ ROOM }
        ensures room { length found.new ≡ length found.old }
    {
        let next = from + AT_ONCE.min(self.map.len() - from);
        match &self.order {
            Some(order) => {
                let some = order.some_from(from);
                let references = note_at(&self.map, some.as_slice(), found);
                Noted { next, references }
            }
            None => {
                let references = note_between(&self.map, from, next, found);
                Noted { next, references }
            }
        }
    }

    /// The position of a key.
    pub fn find(&self, key: Val) -> Option<usize>
        ensures { result ≡ position (has_key key) self.now }
    {
        sound(&self.order);
        match self.map.get_index_of(&Nine::new(key)) {
            Some(index) => match &self.order {
                Some(order) => Some(order.place_of(index)),
                None => Some(index),
            },
            None => None,
        }
    }

    /// The value under a key; it needs no order.
    #[inline(always)]
    pub fn value_of(&self, key: Val) -> Option<Val>
        ensures { result ≡ value_at self.now key }
    {
        // The contract of `len` says that the keys are unique.
        let _count = self.map.len();
        sound(&self.order);
        match self.map.get(&Nine::new(key)) {
            Some(val) => Some(val.val()),
            None => None,
        }
    }

    /// An existing key gets the value; a new one goes last. Returns the old value of the key.
    #[inline(always)]
    pub fn put(&mut self, key: Val, val: Val) -> Result<Option<Val>, AllocError>
        ensures ok { OnOk result (self.new ≡ put self.old key val) }
        ensures replaced { IfOk result (λ was. was ≡ value_at self.old key) }
        ensures present { IsSome (value_at self.old key) → IsOk result }
        ensures err { OnErr result (self.new ≡ self.old) }
    {
        // The contract of `len` says that the keys are unique.
        let _count = self.map.len();
        sound(&self.order);
        match put_in(&mut self.map, key, val)? {
            Some(was) => Ok(Some(was)),
            None => {
                order_last(&mut self.map, &mut self.order)?;
                fit(&mut self.map, &mut self.room);
                Ok(None)
            }
        }
    }

    /// Records the map's order before a pair with many after it is removed, if there is memory for
    /// it.
    fn note_order(&mut self, i: usize)
        requires { i < length self.old }
        ensures { self.new ≡ self.old }
    {
        let count = self.map.len();
        match &self.order {
            Some(_) => {}
            None => {
                if count - i > CLOSE {
                    // The map gives back its room first, even if no order is recorded.
                    self.room.left = 0;
                    if let Ok(order) = noted_order(&mut self.map) {
                        self.order = Some(order);
                    }
                }
            }
        }
    }

    /// Removes the pair at a position; later ones move down.
    #[inline(never)]
    pub fn take(&mut self, i: usize) -> Entry
        requires { i < length self.old }
        ensures entry { slice_get self.old i ≡ Some result }
        ensures rest { self.new ≡ remove self.old i }
    {
        self.note_order(i);
        match &mut self.order {
            Some(order) => swap_out(&mut self.map, order.take(i)),
            None => shift_out(&mut self.map, i),
        }
    }

    /// Removes the pair of a key, if there is one; later ones move down. An order needs no search
    /// for the place.
    #[inline(always)]
    pub fn take_key(&mut self, key: Val) -> Option<Entry>
        ensures entry { result ≡ entry_under self.old key }
        ensures rest { self.new ≡ without_key self.old key }
    {
        // The contract of `len` says that the keys are unique.
        let _count = self.map.len();
        sound(&self.order);
        match &mut self.order {
            Some(order) => {
                let (index, entry) = swap_out_key(&mut self.map, key)?;
                order.take_index(index);
                Some(entry)
            }
            None => self.take_own(key),
        }
    }

    /// Removes the pair of a key from a map that keeps the order itself.
    fn take_own(&mut self, key: Val) -> Option<Entry>
        ensures entry { result ≡ entry_under self.old key }
        ensures rest { self.new ≡ without_key self.old key }
    {
        match self.find(key) {
            Some(i) => Some(self.take(i)),
            None => None,
        }
    }

    /// Removes the last pair, if there is one.
    pub fn detach(&mut self) -> Option<Entry>
        ensures pairs { self.old ≡ self.new ++ option_to_list result }
        ensures empty { IsNone result → self.old ≡ [] }
    {
        let count = self.map.len();
        if count == 0 {
            None
        } else {
            Some(self.take(count - 1))
        }
    }
}
