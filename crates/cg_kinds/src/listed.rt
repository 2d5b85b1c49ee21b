//! The values of a list: at most one in place, a few in one vector, or any number in columns.
ghost use Rattle.std.specs.Prelude.{◌≡◌, ◌+◌, ◌-◌, ◌<◌, ◌≤◌, ◌++◌, ◌∷◌, [], length, map, Some, IfOk, OnOk, OnErr, OnSome, IfNone, IsNone, option_to_list, remove, slice_get, slice_set, take, vec_len, vec_capacity};
ghost use Rattle.cg_graph.specs.Value.{item, references};
ghost use Rattle.cg_kind.specs.Calls.{AreItems, next_entries};
ghost use Rattle.cg_kinds.specs.Listed.{items_listed, room_listed};

use crate::kept::note_slice;
use crate::one::One;
use crate::packed::{Packed, packed_values_of};
use crate::values::Values;
use cg_kind::{Noted, ROOM};
use cg_value::{Entry, Val};
use std::alloc::{AllocError, Global};

/// The most values that one vector has room for.
const FEW: usize = 64;

/// Values in order.
///
/// Once they are too many for one form they all go into the next, and stay there however many leave.
/// So one value takes no block of memory and a few take one, and of many those behind one that is
/// taken move as two runs of bytes.
#[derive(Drop)]
pub enum Listed {
    One(One<Packed>),
    Few(Vec<Packed>),
    Many(Box<Values>),
}

/// A few values in columns, with room for at least `n` more, for as many again as there are, and
/// for as many as before. These values are unchanged.
///
/// Not inlined, so that the function that grows a list does not carry the locals of new columns.
#[inline(never)]
fn columns_of(few: &Vec<Packed>, n: usize) -> Result<Box<Values>, AllocError>
    ensures items { IfOk result (λ columns. columns.value.items ≡ few.now.items) }
    ensures room { IfOk result (λ columns. n ≤ columns.value.room) }
    ensures no_less { IfOk result (λ columns. vec_capacity few.now - vec_len few.now ≤
        columns.value.room) }
{
    let alloc = *few.allocator();
    let len = few.len();
    let behind = len.max(few.capacity() - len);
    let mut columns = Values::with_room(alloc, len + behind)?;
    'moved: for at in 0..len {
        columns.push_reserved(few[at].val());
    }
    columns.reserve(n)?;
    let boxed = Box::new(alloc, columns)?;
    Ok(boxed)
}

impl Listed {
    /// The values of items, in order.
    pub fn of_items(alloc: Global, parts: &[Entry]) -> Result<Listed, AllocError>
        requires { AreItems parts.now }
        ensures { IfOk result (λ made. map item (items_listed made) ≡ parts.now) }
    {
        if parts.len() > FEW {
            let columns = Values::of_items(alloc, parts)?;
            let boxed = Box::new(alloc, columns)?;
            return Ok(Listed::Many(boxed));
        }
        if parts.len() <= 1 {
            return Ok(Listed::One(One::of_items(alloc, parts)));
        }
        let few = packed_values_of(alloc, parts)?;
        Ok(Listed::Few(few))
    }

    /// The number of values.
    #[inline(always)]
    pub fn len(&self) -> usize
        ensures { result ≡ length (items_listed self.now) }
    {
        match self {
            Listed::One(one) => one.len(),
            Listed::Few(few) => few.len(),
            Listed::Many(columns) => columns.len(),
        }
    }

    /// The value at a place.
    #[inline(always)]
    pub fn val(&self, i: usize) -> Val
        requires { i < length (items_listed self.now) }
        ensures { slice_get (items_listed self.now) i ≡ Some result }
    {
        match self {
            Listed::One(one) => one.get().val(),
            Listed::Few(few) => few[i].val(),
            Listed::Many(columns) => columns.val(i),
        }
    }

    /// Visits items from a position on, as `cg_kind::Kind::note_from` specifies.
    #[inline(always)]
    pub fn note_from(&self, from: usize, found: &mut [u64]) -> Noted
        requires within { from ≤ length (items_listed self.now) }
        requires room { ROOM ≤ length found.old }
        ensures next { result.next ≡ from + length (next_entries (map item (items_listed self.now))
            from) }
        ensures references { take result.references found.new
            ≡ references (next_entries (map item (items_listed self.now)) from) }
        ensures few { result.references ≤ ROOM }
        ensures room { length found.new ≡ length found.old }
    {
        match self {
            Listed::One(one) => one.note_from(from, found),
            Listed::Few(few) => note_slice(few.as_slice(), from, found),
            Listed::Many(columns) => columns.note_from(from, found),
        }
    }

    /// Replaces the value at a place.
    #[inline(always)]
    pub fn set(&mut self, i: usize, val: Val)
        requires { i < length (items_listed self.old) }
        ensures items { items_listed self.new ≡ slice_set (items_listed self.old) i val }
        ensures room { room_listed self.new ≡ room_listed self.old }
    {
        match self {
            Listed::One(one) => one.kept = Some(Packed::new(val)),
            Listed::Few(few) => few[i] = Packed::new(val),
            Listed::Many(columns) => columns.set(i, val),
        }
    }

    /// Removes the value at a place; later ones move down.
    pub fn remove(&mut self, i: usize) -> Val
        requires { i < length (items_listed self.old) }
        ensures val { slice_get (items_listed self.old) i ≡ Some result }
        ensures items { items_listed self.new ≡ remove (items_listed self.old) i }
        ensures room { room_listed self.new ≡ room_listed self.old + 1 }
    {
        match self {
            Listed::One(one) => {
                let val = one.get().val();
                one.kept = None;
                val
            }
            Listed::Few(few) => few.remove(i).val(),
            Listed::Many(columns) => columns.remove(i),
        }
    }

    /// Takes the last value, if there is one.
    #[inline(always)]
    pub fn pop(&mut self) -> Option<Val>
        ensures items { items_listed self.old ≡ items_listed self.new ++ option_to_list result }
        ensures room { OnSome result (room_listed self.new ≡ room_listed self.old + 1) }
        ensures empty { IsNone result → items_listed self.old ≡ [] }
        ensures none { IfNone result (items_listed self.new ≡ items_listed self.old) }
        ensures none_room { IfNone result (room_listed self.new ≡ room_listed self.old) }
    {
        match self {
            Listed::One(one) => match one.kept.take() {
                Some(last) => Some(last.val()),
                None => None,
            },
            Listed::Few(few) => match few.pop() {
                Some(last) => Some(last.val()),
                None => None,
            },
            Listed::Many(columns) => columns.pop(),
        }
    }

    /// How many more values fit without allocating.
    #[inline(always)]
    fn room(&self) -> usize
        ensures { result ≡ room_listed self.now }
    {
        match self {
            Listed::One(one) => 1 - one.len(),
            Listed::Few(few) => few.capacity() - few.len(),
            Listed::Many(columns) => columns.room(),
        }
    }

    /// Reserves room for `n` more values.
    #[inline(always)]
    pub fn reserve(&mut self, n: usize) -> Result<(), AllocError>
        ensures items { items_listed self.new ≡ items_listed self.old }
        ensures ok { OnOk result (n ≤ room_listed self.new) }
        ensures no_less { room_listed self.old ≤ room_listed self.new }
        ensures err { OnErr result (room_listed self.new ≡ room_listed self.old) }
    {
        if self.room() < n {
            self.grow(n)?;
        }
        Ok(())
    }

    /// What the values move into is complete before what they stood in goes, so a refusal leaves it.
    #[inline(never)]
    fn grow(&mut self, n: usize) -> Result<(), AllocError>
        ensures items { items_listed self.new ≡ items_listed self.old }
        ensures ok { OnOk result (n ≤ room_listed self.new) }
        ensures no_less { room_listed self.old ≤ room_listed self.new }
        ensures err { OnErr result (room_listed self.new ≡ room_listed self.old) }
    {
        match self {
            Listed::One(one) => {
                if n < FEW {
                    *self = Listed::Few(one.in_vector(n + 1)?);
                } else {
                    *self = Listed::Many(columns_of(&one.in_vector(1)?, n)?);
                }
            }
            Listed::Few(few) => {
                if n <= FEW && few.len() <= FEW - n {
                    few.reserve(n)?;
                } else {
                    *self = Listed::Many(columns_of(few, n)?);
                }
            }
            Listed::Many(columns) => columns.reserve(n)?,
        }
        Ok(())
    }

    /// Appends a value if there is room for it.
    #[inline(always)]
    pub fn push_reserved(&mut self, val: Val)
        requires { 0 < room_listed self.old }
        ensures items { items_listed self.new ≡ items_listed self.old ++ val ∷ [] }
        ensures room { room_listed self.new ≡ room_listed self.old - 1 }
    {
        match self {
            Listed::One(one) => one.kept = Some(Packed::new(val)),
            Listed::Few(few) => few.push_reserved(Packed::new(val)),
            Listed::Many(columns) => columns.push_reserved(val),
        }
    }
}
