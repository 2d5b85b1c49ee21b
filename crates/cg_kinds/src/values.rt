//! Values in two columns, as lists store many of them.
ghost use Rattle.std.specs.Prelude.{true, ◌≡◌, ◌+◌, ◌-◌, ◌<◌, ◌≤◌, ◌++◌, ◌∷◌, [], length, map, Some, IfOk, OnOk, OnErr, OnSome, IfNone, IsNone, option_to_list, remove, slice_get, slice_set, take, drop, vec_len, vec_capacity};
ghost use Rattle.std.specs.List.{All, AllZip};
ghost use Rattle.cg_graph.specs.Value.{item, references, reference_in};
ghost use Rattle.cg_kind.specs.Calls.{AreItems, next_entries};
ghost use Rattle.cg_kinds.specs.Values.{value_in, values_in, AreWords, AreOnlyWords, AreColumns};

use cg_kind::{AT_ONCE, Noted, ROOM, note_reference};
use cg_value::{Entry, Val};
use std::alloc::{AllocError, Global};
use std::marker::Model;

/// The values of a list, each in nine bytes: its sort in one column, and its number in the other.
///
/// So the values after a removed one move as two runs of bytes. When the first is removed the
/// others stay in place, and leave a gap in front.
#[derive(Drop)]
pub struct Values {
    sorts: Vec<u8>,
    numbers: Vec<u64>,
    /// The place of the first value. The places before it no longer hold values.
    first: usize,
    /// How many more values fit into both columns without allocating, some of them only after the
    /// front gap is closed.
    room: usize,
}

impl Model for Values {
    ghost use Rattle.std.specs.Prelude.{drop, vec_capacity};
    ghost use Rattle.cg_kinds.specs.Values.{Kept, values_in, AreColumns};

    ghost Value = { Kept };

    ghost view = { λ v. record {
      items = drop v.first (values_in v.sorts.items v.numbers.items);
      room = v.room;
    } };

    ghost invariant = { λ v. AreColumns v.sorts.items v.numbers.items v.first v.room
        (vec_capacity v.sorts) (vec_capacity v.numbers) };
}

/// The sort of a reference, the highest sort.
const REFERENCE: u8 = 3;

/// The sort of a value, and its number.
#[inline(always)]
pub(crate) fn words_of(val: Val) -> (u8, u64)
    ensures value { value_in result.0 result.1 ≡ val }
    ensures words { AreWords result.0 result.1 }
    ensures only { AreOnlyWords result.0 result.1 }
{
    match val {
        Val::Ref(serial) => (REFERENCE, serial),
        Val::Int(number) => (1, number.cast_unsigned()),
        Val::Str(name) => (2, name as u64),
        Val::None => (0, 0),
    }
}

/// The value of a sort with a number.
#[inline(always)]
pub(crate) fn val_of(sort: u8, number: u64) -> Val
    requires { AreWords sort number }
    ensures { result ≡ value_in sort number }
{
    match sort {
        0 => Val::None,
        1 => Val::Int(number.cast_signed()),
        2 => Val::Str(number as u32),
        _ => Val::Ref(number),
    }
}

/// The serial of a reference, given its sort and number. The value itself is not unpacked.
#[inline(always)]
pub(crate) fn reference_of(sort: u64, number: u64) -> Option<u64>
    ensures { result ≡ reference_in (value_in sort number) }
{
    if sort > 2 { Some(number) } else { None }
}

/// Whether all these sorts are those of references. The loop has no early exit, so that it checks
/// many at once.
fn are_references(sorts: &[u8]) -> bool
    ensures { result ≡ true → All (λ sort. 2 < sort) sorts.now }
{
    let mut least = REFERENCE;
    'sorts: for sort in sorts {
        least = least.min(*sort);
    }
    least == REFERENCE
}

/// Writes some numbers, and returns how many.
fn note_all(numbers: &[u64], found: &mut [u64]) -> usize
    requires { length numbers.now ≤ length found.old }
    ensures numbers { take result found.new ≡ numbers.now }
    ensures count { result ≡ length numbers.now }
    ensures room { length found.new ≡ length found.old }
{
    let count = numbers.len();
    found[..count].copy_from_slice(numbers);
    count
}

/// Writes the references of the values in a range of both columns, at most `AT_ONCE`. Returns their
/// number. In most lists all values are references, and then the numbers are copied directly.
#[inline(always)]
fn note_between(sorts: &[u8], numbers: &[u64], from: usize, next: usize, found: &mut [u64]) -> usize
    requires words { AllZip AreWords sorts.now numbers.now }
    requires order { from ≤ next }
    requires within { next ≤ length numbers.now }
    requires few { next ≤ from + AT_ONCE }
    requires room { ROOM ≤ length found.old }
    ensures references { take result found.new ≡
        references (take (next - from) (drop from (map item (values_in sorts.now numbers.now)))) }
    ensures few { result ≤ ROOM }
    ensures room { length found.new ≡ length found.old }
{
    if are_references(&sorts[from..next]) {
        note_all(&numbers[from..next], found)
    } else {
        note_each(sorts, numbers, from, next, found)
    }
}

/// The same, checking each value.
fn note_each(sorts: &[u8], numbers: &[u64], from: usize, next: usize, found: &mut [u64]) -> usize
    requires words { AllZip AreWords sorts.now numbers.now }
    requires order { from ≤ next }
    requires within { next ≤ length numbers.now }
    requires few { next ≤ from + AT_ONCE }
    requires room { ROOM ≤ length found.old }
    ensures references { take result found.new ≡
        references (take (next - from) (drop from (map item (values_in sorts.now numbers.now)))) }
    ensures few { result ≤ ROOM }
    ensures room { length found.new ≡ length found.old }
{
    let mut count = 0;
    'places: for at in from..next {
        count = note_reference(found, count, reference_of(sorts[at] as u64, numbers[at]));
    }
    count
}

/// Drops the first `n` places. The later ones move down as one run; `drain` would first rotate the
/// front ones to the back.
fn lose_front<T: Copy + Drop>(column: &mut Vec<T>, n: usize)
    requires { n ≤ vec_len column.old }
    ensures items { column.new.items ≡ drop n column.old.items }
    ensures capacity { vec_capacity column.new ≡ vec_capacity column.old }
{
    let len = column.len();
    column.copy_within(n..len, 0);
    column.truncate(len - n);
}

/// Closes the front gap, so that the first value is at place 0.
#[inline(never)]
fn close_gap(sorts: &mut Vec<u8>, numbers: &mut Vec<u64>, first: &mut usize)
    requires in_sorts { first.old ≤ vec_len sorts.old }
    requires in_numbers { first.old ≤ vec_len numbers.old }
    ensures sorts { sorts.new.items ≡ drop first.old sorts.old.items }
    ensures numbers { numbers.new.items ≡ drop first.old numbers.old.items }
    ensures first { first.new ≡ 0 }
    ensures sorts_capacity { vec_capacity sorts.new ≡ vec_capacity sorts.old }
    ensures numbers_capacity { vec_capacity numbers.new ≡ vec_capacity numbers.old }
{
    lose_front(sorts, *first);
    lose_front(numbers, *first);
    *first = 0;
}

/// Makes a free place at the end of both columns for one more value: closes the gap once a column
/// is full. If the room exceeds the gap, there is a place already.
#[inline(always)]
fn have_place(sorts: &mut Vec<u8>, numbers: &mut Vec<u64>, first: &mut usize, room: usize)
    requires columns { AreColumns sorts.old.items numbers.old.items first.old room
        (vec_capacity sorts.old) (vec_capacity numbers.old) }
    requires some { 0 < room }
    ensures columns { AreColumns sorts.new.items numbers.new.items first.new room
        (vec_capacity sorts.new) (vec_capacity numbers.new) }
    ensures values { drop first.new (values_in sorts.new.items numbers.new.items)
        ≡ drop first.old (values_in sorts.old.items numbers.old.items) }
    ensures in_sorts { vec_len sorts.new < vec_capacity sorts.new }
    ensures in_numbers { vec_len numbers.new < vec_capacity numbers.new }
{
    if *first < room {
        return;
    }
    if sorts.len() < sorts.capacity() && numbers.len() < numbers.capacity() {
        return;
    }
    close_gap(sorts, numbers, first);
}

/// How many extra places are kept free, for a number of values and their room. `room` does not
/// count them.
///
/// So a full list that loses a value in front for each one it gains at the end closes its gap only
/// once in that many turns.
#[inline(always)]
fn spare(len: usize) -> usize {
    len / 8
}

impl Values {
    /// The values of items, in order.
    pub fn of_items(alloc: Global, parts: &[Entry]) -> Result<Values, AllocError>
        requires { AreItems parts.now }
        ensures { IfOk result (λ made. map item made.items ≡ parts.now) }
    {
        let mut values = Values::with_room(alloc, parts.len())?;
        for part in parts {
            values.push_reserved(part.val);
        }
        Ok(values)
    }

    /// No values, with room for `room`.
    pub fn with_room(alloc: Global, room: usize) -> Result<Values, AllocError>
        ensures items { IfOk result (λ made. made.items ≡ []) }
        ensures room { IfOk result (λ made. made.room ≡ room) }
    {
        let places = room.saturating_add(spare(room));
        let sorts = Vec::with_capacity(alloc, places)?;
        let numbers = Vec::with_capacity(alloc, places)?;
        Ok(Values {
            sorts,
            numbers,
            first: 0,
            room,
        })
    }

    /// The number of values.
    #[inline(always)]
    pub fn len(&self) -> usize
        ensures { result ≡ length self.now.items }
    {
        self.numbers.len() - self.first
    }

    /// The value at a place.
    #[inline(always)]
    pub fn val(&self, i: usize) -> Val
        requires { i < length self.now.items }
        ensures { slice_get self.now.items i ≡ Some result }
    {
        let at = self.first + i;
        val_of(self.sorts[at], self.numbers[at])
    }

    /// Visits items from a position on, as `cg_kind::Kind::note_from` specifies. A separate call,
    /// since copying needs more registers than the few items of most lists do.
    #[inline(never)]
    pub fn note_from(&self, from: usize, found: &mut [u64]) -> Noted
        requires within { from ≤ length self.now.items }
        requires room { ROOM ≤ length found.old }
        ensures next { result.next ≡ from + length (next_entries (map item self.now.items) from) }
        ensures references { take result.references found.new
            ≡ references (next_entries (map item self.now.items) from) }
        ensures few { result.references ≤ ROOM }
        ensures room { length found.new ≡ length found.old }
    {
        let next = from + AT_ONCE.min(self.len() - from);
        let sorts = self.sorts.as_slice();
        let numbers = self.numbers.as_slice();
        let first = self.first;
        let references = note_between(sorts, numbers, first + from, first + next, found);
        Noted { next, references }
    }

    /// Replaces the value at a place.
    #[inline(always)]
    pub fn set(&mut self, i: usize, val: Val)
        requires { i < length self.old.items }
        ensures items { self.new.items ≡ slice_set self.old.items i val }
        ensures room { self.new.room ≡ self.old.room }
    {
        let (sort, number) = words_of(val);
        let at = self.first + i;
        self.sorts[at] = sort;
        self.numbers[at] = number;
    }

    /// Removes the value at a place. Later ones move down; if it is the first, they stay until the
    /// gap is closed.
    pub fn remove(&mut self, i: usize) -> Val
        requires { i < length self.old.items }
        ensures val { slice_get self.old.items i ≡ Some result }
        ensures items { self.new.items ≡ remove self.old.items i }
        ensures room { self.new.room ≡ self.old.room + 1 }
    {
        if i == 0 {
            return self.take_first();
        }
        let at = self.first + i;
        let sort = self.sorts.remove(at);
        let number = self.numbers.remove(at);
        self.room += 1;
        val_of(sort, number)
    }

    /// Removes the first value. Closes the gap if it is wider than the rest.
    fn take_first(&mut self) -> Val
        requires { 0 < length self.old.items }
        ensures val { slice_get self.old.items 0 ≡ Some result }
        ensures items { self.new.items ≡ remove self.old.items 0 }
        ensures room { self.new.room ≡ self.old.room + 1 }
    {
        let val = self.val(0);
        self.skip_first();
        if self.first > self.len() {
            self.close();
        }
        val
    }

    #[inline(always)]
    fn skip_first(&mut self)
        requires { 0 < length self.old.items }
        ensures items { self.new.items ≡ remove self.old.items 0 }
        ensures room { self.new.room ≡ self.old.room + 1 }
    {
        self.first += 1;
        self.room += 1;
    }

    fn close(&mut self)
        ensures { self.new ≡ self.old }
    {
        close_gap(&mut self.sorts, &mut self.numbers, &mut self.first);
    }

    /// Removes the last value, if there is one.
    pub fn pop(&mut self) -> Option<Val>
        ensures items { self.old.items ≡ self.new.items ++ option_to_list result }
        ensures room { OnSome result (self.new.room ≡ self.old.room + 1) }
        ensures empty { IsNone result → self.old.items ≡ [] }
        ensures none { IfNone result (self.new ≡ self.old) }
    {
        if self.len() == 0 {
            return None;
        }
        let sort = self.sorts.take_last();
        let number = self.numbers.take_last();
        self.room += 1;
        Some(val_of(sort, number))
    }

    /// How many more values fit without allocating.
    #[inline(always)]
    pub fn room(&self) -> usize
        ensures { result ≡ self.now.room }
    {
        self.room
    }

    /// Reserves room for `n` more values.
    #[inline(always)]
    pub fn reserve(&mut self, n: usize) -> Result<(), AllocError>
        ensures items { self.new.items ≡ self.old.items }
        ensures ok { OnOk result (n ≤ self.new.room) }
        ensures no_less { self.old.room ≤ self.new.room }
        ensures err { OnErr result (self.new ≡ self.old) }
    {
        if self.room < n {
            self.grow(n)?;
        }
        Ok(())
    }

    // `room` stays as it was until both columns have grown.
    #[inline(never)]
    fn grow(&mut self, n: usize) -> Result<(), AllocError>
        requires { self.old.room < n }
        ensures items { self.new.items ≡ self.old.items }
        ensures ok { OnOk result (n ≤ self.new.room) }
        ensures no_less { self.old.room ≤ self.new.room }
        ensures err { OnErr result (self.new ≡ self.old) }
    {
        self.close();
        let more = n.saturating_add(spare(self.len()));
        self.sorts.reserve(more)?;
        self.numbers.reserve(more)?;
        let behind_sorts = self.sorts.capacity() - self.sorts.len();
        let behind_numbers = self.numbers.capacity() - self.numbers.len();
        self.room = behind_sorts.min(behind_numbers) - (more - n);
        Ok(())
    }

    /// Appends a value if there is room for it.
    #[inline(always)]
    pub fn push_reserved(&mut self, val: Val)
        requires { 0 < self.old.room }
        ensures items { self.new.items ≡ self.old.items ++ val ∷ [] }
        ensures room { self.new.room ≡ self.old.room - 1 }
    {
        let room = self.room;
        have_place(&mut self.sorts, &mut self.numbers, &mut self.first, room);
        let (sort, number) = words_of(val);
        self.sorts.push_reserved(sort);
        self.numbers.push_reserved(number);
        self.room -= 1;
    }
}
