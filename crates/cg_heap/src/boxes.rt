//! The six boxes of kinds, as one.
ghost use Rattle.std.specs.Prelude.{◌≡◌, ◌<◌, ◌≤◌, ◌+◌, ◌-◌, ◌++◌, ◌∷◌, ◌↔◌, [], IsTrue, length, map, take, IfOk, OnOk, OnErr, IfSome, OnSome, IfNone, IsNone, IsSome, IsOk, None, Some, position, slice_get};
ghost use Rattle.std.specs.FinMap as fin;
ghost use Rattle.cg_value.specs.declared.KindCode.TheVariants as code;
ghost use Rattle.cg_graph.specs.Value.{item, without_last, value_at, references, entry_at as entry_under};
ghost use Rattle.cg_kind.specs.Calls.{has_key, next_entries, IsParts, CanPut, value_under, after_put, after_take, after_take_key, spare_after_leave};
ghost use Rattle.cg_heap.specs.Boxes.{six_kinds, code_index, bodies_at, HasBody, entries_in_box, spare_in_box, boxes_with_body, boxes_without};
ghost use Rattle.cg_heap.specs.Calls.{IsMutable};

use cg_kind::{Kind, Noted, ROOM};
use cg_value::{Entry, KindCode, Val};
use std::alloc::AllocError;
use std::marker::Model;

/// Where the entries of an object are: in the box of its kind, at a place.
#[derive(Clone, Copy, Debug)]
pub struct Seat {
    pub code: KindCode,
    pub body: usize,
}

impl Seat {
    /// Whether the object is of this kind.
    #[tactic(auto, using(crate::proofs::BoxLemmas::one_index))]
    #[inline(always)]
    pub fn is_of(self, code: KindCode) -> bool
        ensures { IsTrue result ↔ (self.code ≡ code) }
    {
        index_of(self.code) == index_of(code)
    }
}

/// The kinds, in the order of `KindCode`.
#[derive(Drop)]
pub struct Boxes<B: Kind> {
    kinds: Vec<B>,
}

impl<B: Kind> Model for Boxes<B> {
    ghost use Rattle.std.specs.Prelude.{◌≡◌, List, map};
    ghost use Rattle.cg_kind.specs.Bodies.{Bodies};
    ghost use Rattle.cg_heap.specs.Boxes.{boxes_code, six_kinds};

    ghost Value = { List Bodies };

    ghost coded = { boxes_code };

    ghost view = { λ a. map B.bodies a.kinds.items };

    ghost invariant = { λ a. map B.kind a.kinds.items ≡ six_kinds };
}

/// The index of a kind's box.
#[inline(always)]
fn index_of(code: KindCode) -> usize
    ensures index { result ≡ code_index code }
    ensures below { result < 6 }
{
    // The kinds are declared in this order. A `match` would compile to a jump table.
    code as usize
}

impl<B: Kind> Boxes<B> {
    /// The six kinds, in the order of `KindCode`.
    pub fn new(kinds: Vec<B>) -> Self
        requires { map B.kind kinds.items ≡ six_kinds }
        ensures { result ≡ map B.bodies kinds.items }
    {
        Boxes { kinds }
    }

    /// Makes a body of a kind, and returns its place.
    pub fn make(&mut self, code: KindCode, parts: &[Entry]) -> Result<usize, AllocError>
        requires { IsParts code parts.now }
        ensures made { IfOk result (λ at. self.new ≡
            boxes_with_body self.old code at parts.now (spare_in_box self.new code at)) }
        ensures vacant { IfOk result (λ at. fin.get (bodies_at self.old code) at ≡ None) }
        ensures err { OnErr result (self.new ≡ self.old) }
    {
        let kind = &mut self.kinds[index_of(code)];
        let made = kind.make(parts);
        made
    }

    /// The number of entries.
    #[inline(always)]
    pub fn len(&self, seat: Seat) -> usize
        requires { HasBody self.now seat.code seat.body }
        ensures { result ≡ length (entries_in_box self.now seat.code seat.body) }
    {
        let kind = &self.kinds[index_of(seat.code)];
        kind.len(seat.body)
    }

    /// The entry at a position below the length.
    #[inline(always)]
    pub fn entry_at(&self, seat: Seat, i: usize) -> Entry
        requires held { HasBody self.now seat.code seat.body }
        requires within { i < length (entries_in_box self.now seat.code seat.body) }
        ensures { slice_get (entries_in_box self.now seat.code seat.body) i ≡ Some result }
    {
        let kind = &self.kinds[index_of(seat.code)];
        kind.entry_at(seat.body, i)
    }

    /// The entry at a position, if it is below the length.
    #[inline(always)]
    pub fn get(&self, seat: Seat, i: usize) -> Option<Entry>
        requires { HasBody self.now seat.code seat.body }
        ensures { result ≡ slice_get (entries_in_box self.now seat.code seat.body) i }
    {
        let kind = &self.kinds[index_of(seat.code)];
        kind.get(seat.body, i)
    }

    /// Writes the references of some entries from a position on.
    #[inline(always)]
    pub fn note_from(&self, seat: Seat, from: usize, found: &mut [u64]) -> Noted
        requires held { HasBody self.now seat.code seat.body }
        requires within { from ≤ length (entries_in_box self.now seat.code seat.body) }
        requires room { ROOM ≤ length found.old }
        ensures next { result.next ≡
            from + length (next_entries (entries_in_box self.now seat.code seat.body) from) }
        ensures references { take result.references found.new ≡
            references (next_entries (entries_in_box self.now seat.code seat.body) from) }
        ensures few { result.references ≤ ROOM }
        ensures room { length found.new ≡ length found.old }
    {
        let kind = &self.kinds[index_of(seat.code)];
        kind.note_from(seat.body, from, found)
    }

    /// The first position with this key.
    #[inline(always)]
    pub fn find(&self, seat: Seat, key: Val) -> Option<usize>
        requires { HasBody self.now seat.code seat.body }
        ensures { result ≡ position (has_key key) (entries_in_box self.now seat.code seat.body) }
    {
        let kind = &self.kinds[index_of(seat.code)];
        kind.find(seat.body, key)
    }

    /// The value of the first entry with this key.
    #[inline(always)]
    pub fn value_of(&self, seat: Seat, key: Val) -> Option<Val>
        requires { HasBody self.now seat.code seat.body }
        ensures { result ≡ value_at (entries_in_box self.now seat.code seat.body) key }
    {
        let kind = &self.kinds[index_of(seat.code)];
        kind.value_of(seat.body, key)
    }

    /// Puts a value under a key, and returns the one that it replaces.
    #[inline(always)]
    pub fn put(&mut self, seat: Seat, key: Val, val: Val) -> Result<Option<Val>, AllocError>
        requires held { HasBody self.old seat.code seat.body }
        requires can { CanPut seat.code (entries_in_box self.old seat.code seat.body) key }
        ensures ok { OnOk result (self.new ≡ boxes_with_body self.old seat.code seat.body
            (after_put seat.code (entries_in_box self.old seat.code seat.body) key val)
            (spare_in_box self.old seat.code seat.body)) }
        ensures replaced { IfOk result (λ was. was ≡
            value_under seat.code (entries_in_box self.old seat.code seat.body) key) }
        ensures present { IsSome (value_under seat.code (entries_in_box self.old seat.code seat.body) key)
            → IsOk result }
        ensures err { OnErr result (self.new ≡ self.old) }
    {
        let kind = &mut self.kinds[index_of(seat.code)];
        let put = kind.put(seat.body, key, val);
        put
    }

    /// Takes the entry at a position, if the kind allows it.
    #[inline(always)]
    pub fn take(&mut self, seat: Seat, i: usize) -> Entry
        requires held { HasBody self.old seat.code seat.body }
        requires within { i < length (entries_in_box self.old seat.code seat.body) }
        ensures entry { slice_get (entries_in_box self.old seat.code seat.body) i ≡ Some result }
        ensures rest { self.new ≡ boxes_with_body self.old seat.code seat.body
            (after_take seat.code (entries_in_box self.old seat.code seat.body) i)
            (spare_after_leave seat.code (spare_in_box self.old seat.code seat.body)) }
    {
        let kind = &mut self.kinds[index_of(seat.code)];
        let entry = kind.take(seat.body, i);
        entry
    }

    /// Takes the first entry with this key, if the kind allows it.
    #[inline(always)]
    pub fn take_key(&mut self, seat: Seat, key: Val) -> Option<Entry>
        requires { HasBody self.old seat.code seat.body }
        ensures entry { result ≡ entry_under (entries_in_box self.old seat.code seat.body) key }
        ensures rest { OnSome result (self.new ≡ boxes_with_body self.old seat.code seat.body
            (after_take_key seat.code (entries_in_box self.old seat.code seat.body) key)
            (spare_after_leave seat.code (spare_in_box self.old seat.code seat.body))) }
        ensures none { IfNone result (self.new ≡ self.old) }
    {
        let kind = &mut self.kinds[index_of(seat.code)];
        let entry = kind.take_key(seat.body, key);
        entry
    }

    /// Removes the last entry.
    pub fn detach(&mut self, seat: Seat) -> Option<Entry>
        requires { HasBody self.old seat.code seat.body }
        ensures last { IfSome result (λ e. entries_in_box self.old seat.code seat.body ≡
            without_last (entries_in_box self.old seat.code seat.body) ++ e ∷ []) }
        ensures rest { OnSome result (self.new ≡ boxes_with_body self.old seat.code seat.body
            (without_last (entries_in_box self.old seat.code seat.body))
            (spare_after_leave seat.code (spare_in_box self.old seat.code seat.body))) }
        ensures empty { IsNone result ↔ (entries_in_box self.old seat.code seat.body ≡ []) }
        ensures none { IfNone result (self.new ≡ self.old) }
    {
        let kind = &mut self.kinds[index_of(seat.code)];
        let entry = kind.detach(seat.body);
        entry
    }

    /// Appends an item to a list.
    #[inline(always)]
    pub fn append(&mut self, list: usize, val: Val) -> Result<(), AllocError>
        requires { HasBody self.old code.List list }
        ensures ok { OnOk result (self.new ≡ boxes_with_body self.old code.List list
            (entries_in_box self.old code.List list ++ item val ∷ [])
            (spare_in_box self.new code.List list)) }
        ensures err { OnErr result (self.new ≡ self.old) }
    {
        let lists = &mut self.kinds[0];
        let appended = lists.append(list, val);
        appended
    }

    /// Reserves room in a list for `n` more items.
    pub fn reserve(&mut self, list: usize, n: usize) -> Result<(), AllocError>
        requires { HasBody self.old code.List list }
        ensures ok { OnOk result (self.new ≡ boxes_with_body self.old code.List list
            (entries_in_box self.old code.List list) (spare_in_box self.new code.List list)) }
        ensures room { OnOk result (n ≤ spare_in_box self.new code.List list) }
        ensures no_less { OnOk result (spare_in_box self.old code.List list ≤ spare_in_box self.new
            code.List list) }
        ensures err { OnErr result (self.new ≡ self.old) }
    {
        let lists = &mut self.kinds[0];
        let reserved = lists.reserve(list, n);
        reserved
    }

    /// Reserves room in a list for `total` items, at least its length.
    pub fn reserve_total(&mut self, list: usize, total: usize) -> Result<(), AllocError>
        requires held { HasBody self.old code.List list }
        requires more { length (entries_in_box self.old code.List list) ≤ total }
        ensures ok { OnOk result (self.new ≡ boxes_with_body self.old code.List list
            (entries_in_box self.old code.List list) (spare_in_box self.new code.List list)) }
        ensures room { OnOk result (total ≤
            length (entries_in_box self.old code.List list) + spare_in_box self.new code.List
            list) }
        ensures no_less { OnOk result (spare_in_box self.old code.List list ≤ spare_in_box self.new
            code.List list) }
        ensures err { OnErr result (self.new ≡ self.old) }
    {
        let code = KindCode::List;
        let count = self.len(Seat { code, body: list });
        self.reserve(list, total - count)?;
        Ok(())
    }

    /// Appends an item to a list that has room for it.
    pub fn append_reserved(&mut self, list: usize, val: Val)
        requires held { HasBody self.old code.List list }
        requires room { 0 < spare_in_box self.old code.List list }
        ensures { self.new ≡ boxes_with_body self.old code.List list
            (entries_in_box self.old code.List list ++ item val ∷ [])
            (spare_in_box self.old code.List list - 1) }
    {
        let lists = &mut self.kinds[0];
        lists.append_reserved(list, val);
    }

    /// Whether there is no body of the kind. If the kind does not know, the answer is `false`.
    pub fn has_none(&self, code: KindCode) -> bool
        ensures { IsTrue result → bodies_at self.now code ≡ fin.empty }
    {
        let kind = &self.kinds[index_of(code)];
        kind.is_empty()
    }

    /// Frees the place of an empty body.
    pub fn free(&mut self, seat: Seat)
        requires held { HasBody self.old seat.code seat.body }
        requires empty { entries_in_box self.old seat.code seat.body ≡ [] }
        ensures { self.new ≡ boxes_without self.old seat.code seat.body }
    {
        let kind = &mut self.kinds[index_of(seat.code)];
        kind.free(seat.body);
    }

    /// Whether a put at the key replaces a value.
    #[inline(never)]
    pub fn has_value(&self, seat: Seat, key: Val) -> bool
        requires held { HasBody self.now seat.code seat.body }
        requires can { CanPut seat.code (entries_in_box self.now seat.code seat.body) key }
        requires mutable { IsMutable seat.code }
        ensures { IsTrue result ↔
            IsSome (value_under seat.code (entries_in_box self.now seat.code seat.body) key) }
    {
        match seat.code {
            KindCode::List => true,
            _ => self.find(seat, key).is_some(),
        }
    }
}
