//! Walks over a list and its objects: `Near` is a hint of a node's slot that saves the look-up.
ghost use Rattle.std.specs.Prelude.{◌≡◌, ◌+◌, ◌<◌, ◌≤◌, IfSome, Some, length, slice_get, take};
ghost use Rattle.std.specs.FinMap as fin;
ghost use Rattle.cg_graph.specs.Value.{references};
ghost use Rattle.cg_graph.specs.Store.{IsLive, entries_of, count_of as in_degree, list_at, place_of as place_at};
ghost use Rattle.cg_graph.specs.Changes.{moved};
ghost use Rattle.cg_arena.specs.Nodes.{following, IsPlace, TakesNumber};
ghost use Rattle.cg_heap.specs.Calls.{with_node, with_number};
ghost use Rattle.cg_kind.specs.Calls.{next_entries};

use super::Heap;
use crate::counts::seat_near;
use crate::steps::Steps;
use cg_arena::{Head, Near};
use cg_kind::{Kind, Noted, ROOM};
use cg_value::{Entry, KindCode, Place, Val};
use std::sync::ledger::Ledger;

impl<B: Kind> Heap<B> {
    /// `first`, with its slot.
    #[inline(always)]
    pub fn first_near(&self, place: Place, near: &mut Near) -> Option<u64>
        requires { IsPlace place }
        ensures { result ≡ slice_get (list_at self.now place) 0 }
    {
        self.arena.first_near(place, near)
    }

    /// `next`, with a hint of the object's slot, and the slot of the result. So a walk over a list
    /// needs no look-ups.
    #[inline(always)]
    pub fn next_near(&self, object: u64, near: &mut Near) -> Option<u64>
        requires { IsLive self.now object }
        ensures { result ≡ following object (list_at self.now (place_at self.now object)) }
    {
        self.arena.next_near(object, near)
    }

    /// The kind, and the object's slot for later calls. A right hint saves the look-up.
    #[inline(always)]
    pub fn locate(&self, object: u64, near: &mut Near) -> KindCode
        requires { IsLive self.now object }
        ensures { IfSome (fin.get self.now.nodes object) (λ n. result ≡ n.code) }
    {
        self.arena.locate(object, near)
    }

    /// The value of a name, and the slot of the object that it refers to, if any.
    #[inline(always)]
    pub fn name_near(&self, name: u32, near: &mut Near) -> Option<Val>
        requires { name < length self.now.names }
        ensures { slice_get self.now.names name ≡ Some result }
    {
        self.names.get_near(name as usize, near)
    }

    /// `head_of`, with a hint of the object's slot.
    #[inline(always)]
    pub fn head_near(&self, object: u64, near: Near) -> Head
        requires { IsLive self.now object }
        ensures code { IfSome (fin.get self.now.nodes object) (λ n. result.code ≡ n.code) }
        ensures place { result.place ≡ place_at self.now object }
        ensures number { IfSome (fin.get self.now.nodes object) (λ n. result.number ≡ n.number) }
    {
        self.arena.head_near(object, near)
    }

    /// `len`, with a hint of the object's slot.
    #[inline(always)]
    pub fn len_near(&self, object: u64, near: Near) -> usize
        requires { IsLive self.now object }
        ensures { result ≡ length (entries_of self.now object) }
    {
        let seat = seat_near(&self.arena, object, near);
        self.boxes.len(seat)
    }

    /// `entry_at`, with a hint of the object's slot.
    #[inline(always)]
    pub fn entry_near(&self, object: u64, i: usize, near: Near) -> Entry
        requires live { IsLive self.now object }
        requires within { i < length (entries_of self.now object) }
        ensures { slice_get (entries_of self.now object) i ≡ Some result }
    {
        let seat = seat_near(&self.arena, object, near);
        self.boxes.entry_at(seat, i)
    }

    /// `entry_near`, raising the counter by 1.
    #[inline(always)]
    pub fn look_near<L: Ledger>(
        &self,
        object: u64,
        i: usize,
        near: Near,
        steps: &mut Steps<L>,
    ) -> Entry
        requires live { IsLive self.now object }
        requires within { i < length (entries_of self.now object) }
        ensures entry { slice_get (entries_of self.now object) i ≡ Some result }
        ensures steps { steps.new ≡ steps.old + 1 }
    {
        steps.rise(1);
        self.entry_near(object, i, near)
    }

    /// The entry at a position, `None` exactly if that is the length or more; with a hint of the
    /// object's slot.
    #[inline(always)]
    pub fn get_near(&self, object: u64, i: usize, near: Near) -> Option<Entry>
        requires { IsLive self.now object }
        ensures { result ≡ slice_get (entries_of self.now object) i }
    {
        let seat = seat_near(&self.arena, object, near);
        self.boxes.get(seat, i)
    }

    /// Looks at the entries from a position on, at most `cg_kind::AT_ONCE`, and writes their
    /// references to the front of `found`, which has length `cg_kind::ROOM` or more: for each entry
    /// its value's, then its key's. Takes a hint of the object's slot. The counter rises by the
    /// number of these entries.
    #[inline(always)]
    pub fn note_near<L: Ledger>(
        &self,
        object: u64,
        from: usize,
        near: Near,
        found: &mut [u64],
        steps: &mut Steps<L>,
    ) -> Noted
        requires live { IsLive self.now object }
        requires within { from ≤ length (entries_of self.now object) }
        requires room { ROOM ≤ length found.old }
        ensures next { result.next ≡ from + length (next_entries (entries_of self.now object)
            from) }
        ensures references { take result.references found.new ≡
            references (next_entries (entries_of self.now object) from) }
        ensures few { result.references ≤ ROOM }
        ensures room { length found.new ≡ length found.old }
        ensures steps { steps.new ≡ steps.old + length (next_entries (entries_of self.now object)
            from) }
    {
        let seat = seat_near(&self.arena, object, near);
        let noted = self.boxes.note_from(seat, from, found);
        steps.rise(noted.next - from);
        noted
    }

    /// Sets the collector's number of an object in a generation or among the candidates to its
    /// in-degree; takes a hint of its slot. (Developer guide, "Identifying reference cycles":
    /// `gc_refs` is set to the reference count.)
    #[inline(always)]
    pub fn set_gc_to_refs(&mut self, object: u64, near: Near)
        requires live { IsLive self.old object }
        requires place { TakesNumber (place_at self.old object) }
        ensures { self.new ≡ with_node (with_number (in_degree self.old object)) object self.old }
    {
        self.arena.set_gc_to_count(object, near);
    }

    /// `move_to`, with a hint of the object's slot.
    pub fn move_near(&mut self, object: u64, near: Near, place: Place)
        requires live { IsLive self.old object }
        requires place { IsPlace place }
        ensures { self.new ≡ moved object place self.old }
    {
        self.arena.move_near(object, near, place);
    }
}
