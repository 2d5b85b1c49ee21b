//! The arena: nodes by serial, in one list for each place.
ghost use Rattle.std.specs.Prelude.{◌≡◌, ◌≢◌, ◌+◌, ◌-◌, ◌<◌, ◌≤◌, ◌^◌, ◌↔◌, ◌∷◌, [], ◌==◌, IsTrue, IfSome, Some, None, OnOk, OnErr, IsOk, length, slice_get};
ghost use Rattle.std.specs.FinMap as map;
ghost use Rattle.slab.specs.Slab.{get, slab_len, HasRoomFor, Updates};
ghost use Rattle.indexmap.specs.IndexMap.{spare};
ghost use Rattle.cg_graph.specs.Places.{place_number};
ghost use Rattle.cg_arena.specs.Slots.{generation_in, with_count};
ghost use Rattle.cg_arena.specs.Links.{rewritten};
ghost use Rattle.cg_arena.specs.Index.{HasRow};

use crate::ends::Ends;
use crate::index::{SlotIndex, node_if};
use crate::links::{
    append, join, mark_finalized, place_all, place_last, serial_at, set_count, set_number, slot_at,
    unlink,
};
use crate::near::Near;
use crate::slot::{Head, NIL, Slot};
use cg_value::{KindCode, Place};
use slab::Slab;
use std::alloc::{AllocError, Global};
use std::marker::Model;

/// The nodes of all objects, by serial, and the list of each place.
///
/// A node is what CPython keeps in the head of an object: its count, and its links in a list of the
/// collector. (Developer guide, "Garbage collector design": each generation is a doubly linked
/// list.) Serials are ours.
///
/// A call that takes a serial takes constant time, and so do `first`, `next` and `size`; `merge` is
/// linear in the size of `from`. Only `reserve` and `add` allocate.
#[derive(Drop)]
pub struct Arena {
    slots: Slab<Slot>,
    index: SlotIndex,
    ends: [Ends; 10],
}

impl Model for Arena {
    ghost use Rattle.std.specs.Prelude.{map as each};
    ghost use Rattle.cg_arena.specs.Nodes.{Nodes, nodes_code};

    ghost Value = { Nodes };

    ghost coded = { nodes_code };

    ghost use Rattle.indexmap.specs.IndexMap.{spare};
    ghost use Rattle.cg_arena.specs.Table.{nodes_of, rows_of, serials_of, room_of};
    ghost use Rattle.cg_arena.specs.Index.{IsKept};

    ghost view = { λ a. record {
      nodes = nodes_of (rows_of a.slots) a.slots;
      lists = each (serials_of a.slots) a.ends;
      room = room_of (spare a.index.rows) a.slots;
    } };

    ghost invariant = { λ a. IsKept a.slots a.index a.ends };
}

/// The index of a place's list.
#[inline(always)]
fn number_of(place: Place) -> usize
    requires { place_number place < 10 }
    ensures number { result ≡ place_number place }
    ensures below { result < 10 }
{
    first_of(place) + generation_of(place)
}

/// The number of a generation, 0 for another place.
#[inline(always)]
fn generation_of(place: Place) -> usize
    ensures { result ≡ generation_in place }
{
    match place {
        Place::Gen(generation) => generation as usize,
        _ => 0,
    }
}

/// The index of a place's list; for a generation, that of generation 0.
///
/// Each arm is a constant, so this compiles to a table look-up. A `match` that also added the
/// generation would compile to an indirect jump.
#[inline(always)]
fn first_of(place: Place) -> usize
    ensures { result + generation_in place ≡ place_number place }
{
    match place {
        Place::Untracked => 0,
        Place::Frozen => 1,
        Place::Cand => 2,
        Place::Seen => 3,
        Place::Back => 4,
        Place::Legacy => 5,
        Place::Pend => 6,
        Place::Gen(_) => 7,
    }
}

/// Puts a node into the vacant slot that `reserve` made room for.
fn occupy(slots: &mut Slab<Slot>, slot: Slot)
    requires { HasRoomFor slots.old 1 }
    ensures updates { Updates slots.old slots.new slots.old.vacant_key (Some slot) }
    ensures len { slab_len slots.new ≡ slab_len slots.old + 1 }
    ensures few { slab_len slots.new < 2 ^ 64 }
{
    let _at = slots.insert_reserved(slot);
    // A slab has fewer than 2^64 nodes, since this result is a `usize`. So no list size overflows.
    let _count = slots.len();
}

/// `inc` by row, for a node that is not in its guessed slot.
#[inline(never)]
fn inc_by_row(index: &SlotIndex, slots: &mut Slab<Slot>, serial: u64)
    requires { (r : HasRow slots.old index.now serial) × (r.slot.count < 2 ^ 32 - 1) }
    ensures { (r : HasRow slots.old index.now serial) →
        slots.new ≡ rewritten (with_count (r.slot.count + 1)) r.at slots.old }
{
    let at = index.slot_by_row(serial);
    let count = slot_at(slots, at).count + 1;
    set_count(slots, at, count);
}

/// `dec` by row, for a node that is not in its guessed slot.
#[inline(never)]
fn dec_by_row(index: &SlotIndex, slots: &mut Slab<Slot>, serial: u64) -> bool
    requires { (r : HasRow slots.old index.now serial) × (0 < r.slot.count) }
    ensures falls { (r : HasRow slots.old index.now serial) →
        slots.new ≡ rewritten (with_count (r.slot.count - 1)) r.at slots.old }
    ensures none { (r : HasRow slots.old index.now serial) → result ≡ (r.slot.count - 1 == 0) }
{
    let at = index.slot_by_row(serial);
    let count = slot_at(slots, at).count - 1;
    set_count(slots, at, count);
    count == 0
}

impl Arena {
    ghost use Rattle.cg_arena.specs.Nodes.{HasNode, IsPlace, TakesNumber, IsListed, count_of as count_at, place_of as place_at, list_at, following, no_nodes, new_node, with_room, with_node, without_node, with_node_changed, node_finalized, node_numbered, counted_up, counted_down, with_node_moved, with_lists_merged};
    ghost use Rattle.cg_arena.specs.Slots.{node_of};

    /// An arena without nodes. It allocates nothing yet.
    pub fn new(alloc: Global) -> Arena
        ensures { result ≡ no_nodes result.room }
    {
        Arena {
            slots: Slab::new(alloc),
            index: SlotIndex::new(alloc),
            ends: [Ends::none(); 10],
        }
    }

    /// Makes room for one more node, so that `add_reserved` may be called.
    ///
    /// Returns `AllocError` only if memory runs out, or if 2^32 - 1 slots are in use. Nodes and
    /// lists are unchanged either way.
    pub fn reserve(&mut self) -> Result<(), AllocError>
        ensures ok { OnOk result (0 < self.new.room) }
        ensures stays { self.new ≡ with_room self.new.room self.old }
        ensures room { self.old.room ≤ self.new.room }
        ensures succeeds { 0 < self.old.room → IsOk result }
    {
        if self.slots.vacant_key() >= NIL as usize {
            return Err(AllocError);
        }
        self.index.reserve(&self.slots)?;
        self.slots.reserve(1)
    }

    /// Adds a node for a new serial, last in the list of its place: count 0, not finalized,
    /// collector's number 0.
    ///
    /// Returns `AllocError` only where `reserve` does; then nodes and lists are unchanged.
    pub fn add(
        &mut self,
        serial: u64,
        code: KindCode,
        class: Option<u32>,
        body: usize,
        place: Place,
    ) -> Result<(), AllocError>
        requires fresh { map.get self.old.nodes serial ≡ None }
        requires place { IsPlace place }
        ensures ok { OnOk result (self.new ≡ with_node serial (new_node code class body place)
            (with_room self.new.room self.old)) }
        ensures err { OnErr result (self.new ≡ with_room self.new.room self.old) }
        ensures room { self.old.room ≤ self.new.room + 1 }
        ensures succeeds { 0 < self.old.room → IsOk result }
    {
        self.reserve()?;
        self.add_reserved(serial, code, class, body, place);
        Ok(())
    }

    /// `add`, given room for the node, as after `reserve`. It cannot fail.
    pub fn add_reserved(
        &mut self,
        serial: u64,
        code: KindCode,
        class: Option<u32>,
        body: usize,
        place: Place,
    )
        requires fresh { map.get self.old.nodes serial ≡ None }
        requires place { IsPlace place }
        requires room { 0 < self.old.room }
        ensures adds { self.new ≡ with_node serial (new_node code class body place)
            (with_room self.new.room self.old) }
        ensures room { self.old.room ≤ self.new.room + 1 }
    {
        let _near = self.add_counted(serial, code, class, body, place, 0);
    }

    /// `add_reserved` with count 1. Returns the node's slot.
    #[inline(always)]
    pub fn add_held(
        &mut self,
        serial: u64,
        code: KindCode,
        class: Option<u32>,
        body: usize,
        place: Place,
    ) -> Near
        requires fresh { map.get self.old.nodes serial ≡ None }
        requires place { IsPlace place }
        requires room { 0 < self.old.room }
        ensures adds { self.new ≡ counted_up (serial ∷ []) (with_node serial
            (new_node code class body place) (with_room self.new.room self.old)) }
        ensures room { self.old.room ≤ self.new.room + 1 }
    {
        self.add_counted(serial, code, class, body, place, 1)
    }

    /// Adds a node with a count, last in the list of its place. Returns its slot.
    #[inline(always)]
    fn add_counted(
        &mut self,
        serial: u64,
        code: KindCode,
        class: Option<u32>,
        body: usize,
        place: Place,
        count: u32,
    ) -> Near
        requires fresh { map.get self.old.nodes serial ≡ None }
        requires place { IsPlace place }
        requires room { 0 < self.old.room }
        ensures adds { self.new ≡ with_node serial
            (record (new_node code class body place) { count = count })
            (with_room self.new.room self.old) }
        ensures room { self.old.room ≤ self.new.room + 1 }
    {
        let at = self.slots.vacant_key();
        self.index.note(&self.slots, serial, at);
        let list = number_of(place);
        let before = self.ends[list].last();
        let mut slot = Slot::new(serial, code, class, body, place, before);
        slot.count = count;
        occupy(&mut self.slots, slot);
        let ends = &mut self.ends[list];
        append(&mut self.slots, ends, at as u32);
        Near { slot: at }
    }

    /// Removes the node, whose count is 0, from its list too. Its serial may be added again.
    pub fn drop_node(&mut self, serial: u64)
        requires has { HasNode self.old serial }
        requires unheld { count_at self.old serial ≡ 0 }
        ensures drops { self.new ≡ without_node serial (with_room self.new.room self.old) }
        ensures room { self.old.room ≤ self.new.room }
    {
        let _seat = self.drop_seat(serial);
    }

    /// `seat_of`, then `drop_node`.
    pub fn drop_seat(&mut self, serial: u64) -> (KindCode, usize)
        requires has { HasNode self.old serial }
        requires unheld { count_at self.old serial ≡ 0 }
        ensures drops { self.new ≡ without_node serial (with_room self.new.room self.old) }
        ensures room { self.old.room ≤ self.new.room }
        ensures code { IfSome (map.get self.old.nodes serial) (λ n. result.0 ≡ n.code) }
        ensures body { IfSome (map.get self.old.nodes serial) (λ n. result.1 ≡ n.body) }
    {
        let (at, slot) = self.index.slot_of(&self.slots, serial);
        self.index.remove(&self.slots, serial, at);
        let seat = (slot.code, slot.body);
        let from = number_of(slot.place);
        let left = &mut self.ends[from];
        unlink(&mut self.slots, left, slot);
        self.slots.remove(at);
        seat
    }

    /// Raises the count by 1. It is below 2^32 - 1 before. (Developer guide: the count is the
    /// number of references.)
    #[inline(always)]
    pub fn inc(&mut self, serial: u64)
        requires has { HasNode self.old serial }
        requires room { count_at self.old serial < 2 ^ 32 - 1 }
        ensures { self.new ≡ counted_up (serial ∷ []) self.old }
    {
        let mut near = Near::default();
        self.inc_located(serial, &mut near);
    }

    /// `inc`, and returns the node's slot.
    #[inline(always)]
    pub fn inc_located(&mut self, serial: u64, near: &mut Near)
        requires has { HasNode self.old serial }
        requires room { count_at self.old serial < 2 ^ 32 - 1 }
        ensures { self.new ≡ counted_up (serial ∷ []) self.old }
    {
        let guess = self.index.guess(serial);
        *near = Near { slot: guess };
        match node_if(&self.slots, guess, serial) {
            Some(slot) => {
                let count = slot.count + 1;
                set_count(&mut self.slots, guess, count);
            }
            None => inc_by_row(&self.index, &mut self.slots, serial),
        }
    }

    /// `inc`, with a hint of the node's slot.
    #[inline(always)]
    pub fn inc_near(&mut self, serial: u64, near: Near)
        requires has { HasNode self.old serial }
        requires room { count_at self.old serial < 2 ^ 32 - 1 }
        ensures { self.new ≡ counted_up (serial ∷ []) self.old }
    {
        match node_if(&self.slots, near.slot, serial) {
            Some(slot) => {
                let count = slot.count + 1;
                set_count(&mut self.slots, near.slot, count);
            }
            None => self.inc_far(serial),
        }
    }

    /// `inc` of a node that is not in the slot of the hint.
    #[inline(never)]
    fn inc_far(&mut self, serial: u64)
        requires has { HasNode self.old serial }
        requires room { count_at self.old serial < 2 ^ 32 - 1 }
        ensures { self.new ≡ counted_up (serial ∷ []) self.old }
    {
        self.inc(serial);
    }

    /// Lowers the count, which is above 0, by 1. Returns whether it is now 0. (Developer guide: an
    /// object whose count reaches 0 is deallocated.)
    #[inline(always)]
    pub fn dec(&mut self, serial: u64) -> bool
        requires { 0 < count_at self.old serial }
        ensures falls { self.new ≡ counted_down (serial ∷ []) self.old }
        ensures none { IsTrue result ↔ (count_at self.new serial ≡ 0) }
    {
        let guess = self.index.guess(serial);
        match node_if(&self.slots, guess, serial) {
            Some(slot) => {
                let count = slot.count - 1;
                set_count(&mut self.slots, guess, count);
                count == 0
            }
            None => dec_by_row(&self.index, &mut self.slots, serial),
        }
    }

    /// Whether there is a node with this serial.
    pub fn has(&self, serial: u64) -> bool
        ensures { IsTrue result ↔ HasNode self.now serial }
    {
        self.index.has(&self.slots, serial)
    }

    #[inline(always)]
    fn node(&self, serial: u64) -> Slot
        requires { HasNode self.now serial }
        ensures { map.get self.now.nodes serial ≡ Some (node_of result) }
    {
        self.index.slot_of(&self.slots, serial).1
    }

    /// `node`, with a hint of its slot.
    #[inline(always)]
    fn node_near(&self, serial: u64, near: Near) -> Slot
        requires { HasNode self.now serial }
        ensures { map.get self.now.nodes serial ≡ Some (node_of result) }
    {
        self.index.slot_near(&self.slots, serial, near).1
    }

    /// The count, 0 to 2^32 - 1.
    #[inline(always)]
    pub fn count_of(&self, serial: u64) -> u32
        requires { HasNode self.now serial }
        ensures { IfSome (map.get self.now.nodes serial) (λ n. result ≡ n.count) }
    {
        self.node(serial).count
    }

    /// The kind.
    #[inline(always)]
    pub fn code_of(&self, serial: u64) -> KindCode
        requires { HasNode self.now serial }
        ensures { IfSome (map.get self.now.nodes serial) (λ n. result ≡ n.code) }
    {
        self.node(serial).code
    }

    /// The number given at `add`: the class of an instance, or the procedure of a function.
    #[inline(always)]
    pub fn class_of(&self, serial: u64) -> Option<u32>
        requires { HasNode self.now serial }
        ensures { IfSome (map.get self.now.nodes serial) (λ n. result ≡ n.class) }
    {
        self.node(serial).class()
    }

    /// The place of the object's entries among the bodies of its kind.
    #[inline(always)]
    pub fn body_of(&self, serial: u64) -> usize
        requires { HasNode self.now serial }
        ensures { IfSome (map.get self.now.nodes serial) (λ n. result ≡ n.body) }
    {
        self.node(serial).body
    }

    /// The kind, and the node's slot. A right hint saves the look-up.
    #[inline(always)]
    pub fn locate(&self, serial: u64, near: &mut Near) -> KindCode
        requires { HasNode self.now serial }
        ensures { IfSome (map.get self.now.nodes serial) (λ n. result ≡ n.code) }
    {
        let (at, slot) = self.index.slot_near(&self.slots, serial, *near);
        *near = Near { slot: at };
        slot.code
    }

    /// The kind, and the place of the object's entries among the bodies of its kind, in one
    /// look-up.
    #[inline(always)]
    pub fn seat_of(&self, serial: u64) -> (KindCode, usize)
        requires { HasNode self.now serial }
        ensures code { IfSome (map.get self.now.nodes serial) (λ n. result.0 ≡ n.code) }
        ensures body { IfSome (map.get self.now.nodes serial) (λ n. result.1 ≡ n.body) }
    {
        let slot = self.node(serial);
        (slot.code, slot.body)
    }

    /// `seat_of`, with a hint of the node's slot.
    #[inline(always)]
    pub fn seat_near(&self, serial: u64, near: Near) -> (KindCode, usize)
        requires { HasNode self.now serial }
        ensures code { IfSome (map.get self.now.nodes serial) (λ n. result.0 ≡ n.code) }
        ensures body { IfSome (map.get self.now.nodes serial) (λ n. result.1 ≡ n.body) }
    {
        let slot = self.node_near(serial, near);
        (slot.code, slot.body)
    }

    /// The kind, the place, the collector's number and the place of the object's entries among the
    /// bodies of its kind, in one look-up.
    #[inline(always)]
    pub fn head_of(&self, serial: u64) -> Head
        requires { HasNode self.now serial }
        ensures code { IfSome (map.get self.now.nodes serial) (λ n. result.code ≡ n.code) }
        ensures place { IfSome (map.get self.now.nodes serial) (λ n. result.place ≡ n.place) }
        ensures number { IfSome (map.get self.now.nodes serial) (λ n. result.number ≡ n.number) }
        ensures body { IfSome (map.get self.now.nodes serial) (λ n. result.body ≡ n.body) }
    {
        Head::of(self.node(serial))
    }

    /// `head_of`, with a hint of the node's slot.
    #[inline(always)]
    pub fn head_near(&self, serial: u64, near: Near) -> Head
        requires { HasNode self.now serial }
        ensures code { IfSome (map.get self.now.nodes serial) (λ n. result.code ≡ n.code) }
        ensures place { IfSome (map.get self.now.nodes serial) (λ n. result.place ≡ n.place) }
        ensures number { IfSome (map.get self.now.nodes serial) (λ n. result.number ≡ n.number) }
        ensures body { IfSome (map.get self.now.nodes serial) (λ n. result.body ≡ n.body) }
    {
        Head::of(self.node_near(serial, near))
    }

    /// The place whose list has the node.
    #[inline(always)]
    pub fn place_of(&self, serial: u64) -> Place
        requires { HasNode self.now serial }
        ensures { IfSome (map.get self.now.nodes serial) (λ n. result ≡ n.place) }
    {
        self.node(serial).place
    }

    /// Whether the node is marked as finalized.
    #[inline(always)]
    pub fn is_finalized(&self, serial: u64) -> bool
        requires { HasNode self.now serial }
        ensures { IfSome (map.get self.now.nodes serial) (λ n. result ≡ n.finalized) }
    {
        self.node(serial).is_finalized()
    }

    /// The collector's number, 0 at first. (Developer guide, "Identifying reference cycles":
    /// `gc_refs`.)
    #[inline(always)]
    pub fn gc_of(&self, serial: u64) -> u32
        requires { HasNode self.now serial }
        ensures { IfSome (map.get self.now.nodes serial) (λ n. result ≡ n.number) }
    {
        self.node(serial).number
    }

    /// Marks the node as finalized. (PEP 442: a finalizer is called once.)
    pub fn set_finalized(&mut self, serial: u64)
        requires { HasNode self.old serial }
        ensures { self.new ≡ with_node_changed node_finalized serial self.old }
    {
        let (at, _) = self.index.slot_of(&self.slots, serial);
        mark_finalized(&mut self.slots, at);
    }

    /// Sets the collector's number of a node in a generation or among the candidates.
    #[inline(always)]
    pub fn set_gc(&mut self, serial: u64, number: u32)
        requires has { HasNode self.old serial }
        requires place { TakesNumber (place_at self.old serial) }
        ensures { self.new ≡ with_node_changed (node_numbered number) serial self.old }
    {
        let (at, _) = self.index.slot_of(&self.slots, serial);
        set_number(&mut self.slots, at, number);
    }

    /// Sets the collector's number of a node in a generation or among the candidates to its count;
    /// takes a hint of its slot. (Developer guide, "Identifying reference cycles": `gc_refs` is set
    /// to the reference count.)
    #[inline(always)]
    pub fn set_gc_to_count(&mut self, serial: u64, near: Near)
        requires has { HasNode self.old serial }
        requires place { TakesNumber (place_at self.old serial) }
        ensures { self.new ≡ with_node_changed (node_numbered (count_at self.old serial)) serial
            self.old }
    {
        let (at, slot) = self.index.slot_near(&self.slots, serial, near);
        set_number(&mut self.slots, at, slot.count);
    }

    /// Moves the node to the end of the list of a place, which may be its own. (Ours; CPython's
    /// `gc_list_move`.)
    pub fn move_to(&mut self, serial: u64, place: Place)
        requires has { HasNode self.old serial }
        requires place { IsPlace place }
        ensures { self.new ≡ with_node_moved serial place self.old }
    {
        self.move_near(serial, Near::default(), place);
    }

    /// `move_to`, with a hint of the node's slot.
    pub fn move_near(&mut self, serial: u64, near: Near, place: Place)
        requires has { HasNode self.old serial }
        requires place { IsPlace place }
        ensures { self.new ≡ with_node_moved serial place self.old }
    {
        let (at, slot) = self.index.slot_near(&self.slots, serial, near);
        let from = number_of(slot.place);
        let left = &mut self.ends[from];
        unlink(&mut self.slots, left, slot);
        let to = number_of(place);
        let before = self.ends[to].last();
        place_last(&mut self.slots, at, place, before);
        let ends = &mut self.ends[to];
        append(&mut self.slots, ends, at as u32);
    }

    /// Moves all nodes of one place to the end of the list of another, in order. (Developer guide,
    /// "Optimization: generations": the survivors are merged into the next generation.)
    pub fn merge(&mut self, from: Place, to: Place)
        requires from { IsPlace from }
        requires to { IsPlace to }
        requires differ { place_number from ≢ place_number to }
        ensures { self.new ≡ with_lists_merged from to self.old }
    {
        let leaving = number_of(from);
        let joined = number_of(to);
        let moved = self.ends[leaving];
        place_all(&mut self.slots, moved.first(), moved.size(), to);
        let front = &mut self.ends[joined];
        join(&mut self.slots, front, moved);
        self.ends[leaving] = Ends::none();
    }

    /// The first of the list of a place, or `None` if it is empty.
    pub fn first(&self, place: Place) -> Option<u64>
        requires { IsPlace place }
        ensures { result ≡ slice_get (list_at self.now place) 0 }
    {
        serial_at(&self.slots, self.ends[number_of(place)].first())
    }

    /// `first`, with its slot.
    #[inline(always)]
    pub fn first_near(&self, place: Place, near: &mut Near) -> Option<u64>
        requires { IsPlace place }
        ensures { result ≡ slice_get (list_at self.now place) 0 }
    {
        let first = self.ends[number_of(place)].first();
        *near = Near::at(first);
        serial_at(&self.slots, first)
    }

    /// `next`, with a hint of the node's slot, and the slot of the result. So a walk over a list
    /// needs no look-ups.
    #[inline(always)]
    pub fn next_near(&self, serial: u64, near: &mut Near) -> Option<u64>
        requires { HasNode self.now serial }
        ensures { result ≡ following serial (list_at self.now (place_at self.now serial)) }
    {
        let (_, slot) = self.index.slot_near(&self.slots, serial, *near);
        let after = slot.after();
        *near = Near::at(after);
        serial_at(&self.slots, after)
    }

    /// The successor of a node in its list, or `None` at the end.
    pub fn next(&self, serial: u64) -> Option<u64>
        requires { HasNode self.now serial }
        ensures { result ≡ following serial (list_at self.now (place_at self.now serial)) }
    {
        let (_, slot) = self.index.slot_of(&self.slots, serial);
        serial_at(&self.slots, slot.after())
    }

    /// The number of nodes in a place. It also proves that each node is once in the list of its
    /// place and in no other.
    pub fn size(&self, place: Place) -> u64
        requires { IsPlace place }
        ensures size { result ≡ length (list_at self.now place) }
        ensures listed { IsListed self.now }
    {
        self.ends[number_of(place)].size()
    }
}
