//! The heap: its type, `new`, and its queries.
ghost use Rattle.std.specs.Prelude.{◌≡◌, ◌<◌, ℕ, IfOk, IfSome, IfNone, OnSome, IsTrue, ◌↔◌, Some, None, map, replicate, length, position, slice_get};
ghost use Rattle.std.specs.FinMap as fin;
ghost use Rattle.cg_kind.specs.Calls.{has_key};
ghost use Rattle.cg_graph.specs.Value.{value_at};
ghost use Rattle.cg_graph.specs.Store.{IsLive, HasCode, entries_of, count_of as in_degree, list_at, place_of as place_at};
ghost use Rattle.cg_graph.specs.Changes.{opening_store};
ghost use Rattle.cg_arena.specs.Nodes.{following, IsPlace};
ghost use Rattle.cg_heap.specs.Boxes.{six_kinds};
ghost use Rattle.cg_heap.specs.Calls.{object_number, entry_number, IsSound};

mod bindings;
mod entries;
mod holds;
mod look;
mod near;
mod objects;
mod places;
mod weak;

use crate::boxes::Boxes;
use crate::counts::{seat_near, seat_of};
use crate::names::Names;
use cg_arena::{Arena, Head, Near};
use cg_kind::Kind;
use cg_value::{Entry, KindCode, Place, Val};
use cg_weak::WeakTable;
use objects::Objects;
use std::alloc::{AllocError, Global};
use std::marker::Model;

/// Objects, whose entries are in six boxes of kinds, and names.
///
/// An object is identified by its serial; serials rise and are never reused. `#1` is the garbage
/// list, held by the garbage root. Each live object has a number of outside holds, owned by the
/// caller: an object's count is the number of references to it from names, the garbage root and
/// entries, plus its outside holds. (Developer guide, "Reference counting". The limits and the
/// serials are ours.)
///
/// Every call that takes a serial requires it to be live, every call that takes a name requires it
/// to be below the number given to `new`, and every call that takes a place requires a generation
/// of at most 2. Only `new`, `make`, `make_named`, `append` and `put` can fail for lack of memory.
/// `take` and `take_key` may allocate an order of many keys, and do without if that fails.
#[derive(Drop)]
pub struct Heap<B: Kind> {
    boxes: Boxes<B>,
    arena: Arena,
    weak: WeakTable,
    names: Names,
    last: u64,
    objects: Objects,
    entries: u64,
}

impl<B: Kind> Model for Heap<B> {
    ghost use Rattle.cg_graph.specs.Store.{Store};
    ghost use Rattle.cg_heap.specs.Codes.{store_code};
    ghost use Rattle.cg_heap.specs.Keeps.{store_of, HeapKeeps, RowsAndHolds};

    ghost Value = { Store };

    ghost coded = { store_code };

    ghost view = { λ a. store_of a.boxes a.arena a.names a.last a.weak.rows };

    ghost invariant = { λ a. HeapKeeps a.boxes a.arena.nodes a.objects a.entries
        (store_of a.boxes a.arena a.names a.last a.weak.rows)
        × RowsAndHolds (store_of a.boxes a.arena a.names a.last a.weak.rows) };
}

impl<B: Kind> Heap<B> {
    /// A heap with only the garbage list, and `names` unbound names, below 2^30.
    ///
    /// `kinds` has the kinds in the order of `KindCode`, without objects. Returns `AllocError` only
    /// if memory runs out.
    pub fn new(alloc: Global, kinds: Vec<B>, names: u32) -> Result<Self, AllocError>
        requires kinds { map B.kind kinds.items ≡ six_kinds }
        requires empty { map B.bodies kinds.items ≡ replicate 6 fin.empty }
        requires names { names < 1073741824 }
        ensures { IfOk result (λ h. h ≡ opening_store names) }
    {
        let names = Names::new(alloc, names)?;
        let mut arena = Arena::new(alloc);
        let mut boxes = Boxes::new(kinds);
        let body = boxes.make(KindCode::List, &[])?;
        arena.add(1, KindCode::List, None, body, Place::Untracked)?;
        arena.inc(1);
        Ok(Heap {
            boxes,
            arena,
            weak: WeakTable::new(alloc),
            names,
            last: 1,
            objects: Objects {
                live: 0,
                savable: 0,
            },
            entries: 0,
        })
    }

    /// Exposes the heap's invariant to proofs, and does nothing at run time: what names, the
    /// garbage root and entries hold is live, no live serial is above the last, each in-degree is
    /// below 2^32, each object is once in the list of its place and in no other, the garbage list
    /// names each object at most once and never itself, each row is that of a live weak reference
    /// with a live referent, and there are at most 1,000,000 objects and 4,000,000 entries.
    #[inline(always)]
    pub fn sound(&self)
        ensures { IsSound self.now }
    {
        let _untracked = self.arena.size(Place::Untracked);
    }

    /// The in-degree, below 2^32. (Python: `sys.getrefcount`, without the reference of its
    /// argument.)
    #[inline(always)]
    pub fn refs(&self, object: u64) -> u64
        requires { IsLive self.now object }
        ensures count { result ≡ in_degree self.now object }
        ensures below { result < 4294967296 }
    {
        self.arena.count_of(object) as u64
    }

    /// The number of live objects, not counting the garbage list.
    pub fn live(&self) -> u64
        ensures { result ≡ object_number self.now }
    {
        self.objects.live
    }

    /// The number of entries of live objects, not counting those of the garbage list.
    pub fn entries(&self) -> u64
        ensures { result ≡ entry_number self.now }
    {
        self.entries
    }

    /// Whether an object with this serial is live.
    pub fn has(&self, object: u64) -> bool
        ensures { IsTrue result ↔ IsLive self.now object }
    {
        self.arena.has(object)
    }

    /// Whether no object of this kind is live. If its box does not know, the answer is `false`.
    pub fn has_none(&self, code: KindCode) -> bool
        ensures { IsTrue result → (s : ℕ) → ¬ (HasCode self.now s code) }
    {
        self.boxes.has_none(code)
    }

    /// The kind.
    #[inline(always)]
    pub fn kind_of(&self, object: u64) -> KindCode
        requires { IsLive self.now object }
        ensures { IfSome (fin.get self.now.nodes object) (λ n. result ≡ n.code) }
    {
        self.arena.code_of(object)
    }

    /// The number given to `make`: the class of an instance, or the procedure of a function.
    #[inline(always)]
    pub fn class_of(&self, object: u64) -> Option<u32>
        requires { IsLive self.now object }
        ensures { IfSome (fin.get self.now.nodes object) (λ n. result ≡ n.class) }
    {
        self.arena.class_of(object)
    }

    /// The place whose list has the object.
    #[inline(always)]
    pub fn place_of(&self, object: u64) -> Place
        requires { IsLive self.now object }
        ensures { result ≡ place_at self.now object }
    {
        self.arena.place_of(object)
    }

    /// Whether the object is marked as finalized.
    pub fn is_finalized(&self, object: u64) -> bool
        requires { IsLive self.now object }
        ensures { IfSome (fin.get self.now.nodes object) (λ n. result ≡ n.finalized) }
    {
        self.arena.is_finalized(object)
    }

    /// The collector's number, 0 at first. (Developer guide, "Identifying reference cycles":
    /// `gc_refs`.)
    pub fn gc_of(&self, object: u64) -> u32
        requires { IsLive self.now object }
        ensures { IfSome (fin.get self.now.nodes object) (λ n. result ≡ n.number) }
    {
        self.arena.gc_of(object)
    }

    /// The kind, the place and the collector's number, in one look-up.
    #[inline(always)]
    pub fn head_of(&self, object: u64) -> Head
        requires { IsLive self.now object }
        ensures code { IfSome (fin.get self.now.nodes object) (λ n. result.code ≡ n.code) }
        ensures place { result.place ≡ place_at self.now object }
        ensures number { IfSome (fin.get self.now.nodes object) (λ n. result.number ≡ n.number) }
    {
        self.arena.head_of(object)
    }

    /// The number of entries.
    #[inline(always)]
    pub fn len(&self, object: u64) -> usize
        requires { IsLive self.now object }
        ensures { result ≡ length (entries_of self.now object) }
    {
        let seat = seat_of(&self.arena, object);
        self.boxes.len(seat)
    }

    /// The entry at a position below the length.
    #[inline(always)]
    pub fn entry_at(&self, object: u64, i: usize) -> Entry
        requires live { IsLive self.now object }
        requires within { i < length (entries_of self.now object) }
        ensures { slice_get (entries_of self.now object) i ≡ Some result }
    {
        let seat = seat_of(&self.arena, object);
        self.boxes.entry_at(seat, i)
    }

    /// The first position with this key, `None` exactly if there is none.
    #[inline(always)]
    pub fn find(&self, object: u64, key: Val) -> Option<usize>
        requires { IsLive self.now object }
        ensures { result ≡ position (has_key key) (entries_of self.now object) }
    {
        let seat = seat_of(&self.arena, object);
        self.boxes.find(seat, key)
    }

    /// The value under a key, `None` exactly if no entry has the key.
    #[inline(always)]
    pub fn value_of(&self, object: u64, key: Val) -> Option<Val>
        requires { IsLive self.now object }
        ensures { result ≡ value_at (entries_of self.now object) key }
    {
        let seat = seat_of(&self.arena, object);
        self.boxes.value_of(seat, key)
    }

    /// `value_of`, with a hint of the object's slot, if the object is of this kind. `None` exactly
    /// if it is of another.
    #[inline(always)]
    pub fn value_if(&self, code: KindCode, object: u64, near: Near, key: Val) -> Option<Option<Val>>
        requires { IsLive self.now object }
        ensures kind { OnSome result (HasCode self.now object code) }
        ensures other { IfNone result (¬ (HasCode self.now object code)) }
        ensures value { IfSome result (λ found. found ≡ value_at (entries_of self.now object) key) }
    {
        let seat = seat_near(&self.arena, object, near);
        if !seat.is_of(code) {
            return None;
        }
        Some(self.boxes.value_of(seat, key))
    }

    /// The value of a name, `None` if it is unbound.
    #[inline(always)]
    pub fn name(&self, name: u32) -> Option<Val>
        requires { name < length self.now.names }
        ensures { slice_get self.now.names name ≡ Some result }
    {
        self.names.get(name as usize)
    }

    /// The first of the list of a place, `None` if it is empty.
    pub fn first(&self, place: Place) -> Option<u64>
        requires { IsPlace place }
        ensures { result ≡ slice_get (list_at self.now place) 0 }
    {
        self.arena.first(place)
    }

    /// The successor of an object in the list of its place, `None` at the end.
    pub fn next(&self, object: u64) -> Option<u64>
        requires { IsLive self.now object }
        ensures { result ≡ following object (list_at self.now (place_at self.now object)) }
    {
        self.arena.next(object)
    }

    /// The number of objects in a place.
    pub fn size(&self, place: Place) -> u64
        requires { IsPlace place }
        ensures { result ≡ length (list_at self.now place) }
    {
        self.arena.size(place)
    }
}
