//! The calls that the search makes on the heap, in terms of what it sees.
ghost use Rattle.std.specs.Prelude.{◌≡◌, ◌≢◌, ◌↔◌, ◌<◌, ◌≤◌, ◌+◌, replicate, IsTrue};
ghost use Rattle.cg_graph.specs.Member.{Includes};
ghost use Rattle.cg_graph.specs.Holdings.{occurrences};
ghost use Rattle.cg_graph.specs.Store.{place_of};
ghost use Rattle.cg_arena.specs.Nodes.{IsPlace};
ghost use Rattle.cg_trial.specs.View.{view_of, Numbered, Moved, Merged, Lowered, IsNext};
ghost use Rattle.cg_trial.specs.Split.{IsSplitPlace};
ghost use Rattle.cg_trial.specs.Sift.{CanBeNumbered, zeros_at};

use cg_arena::Near;
use cg_heap::Heap;
use cg_kind::Kind;
use cg_value::Place;

/// Whether the object, whose place this is, is a member. If so it is in no other place.
#[inline(always)]
pub fn is_member<B: Kind>(heap: &Heap<B>, object: u64, place: Place, members: Place) -> bool
    requires live { IsTrue ((view_of heap.now).live object) }
    requires stands { place ≡ place_of heap.now object }
    ensures is { IsTrue result ↔ Includes ((view_of heap.now).listed members) object }
{
    heap.sound();
    place == members
}

/// Whether the object, whose place this is, is set aside. If so it is there once, and in no other
/// place.
#[inline(always)]
pub fn is_set_aside<B: Kind>(heap: &Heap<B>, object: u64, place: Place, aside: Place) -> bool
    requires live { IsTrue ((view_of heap.now).live object) }
    requires stands { place ≡ place_of heap.now object }
    ensures is { IsTrue result ↔ Includes ((view_of heap.now).listed aside) object }
    ensures once { IsTrue result → occurrences object ((view_of heap.now).listed aside) ≡ 1 }
    ensures alone { IsTrue result → (p : Place) → p ≢ aside
        → occurrences object ((view_of heap.now).listed p) ≡ 0 }
{
    heap.sound();
    place == aside
}

/// The successor of an object in the list of its place, and its slot; takes a hint of the object's
/// slot.
#[inline(always)]
pub fn following<B: Kind>(heap: &Heap<B>, object: u64, near: &mut Near) -> Option<u64>
    requires { IsTrue ((view_of heap.now).live object) }
    ensures { IsNext (view_of heap.now) object result }
{
    heap.sound();
    heap.next_near(object, near)
}

/// Sets the number of a candidate or an object of a generation.
#[inline(always)]
pub fn set_number<B: Kind>(heap: &mut Heap<B>, object: u64, number: u32)
    requires live { IsTrue ((view_of heap.old).live object) }
    requires place { CanBeNumbered (view_of heap.old) object }
    ensures { Numbered object number (view_of heap.old) (view_of heap.new) }
{
    heap.sound();
    heap.set_gc(object, number);
}

/// Sets the number of such an object to its in-degree; takes a hint of its slot.
#[inline(always)]
pub fn number_by_degree<B: Kind>(heap: &mut Heap<B>, object: u64, near: Near)
    requires live { IsTrue ((view_of heap.old).live object) }
    requires place { CanBeNumbered (view_of heap.old) object }
    ensures { Numbered object ((view_of heap.old).degree object) (view_of heap.old)
        (view_of heap.new) }
{
    heap.sound();
    heap.set_gc_to_refs(object, near);
}

/// Lowers the number of the object by `times`, if it is a member. Returns 1 if the number is 0 now,
/// else 0: so many more have that number.
#[inline(always)]
pub fn lower_number<B: Kind>(heap: &mut Heap<B>, object: u64, times: usize, members: Place) -> u64
    requires members { IsSplitPlace members }
    requires live { IsTrue ((view_of heap.old).live object) }
    requires some { 0 < times }
    requires room { Includes ((view_of heap.old).listed members) object
        → times ≤ (view_of heap.old).number object }
    ensures lowered { Lowered members (replicate times object) (view_of heap.old)
        (view_of heap.new) }
    ensures unheld { zeros_at members (view_of heap.new) ≡ zeros_at members (view_of heap.old) +
        result }
{
    heap.sound();
    let head = heap.head_of(object);
    if is_member(heap, object, head.place, members) {
        let number = (head.number as usize - times) as u32;
        set_number(heap, object, number);
        u64::from(number == 0)
    } else {
        0
    }
}

/// Moves the object to the end of the list of a place; takes a hint of its slot.
pub fn move_last<B: Kind>(heap: &mut Heap<B>, object: u64, near: Near, place: Place)
    requires live { IsTrue ((view_of heap.old).live object) }
    requires place { IsPlace place }
    ensures { Moved object place (view_of heap.old) (view_of heap.new) }
{
    heap.sound();
    heap.move_near(object, near, place);
}

/// Moves all objects of one place to the end of the list of another.
pub fn move_all<B: Kind>(heap: &mut Heap<B>, from: Place, to: Place)
    requires from { IsPlace from }
    requires to { IsPlace to }
    requires differ { from ≢ to }
    ensures { Merged from to (view_of heap.old) (view_of heap.new) }
{
    heap.sound();
    heap.merge(from, to);
}
