//! Places, the finalized mark and the collector's number.
ghost use Rattle.std.specs.Prelude.{◌≡◌, ◌≢◌};
ghost use Rattle.cg_graph.specs.Places.{place_number};
ghost use Rattle.cg_graph.specs.Store.{IsLive, place_of as place_at};
ghost use Rattle.cg_graph.specs.Changes.{moved};
ghost use Rattle.cg_arena.specs.Nodes.{IsPlace, TakesNumber};
ghost use Rattle.cg_heap.specs.Calls.{merged, marked, with_number, with_node};

use super::Heap;
use cg_kind::Kind;
use cg_value::Place;

impl<B: Kind> Heap<B> {
    /// Moves the object to the end of the list of a place, which may be its own. (Ours; CPython's
    /// `gc_list_move`.)
    pub fn move_to(&mut self, object: u64, place: Place)
        requires live { IsLive self.old object }
        requires place { IsPlace place }
        ensures { self.new ≡ moved object place self.old }
    {
        self.arena.move_to(object, place);
    }

    /// Moves all objects of one place to the end of the list of another, in order. (Developer
    /// guide, "Optimization: generations": the survivors are merged into the next generation.)
    pub fn merge(&mut self, from: Place, to: Place)
        requires from { IsPlace from }
        requires to { IsPlace to }
        requires differ { place_number from ≢ place_number to }
        ensures { self.new ≡ merged from to self.old }
    {
        self.arena.merge(from, to);
    }

    /// Marks the object as finalized. (PEP 442: a finalizer is called once.)
    pub fn set_finalized(&mut self, object: u64)
        requires { IsLive self.old object }
        ensures { self.new ≡ with_node marked object self.old }
    {
        self.arena.set_finalized(object);
    }

    /// Sets the collector's number of an object in a generation or among the candidates.
    #[inline(always)]
    pub fn set_gc(&mut self, object: u64, number: u32)
        requires live { IsLive self.old object }
        requires place { TakesNumber (place_at self.old object) }
        ensures { self.new ≡ with_node (with_number number) object self.old }
    {
        self.arena.set_gc(object, number);
    }
}
