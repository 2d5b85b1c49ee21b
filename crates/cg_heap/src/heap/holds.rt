//! Outside holds.
ghost use Rattle.std.specs.Prelude.{◌≡◌, ◌<◌, ◌↔◌, ◌∷◌, [], IsTrue};
ghost use Rattle.cg_graph.specs.Store.{IsLive, outside_of, count_of};
ghost use Rattle.cg_graph.specs.Changes.{held, unheld};
ghost use Rattle.cg_heap.specs.Calls.{HasFewHolds};

use super::Heap;
use cg_kind::Kind;

impl<B: Kind> Heap<B> {
    /// Adds an outside hold.
    #[inline(always)]
    pub fn hold(&mut self, object: u64)
        requires live { IsLive self.old object }
        requires few { HasFewHolds self.old }
        ensures { self.new ≡ held (object ∷ []) self.old }
    {
        self.arena.inc(object);
    }

    /// Releases one of at least one outside holds. Returns whether the in-degree is now 0.
    /// (Developer guide: an object whose count reaches 0 is deallocated.)
    #[inline(always)]
    pub fn unhold(&mut self, object: u64) -> bool
        requires { 0 < outside_of self.old object }
        ensures less { self.new ≡ unheld (object ∷ []) self.old }
        ensures none { IsTrue result ↔ (count_of self.new object ≡ 0) }
    {
        self.arena.dec(object)
    }
}
