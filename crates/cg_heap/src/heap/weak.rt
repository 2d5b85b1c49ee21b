//! Weak references: each one's referent, and which wait for their callback with their former
//! referent.
ghost use Rattle.std.specs.Prelude.{◌≡◌, ◌↔◌, [], IsTrue, IsSome, slice_get};
ghost use Rattle.cg_graph.specs.Rows.{referent_in, waited_in, weak_references_in, waiting_in, next_older_in};
ghost use Rattle.cg_graph.specs.Store.{IsLive};
ghost use Rattle.cg_heap.specs.Weak.{cleared_weak, forgotten_weak};

use super::Heap;
use cg_kind::Kind;

impl<B: Kind> Heap<B> {
    /// Whether no weak reference has a referent or waits for its callback. (Ours.)
    #[inline(always)]
    pub fn is_unreferred(&self) -> bool
        ensures { IsTrue result ↔ (self.now.rows ≡ []) }
    {
        self.weak.is_empty()
    }

    /// The referent of a weak reference. `None` exactly if the object has no row or waits.
    /// (`weakref` manual: calling a reference object gives its referent, or None if that is no
    /// longer alive.)
    pub fn referent_of(&self, weak: u64) -> Option<u64>
        requires { IsLive self.now weak }
        ensures { result ≡ referent_in self.now.rows weak }
    {
        self.weak.referent_of(weak)
    }

    /// The newest weak reference to an object that is not waiting, `None` exactly if there is none.
    /// (`weakref` manual: the most recently registered callback is called first.)
    pub fn newest_of(&self, object: u64) -> Option<u64>
        requires { IsLive self.now object }
        ensures { result ≡ slice_get (weak_references_in self.now.rows object) 0 }
    {
        self.weak.newest_of(object)
    }

    /// The newest weak reference that waits with an object, `None` exactly if none does. (Ours.)
    pub fn newest_waiting(&self, object: u64) -> Option<u64>
        requires { IsLive self.now object }
        ensures { result ≡ slice_get (waiting_in self.now.rows object) 0 }
    {
        self.weak.newest_waiting(object)
    }

    /// The next older weak reference to the same object that is not waiting, `None` exactly if
    /// there is none. (Ours.)
    pub fn older_of(&self, weak: u64) -> Option<u64>
        requires live { IsLive self.now weak }
        requires refers { IsSome (referent_in self.now.rows weak) }
        ensures { result ≡ next_older_in self.now.rows weak }
    {
        self.weak.older_of(weak)
    }

    /// Clears a weak reference's referent: its row now waits with the referent, or is removed. It
    /// does not allocate.
    pub fn clear_weak(&mut self, weak: u64, wait: bool)
        requires live { IsLive self.old weak }
        requires refers { IsSome (referent_in self.old.rows weak) }
        ensures { self.new ≡ cleared_weak weak wait self.old }
    {
        self.weak.clear(weak, wait);
    }

    /// Removes the row of a weak reference that waits. It does not allocate. (Ours.)
    pub fn forget_weak(&mut self, weak: u64)
        requires live { IsLive self.old weak }
        requires waits { IsSome (waited_in self.old.rows weak) }
        ensures { self.new ≡ forgotten_weak weak self.old }
    {
        self.weak.forget(weak);
    }
}
