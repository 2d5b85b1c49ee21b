//! Counted looks at an entry, or at the row of a weak reference.
ghost use Rattle.std.specs.Prelude.{◌≡◌, ◌↔◌, ◌+◌, ◌<◌, ◌∷◌, ◌++◌, [], Some, IfSome, IsSome, IfNone, IsNone, length, slice_get};
ghost use Rattle.cg_graph.specs.Value.{without_last, entry_references};
ghost use Rattle.cg_graph.specs.Rows.{referent_in, weak_references_in, next_older_in};
ghost use Rattle.cg_graph.specs.Store.{IsLive, entries_of};
ghost use Rattle.cg_graph.specs.Changes.{held, rewritten};
ghost use Rattle.cg_heap.specs.Calls.{HasFewHolds};

use super::Heap;
use crate::steps::Steps;
use cg_kind::Kind;
use cg_value::Entry;
use std::sync::ledger::Ledger;

impl<B: Kind> Heap<B> {
    /// `entry_at`, raising the counter by 1.
    pub fn look<L: Ledger>(&self, object: u64, i: usize, steps: &mut Steps<L>) -> Entry
        requires live { IsLive self.now object }
        requires within { i < length (entries_of self.now object) }
        ensures entry { slice_get (entries_of self.now object) i ≡ Some result }
        ensures steps { steps.new ≡ steps.old + 1 }
    {
        steps.rise(1);
        self.entry_at(object, i)
    }

    /// `detach`, raising the counter by 1 if there is an entry.
    pub fn detach_looking<L: Ledger>(&mut self, object: u64, steps: &mut Steps<L>) -> Option<Entry>
        requires live { IsLive self.old object }
        requires few { HasFewHolds self.old }
        ensures last { IfSome result (λ e. entries_of self.old object ≡
            without_last (entries_of self.old object) ++ e ∷ []) }
        ensures rest { IfSome result (λ e. self.new ≡ held (entry_references e)
            (rewritten object (without_last (entries_of self.old object)) self.old)) }
        ensures empty { IsNone result ↔ (entries_of self.old object ≡ []) }
        ensures none { IfNone result (self.new ≡ self.old) }
        ensures looked { IfSome result (λ e. steps.new ≡ steps.old + 1) }
        ensures unlooked { IfNone result (steps.new ≡ steps.old) }
    {
        match self.detach(object) {
            Some(entry) => {
                steps.rise(1);
                Some(entry)
            }
            None => None,
        }
    }

    /// `referent_of`, raising the counter by 1.
    pub fn referent_looking<L: Ledger>(&self, weak: u64, steps: &mut Steps<L>) -> Option<u64>
        requires { IsLive self.now weak }
        ensures referent { result ≡ referent_in self.now.rows weak }
        ensures steps { steps.new ≡ steps.old + 1 }
    {
        steps.rise(1);
        self.referent_of(weak)
    }

    /// `newest_of`, raising the counter by 1.
    pub fn newest_looking<L: Ledger>(&self, object: u64, steps: &mut Steps<L>) -> Option<u64>
        requires { IsLive self.now object }
        ensures newest { result ≡ slice_get (weak_references_in self.now.rows object) 0 }
        ensures steps { steps.new ≡ steps.old + 1 }
    {
        steps.rise(1);
        self.newest_of(object)
    }

    /// `older_of`, raising the counter by 1.
    pub fn older_looking<L: Ledger>(&self, weak: u64, steps: &mut Steps<L>) -> Option<u64>
        requires live { IsLive self.now weak }
        requires refers { IsSome (referent_in self.now.rows weak) }
        ensures older { result ≡ next_older_in self.now.rows weak }
        ensures steps { steps.new ≡ steps.old + 1 }
    {
        steps.rise(1);
        self.older_of(weak)
    }
}
