//! The table: rows by weak reference, and the chains of each object.
ghost use Rattle.std.specs.Prelude.{◌≡◌, ◌+◌, ◌++◌, ◌∷◌, [], ◌<◌, ◌≤◌, slice_get, true, false, if◌then◌else◌, IsTrue, ◌↔◌, IsSome, Some, OnOk, OnErr, IsOk};
ghost use Rattle.std.specs.List.{All};
ghost use Rattle.cg_graph.specs.Rows.{IsRising, referent_in, waited_in, weak_references_in, waiting_in, next_older_in, new_row, with_row_waiting, without_row};

use crate::chains::{Chains, add_chains, chains_at, write_chains};
use crate::nodes::{Node, add_node, join, node_at, remove_node, tie, write_node};
use crate::place::neighbours;
use cg_serial::{SerialHashing, serial_hashing};
use indexmap::IndexMap;
use std::alloc::{AllocError, Global};
use std::marker::Model;

/// Which weak reference has which referent, and which wait for their callback with their former
/// referent.
///
/// A weak reference with a greater number is newer. (`weakref` manual: the callbacks of an object
/// are called from the most recently registered on. Clearing its weak references in this order too
/// is ours.)
///
/// Only `reserve` and `attach` allocate. Every call takes constant time, except `clear` with `wait`
/// of a weak reference that is neither older nor newer than all that wait with its referent: it
/// walks over the older ones.
#[derive(Drop)]
pub struct WeakTable {
    nodes: IndexMap<u64, Node, SerialHashing>,
    chains: IndexMap<u64, Chains, SerialHashing>,
}

impl Model for WeakTable {
    ghost use Rattle.std.specs.Prelude.{min};
    ghost use Rattle.cg_weak.specs.WeakRows.{WeakRows};

    ghost Value = { WeakRows };

    ghost use Rattle.indexmap.specs.IndexMap.{spare};
    ghost use Rattle.cg_weak.specs.Table.{rows_of, node_in, ends_at, IsSound};

    ghost view = { λ t. record {
      rows = rows_of t.nodes.entries;
      room = min (spare t.nodes)
          (spare t.chains);
    } };

    ghost invariant = { λ t. IsSound (node_in t.nodes.entries) (ends_at t.chains.entries) };
}

impl WeakTable {
    /// An empty table. It allocates nothing yet.
    pub fn new(alloc: Global) -> WeakTable
        ensures { result.rows ≡ [] }
    {
        WeakTable {
            nodes: IndexMap::with_hasher(alloc, serial_hashing()),
            chains: IndexMap::with_hasher(alloc, serial_hashing()),
        }
    }

    /// Whether the table is empty: no weak reference has a referent or waits. (Ours.)
    #[inline(always)]
    pub fn is_empty(&self) -> bool
        ensures { IsTrue result ↔ (self.now.rows ≡ []) }
    {
        self.nodes.len() == 0
    }

    /// Makes room for one more row, so that `attach_reserved` may be called. (Ours.)
    ///
    /// Returns `AllocError` only if memory runs out. The rows are unchanged either way.
    pub fn reserve(&mut self) -> Result<(), AllocError>
        ensures ok { OnOk result (0 < self.new.room) }
        ensures rows { self.new.rows ≡ self.old.rows }
        ensures room { self.old.room ≤ self.new.room }
        ensures succeeds { 0 < self.old.room → IsOk result }
    {
        self.nodes.reserve(1)?;
        self.chains.reserve(1)
    }

    /// Gives a referent to a weak reference that is above every other one. Its row goes last, not
    /// waiting. (Ours.)
    ///
    /// Returns `AllocError` only if memory runs out; then the rows are unchanged.
    pub fn attach(&mut self, weak: u64, referent: u64) -> Result<(), AllocError>
        requires { All (λ r. r.weak < weak) self.old.rows }
        ensures ok { OnOk result (self.new.rows ≡ self.old.rows ++ new_row weak referent ∷ []) }
        ensures err { OnErr result (self.new.rows ≡ self.old.rows) }
        ensures room { self.old.room ≤ self.new.room + 1 }
        ensures succeeds { 0 < self.old.room → IsOk result }
    {
        self.reserve()?;
        self.attach_reserved(weak, referent);
        Ok(())
    }

    /// `attach`, given room for the row, as after `reserve`. It cannot fail.
    pub fn attach_reserved(&mut self, weak: u64, referent: u64)
        requires newest { All (λ r. r.weak < weak) self.old.rows }
        requires room { 0 < self.old.room }
        ensures rows { self.new.rows ≡ self.old.rows ++ new_row weak referent ∷ [] }
        ensures room { self.old.room ≤ self.new.room + 1 }
    {
        let chains = chains_at(&self.chains, referent);
        let older = chains.current.newest;
        let node = Node {
            referent,
            waits: false,
            newer: None,
            older,
        };
        add_node(&mut self.nodes, weak, node);
        join(&mut self.nodes, None, weak, older);
        let ends = chains.current.joined(None, weak, older);
        add_chains(&mut self.chains, referent, chains.with(false, ends));
    }

    /// The referent of a weak reference, or `None` if it has no row or waits. (`weakref` manual:
    /// calling a reference object gives its referent, or None if that is no longer alive.)
    pub fn referent_of(&self, weak: u64) -> Option<u64>
        ensures referent { result ≡ referent_in self.now.rows weak }
        ensures rising { IsRising self.now.rows }
    {
        let node = self.nodes.get(&weak)?;
        if node.waits {
            None
        } else {
            Some(node.referent)
        }
    }

    /// The newest weak reference to an object that is not waiting, or `None`. (`weakref` manual:
    /// the most recently registered callback is called first.)
    pub fn newest_of(&self, referent: u64) -> Option<u64>
        ensures { result ≡ slice_get (weak_references_in self.now.rows referent) 0 }
    {
        chains_at(&self.chains, referent).current.newest
    }

    /// The newest weak reference that waits with an object, or `None`. (Ours.)
    pub fn newest_waiting(&self, referent: u64) -> Option<u64>
        ensures { result ≡ slice_get (waiting_in self.now.rows referent) 0 }
    {
        chains_at(&self.chains, referent).waiting.newest
    }

    /// The next older weak reference to the same object that is not waiting, or `None`. (Ours.)
    pub fn older_of(&self, weak: u64) -> Option<u64>
        requires { IsSome (referent_in self.now.rows weak) }
        ensures { result ≡ next_older_in self.now.rows weak }
    {
        node_at(&self.nodes, weak).older
    }

    /// Clears a weak reference's referent: its row now waits with the referent, or is removed.
    /// (`weakref` manual: an object about to be finalized is no longer available to its weak
    /// references when their callbacks run. The waiting is ours.)
    pub fn clear(&mut self, weak: u64, wait: bool)
        requires { IsSome (referent_in self.old.rows weak) }
        ensures rows { self.new.rows ≡ (if wait then with_row_waiting weak self.old.rows else
            without_row weak self.old.rows) }
        ensures room { self.old.room ≤ self.new.room }
    {
        if wait {
            self.set_waiting(weak);
        } else {
            self.remove(weak);
        }
    }

    /// Removes the row of a weak reference that waits. (Ours.)
    pub fn forget(&mut self, weak: u64)
        requires { IsSome (waited_in self.old.rows weak) }
        ensures rows { self.new.rows ≡ without_row weak self.old.rows }
        ensures room { self.old.room ≤ self.new.room }
    {
        self.remove(weak);
    }
}

// The two ways a row leaves its chain.
impl WeakTable {
    ghost use Rattle.cg_weak.specs.Table.{row_at};

    // The row leaves its chain and the table.
    fn remove(&mut self, weak: u64)
        requires { IsSome (row_at self.old.rows weak) }
        ensures rows { self.new.rows ≡ without_row weak self.old.rows }
        ensures room { self.old.room ≤ self.new.room }
    {
        let node = node_at(&self.nodes, weak);
        let chains = chains_at(&self.chains, node.referent);
        tie(&mut self.nodes, node.newer, node.older);
        remove_node(&mut self.nodes, weak);
        let ends = chains.of(node.waits).without(node.newer, node.older);
        write_chains(
            &mut self.chains,
            node.referent,
            chains.with(node.waits, ends),
        );
    }

    // The row moves from one chain of its object to the other.
    fn set_waiting(&mut self, weak: u64)
        requires { IsSome (referent_in self.old.rows weak) }
        ensures rows { self.new.rows ≡ with_row_waiting weak self.old.rows }
        ensures room { self.old.room ≤ self.new.room }
    {
        let node = node_at(&self.nodes, weak);
        let referent = node.referent;
        let chains = chains_at(&self.chains, referent);
        let (newer, older) = neighbours(&self.nodes, referent, chains.waiting, weak);
        tie(&mut self.nodes, node.newer, node.older);
        let waiting = Node {
            referent,
            waits: true,
            newer,
            older,
        };
        write_node(&mut self.nodes, weak, waiting);
        join(&mut self.nodes, newer, weak, older);
        let moved = Chains {
            current: chains.current.without(node.newer, node.older),
            waiting: chains.waiting.joined(newer, weak, older),
        };
        write_chains(&mut self.chains, referent, moved);
    }
}
