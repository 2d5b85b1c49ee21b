//! Pairs in eighteen bytes, as short dictionaries store them.
ghost use Rattle.std.specs.Prelude.{◌≡◌, ◌+◌, ◌≤◌, ◌++◌, length, take};
ghost use Rattle.cg_graph.specs.Value.{entry_references};
ghost use Rattle.cg_kind.specs.Calls.{has_key};
ghost use Rattle.cg_kinds.specs.Pairs.{pair_entry};

use crate::kept::KeepsEntry;
use crate::nine::Nine;
use cg_kind::note_reference;
use cg_value::{Entry, Val};
use std::marker::Model;

/// A key and its value, each in nine bytes. An `Entry` takes thirty-two.
#[derive(Drop)]
pub struct Pair {
    key: Nine,
    val: Nine,
}

impl Model for Pair {
    ghost use Rattle.cg_value.specs.declared.Entry.{Entry};

    ghost Value = { Entry };

    ghost view = { λ p. record { key = p.key; val = p.val } };
}

impl Pair {
    /// Packs an entry.
    #[inline(always)]
    pub fn new(entry: Entry) -> Pair
        ensures { result ≡ entry }
    {
        Pair {
            key: Nine::new(entry.key),
            val: Nine::new(entry.val),
        }
    }

    /// The entry.
    #[inline(always)]
    pub fn entry(&self) -> Entry
        ensures { result ≡ self.now }
    {
        Entry {
            key: self.key.val(),
            val: self.val.val(),
        }
    }

    /// The value.
    #[inline(always)]
    pub fn val(&self) -> Val
        ensures { result ≡ self.now.val }
    {
        self.val.val()
    }

    /// Replaces the value; the key's bytes are unchanged.
    #[inline(always)]
    pub fn set_val(&mut self, val: Val)
        ensures { self.new ≡ record { key = self.old.key; val = val } }
    {
        self.val = Nine::new(val);
    }

    /// Whether it has a key.
    #[inline(always)]
    #[tactic(auto, using(crate::proofs::KeyLemmas::equal_is))]
    pub fn is_under(&self, key: &Nine) -> bool
        ensures { result ≡ has_key key.now self.now }
    {
        *key == self.key
    }
}

impl KeepsEntry for Pair {
    ghost kept = { λ p. p };

    #[inline(always)]
    fn note(&self, found: &mut [u64], count: usize) -> usize {
        note_pair(found, count, &self.key, &self.val)
    }
}

/// Writes the references of a packed value and its packed key, in this order, after the first
/// `count`. Returns the new count.
#[inline(always)]
pub fn note_pair(found: &mut [u64], count: usize, key: &Nine, val: &Nine) -> usize
    requires { count + 2 ≤ length found.old }
    ensures noted { take result found.new ≡ take count found.old
        ++ entry_references (pair_entry (key.now, val.now)) }
    ensures few { result ≤ count + 2 }
    ensures room { length found.new ≡ length found.old }
{
    let with_value = note_reference(found, count, val.reference());
    let with_key = note_reference(found, with_value, key.reference());
    with_key
}
