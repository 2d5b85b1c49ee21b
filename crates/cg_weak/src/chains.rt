//! The two chains of an object: its weak references, and those that wait with it.
ghost use Rattle.std.specs.Prelude.{◌≡◌, ℕ, ◌+◌, ◌<◌, ◌≤◌, nat_eq, if◌then◌else◌, IsSome, IsTrue, ◌↔◌, Some, None};
ghost use Rattle.std.specs.Map.{lookup};
ghost use Rattle.indexmap.specs.IndexMap.{spare};
ghost use Rattle.cg_weak.specs.Chains.{ends_without, ends_joined, ends_of, with_ends, no_chains, chains_in};

use cg_serial::SerialHashing;
use indexmap::IndexMap;

/// The two ends of a chain, both missing if it is empty.
#[derive(Clone, Copy, Debug)]
pub struct Ends {
    pub newest: Option<u64>,
    pub oldest: Option<u64>,
}

/// The chain of the weak references to an object, and the chain of those that wait with it.
#[derive(Clone, Copy, Debug)]
pub struct Chains {
    pub current: Ends,
    pub waiting: Ends,
}

impl Ends {
    /// The ends after a row between these neighbours leaves.
    pub fn without(self, newer: Option<u64>, older: Option<u64>) -> Ends
        ensures { result ≡ ends_without newer older self }
    {
        Ends {
            newest: if newer.is_none() { older } else { self.newest },
            oldest: if older.is_none() { newer } else { self.oldest },
        }
    }

    /// The ends after a row joins between these neighbours.
    pub fn joined(self, newer: Option<u64>, weak: u64, older: Option<u64>) -> Ends
        ensures { result ≡ ends_joined newer weak older self }
    {
        Ends {
            newest: if newer.is_none() {
                Some(weak)
            } else {
                self.newest
            },
            oldest: if older.is_none() {
                Some(weak)
            } else {
                self.oldest
            },
        }
    }
}

impl Chains {
    fn none() -> Chains
        ensures { result ≡ no_chains }
    {
        let none = Ends {
            newest: None,
            oldest: None,
        };
        Chains {
            current: none,
            waiting: none,
        }
    }

    fn is_empty(&self) -> bool
        ensures { IsTrue result ↔ (self.now ≡ no_chains) }
    {
        self.current.newest.is_none()
            && self.current.oldest.is_none()
            && self.waiting.newest.is_none()
            && self.waiting.oldest.is_none()
    }

    /// The ends of the waiting chain, or of the other one.
    pub fn of(&self, waits: bool) -> Ends
        ensures { result ≡ ends_of self.now waits }
    {
        if waits { self.waiting } else { self.current }
    }

    /// The chains with new ends for one of them.
    pub fn with(self, waits: bool, ends: Ends) -> Chains
        ensures { result ≡ with_ends waits ends self }
    {
        if waits {
            Chains {
                current: self.current,
                waiting: ends,
            }
        } else {
            Chains {
                current: ends,
                waiting: self.waiting,
            }
        }
    }
}

/// The chains of an object.
pub fn chains_at(chains: &IndexMap<u64, Chains, SerialHashing>, referent: u64) -> Chains
    ensures { result ≡ chains_in (lookup (nat_eq referent) chains.now.entries) }
{
    match chains.get(&referent) {
        Some(found) => *found,
        None => Chains::none(),
    }
}

/// Writes the chains of an object; there is room for them.
pub fn add_chains(chains: &mut IndexMap<u64, Chains, SerialHashing>, referent: u64, with: Chains)
    requires { 0 < spare chains.old }
    ensures chains { (o : ℕ) → chains_in (lookup (nat_eq o) chains.new.entries)
        ≡ (if nat_eq referent o then with else chains_in (lookup (nat_eq o) chains.old.entries)) }
    ensures room { spare chains.old ≤ spare chains.new + 1 }
{
    match chains.insert(referent, with) {
        Ok(_) => {}
        Err(_) => unreachable!(),
    }
}

/// Writes the chains of an object that has some, and removes them if both are empty.
pub fn write_chains(chains: &mut IndexMap<u64, Chains, SerialHashing>, referent: u64, with: Chains)
    requires { IsSome (lookup (nat_eq referent) chains.old.entries) }
    ensures chains { (o : ℕ) → chains_in (lookup (nat_eq o) chains.new.entries)
        ≡ (if nat_eq referent o then with else chains_in (lookup (nat_eq o) chains.old.entries)) }
    ensures room { spare chains.old ≤ spare chains.new }
{
    if with.is_empty() {
        chains.swap_remove(&referent);
    } else if let Some(place) = chains.get_mut(&referent) {
        *place = with;
    }
}
