//! At most one pair, searched by its key.
ghost use Rattle.std.specs.Prelude.{◌≡◌, IfNone, OnSome, option_to_list, position};
ghost use Rattle.cg_graph.specs.Value.{value_at, put, without_key, entry_at as entry_under};
ghost use Rattle.cg_kind.specs.Calls.{has_key};

use crate::nine::Nine;
use crate::one::One;
use crate::pair::Pair;
use cg_value::{Entry, Val};

impl One<Pair> {
    /// The position of a key.
    #[inline(always)]
    pub fn find(&self, key: Val) -> Option<usize>
        ensures { result ≡ position (has_key key) (option_to_list self.now.kept) }
    {
        match &self.kept {
            Some(pair) if pair.is_under(&Nine::new(key)) => Some(0),
            _ => None,
        }
    }

    /// The value under a key.
    #[inline(always)]
    pub fn value_of(&self, key: Val) -> Option<Val>
        ensures { result ≡ value_at (option_to_list self.now.kept) key }
    {
        match &self.kept {
            Some(pair) if pair.is_under(&Nine::new(key)) => Some(pair.val()),
            _ => None,
        }
    }

    /// Replaces the value of a key if it is present; returns the old one.
    #[inline(always)]
    pub fn replace(&mut self, key: Val, val: Val) -> Option<Val>
        ensures replaced { result ≡ value_at (option_to_list self.old.kept) key }
        ensures put { OnSome result (option_to_list self.new.kept ≡
            put (option_to_list self.old.kept) key val) }
        ensures stays { IfNone result (self.new ≡ self.old) }
    {
        match &mut self.kept {
            Some(pair) if pair.is_under(&Nine::new(key)) => {
                let was = pair.val();
                pair.set_val(val);
                Some(was)
            }
            _ => None,
        }
    }

    /// Removes the pair of a key, if there is one.
    #[inline(always)]
    pub fn take_key(&mut self, key: Val) -> Option<Entry>
        ensures entry { result ≡ entry_under (option_to_list self.old.kept) key }
        ensures rest { option_to_list self.new.kept ≡ without_key (option_to_list self.old.kept) key }
    {
        match &self.kept {
            Some(pair) if pair.is_under(&Nine::new(key)) => {
                let entry = pair.entry();
                self.kept = None;
                Some(entry)
            }
            _ => None,
        }
    }
}
