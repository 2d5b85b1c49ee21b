//! At most one value or pair, as the shortest lists, dictionaries and instances keep it.
ghost use Rattle.std.specs.Prelude.{◌≡◌, ◌+◌, ◌<◌, ◌≤◌, length, map, take, IfOk, IsSome, Some, option_to_list, vec_capacity};
ghost use Rattle.cg_graph.specs.Value.{item, references};
ghost use Rattle.cg_kind.specs.Calls.{AreItems, next_entries};

use crate::kept::KeepsEntry;
use crate::packed::Packed;
use cg_kind::{Noted, ROOM};
use cg_value::Entry;
use std::alloc::{AllocError, Global};

/// Nothing or one of these, which lies in place and takes no block of memory.
#[derive(Drop)]
pub struct One<T> {
    // Where a vector gets its block, once there are more.
    pub alloc: Global,
    pub kept: Option<T>,
}

impl<T: KeepsEntry> One<T> {
    /// How many there are.
    #[inline(always)]
    pub fn len(&self) -> usize
        ensures { result ≡ length (option_to_list self.now.kept) }
    {
        if self.kept.is_some() { 1 } else { 0 }
    }

    /// What is there.
    #[inline(always)]
    pub fn get(&self) -> &T
        requires { IsSome self.now.kept }
        ensures { self.now.kept ≡ Some result.now }
    {
        match &self.kept {
            Some(kept) => kept,
            None => unreachable!(),
        }
    }

    /// Visits its entry from a position on, as `cg_kind::Kind::note_from` specifies.
    #[inline(always)]
    pub fn note_from(&self, from: usize, found: &mut [u64]) -> Noted
        requires within { from ≤ length (option_to_list self.now.kept) }
        requires room { ROOM ≤ length found.old }
        ensures next { result.next ≡
            from + length (next_entries (map T.kept (option_to_list self.now.kept)) from) }
        ensures references { take result.references found.new ≡
            references (next_entries (map T.kept (option_to_list self.now.kept)) from) }
        ensures few { result.references ≤ ROOM }
        ensures room { length found.new ≡ length found.old }
    {
        match &self.kept {
            Some(kept) if from == 0 => Noted {
                next: 1,
                references: kept.note(found, 0),
            },
            _ => Noted {
                next: from,
                references: 0,
            },
        }
    }
}

impl One<Packed> {
    /// The value of the only item, if there is one.
    pub fn of_items(alloc: Global, parts: &[Entry]) -> One<Packed>
        requires items { AreItems parts.now }
        requires few { length parts.now ≤ 1 }
        ensures { map item (option_to_list result.kept) ≡ parts.now }
    {
        let kept = match parts.first() {
            Some(part) => Some(Packed::new(part.val)),
            None => None,
        };
        One { alloc, kept }
    }

    /// A vector of the value, if there is one, with room for so many values in all. The value stays
    /// here too.
    pub fn in_vector(&self, room: usize) -> Result<Vec<Packed>, AllocError>
        requires { 0 < room }
        ensures items { IfOk result (λ few. few.items ≡ option_to_list self.now.kept) }
        ensures room { IfOk result (λ few. room ≤ vec_capacity few) }
    {
        let mut few = Vec::new(self.alloc);
        few.reserve(room)?;
        if let Some(value) = &self.kept {
            few.push_reserved(Packed::new(value.val()));
        }
        Ok(few)
    }
}
