//! The ends of a list of slots, and its size.
ghost use Rattle.std.specs.Prelude.{◌≡◌, ◌+◌, ◌-◌, ◌<◌, ◌^◌, IfSome, Some, None};

use crate::slot::{NIL, linked};
use std::marker::Model;

/// The first and the last slot of a list, and its size.
///
/// An end is a number of 32 bits, `NIL` if the list is empty, like a link of a slot.
#[derive(Clone, Copy)]
pub struct Ends {
    first: u32,
    last: u32,
    size: u64,
}

impl Model for Ends {
    ghost use Rattle.cg_arena.specs.Links.{ListEnds, list_ends_code};
    ghost use Rattle.cg_arena.specs.Slots.{link_of, link_to};

    ghost Value = { ListEnds };

    ghost coded = { list_ends_code };

    ghost view = { λ e. record { first = link_of e.first; last = link_of e.last; size = e.size } };

    ghost inverse = { λ e. record { first = link_to e.first; last = link_to e.last; size = e.size } };
}

impl Ends {
    ghost use Rattle.cg_arena.specs.Links.{no_ends, ends_without, ends_joined, one_end};

    /// The ends of an empty list.
    pub fn none() -> Ends
        ensures { result ≡ no_ends }
    {
        Ends {
            first: NIL,
            last: NIL,
            size: 0,
        }
    }

    /// The ends of the list of one slot.
    #[inline(always)]
    pub fn one(slot: u32) -> Ends
        requires { slot < 2 ^ 32 - 1 }
        ensures { result ≡ one_end slot }
    {
        Ends {
            first: slot,
            last: slot,
            size: 1,
        }
    }

    /// The first slot of the list.
    #[inline(always)]
    pub fn first(&self) -> Option<u32>
        ensures { result ≡ self.now.first }
    {
        linked(self.first)
    }

    /// The last slot of the list.
    #[inline(always)]
    pub fn last(&self) -> Option<u32>
        ensures { result ≡ self.now.last }
    {
        linked(self.last)
    }

    /// The size of the list.
    #[inline(always)]
    pub fn size(&self) -> u64
        ensures { result ≡ self.now.size }
    {
        self.size
    }

    /// Takes out a slot between these two.
    #[inline(always)]
    pub fn lose(&mut self, before: Option<u32>, after: Option<u32>)
        requires size { 0 < self.old.size }
        requires before { IfSome before (λ k. k < 2 ^ 32 - 1) }
        requires after { IfSome after (λ k. k < 2 ^ 32 - 1) }
        ensures { self.new ≡ ends_without before after self.old }
    {
        if before.is_none() {
            self.first = after.unwrap_or(NIL);
        }
        if after.is_none() {
            self.last = before.unwrap_or(NIL);
        }
        self.size -= 1;
    }

    /// Appends another list to this one.
    #[inline(always)]
    pub fn gain(&mut self, other: Ends)
        requires { self.old.size + other.size < 2 ^ 64 }
        ensures { self.new ≡ ends_joined self.old other }
    {
        if self.first == NIL {
            self.first = other.first;
        }
        if other.last != NIL {
            self.last = other.last;
        }
        self.size += other.size;
    }
}
