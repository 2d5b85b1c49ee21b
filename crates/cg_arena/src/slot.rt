//! A node in its slot, between its neighbours in the list of its place.
//!
//! The class, the finalized mark and the two links are accessed only through calls.
ghost use Rattle.std.specs.Prelude.{◌≡◌, ◌-◌, ◌<◌, ◌^◌, IfSome, None};
ghost use Rattle.cg_arena.specs.Nodes.{new_node};
ghost use Rattle.cg_arena.specs.Slots.{link_of, link_to};

use cg_value::{KindCode, Place};

/// The link to no slot. No slot has this number.
pub const NIL: u32 = u32::MAX;

/// The slot that a link names, if any.
#[inline(always)]
pub fn linked(link: u32) -> Option<u32>
    ensures link { result ≡ link_of link }
    ensures low { IfSome result (λ k. k < 2 ^ 32 - 1) }
{
    if link == NIL { None } else { Some(link) }
}

/// Whether an object has a class, and whether it was finalized.
///
/// An enum of both takes one byte. A byte for each would bring a slot to 48 bytes.
#[derive(Clone, Copy)]
enum Marks {
    Neither,
    Classed,
    Finalized,
    Both,
}

impl Marks {
    ghost use Rattle.cg_arena.specs.Slots.{says_classed, says_finalized};

    #[inline(always)]
    fn is_classed(self) -> bool
        ensures { result ≡ says_classed self }
    {
        matches!(self, Marks::Classed | Marks::Both)
    }

    #[inline(always)]
    fn is_finalized(self) -> bool
        ensures { result ≡ says_finalized self }
    {
        matches!(self, Marks::Finalized | Marks::Both)
    }
}

/// A node, its serial, and its neighbours in the list of its place.
///
/// It takes 40 bytes, and 48 in the slab. Each link is a number of 32 bits, `NIL` if there is no
/// neighbour.
#[derive(Clone, Copy)]
pub struct Slot {
    pub serial: u64,
    pub body: usize,
    previous: u32,
    next: u32,
    /// The class, 0 if there is none.
    class: u32,
    pub count: u32,
    /// The collector's number.
    pub number: u32,
    pub place: Place,
    pub code: KindCode,
    marks: Marks,
}

const _: () = prove!(size_of::<Slot>() == 40);

impl Slot {
    ghost use Rattle.cg_arena.specs.Slots.{node_of, class_of, says_finalized, with_mark, with_before, with_after, before_of, after_of};

    /// A new node after a slot: count 0, not finalized, collector's number 0.
    pub fn new(
        serial: u64,
        code: KindCode,
        class: Option<u32>,
        body: usize,
        place: Place,
        before: Option<u32>,
    ) -> Slot
        ensures node { node_of result ≡ new_node code class body place }
        ensures serial { result.serial ≡ serial }
        ensures before { result.previous ≡ link_to before }
        ensures after { after_of result ≡ None }
    {
        Slot {
            serial,
            body,
            previous: before.unwrap_or(NIL),
            next: NIL,
            class: class.unwrap_or(0),
            count: 0,
            number: 0,
            place,
            code,
            marks: match class {
                Some(_) => Marks::Classed,
                None => Marks::Neither,
            },
        }
    }

    /// The class of an instance, or the procedure of a function.
    #[inline(always)]
    pub fn class(&self) -> Option<u32>
        ensures { result ≡ class_of self.now }
    {
        if self.marks.is_classed() {
            Some(self.class)
        } else {
            None
        }
    }

    /// Whether the object was finalized.
    #[inline(always)]
    pub fn is_finalized(&self) -> bool
        ensures { result ≡ says_finalized self.now.marks }
    {
        self.marks.is_finalized()
    }

    /// Marks the object as finalized.
    pub fn mark_finalized(&mut self)
        ensures { self.new ≡ with_mark self.old }
    {
        self.marks = if self.marks.is_classed() {
            Marks::Both
        } else {
            Marks::Finalized
        };
    }

    /// The previous slot in its list.
    #[inline(always)]
    pub fn before(&self) -> Option<u32>
        ensures link { result ≡ before_of self.now }
        ensures low { IfSome result (λ k. k < 2 ^ 32 - 1) }
    {
        linked(self.previous)
    }

    /// The next slot in its list.
    #[inline(always)]
    pub fn after(&self) -> Option<u32>
        ensures link { result ≡ after_of self.now }
        ensures low { IfSome result (λ k. k < 2 ^ 32 - 1) }
    {
        linked(self.next)
    }

    /// Sets the previous slot.
    #[inline(always)]
    pub fn set_before(&mut self, before: Option<u32>)
        ensures { self.new ≡ with_before before self.old }
    {
        self.previous = before.unwrap_or(NIL);
    }

    /// Sets the next slot.
    #[inline(always)]
    pub fn set_after(&mut self, after: Option<u32>)
        ensures { self.new ≡ with_after after self.old }
    {
        self.next = after.unwrap_or(NIL);
    }
}

/// The object's kind, its place, the collector's number, and where its entries are.
#[derive(Clone, Copy, Debug)]
pub struct Head {
    pub code: KindCode,
    pub place: Place,
    pub number: u32,
    /// The place of the object's entries among the bodies of its kind.
    pub body: usize,
}

impl Head {
    /// The head of the node in a slot.
    #[inline(always)]
    pub fn of(slot: Slot) -> Head
        ensures code { result.code ≡ slot.code }
        ensures place { result.place ≡ slot.place }
        ensures number { result.number ≡ slot.number }
        ensures body { result.body ≡ slot.body }
    {
        Head {
            code: slot.code,
            place: slot.place,
            number: slot.number,
            body: slot.body,
        }
    }
}
