//! The stack of activities. Its room is reserved in advance.
ghost use Rattle.std.specs.Prelude.{◌≡◌, ◌<◌, ◌≤◌, ◌+◌, [], ◌∷◌, true, false, None, Some, IfOk, IfSome, IsSome, OnSome, IfNone, OnOk, is_some, length};
ghost use Rattle.std.specs.Borrow.{sem};
ghost use Rattle.cg_interp.specs.Engines.{is_collecting, any_collecting};
ghost use Rattle.cg_interp.specs.Stacks.{collection_on, death_on, asked_on};

use crate::activity::Activity;
use crate::slot::{Slot, activity_of, slot_of};
use cg_collect::Collection;
use cg_death::Death;
use std::alloc::{AllocError, Global};
use std::marker::Model;

/// The activities of a run.
#[derive(Drop)]
pub struct Stack {
    // Top last.
    slots: Vec<Slot>,
    // The collection under way, if any.
    seat: Option<Collection>,
}

impl Model for Stack {
    ghost use Rattle.std.specs.Prelude.{map, reverse, ◌-◌, vec_len, vec_capacity};
    ghost use Rattle.cg_interp.specs.Stacks.{Stacked};
    ghost use Rattle.cg_interp.specs.Slots.{filled, IsSeatOf};

    ghost Value = { Stacked };

    ghost view = { λ s. record {
      activities = reverse (map (filled s.seat) s.slots.items);
      room = vec_capacity s.slots - vec_len s.slots;
    } };

    ghost invariant = { λ s. IsSeatOf s.slots.items s.seat };
}

impl Stack {
    ghost use Rattle.cg_interp.specs.Lends.{lends_death, lends_collection};

    /// An empty stack with this much room. Answers `AllocError` only if memory runs out.
    pub fn new(alloc: Global, room: usize) -> Result<Stack, AllocError>
        ensures empty { IfOk result (λ s. s.activities ≡ []) }
        ensures room { IfOk result (λ s. s.room ≡ room) }
    {
        let slots = Vec::with_capacity(alloc, room)?;
        Ok(Stack { slots, seat: None })
    }

    /// Pushes an activity; there must be room, and for a collection none may be under way.
    #[inline(always)]
    pub fn push(&mut self, activity: Activity)
        requires room { 0 < self.old.room }
        requires alone { is_collecting activity ≡ true → any_collecting self.old.activities
            ≡ false }
        ensures top { self.new.activities ≡ activity ∷ self.old.activities }
        ensures room { self.old.room ≤ self.new.room + 1 }
    {
        let slot = slot_of(activity, &mut self.seat);
        match self.slots.push(slot) {
            Ok(()) => {}
            Err(_) => unreachable!(),
        }
    }

    /// Pops the top activity, if any.
    #[inline(always)]
    pub fn pop(&mut self) -> Option<Activity>
        ensures top { IfSome result (λ a. self.old.activities ≡ a ∷ self.new.activities) }
        ensures room { OnSome result (self.new.room ≡ self.old.room + 1) }
        ensures none { IfNone result (self.old.activities ≡ []) }
    {
        match self.slots.pop() {
            Some(slot) => Some(activity_of(slot, &mut self.seat)),
            None => None,
        }
    }

    /// Whether a death is on top.
    #[inline(always)]
    pub fn has_death_on_top(&self) -> bool
        ensures { result ≡ is_some (death_on self.now.activities) }
    {
        match self.slots.last() {
            Some(Slot::Dying(_)) => true,
            _ => false,
        }
    }

    /// The death on top, which must be there, to be changed in its place.
    #[inline(always)]
    pub fn death_on_top_mut(&mut self) -> &mut Death
        requires { IsSome (death_on self.old.activities) }
        ensures* writes_back { sem 𝓛 (lends_death self.entry result) }
        ensures value { death_on self.old.activities ≡ Some result.now }
    {
        let top = self.slots.len() - 1;
        self.slots[top].death_mut()
    }

    /// The collection on top, if any.
    pub fn collection_on_top(&self) -> Option<&Collection>
        ensures some { IfSome result (λ c. collection_on self.now.activities ≡ Some c.now) }
        ensures none { IfNone result (collection_on self.now.activities ≡ None) }
    {
        match self.slots.last() {
            Some(Slot::Collecting { .. }) => self.seat.as_ref(),
            _ => None,
        }
    }

    /// Whether a command asked for the collection on top, if one is there.
    #[inline(always)]
    pub fn asked_on_top(&self) -> Option<bool>
        ensures { result ≡ asked_on self.now.activities }
    {
        match self.slots.last() {
            Some(Slot::Collecting { asked }) => Some(*asked),
            _ => None,
        }
    }

    /// The collection on top, which must be there, to be changed in its place.
    #[inline(always)]
    pub fn collection_on_top_mut(&mut self) -> &mut Collection
        requires { IsSome (asked_on self.old.activities) }
        ensures* writes_back { sem 𝓛 (lends_collection self.entry result) }
        ensures value { collection_on self.old.activities ≡ Some result.now }
    {
        match &mut self.seat {
            Some(collection) => collection,
            None => unreachable!(),
        }
    }

    /// Makes room for this many more. Answers `AllocError` only if memory runs out.
    pub fn reserve(&mut self, room: usize) -> Result<(), AllocError>
        ensures room { OnOk result (room ≤ self.new.room) }
        ensures more { self.old.room ≤ self.new.room }
        ensures same { self.new.activities ≡ self.old.activities }
    {
        self.slots.reserve(room)
    }

    /// Makes room for the stack to grow to this height. Answers `AllocError` only if memory runs
    /// out.
    pub fn reserve_up_to(&mut self, height: usize) -> Result<(), AllocError>
        ensures room { OnOk result (height ≤ length self.new.activities + self.new.room) }
        ensures more { self.old.room ≤ self.new.room }
        ensures same { self.new.activities ≡ self.old.activities }
    {
        self.slots.reserve(height.saturating_sub(self.slots.len()))
    }
}
