//! The insertion order of keys, for a map that fills holes with its last pair.
ghost use Rattle.std.specs.Prelude.{◌≡◌, ◌≢◌, ◌+◌, ◌*◌, ◌-◌, ◌<◌, ◌≤◌, ◌^◌, ◌++◌, ◌∷◌, ℕ, [], All, drop, length, map, take, None, Some, IfOk, IsSome, OnOk, OnErr, remove, slice_get, slice_index_or, slice_set};
ghost use Rattle.std.specs.List.{range_with_len};
ghost use Rattle.std.specs.Vec.{vec_len, vec_capacity};
ghost use Rattle.cg_kinds.specs.Order.{indexes, pairs_before as before, renamed, AreHomes, AreCounts, AreClosed, HasBlocks, IsSound};

use crate::gap::IndexOrGap;
use crate::slots::{pairs_before, slot_of, some_indexes};
use crate::sums::{PART, Sums};
use arrayvec::ArrayVec;
use cg_kind::AT_ONCE;
use std::alloc::{AllocError, Global};
use std::marker::Model;

/// The indexes of a map, in insertion order.
#[derive(Drop)]
pub struct Order {
    /// The index of the pair in each slot, or a gap.
    slots: Vec<IndexOrGap>,
    /// The slot of the pair at each index.
    homes: Vec<u32>,
    /// The number of pairs in each block of slots.
    counts: Sums,
}

impl Model for Order {
    ghost use Rattle.std.specs.Prelude.{List, ℕ};
    ghost use Rattle.std.specs.Vec.{vec_capacity};
    ghost use Rattle.cg_kinds.specs.Order.{indexes, AreHomes, AreCounts, HasBlocks};

    ghost Value = { List ℕ };

    ghost view = { λ o. indexes o.slots.items };

    ghost invariant = { λ o. AreHomes o.slots.items o.homes.items × AreCounts o.slots.items o.counts
        × HasBlocks (vec_capacity o.slots) o.counts };
}

/// Removes the index from a slot. The last pair moves to that index.
fn empty_slot(slots: &mut [IndexOrGap], homes: &mut Vec<u32>, slot: usize) -> usize
    requires homes { AreHomes slots.old homes.old.items }
    requires there { IsSome (slice_index_or slots.old slot None) }
    ensures index { slice_index_or slots.old slot None ≡ Some result }
    ensures homes { AreHomes slots.new homes.new.items }
    ensures gap { (k : ℕ) → before slots.new k ≡ before (slice_set slots.old slot None) k }
    ensures long { length slots.new ≡ length slots.old }
    ensures rest { indexes slots.new ≡ map (renamed (length homes.old.items - 1) result)
        (remove (indexes slots.old) (before slots.old slot)) }
{
    match slots[slot].index() {
        Some(index) => {
            slots[slot] = IndexOrGap::gap();
            let moved = homes.take_last();
            if moved as usize == slot {
                index as usize
            } else {
                homes[index as usize] = moved;
                slots[moved as usize] = IndexOrGap::of(index);
                index as usize
            }
        }
        None => unreachable!(),
    }
}

/// Removes the index from a slot, and lowers its block's count. The last pair moves to that index.
fn take_slot(
    slots: &mut Vec<IndexOrGap>,
    homes: &mut Vec<u32>,
    counts: &mut Sums,
    slot: usize,
) -> usize
    requires homes { AreHomes slots.old.items homes.old.items }
    requires counts { AreCounts slots.old.items counts.old }
    requires there { IsSome (slice_index_or slots.old.items slot None) }
    ensures index { slice_index_or slots.old.items slot None ≡ Some result }
    ensures homes { AreHomes slots.new.items homes.new.items }
    ensures counts { AreCounts slots.new.items counts.new }
    ensures rest { indexes slots.new.items ≡ map (renamed (length homes.old.items - 1) result)
        (remove (indexes slots.old.items) (before slots.old.items slot)) }
    ensures blocks { length counts.new ≡ length counts.old }
    ensures capacity { vec_capacity slots.new ≡ vec_capacity slots.old }
{
    counts.lower(slot / PART);
    empty_slot(slots.as_mut_slice(), homes, slot)
}

fn close_gaps(slots: &mut Vec<IndexOrGap>)
    ensures items { slots.new.items ≡ map (λ index. Some index) (indexes slots.old.items) }
    ensures capacity { vec_capacity slots.new ≡ vec_capacity slots.old }
{
    slots.retain(|slot| slot.is_index());
}

/// The homes after the gaps between slots are closed.
fn settle(slots: &[IndexOrGap], homes: &mut [u32])
    requires closed { AreClosed slots.now homes.old }
    requires small { length slots.now < 2 ^ 32 }
    ensures { AreHomes slots.now homes.new }
{
    'slots: for slot in 0..slots.len() {
        if let Some(index) = slots[slot].index() {
            homes[index as usize] = slot as u32;
        }
    }
}

/// The maximum number of slots.
const MOST: usize = 0x7FFF_FFFF;

/// Reserves room for one more, and for an eighth of the length.
fn grow<T>(full: &mut Vec<T>) -> Result<(), AllocError>
    ensures items { full.new.items ≡ full.old.items }
    ensures room { OnOk result (vec_len full.new < vec_capacity full.new) }
{
    let more = full.len() / 8 + 1;
    full.reserve_exact(more)
}

/// Adds enough blocks for a number of slots.
fn cover(slots: &Vec<IndexOrGap>, counts: &mut Sums, room: usize) -> Result<(), AllocError>
    requires { AreCounts slots.now.items counts.old }
    ensures counts { AreCounts slots.now.items counts.new }
    ensures no_less { length counts.old ≤ length counts.new }
    ensures blocks { OnOk result (room ≤ 16 * length counts.new) }
{
    'pushes: for _ in counts.len()..room / PART + 1 {
        counts.push()?;
    }
    Ok(())
}

/// No slots, with room for `count` and for their blocks.
fn empty_slots(alloc: Global, count: usize) -> Result<(Vec<IndexOrGap>, Sums), AllocError>
    ensures slots { IfOk result (λ made. made.0.items ≡ []) }
    ensures counts { IfOk result (λ made. AreCounts [] made.1) }
    ensures blocks { IfOk result (λ made. HasBlocks (vec_capacity made.0) made.1) }
{
    if count > MOST {
        return Err(AllocError);
    }
    let slots = Vec::with_capacity(alloc, count)?;
    let mut counts = Sums::with_room(alloc, count / PART + 1)?;
    cover(&slots, &mut counts, count)?;
    Ok((slots, counts))
}

/// Reserves room for one more slot, and for an eighth of the length, with the blocks of all these.
fn grow_slots(slots: &mut Vec<IndexOrGap>, counts: &mut Sums) -> Result<(), AllocError>
    requires counts { AreCounts slots.old.items counts.old }
    requires blocks { HasBlocks (vec_capacity slots.old) counts.old }
    ensures items { slots.new.items ≡ slots.old.items }
    ensures counts { AreCounts slots.old.items counts.new }
    ensures blocks { HasBlocks (vec_capacity slots.new) counts.new }
    ensures room { OnOk result (vec_len slots.new < vec_capacity slots.new) }
{
    let count = slots.len();
    if count >= MOST {
        return Err(AllocError);
    }
    let more = count / 8 + 1;
    cover(slots, counts, count + more)?;
    slots.reserve_exact(more)
}

#[inline(never)]
fn close(slots: &mut Vec<IndexOrGap>, homes: &mut Vec<u32>, counts: &mut Sums)
    requires homes { AreHomes slots.old.items homes.old.items }
    requires counts { AreCounts slots.old.items counts.old }
    ensures same { indexes slots.new.items ≡ indexes slots.old.items }
    ensures homes { AreHomes slots.new.items homes.new.items }
    ensures counts { AreCounts slots.new.items counts.new }
    ensures blocks { length counts.new ≡ length counts.old }
    ensures capacity { vec_capacity slots.new ≡ vec_capacity slots.old }
{
    close_gaps(slots);
    settle(slots.as_slice(), homes.as_mut_slice());
    counts.deal(slots.len());
}

/// Closes the gaps if no slot is free and more than an eighth of the slots are gaps.
fn close_full(slots: &mut Vec<IndexOrGap>, homes: &mut Vec<u32>, counts: &mut Sums)
    requires homes { AreHomes slots.old.items homes.old.items }
    requires counts { AreCounts slots.old.items counts.old }
    ensures same { indexes slots.new.items ≡ indexes slots.old.items }
    ensures homes { AreHomes slots.new.items homes.new.items }
    ensures counts { AreCounts slots.new.items counts.new }
    ensures blocks { length counts.new ≡ length counts.old }
    ensures capacity { vec_capacity slots.new ≡ vec_capacity slots.old }
{
    let count = slots.len();
    if count == slots.capacity() && homes.len() < count - count / 8 {
        close(slots, homes, counts);
    }
}

/// Reserves room for one more pair if the slots or the homes are full.
fn grow_full(
    slots: &mut Vec<IndexOrGap>,
    homes: &mut Vec<u32>,
    counts: &mut Sums,
) -> Result<(), AllocError>
    requires counts { AreCounts slots.old.items counts.old }
    requires blocks { HasBlocks (vec_capacity slots.old) counts.old }
    ensures slots { slots.new.items ≡ slots.old.items }
    ensures homes { homes.new.items ≡ homes.old.items }
    ensures counts { AreCounts slots.old.items counts.new }
    ensures blocks { HasBlocks (vec_capacity slots.new) counts.new }
    ensures room { OnOk result (vec_len slots.new < vec_capacity slots.new) }
    ensures room_at_home { OnOk result (vec_len homes.new < vec_capacity homes.new) }
{
    if slots.len() == slots.capacity() {
        grow_slots(slots, counts)?;
    }
    if homes.len() == homes.capacity() {
        grow(homes)?;
    }
    Ok(())
}

/// Makes room for one more pair. If the slots are full with many gaps, the gaps are closed instead
/// of allocating.
#[inline(never)]
fn widen(
    slots: &mut Vec<IndexOrGap>,
    homes: &mut Vec<u32>,
    counts: &mut Sums,
) -> Result<(), AllocError>
    requires homes { AreHomes slots.old.items homes.old.items }
    requires counts { AreCounts slots.old.items counts.old }
    requires blocks { HasBlocks (vec_capacity slots.old) counts.old }
    ensures same { indexes slots.new.items ≡ indexes slots.old.items }
    ensures homes { AreHomes slots.new.items homes.new.items }
    ensures counts { AreCounts slots.new.items counts.new }
    ensures blocks { HasBlocks (vec_capacity slots.new) counts.new }
    ensures room { OnOk result (vec_len slots.new < vec_capacity slots.new) }
    ensures room_at_home { OnOk result (vec_len homes.new < vec_capacity homes.new) }
{
    close_full(slots, homes, counts);
    grow_full(slots, homes, counts)
}

/// Makes room for one more pair. Each slot that fits has its block, so no third test is needed.
#[inline(always)]
fn make_room(
    slots: &mut Vec<IndexOrGap>,
    homes: &mut Vec<u32>,
    counts: &mut Sums,
) -> Result<(), AllocError>
    requires homes { AreHomes slots.old.items homes.old.items }
    requires counts { AreCounts slots.old.items counts.old }
    requires blocks { HasBlocks (vec_capacity slots.old) counts.old }
    ensures same { indexes slots.new.items ≡ indexes slots.old.items }
    ensures homes { AreHomes slots.new.items homes.new.items }
    ensures counts { AreCounts slots.new.items counts.new }
    ensures blocks { HasBlocks (vec_capacity slots.new) counts.new }
    ensures room { OnOk result (vec_len slots.new < vec_capacity slots.new) }
    ensures room_at_home { OnOk result (vec_len homes.new < vec_capacity homes.new) }
{
    if slots.len() == slots.capacity() || homes.len() == homes.capacity() {
        widen(slots, homes, counts)?;
    }
    Ok(())
}

impl Order {
    /// The indexes below a number, in ascending order.
    pub fn new(alloc: Global, count: usize) -> Result<Order, AllocError>
        ensures { IfOk result (λ order. order ≡ range_with_len 0 count) }
    {
        let (slots, counts) = empty_slots(alloc, count)?;
        let mut order = Order {
            slots,
            homes: Vec::with_capacity(alloc, count)?,
            counts,
        };
        'indexes: for _ in 0..count {
            order.push()?;
        }
        Ok(order)
    }

    /// Appends the next index. If the slots are full with many gaps, the gaps are closed instead of
    /// allocating.
    #[inline(always)]
    pub fn push(&mut self) -> Result<(), AllocError>
        ensures ok { OnOk result (self.new ≡ self.old ++ length self.old ∷ []) }
        ensures err { OnErr result (self.new ≡ self.old) }
    {
        make_room(&mut self.slots, &mut self.homes, &mut self.counts)?;
        let slot = self.slots.len();
        let index = self.homes.len();
        self.slots.push_reserved(IndexOrGap::of(index as u32));
        self.homes.push_reserved(slot as u32);
        self.counts.raise(slot / PART);
        Ok(())
    }

    /// Exposes to proofs that each index has exactly one place. Does nothing at run time.
    pub fn sound(&self)
        ensures { IsSound self.now }
    {
        let _count = self.slots.len();
    }

    /// The index at a place.
    pub fn index_at(&self, i: usize) -> usize
        requires { i < length self.now }
        ensures index { slice_get self.now i ≡ Some result }
        ensures within { result < length self.now }
    {
        let slot = slot_of(self.slots.as_slice(), &self.counts, i);
        match self.slots[slot].index() {
            Some(index) => index as usize,
            None => unreachable!(),
        }
    }

    /// The indexes from a place on, at most `AT_ONCE`. Only the slot of the first is searched.
    pub fn some_from(&self, i: usize) -> ArrayVec<usize, AT_ONCE>
        ensures indexes { result.items ≡ take AT_ONCE (drop i self.now) }
        ensures within { All (λ index. index < length self.now) result.items }
    {
        if i < self.homes.len() {
            let slot = slot_of(self.slots.as_slice(), &self.counts, i);
            some_indexes(self.slots.as_slice(), slot)
        } else {
            ArrayVec::new()
        }
    }

    /// The place of an index.
    pub fn place_of(&self, index: usize) -> usize
        requires { index < length self.now }
        ensures place { slice_get self.now result ≡ Some index }
        ensures only { (place : ℕ) → slice_get self.now place ≡ Some index → place ≡ result }
    {
        pairs_before(
            self.slots.as_slice(),
            &self.counts,
            self.homes[index] as usize,
        )
    }

    /// Removes the index at a place. The last index is renamed to it.
    pub fn take(&mut self, i: usize) -> usize
        requires { i < length self.old }
        ensures index { slice_get self.old i ≡ Some result }
        ensures within { result < length self.old }
        ensures rest { self.new ≡ map (renamed (length self.old - 1) result) (remove self.old i) }
        ensures others { All (λ index. (index < length self.old) × (index ≢ result))
            (remove self.old i) }
    {
        let slot = slot_of(self.slots.as_slice(), &self.counts, i);
        let index = take_slot(&mut self.slots, &mut self.homes, &mut self.counts, slot);
        self.close_many();
        index
    }

    /// Removes an index, wherever it is. The last index is renamed to it.
    pub fn take_index(&mut self, index: usize)
        requires { index < length self.old }
        ensures rest { (place : ℕ) → slice_get self.old place ≡ Some index →
            self.new ≡ map (renamed (length self.old - 1) index) (remove self.old place) }
        ensures others { (place : ℕ) → slice_get self.old place ≡ Some index →
            All (λ other. (other < length self.old) × (other ≢ index)) (remove self.old place) }
    {
        let slot = self.homes[index] as usize;
        let _ = take_slot(&mut self.slots, &mut self.homes, &mut self.counts, slot);
        self.close_many();
    }

    /// Closes the gaps if they are more than half of the slots.
    #[inline(always)]
    fn close_many(&mut self)
        ensures { self.new ≡ self.old }
    {
        if self.homes.len() < self.slots.len() / 2 {
            close(&mut self.slots, &mut self.homes, &mut self.counts);
        }
    }
}
