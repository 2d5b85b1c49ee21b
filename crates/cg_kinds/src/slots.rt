//! Slots with gaps, and the number of pairs in each block of 16 of them.
ghost use Rattle.std.specs.Prelude.{◌≡◌, ◌+◌, ◌<◌, drop, length, take, None, IsSome, slice_index_or};
ghost use Rattle.cg_kinds.specs.Order.{indexes, pairs_before as before, AreCounts};

use crate::gap::IndexOrGap;
use crate::sums::{PART, Sums};
use arrayvec::ArrayVec;
use cg_kind::AT_ONCE;

#[tactic(auto, using(crate::proofs::SlotLemmas::before_more, crate::proofs::SlotLemmas::before_all, crate::proofs::SlotLemmas::few_before))]
fn count_pairs(slots: &[IndexOrGap]) -> usize
    ensures { result ≡ length (indexes slots.now) }
{
    let mut count = 0;
    'slots: for slot in slots {
        if slot.is_index() {
            count += 1;
        }
    }
    count
}

/// The number of pairs before a slot.
pub fn pairs_before(slots: &[IndexOrGap], counts: &Sums, slot: usize) -> usize
    requires counts { AreCounts slots.now counts.now }
    requires within { slot < length slots.now }
    ensures { result ≡ before slots.now slot }
{
    let block = slot / PART;
    counts.before(block) + count_pairs(&slots[block * PART..slot])
}

/// The slot of the pair that has exactly `count` pairs between `first` and itself.
fn slot_from(slots: &[IndexOrGap], first: usize, count: usize) -> usize
    requires within { before slots.now first + count < length (indexes slots.now) }
    ensures before { before slots.now result ≡ before slots.now first + count }
    ensures there { IsSome (slice_index_or slots.now result None) }
{
    let mut left = count;
    'slots: for slot in first..slots.len() {
        if slots[slot].is_index() {
            if left == 0 {
                return slot;
            }
            left -= 1;
        }
    }
    unreachable!()
}

/// The slot of the pair at position `i`.
pub fn slot_of(slots: &[IndexOrGap], counts: &Sums, i: usize) -> usize
    requires counts { AreCounts slots.now counts.now }
    requires within { i < length (indexes slots.now) }
    ensures before { before slots.now result ≡ i }
    ensures there { IsSome (slice_index_or slots.now result None) }
{
    let (block, left) = counts.reached(i);
    let first = block * PART;
    if counts.at(block) == PART {
        // The block has no gap.
        first + left
    } else {
        slot_from(slots, first, left)
    }
}

/// The indexes in the slots from one on, at most `AT_ONCE`.
pub fn some_indexes(slots: &[IndexOrGap], first: usize) -> ArrayVec<usize, AT_ONCE>
    ensures { result.items ≡ take AT_ONCE (indexes (drop first slots.now)) }
{
    let mut some = ArrayVec::new();
    'slots: for slot in first..slots.len() {
        if some.len() == AT_ONCE {
            return some;
        }
        if let Some(index) = slots[slot].index() {
            some.push(index as usize);
        }
    }
    some
}
