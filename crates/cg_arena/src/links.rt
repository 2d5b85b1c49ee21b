//! Nodes in slots, and the links between them.
ghost use Rattle.std.specs.Prelude.{◌≡◌, IfSome, Some, None, option_and_then, option_map, ◌+◌, ◌-◌, ◌<◌, ◌^◌};
ghost use Rattle.slab.specs.Slab.{get, ContainsKey};
ghost use Rattle.cg_arena.specs.Slots.{with_place, with_count, with_mark, with_number, with_before, with_after, placed_last, after_in, before_of, after_of};
ghost use Rattle.cg_arena.specs.Links.{rewritten, link_set, tied, ends_without, ends_joined, one_end, place_set, all_placed, chain_from};

use crate::ends::Ends;
use crate::slot::Slot;
use cg_value::Place;
use slab::Slab;

/// The node in an occupied slot.
#[inline(always)]
pub fn slot_at(slots: &Slab<Slot>, at: usize) -> Slot
    requires { ContainsKey slots.now at }
    ensures { get slots.now at ≡ Some result }
{
    match slots.get(at) {
        Some(slot) => *slot,
        None => unreachable!(),
    }
}

/// The serial of the node in a slot, if there is one.
#[inline(always)]
pub fn serial_at(slots: &Slab<Slot>, at: Option<u32>) -> Option<u64>
    ensures { result ≡ option_and_then (λ k. option_map (λ c. c.serial) (get slots.now k)) at }
{
    match slots.get(at? as usize) {
        Some(slot) => Some(slot.serial),
        None => None,
    }
}

/// Sets the count of a node.
#[inline(always)]
pub fn set_count(slots: &mut Slab<Slot>, at: usize, count: u32)
    requires { ContainsKey slots.old at }
    ensures { slots.new ≡ rewritten (with_count count) at slots.old }
{
    let Some(slot) = slots.get_mut(at) else {
        unreachable!()
    };
    slot.count = count;
}

/// Marks a node as finalized.
pub fn mark_finalized(slots: &mut Slab<Slot>, at: usize)
    ensures { slots.new ≡ rewritten with_mark at slots.old }
{
    if let Some(slot) = slots.get_mut(at) {
        slot.mark_finalized();
    }
}

/// Sets the collector's number of a node.
#[inline(always)]
pub fn set_number(slots: &mut Slab<Slot>, at: usize, number: u32)
    requires { ContainsKey slots.old at }
    ensures { slots.new ≡ rewritten (with_number number) at slots.old }
{
    let Some(slot) = slots.get_mut(at) else {
        unreachable!()
    };
    slot.number = number;
}

/// Sets the place and the predecessor of a node, and clears its successor.
#[inline(always)]
pub fn place_last(slots: &mut Slab<Slot>, at: usize, place: Place, before: Option<u32>)
    requires { ContainsKey slots.old at }
    ensures { slots.new ≡ rewritten (placed_last place before) at slots.old }
{
    let Some(slot) = slots.get_mut(at) else {
        unreachable!()
    };
    slot.place = place;
    slot.set_before(before);
    slot.set_after(None);
}

/// Sets the successor of a slot, if there is a slot.
#[inline(always)]
fn set_after(slots: &mut Slab<Slot>, at: Option<u32>, after: Option<u32>)
    requires { IfSome at (ContainsKey slots.old) }
    ensures { slots.new ≡ link_set with_after at after slots.old }
{
    if let Some(at) = at {
        let Some(slot) = slots.get_mut(at as usize) else {
            unreachable!()
        };
        slot.set_after(after);
    }
}

/// Sets the predecessor of a slot, if there is a slot.
#[inline(always)]
fn set_before(slots: &mut Slab<Slot>, at: Option<u32>, before: Option<u32>)
    requires { IfSome at (ContainsKey slots.old) }
    ensures { slots.new ≡ link_set with_before at before slots.old }
{
    if let Some(at) = at {
        let Some(slot) = slots.get_mut(at as usize) else {
            unreachable!()
        };
        slot.set_before(before);
    }
}

/// Makes two slots neighbours. If one is missing, the other becomes an end.
#[inline(always)]
fn tie(slots: &mut Slab<Slot>, before: Option<u32>, after: Option<u32>)
    requires before { IfSome before (ContainsKey slots.old) }
    requires after { IfSome after (ContainsKey slots.old) }
    ensures { slots.new ≡ tied before after slots.old }
{
    set_after(slots, before, after);
    set_before(slots, after, before);
}

/// Takes a slot out of its list.
#[inline(always)]
pub fn unlink(slots: &mut Slab<Slot>, ends: &mut Ends, slot: Slot)
    requires size { 0 < ends.old.size }
    requires before { IfSome (before_of slot) (ContainsKey slots.old) }
    requires after { IfSome (after_of slot) (ContainsKey slots.old) }
    ensures slots { slots.new ≡ tied (before_of slot) (after_of slot) slots.old }
    ensures ends { ends.new ≡ ends_without (before_of slot) (after_of slot) ends.old }
{
    let before = slot.before();
    let after = slot.after();
    tie(slots, before, after);
    ends.lose(before, after);
}

/// Appends a slot to a list. Its links are set already.
#[inline(always)]
pub fn append(slots: &mut Slab<Slot>, ends: &mut Ends, at: u32)
    requires size { ends.old.size + 1 < 2 ^ 64 }
    requires low { at < 2 ^ 32 - 1 }
    requires last { IfSome ends.old.last (ContainsKey slots.old) }
    ensures slots { slots.new ≡ link_set with_after ends.old.last (Some at) slots.old }
    ensures ends { ends.new ≡ ends_joined ends.old (one_end at) }
{
    set_after(slots, ends.last(), Some(at));
    ends.gain(Ends::one(at));
}

/// Appends one list to another.
#[inline(always)]
pub fn join(slots: &mut Slab<Slot>, front: &mut Ends, back: Ends)
    requires size { front.old.size + back.size < 2 ^ 64 }
    requires last { IfSome front.old.last (ContainsKey slots.old) }
    requires first { IfSome back.first (ContainsKey slots.old) }
    ensures slots { slots.new ≡ tied front.old.last back.first slots.old }
    ensures ends { front.new ≡ ends_joined front.old back }
{
    tie(slots, front.last(), back.first());
    front.gain(back);
}

/// Sets the place of a node, and returns the next slot.
fn place_one(slots: &mut Slab<Slot>, at: Option<u32>, place: Place) -> Option<u32>
    ensures slots { slots.new ≡ place_set at place slots.old }
    ensures after { result ≡ option_and_then (λ k. after_in (get slots.old k)) at }
{
    let slot = slots.get_mut(at? as usize)?;
    slot.place = place;
    slot.after()
}

/// Sets the place of each node of a list.
pub fn place_all(slots: &mut Slab<Slot>, first: Option<u32>, size: u64, place: Place)
    ensures { slots.new ≡ all_placed (chain_from slots.old size first) place slots.old }
{
    let mut at = first;
    'nodes: for _done in 0..size {
        at = place_one(slots, at, place);
    }
}
