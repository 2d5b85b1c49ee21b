//! Making, saving and freeing objects.
ghost use Rattle.std.specs.List.{All};
ghost use Rattle.std.specs.Prelude.{◌≡◌, ◌≢◌, ◌<◌, ◌≤◌, ◌+◌, ◌++◌, ◌∷◌, ◌↔◌, [], ℕ, IfOk, IfSome, IsSome, OnOk, OnErr, Err, Some, length, slice_get};
ghost use Rattle.std.specs.FinMap as fin;
ghost use Rattle.cg_kind.specs.Calls.{IsParts};
ghost use Rattle.cg_value.specs.declared.Val.TheVariants as val_of;
ghost use Rattle.cg_graph.specs.Value.{references, references_of_value, item};
ghost use Rattle.cg_graph.specs.Holdings.{occurrences};
ghost use Rattle.cg_graph.specs.Store.{IsLive, entries_of, count_of, outside_of};
ghost use Rattle.cg_graph.specs.Changes.{made, gone, rewritten, held, unheld, named};
ghost use Rattle.cg_arena.specs.Nodes.{HasNode};
ghost use Rattle.cg_heap.specs.declared.fault.HeapFault.TheVariants as fault;
ghost use Rattle.cg_heap.specs.Calls.{HasFewHolds, object_number, entry_number, made_named};
ghost use Rattle.cg_heap.specs.Keeps.{HasClass, CanSave, CanSaveOneMore, outside_total};
ghost use Rattle.cg_graph.specs.Rows.{Row};
ghost use Rattle.cg_heap.specs.Weak.{HasReferent, IsInNoRow, attached, with_new_row};

use super::Heap;
use crate::boxes::Boxes;
use crate::counts::{add_object, drop_seat};
use crate::fault::HeapFault;
use cg_arena::{Arena, Near};
use cg_graph::{MOST_ENTRIES, MOST_OBJECTS};
use cg_kind::Kind;
use cg_value::{Entry, KindCode, Val};
use cg_weak::WeakTable;
use std::alloc::AllocError;

/// The number of live objects, not counting the garbage list.
#[derive(Clone, Copy, Drop)]
pub struct Objects {
    pub live: u64,
    // The garbage list holds so many items without allocating, never fewer than `live`.
    pub savable: u64,
}

impl<B: Kind> Heap<B> {
    /// Makes an object from these entries, held once from outside, and returns its serial, which is
    /// one above the last.
    ///
    /// `class` is the class of an instance or the procedure of a function; other objects have none.
    /// `referent` is that of a weak reference, whose row goes last; other objects have none. The
    /// object goes to the end of generation 0, except a dictionary, which starts untracked. (`gc`
    /// manual, `gc.is_tracked`.)
    ///
    /// `ObjectLimit` comes exactly if 1,000,000 objects are live, else `EntryLimit` exactly if
    /// entries and parts exceed 4,000,000, and `OutOfMemory` only if memory runs out. An error
    /// changes nothing.
    pub fn make(
        &mut self,
        code: KindCode,
        class: Option<u32>,
        parts: &[Entry],
        referent: Option<u64>,
    ) -> Result<u64, HeapFault>
        requires parts { IsParts code parts.now }
        requires class { HasClass code class }
        requires referent { HasReferent code referent }
        requires live { (s : ℕ) → 0 < occurrences s (references parts.now) → IsLive self.old s }
        requires live_referent { IfSome referent (λ s. IsLive self.old s) }
        requires few { HasFewHolds self.old }
        requires last { self.old.last < 9223372036854775808 }
        ensures serial { IfOk result (λ s. s ≡ self.old.last + 1) }
        ensures ok { OnOk result (self.new ≡
            attached (self.old.last + 1) referent (made code class parts.now self.old)) }
        ensures object_limit { (result ≡ Err fault.ObjectLimit) ↔ (MOST_OBJECTS ≤ object_number
            self.old) }
        ensures entry_limit { (result ≡ Err fault.EntryLimit)
            ↔ ((object_number self.old < MOST_OBJECTS)
            × (MOST_ENTRIES < entry_number self.old + length parts.now)) }
        ensures err { OnErr result (self.new ≡ self.old) }
    {
        Ok(self.make_located(code, class, parts, referent)?.0)
    }

    /// `make`, and binds a name to the object, whose reference takes the place of the outside hold.
    /// Returns the serial and the name's old value, `None` if it was unbound.
    ///
    /// The old value's reference becomes an outside hold, so that it can be released after the new
    /// one is bound.
    pub fn make_named(
        &mut self,
        name: u32,
        code: KindCode,
        class: Option<u32>,
        parts: &[Entry],
        referent: Option<u64>,
    ) -> Result<(u64, Option<Val>), HeapFault>
        requires name { name < length self.old.names }
        requires parts { IsParts code parts.now }
        requires class { HasClass code class }
        requires referent { HasReferent code referent }
        requires live { (s : ℕ) → 0 < occurrences s (references parts.now) → IsLive self.old s }
        requires live_referent { IfSome referent (λ s. IsLive self.old s) }
        requires few { HasFewHolds self.old }
        requires last { self.old.last < 9223372036854775808 }
        ensures serial { IfOk result (λ bound. bound.0 ≡ self.old.last + 1) }
        ensures old { IfOk result (λ bound. slice_get self.old.names name ≡ Some bound.1) }
        ensures ok { IfOk result (λ bound. self.new ≡
            made_named name bound.1 code class parts.now referent self.old) }
        ensures object_limit { (result ≡ Err fault.ObjectLimit) ↔ (MOST_OBJECTS ≤ object_number
            self.old) }
        ensures entry_limit { (result ≡ Err fault.EntryLimit)
            ↔ ((object_number self.old < MOST_OBJECTS)
            × (MOST_ENTRIES < entry_number self.old + length parts.now)) }
        ensures err { OnErr result (self.new ≡ self.old) }
    {
        let (serial, near) = self.make_located(code, class, parts, referent)?;
        let old = self.hand_over(name, serial, near);
        Ok((serial, old))
    }

    // `make`; also returns the object's slot.
    #[inline(always)]
    fn make_located(
        &mut self,
        code: KindCode,
        class: Option<u32>,
        parts: &[Entry],
        referent: Option<u64>,
    ) -> Result<(u64, Near), HeapFault>
        requires parts { IsParts code parts.now }
        requires class { HasClass code class }
        requires referent { HasReferent code referent }
        requires live { (s : ℕ) → 0 < occurrences s (references parts.now) → IsLive self.old s }
        requires live_referent { IfSome referent (λ s. IsLive self.old s) }
        requires few { HasFewHolds self.old }
        requires last { self.old.last < 9223372036854775808 }
        ensures serial { IfOk result (λ made. made.0 ≡ self.old.last + 1) }
        ensures ok { OnOk result (self.new ≡
            attached (self.old.last + 1) referent (made code class parts.now self.old)) }
        ensures object_limit { (result ≡ Err fault.ObjectLimit) ↔ (MOST_OBJECTS ≤ object_number
            self.old) }
        ensures entry_limit { (result ≡ Err fault.EntryLimit)
            ↔ ((object_number self.old < MOST_OBJECTS)
            × (MOST_ENTRIES < entry_number self.old + length parts.now)) }
        ensures err { OnErr result (self.new ≡ self.old) }
    {
        if self.objects.live >= MOST_OBJECTS {
            return Err(HeapFault::ObjectLimit);
        }
        if parts.len() as u64 > MOST_ENTRIES - self.entries {
            return Err(HeapFault::EntryLimit);
        }
        match self.make_within(code, class, parts, referent) {
            Ok(made) => Ok(made),
            Err(_) => Err(HeapFault::OutOfMemory),
        }
    }

    // `make_located`, below the limits. All allocation happens before any change.
    #[inline(always)]
    fn make_within(
        &mut self,
        code: KindCode,
        class: Option<u32>,
        parts: &[Entry],
        referent: Option<u64>,
    ) -> Result<(u64, Near), AllocError>
        requires parts { IsParts code parts.now }
        requires class { HasClass code class }
        requires referent { HasReferent code referent }
        requires live { (s : ℕ) → 0 < occurrences s (references parts.now) → IsLive self.old s }
        requires live_referent { IfSome referent (λ s. IsLive self.old s) }
        requires few { HasFewHolds self.old }
        requires last { self.old.last < 9223372036854775808 }
        requires objects { object_number self.old < MOST_OBJECTS }
        requires entries { entry_number self.old + length parts.now ≤ MOST_ENTRIES }
        ensures serial { IfOk result (λ made. made.0 ≡ self.old.last + 1) }
        ensures ok { OnOk result (self.new ≡
            attached (self.old.last + 1) referent (made code class parts.now self.old)) }
        ensures err { OnErr result (self.new ≡ self.old) }
    {
        self.arena.reserve()?;
        reserve_row(&mut self.weak, referent)?;
        let savable = reserve_to_save(&mut self.boxes, &self.arena, self.objects)?;
        self.objects.savable = savable;
        let body = self.boxes.make(code, parts)?;
        let serial = self.last + 1;
        let near = add_object(&mut self.arena, serial, code, class, body, parts);
        add_row(&mut self.weak, serial, referent);
        self.last = serial;
        self.objects.live += 1;
        self.entries += parts.len() as u64;
        Ok((serial, near))
    }

    // Binds a name to an object, whose reference takes the place of an outside hold: the count
    // stays. Returns the old value, as `bind` does.
    #[inline(always)]
    fn hand_over(&mut self, name: u32, object: u64, near: Near) -> Option<Val>
        requires name { name < length self.old.names }
        requires held { 0 < outside_of self.old object }
        requires few { outside_total self.old ≤ 2147483646 }
        ensures old { slice_get self.old.names name ≡ Some result }
        ensures rest { self.new ≡ held (references_of_value result)
            (named name (Some (val_of.Ref object)) (unheld (object ∷ []) self.old)) }
    {
        let val = Val::Ref(object);
        self.names.replace(name as usize, Some(val), near)
    }

    /// Appends an object to the garbage list, which does not name it yet. It does not allocate.
    /// (`gc` manual, `gc.garbage`.)
    pub fn save(&mut self, object: u64)
        requires live { IsLive self.old object }
        requires other { object ≢ 1 }
        requires new { occurrences object (references (entries_of self.old 1)) ≡ 0 }
        ensures { self.new ≡ rewritten 1 (entries_of self.old 1 ++ item (val_of.Ref object) ∷ [])
            self.old }
    {
        let garbage = self.arena.body_of(1);
        self.boxes.append_reserved(garbage, Val::Ref(object));
        self.arena.inc(object);
    }

    /// Frees an object that nothing holds, that has no entries, and that is in no row.
    pub fn free(&mut self, object: u64)
        requires live { IsLive self.old object }
        requires unheld { count_of self.old object ≡ 0 }
        requires empty { entries_of self.old object ≡ [] }
        requires no_row { IsInNoRow object self.old.rows }
        ensures { self.new ≡ gone object self.old }
    {
        let seat = drop_seat(&mut self.arena, object);
        self.boxes.free(seat);
        self.objects.live -= 1;
    }
}

/// Reserves room in the garbage list for one more object than there are, if it has none left.
/// Returns how many items the list then holds without allocating.
#[inline(always)]
fn reserve_to_save<B: Kind>(
    boxes: &mut Boxes<B>,
    arena: &Arena,
    objects: Objects,
) -> Result<u64, AllocError>
    requires has { HasNode arena.now 1 }
    requires few { objects.live ≤ MOST_OBJECTS }
    requires can { IfSome (fin.get arena.now.nodes 1) (λ n. CanSave boxes.old objects n.body) }
    ensures ok { IfOk result (λ savable. IfSome (fin.get arena.now.nodes 1) (λ n.
        CanSaveOneMore boxes.old boxes.new objects.live savable n.body)) }
    ensures err { OnErr result (boxes.new ≡ boxes.old) }
{
    if objects.live < objects.savable {
        return Ok(objects.savable);
    }
    reserve_to_save_many(boxes, arena, objects)
}

/// The same, with room for half as many objects again, so that few calls allocate.
#[inline(never)]
fn reserve_to_save_many<B: Kind>(
    boxes: &mut Boxes<B>,
    arena: &Arena,
    objects: Objects,
) -> Result<u64, AllocError>
    requires has { HasNode arena.now 1 }
    requires few { objects.live ≤ MOST_OBJECTS }
    requires can { IfSome (fin.get arena.now.nodes 1) (λ n. CanSave boxes.old objects n.body) }
    ensures ok { IfOk result (λ savable. IfSome (fin.get arena.now.nodes 1) (λ n.
        CanSaveOneMore boxes.old boxes.new objects.live savable n.body)) }
    ensures err { OnErr result (boxes.new ≡ boxes.old) }
{
    let garbage = arena.body_of(1);
    let savable = objects.live + objects.live / 2 + 64;
    boxes.reserve_total(garbage, savable as usize)?;
    Ok(savable)
}

/// Reserves the row of an object, if it will have one.
fn reserve_row(weak: &mut WeakTable, referent: Option<u64>) -> Result<(), AllocError>
    ensures ok { OnOk result (IsSome referent → 0 < weak.new.room) }
    ensures rows { weak.new.rows ≡ weak.old.rows }
{
    match referent {
        Some(_) => weak.reserve(),
        None => Ok(()),
    }
}

/// Adds the row of a new object, if it has one; there is room for it.
fn add_row(weak: &mut WeakTable, serial: u64, referent: Option<u64>)
    requires newest { All (λ r. r.weak < serial) weak.old.rows }
    requires room { IsSome referent → 0 < weak.old.room }
    ensures { weak.new.rows ≡ with_new_row serial referent weak.old.rows }
{
    if let Some(object) = referent {
        weak.attach_reserved(serial, object);
    }
}
