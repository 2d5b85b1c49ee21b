//! Adding and removing entries.
ghost use Rattle.std.specs.Prelude.{◌≡◌, ◌≢◌, ◌<◌, ◌≤◌, ◌+◌, ◌++◌, ◌∷◌, ◌↔◌, ◌&&◌, ◌||◌, [], IsTrue, IsOk, IsNone, IsSome, IfOk, IfSome, IfNone, OnSome, OnOk, OnErr, Ok, Err, Some, None, length, remove, slice_get};
ghost use Rattle.std.specs.FinMap as fin;
ghost use Rattle.cg_value.specs.declared.KindCode.TheVariants as code;
ghost use Rattle.cg_value.specs.declared.Place.TheVariants as where_it_is;
ghost use Rattle.cg_graph.specs.Object.{same_place};
ghost use Rattle.cg_graph.specs.Value.{item, without_last, without_key, entry_at, entry_references};
ghost use Rattle.cg_graph.specs.Store.{IsLive, HasCode, entries_of};
ghost use Rattle.cg_graph.specs.Changes.{held, rewritten};
ghost use Rattle.cg_kind.specs.Calls.{CanPut, value_under};
ghost use Rattle.cg_heap.specs.Boxes.{HasBody, entries_in_box};
ghost use Rattle.cg_heap.specs.declared.fault.HeapFault.TheVariants as fault;
ghost use Rattle.cg_heap.specs.Calls.{HasFewHolds, IsLiveValue, IsMutable, CanTake, CanPutIn, entry_number, value_in, with_put, becomes_tracked, tracked_if, may_be_tracked, is_dict_at, code_may_be_tracked};

use super::Heap;
use crate::boxes::{Boxes, Seat};
use crate::counts::{count_in, count_near, fewer, seat_and_place_near, seat_near, seat_of};
use crate::fault::HeapFault;
use cg_arena::Near;
use cg_graph::MOST_ENTRIES;
use cg_kind::Kind;
use cg_value::{Entry, KindCode, Place, Val};

impl<B: Kind> Heap<B> {
    /// Removes the entry at a position below the length from a list, dictionary or instance; later
    /// ones move down. The entry's references become outside holds.
    #[inline(always)]
    pub fn take(&mut self, object: u64, i: usize) -> Entry
        requires can { CanTake self.old object }
        requires within { i < length (entries_of self.old object) }
        requires few { HasFewHolds self.old }
        ensures entry { slice_get (entries_of self.old object) i ≡ Some result }
        ensures rest { self.new ≡ held (entry_references result)
            (rewritten object (remove (entries_of self.old object) i) self.old) }
    {
        self.take_near(object, Near::default(), i)
    }

    /// `take`, with a hint of the object's slot.
    #[inline(always)]
    pub fn take_near(&mut self, object: u64, near: Near, i: usize) -> Entry
        requires can { CanTake self.old object }
        requires within { i < length (entries_of self.old object) }
        requires few { HasFewHolds self.old }
        ensures entry { slice_get (entries_of self.old object) i ≡ Some result }
        ensures rest { self.new ≡ held (entry_references result)
            (rewritten object (remove (entries_of self.old object) i) self.old) }
    {
        let seat = seat_near(&self.arena, object, near);
        let entry = self.boxes.take(seat, i);
        fewer(&mut self.entries, object);
        entry
    }

    /// Removes the entry under a key from a list, dictionary or instance; later ones move down.
    /// `None` exactly if no entry has the key. The entry's references become outside holds.
    #[inline(always)]
    pub fn take_key(&mut self, object: u64, key: Val) -> Option<Entry>
        requires can { CanTake self.old object }
        requires few { HasFewHolds self.old }
        ensures entry { result ≡ entry_at (entries_of self.old object) key }
        ensures rest { IfSome result (λ e. self.new ≡ held (entry_references e)
            (rewritten object (without_key (entries_of self.old object) key) self.old)) }
        ensures none { IfNone result (self.new ≡ self.old) }
    {
        match self.take_key_if(self.kind_of(object), object, Near::default(), key) {
            Some(taken) => taken,
            None => unreachable!(),
        }
    }

    /// `take_key`, with a hint of the object's slot, if the object is of this kind. `None` exactly
    /// if it is of another; then nothing has changed.
    #[inline(always)]
    pub fn take_key_if(
        &mut self,
        code: KindCode,
        object: u64,
        near: Near,
        key: Val,
    ) -> Option<Option<Entry>>
        requires live { IsLive self.old object }
        requires mutable { IsMutable code }
        requires few { HasFewHolds self.old }
        ensures kind { OnSome result (HasCode self.old object code) }
        ensures other { IfNone result (¬ (HasCode self.old object code) × (self.new ≡ self.old)) }
        ensures entry { IfSome result (λ taken. taken ≡ entry_at (entries_of self.old object) key) }
        ensures rest { IfSome result (λ taken. IfSome taken (λ e. self.new
            ≡ held (entry_references e)
            (rewritten object (without_key (entries_of self.old object) key) self.old))) }
        ensures none { IfSome result (λ taken. IfNone taken (self.new ≡ self.old)) }
    {
        let seat = seat_near(&self.arena, object, near);
        if !seat.is_of(code) {
            return None;
        }
        let taken = self.boxes.take_key(seat, key);
        if taken.is_some() {
            fewer(&mut self.entries, object);
        }
        Some(taken)
    }

    /// Removes the last entry, whatever the kind. `None` exactly if there is none. The entry's
    /// references become outside holds.
    #[inline(always)]
    pub fn detach(&mut self, object: u64) -> Option<Entry>
        requires live { IsLive self.old object }
        requires few { HasFewHolds self.old }
        ensures last { IfSome result (λ e. entries_of self.old object ≡
            without_last (entries_of self.old object) ++ e ∷ []) }
        ensures rest { IfSome result (λ e. self.new ≡ held (entry_references e)
            (rewritten object (without_last (entries_of self.old object)) self.old)) }
        ensures empty { IsNone result ↔ (entries_of self.old object ≡ []) }
        ensures none { IfNone result (self.new ≡ self.old) }
    {
        let seat = seat_of(&self.arena, object);
        match self.boxes.detach(seat) {
            Some(entry) => {
                fewer(&mut self.entries, object);
                Some(entry)
            }
            None => None,
        }
    }

    /// Appends an item to a list other than the garbage list.
    ///
    /// `EntryLimit` comes exactly if there are 4,000,000 entries, and `OutOfMemory` only if memory
    /// runs out. An error changes nothing.
    #[inline(always)]
    pub fn append(&mut self, list: u64, val: Val) -> Result<(), HeapFault>
        requires list { HasCode self.old list code.List }
        requires other { list ≢ 1 }
        requires live { IsLiveValue self.old val }
        ensures ok { OnOk result (self.new ≡
            rewritten list (entries_of self.old list ++ item val ∷ []) self.old) }
        ensures limit { (result ≡ Err fault.EntryLimit) ↔ (MOST_ENTRIES ≤ entry_number self.old) }
        ensures objects { result ≢ Err fault.ObjectLimit }
        ensures err { OnErr result (self.new ≡ self.old) }
    {
        self.append_near(list, Near::default(), val)
    }

    /// `append`, with a hint of the list's slot.
    #[inline(always)]
    pub fn append_near(&mut self, list: u64, near: Near, val: Val) -> Result<(), HeapFault>
        requires list { HasCode self.old list code.List }
        requires other { list ≢ 1 }
        requires live { IsLiveValue self.old val }
        ensures ok { OnOk result (self.new ≡
            rewritten list (entries_of self.old list ++ item val ∷ []) self.old) }
        ensures limit { (result ≡ Err fault.EntryLimit) ↔ (MOST_ENTRIES ≤ entry_number self.old) }
        ensures objects { result ≢ Err fault.ObjectLimit }
        ensures err { OnErr result (self.new ≡ self.old) }
    {
        if self.entries >= MOST_ENTRIES {
            return Err(HeapFault::EntryLimit);
        }
        let seat = seat_near(&self.arena, list, near);
        match self.boxes.append(seat.body, val) {
            Ok(()) => {
                count_in(&mut self.arena, val);
                self.entries += 1;
                Ok(())
            }
            Err(_) => Err(HeapFault::OutOfMemory),
        }
    }

    /// Puts a value at an index of a list, or under a key of a dictionary or instance, and returns
    /// the value that it replaces, whose reference becomes an outside hold. The object is not the
    /// garbage list. `Ok(None)` means exactly a new key.
    ///
    /// An untracked dictionary that gets a key or value that may be tracked moves to the end of
    /// generation 0. (`gc` manual, `gc.is_tracked`.)
    ///
    /// An existing key and a list never fail. For a new key `EntryLimit` comes exactly if there are
    /// 4,000,000 entries, and `OutOfMemory` only if memory runs out. An error changes nothing.
    #[inline(always)]
    pub fn put(&mut self, object: u64, key: Val, val: Val) -> Result<Option<Val>, HeapFault>
        requires other { object ≢ 1 }
        requires can { CanPutIn self.old object key }
        requires live_key { IsLiveValue self.old key }
        requires live_val { IsLiveValue self.old val }
        requires few { HasFewHolds self.old }
        ensures ok { OnOk result (self.new ≡
            tracked_if (becomes_tracked self.old object key val) object
            (with_put self.old object key val)) }
        ensures replaced { IfOk result (λ was. was ≡ value_in self.old object key) }
        ensures present { IsSome (value_in self.old object key) → IsOk result }
        ensures limit { (result ≡ Err fault.EntryLimit)
            ↔ ((value_in self.old object key ≡ None) × (MOST_ENTRIES ≤ entry_number self.old)) }
        ensures objects { result ≢ Err fault.ObjectLimit }
        ensures err { OnErr result (self.new ≡ self.old) }
    {
        let nowhere = Near::default();
        match self.put_if(self.kind_of(object), object, nowhere, key, val, nowhere) {
            Some(put) => put,
            None => unreachable!(),
        }
    }

    /// `put`, with hints of the slots of the object and of the value's object, if the object is of
    /// this kind. `None` exactly if it is of another; then nothing has changed. Below the entry
    /// limit the key is searched once, and the object's node is read once.
    #[inline(always)]
    pub fn put_if(
        &mut self,
        code: KindCode,
        object: u64,
        near: Near,
        key: Val,
        val: Val,
        val_near: Near,
    ) -> Option<Result<Option<Val>, HeapFault>>
        requires live { IsLive self.old object }
        requires other { HasCode self.old object code → object ≢ 1 }
        requires can { HasCode self.old object code → CanPutIn self.old object key }
        requires live_key { IsLiveValue self.old key }
        requires live_val { IsLiveValue self.old val }
        requires few { HasFewHolds self.old }
        ensures kind { OnSome result (HasCode self.old object code) }
        ensures other { IfNone result (¬ (HasCode self.old object code) × (self.new ≡ self.old)) }
        ensures ok { IfSome result (λ put. OnOk put (self.new ≡
            tracked_if (becomes_tracked self.old object key val) object
            (with_put self.old object key val))) }
        ensures replaced { IfSome result (λ put. IfOk put (λ was. was ≡ value_in self.old object key)) }
        ensures present { IfSome result (λ put. IsSome (value_in self.old object key) → IsOk put) }
        ensures limit { IfSome result (λ put. (put ≡ Err fault.EntryLimit)
            ↔ ((value_in self.old object key ≡ None) × (MOST_ENTRIES ≤ entry_number self.old))) }
        ensures objects { IfSome result (λ put. put ≢ Err fault.ObjectLimit) }
        ensures err { IfSome result (λ put. OnErr put (self.new ≡ self.old)) }
    {
        let (seat, place) = seat_and_place_near(&self.arena, object, near);
        if !seat.is_of(code) {
            return None;
        }
        if is_past_limit(&self.boxes, self.entries, seat, &key) {
            return Some(Err(HeapFault::EntryLimit));
        }
        let tracks = self.makes_tracked(seat.code, place, key, val);
        match self.boxes.put(seat, key, val) {
            Ok(Some(was)) => {
                count_near(&mut self.arena, val, val_near);
                self.track_if(tracks, object);
                Some(Ok(Some(was)))
            }
            Ok(None) => {
                count_near(&mut self.arena, val, val_near);
                count_in(&mut self.arena, key);
                self.entries += 1;
                self.track_if(tracks, object);
                Some(Ok(None))
            }
            Err(_) => Some(Err(HeapFault::OutOfMemory)),
        }
    }

    /// Whether the key or value makes an untracked dictionary tracked, by its kind and place.
    #[inline(always)]
    fn makes_tracked(&self, code: KindCode, place: Place, key: Val, val: Val) -> bool
        requires live_key { IsLiveValue self.now key }
        requires live_val { IsLiveValue self.now val }
        ensures { result ≡ (is_dict_at code place && (may_be_tracked self.now key
            || may_be_tracked self.now val)) }
    {
        is_untracked_dict(code, place) && (self.may_be_tracked(key) || self.may_be_tracked(val))
    }

    /// Whether a value may be tracked: an object that is not a tuple, or a tracked tuple.
    #[inline(always)]
    fn may_be_tracked(&self, val: Val) -> bool
        requires { IsLiveValue self.now val }
        ensures { result ≡ may_be_tracked self.now val }
    {
        match val {
            Val::Ref(serial) => {
                let head = self.head_of(serial);
                may_be_tracked(head.code, head.place)
            }
            _ => false,
        }
    }

    /// Moves an object to the end of generation 0, if it becomes tracked.
    #[inline(always)]
    fn track_if(&mut self, tracks: bool, object: u64)
        requires { IsLive self.old object }
        ensures { self.new ≡ tracked_if tracks object self.old }
    {
        if tracks {
            self.move_to(object, Place::Gen(0));
        }
    }
}

/// Whether a put under a key would exceed the entry limit. The key is only searched at the limit,
/// so it is passed by reference: by value each put would copy it.
#[inline(always)]
fn is_past_limit<B: Kind>(boxes: &Boxes<B>, entries: u64, seat: Seat, key: &Val) -> bool
    requires held { HasBody boxes.now seat.code seat.body }
    requires can { CanPut seat.code (entries_in_box boxes.now seat.code seat.body) key.now }
    requires mutable { IsMutable seat.code }
    ensures { IsTrue result ↔ ((value_under seat.code (entries_in_box boxes.now seat.code seat.body)
        key.now ≡ None)
        × (MOST_ENTRIES ≤ entries)) }
{
    entries >= MOST_ENTRIES && !boxes.has_value(seat, *key)
}

#[inline(always)]
fn is_untracked(place: Place) -> bool
    ensures { result ≡ same_place place where_it_is.Untracked }
{
    match place {
        Place::Untracked => true,
        _ => false,
    }
}

/// Whether an object of this kind at this place is an untracked dictionary.
#[inline(always)]
fn is_untracked_dict(code: KindCode, place: Place) -> bool
    ensures { result ≡ is_dict_at code place }
{
    match code {
        KindCode::Dict => is_untracked(place),
        _ => false,
    }
}

/// Whether an object of this kind at this place may be tracked.
#[inline(always)]
fn may_be_tracked(code: KindCode, place: Place) -> bool
    ensures { result ≡ code_may_be_tracked code place }
{
    match code {
        KindCode::Tuple => !is_untracked(place),
        _ => true,
    }
}
