//! The boxed interface of a kind of objects: lists, tuples, dictionaries, instances, functions or
//! weak references.
//!
//! The layer above rests on one contract: a kind is a map from places to bodies, and each call
//! determines the whole map after it. So a call on one place keeps all other places, and an error
//! keeps the map.
#![tactic(auto)]

ghost use Rattle.std.specs.Prelude.{◌≡◌, ◌≢◌, ◌<◌, ◌≤◌, ◌+◌, ◌-◌, ◌++◌, ◌∷◌, ◌↔◌, [], length, take, IfOk, OnOk, OnErr, IfSome, OnSome, IfNone, IsNone, IsSome, IsTrue, IsOk, None, Some, position, slice_get};
ghost use Rattle.std.specs.FinMap as fin;
ghost use Rattle.cg_value.specs.declared.KindCode.{KindCode};
ghost use Rattle.cg_value.specs.declared.KindCode.TheVariants as code;
ghost use Rattle.cg_graph.specs.Value.{item, without_last, value_at, references, entry_at as entry_under};
ghost use Rattle.cg_kind.specs.Bodies.{Bodies, Holds, entries_at, spare_at, with_body};
ghost use Rattle.cg_kind.specs.Calls.{has_key, next_entries, IsParts, CanPut, value_under, after_put, after_take, after_take_key, spare_after_leave};

mod notes;

use cg_value::{Entry, KindCode, Val};
pub use notes::{AT_ONCE, Noted, ROOM, note_entry, note_reference};
use std::alloc::AllocError;

/// A kind of objects. It keeps the entries of its objects, each object at a place.
///
/// Every call except `code`, `make` and `is_empty` needs a place that holds an object. An entry
/// that leaves is returned.
pub trait Kind: Drop {
    /// Which of the six kinds it is.
    ghost kind: { Self → KindCode };

    /// The body at each place.
    ghost bodies: { Self → Bodies };

    /// Which of the six kinds it is.
    fn code(&self) -> KindCode
        ensures { result ≡ kind self.now };

    /// Makes an object from these entries and returns its place. Fails only if memory runs out.
    ///
    /// Lists and tuples take any items, dictionaries and instances none, functions at most eight
    /// cells, weak references at most one callback.
    fn make(&mut self, parts: &[Entry]) -> Result<usize, AllocError>
        requires { IsParts (kind self.old) parts.now }
        ensures made { IfOk result (λ at. bodies self.new ≡
            with_body (bodies self.old) at parts.now (spare_at (bodies self.new) at)) }
        ensures vacant { IfOk result (λ at. fin.get (bodies self.old) at ≡ None) }
        ensures err { OnErr result (bodies self.new ≡ bodies self.old) }
        ensures same_kind { kind self.new ≡ kind self.old };

    /// The number of entries.
    fn len(&self, at: usize) -> usize
        requires { Holds (bodies self.now) at }
        ensures { result ≡ length (entries_at (bodies self.now) at) };

    /// The entry at a position below the length.
    fn entry_at(&self, at: usize, i: usize) -> Entry
        requires held { Holds (bodies self.now) at }
        requires within { i < length (entries_at (bodies self.now) at) }
        ensures { slice_get (entries_at (bodies self.now) at) i ≡ Some result };

    /// The entry at a position, `None` exactly if that is the length or more.
    fn get(&self, at: usize, i: usize) -> Option<Entry>
        requires { Holds (bodies self.now) at }
        ensures { result ≡ slice_get (entries_at (bodies self.now) at) i }
    {
        if i < self.len(at) {
            Some(self.entry_at(at, i))
        } else {
            None
        }
    }

    /// Visits the entries from a position on, at most `AT_ONCE`, and writes their references to the
    /// front of `found`, which has length `ROOM` or more: for each entry its value's, then its
    /// key's. A kind may visit them faster than by position.
    fn note_from(&self, at: usize, from: usize, found: &mut [u64]) -> Noted
        requires held { Holds (bodies self.now) at }
        requires within { from ≤ length (entries_at (bodies self.now) at) }
        requires room { ROOM ≤ length found.old }
        ensures next { result.next ≡ from + length (next_entries (entries_at (bodies self.now) at)
            from) }
        ensures references { take result.references found.new ≡
            references (next_entries (entries_at (bodies self.now) at) from) }
        ensures few { result.references ≤ ROOM }
        ensures room { length found.new ≡ length found.old }
    {
        let next = from + AT_ONCE.min(self.len(at) - from);
        let mut references = 0;
        'entries: for i in from..next {
            references = note_entry(found, references, self.entry_at(at, i));
        }
        Noted { next, references }
    }

    /// The first position with this key, `None` exactly if there is none.
    fn find(&self, at: usize, key: Val) -> Option<usize>
        requires { Holds (bodies self.now) at }
        ensures { result ≡ position (has_key key) (entries_at (bodies self.now) at) };

    /// The value of the first entry with this key, `None` exactly if there is none. A kind may find
    /// it without the position.
    fn value_of(&self, at: usize, key: Val) -> Option<Val>
        requires { Holds (bodies self.now) at }
        ensures { result ≡ value_at (entries_at (bodies self.now) at) key }
    {
        match self.find(at, key) {
            Some(i) => Some(self.entry_at(at, i).val),
            None => None,
        }
    }

    /// Puts a value at an index of a list, or under a key of a dictionary or instance, and returns
    /// the value that it replaces. `Ok(None)` means exactly a new key; only a new key can fail, if
    /// memory runs out.
    ///
    /// An existing key keeps its position and its key, as in Python's dictionaries; a new one goes
    /// last. A tuple, function or weak reference ignores the call.
    fn put(&mut self, at: usize, key: Val, val: Val) -> Result<Option<Val>, AllocError>
        requires held { Holds (bodies self.old) at }
        requires can { CanPut (kind self.old) (entries_at (bodies self.old) at) key }
        ensures ok { OnOk result (bodies self.new ≡ with_body (bodies self.old) at
            (after_put (kind self.old) (entries_at (bodies self.old) at) key val)
            (spare_at (bodies self.old) at)) }
        ensures replaced { IfOk result (λ was. was ≡
            value_under (kind self.old) (entries_at (bodies self.old) at) key) }
        ensures present { IsSome (value_under (kind self.old) (entries_at (bodies self.old) at) key)
            → IsOk result }
        ensures err { OnErr result (bodies self.new ≡ bodies self.old) }
        ensures same_kind { kind self.new ≡ kind self.old };

    /// Removes the entry at a position below the length from a list, dictionary or instance; later
    /// ones move down. An object of another kind keeps it.
    fn take(&mut self, at: usize, i: usize) -> Entry
        requires held { Holds (bodies self.old) at }
        requires within { i < length (entries_at (bodies self.old) at) }
        ensures entry { slice_get (entries_at (bodies self.old) at) i ≡ Some result }
        ensures rest { bodies self.new ≡ with_body (bodies self.old) at
            (after_take (kind self.old) (entries_at (bodies self.old) at) i)
            (spare_after_leave (kind self.old) (spare_at (bodies self.old) at)) }
        ensures same_kind { kind self.new ≡ kind self.old };

    /// Takes the first entry with this key, as `take` does by position; `None` exactly if there is
    /// none. A kind may find it without the position.
    fn take_key(&mut self, at: usize, key: Val) -> Option<Entry>
        requires { Holds (bodies self.old) at }
        ensures entry { result ≡ entry_under (entries_at (bodies self.old) at) key }
        ensures rest { OnSome result (bodies self.new ≡ with_body (bodies self.old) at
            (after_take_key (kind self.old) (entries_at (bodies self.old) at) key)
            (spare_after_leave (kind self.old) (spare_at (bodies self.old) at))) }
        ensures none { IfNone result (bodies self.new ≡ bodies self.old) }
        ensures same_kind { kind self.new ≡ kind self.old }
    {
        match self.find(at, key) {
            Some(i) => Some(self.take(at, i)),
            None => None,
        }
    }

    /// Removes the last entry, whatever the kind. `None` exactly if there is none.
    fn detach(&mut self, at: usize) -> Option<Entry>
        requires { Holds (bodies self.old) at }
        ensures last { IfSome result (λ e. entries_at (bodies self.old) at ≡
            without_last (entries_at (bodies self.old) at) ++ e ∷ []) }
        ensures rest { OnSome result (bodies self.new ≡ with_body (bodies self.old) at
            (without_last (entries_at (bodies self.old) at))
            (spare_after_leave (kind self.old) (spare_at (bodies self.old) at))) }
        ensures empty { IsNone result ↔ (entries_at (bodies self.old) at ≡ []) }
        ensures none { IfNone result (bodies self.new ≡ bodies self.old) }
        ensures same_kind { kind self.new ≡ kind self.old };

    /// Reserves room in a list for `n` more items; fails if memory runs out. The spare capacity
    /// never falls.
    fn reserve(&mut self, at: usize, n: usize) -> Result<(), AllocError>
        requires { Holds (bodies self.old) at }
        ensures ok { OnOk result (bodies self.new ≡ with_body (bodies self.old) at
            (entries_at (bodies self.old) at) (spare_at (bodies self.new) at)) }
        ensures room { kind self.old ≡ code.List → OnOk result (n ≤ spare_at (bodies self.new) at) }
        ensures no_less { OnOk result (spare_at (bodies self.old) at ≤ spare_at (bodies self.new)
            at) }
        ensures err { OnErr result (bodies self.new ≡ bodies self.old) }
        ensures same_kind { kind self.new ≡ kind self.old };

    /// Appends an item to a list that has room for it. An object of another kind ignores it.
    fn append_reserved(&mut self, at: usize, val: Val)
        requires held { Holds (bodies self.old) at }
        requires room { kind self.old ≡ code.List → 0 < spare_at (bodies self.old) at }
        ensures appends { kind self.old ≡ code.List → bodies self.new ≡ with_body (bodies self.old)
            at
            (entries_at (bodies self.old) at ++ item val ∷ []) (spare_at (bodies self.old) at - 1) }
        ensures others { kind self.old ≢ code.List → bodies self.new ≡ bodies self.old }
        ensures same_kind { kind self.new ≡ kind self.old };

    /// Appends an item to a list; fails if memory runs out. A kind may look the list up once.
    fn append(&mut self, at: usize, val: Val) -> Result<(), AllocError>
        requires held { Holds (bodies self.old) at }
        requires list { kind self.old ≡ code.List }
        ensures ok { OnOk result (bodies self.new ≡ with_body (bodies self.old) at
            (entries_at (bodies self.old) at ++ item val ∷ []) (spare_at (bodies self.new) at)) }
        ensures err { OnErr result (bodies self.new ≡ bodies self.old) }
        ensures same_kind { kind self.new ≡ kind self.old }
    {
        self.reserve(at, 1)?;
        self.append_reserved(at, val);
        Ok(())
    }

    /// Whether it has no object. A kind that does not know answers `false`.
    fn is_empty(&self) -> bool
        ensures { IsTrue result → bodies self.now ≡ fin.empty }
    {
        false
    }

    /// Frees the place of an empty object.
    fn free(&mut self, at: usize)
        requires held { Holds (bodies self.old) at }
        requires empty { entries_at (bodies self.old) at ≡ [] }
        ensures gone { bodies self.new ≡ fin.remove (bodies self.old) at }
        ensures same_kind { kind self.new ≡ kind self.old };
}

/// A boxed kind is the kind that it holds.
impl Kind for Box<dyn Kind> {
    ghost kind = { λ b. (Kind-box b).kind b.value };

    ghost bodies = { λ b. (Kind-box b).bodies b.value };

    #[inline(always)]
    fn code(&self) -> KindCode {
        (**self).code()
    }

    #[inline(always)]
    fn make(&mut self, parts: &[Entry]) -> Result<usize, AllocError> {
        (**self).make(parts)
    }

    #[inline(always)]
    fn len(&self, at: usize) -> usize {
        (**self).len(at)
    }

    #[inline(always)]
    fn entry_at(&self, at: usize, i: usize) -> Entry {
        (**self).entry_at(at, i)
    }

    #[inline(always)]
    fn get(&self, at: usize, i: usize) -> Option<Entry> {
        (**self).get(at, i)
    }

    #[inline(always)]
    fn note_from(&self, at: usize, from: usize, found: &mut [u64]) -> Noted {
        (**self).note_from(at, from, found)
    }

    #[inline(always)]
    fn find(&self, at: usize, key: Val) -> Option<usize> {
        (**self).find(at, key)
    }

    #[inline(always)]
    fn value_of(&self, at: usize, key: Val) -> Option<Val> {
        (**self).value_of(at, key)
    }

    #[inline(always)]
    fn put(&mut self, at: usize, key: Val, val: Val) -> Result<Option<Val>, AllocError> {
        (**self).put(at, key, val)
    }

    #[inline(always)]
    fn take(&mut self, at: usize, i: usize) -> Entry {
        (**self).take(at, i)
    }

    #[inline(always)]
    fn take_key(&mut self, at: usize, key: Val) -> Option<Entry> {
        (**self).take_key(at, key)
    }

    #[inline(always)]
    fn detach(&mut self, at: usize) -> Option<Entry> {
        (**self).detach(at)
    }

    #[inline(always)]
    fn reserve(&mut self, at: usize, n: usize) -> Result<(), AllocError> {
        (**self).reserve(at, n)
    }

    #[inline(always)]
    fn append_reserved(&mut self, at: usize, val: Val) {
        (**self).append_reserved(at, val)
    }

    #[inline(always)]
    fn append(&mut self, at: usize, val: Val) -> Result<(), AllocError> {
        (**self).append(at, val)
    }

    #[inline(always)]
    fn is_empty(&self) -> bool {
        (**self).is_empty()
    }

    #[inline(always)]
    fn free(&mut self, at: usize) {
        (**self).free(at)
    }
}
