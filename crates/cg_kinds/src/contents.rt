//! What one object holds.
ghost use Rattle.std.specs.Prelude.{◌≡◌, ◌≢◌, ◌<◌, ◌≤◌, ◌+◌, ◌-◌, ◌++◌, ◌∷◌, ◌↔◌, [], length, take, IfOk, OnOk, OnErr, IfSome, OnSome, IfNone, IsNone, IsSome, IsOk, Some, position, slice_get};
ghost use Rattle.cg_value.specs.declared.KindCode.{KindCode};
ghost use Rattle.cg_value.specs.declared.KindCode.TheVariants as code;
ghost use Rattle.cg_graph.specs.Value.{item, without_last, value_at, references, entry_at as entry_under};
ghost use Rattle.cg_kind.specs.Bodies.{Body, body_of};
ghost use Rattle.cg_kind.specs.Calls.{has_key, next_entries, IsParts, CanPut, value_under, after_put, after_take, after_take_key, spare_after_leave};

use cg_kind::{AT_ONCE, Noted, ROOM, note_entry};
use cg_value::{Entry, KindCode, Val};
use std::alloc::{AllocError, Global};

/// The contents of one object of a kind. Its calls are those of `cg_kind::Kind`, at one place.
pub trait Contents: Drop {
    ghost kind: { KindCode };

    ghost body: { Self → Body };

    fn code() -> KindCode
        ensures { result ≡ kind };

    fn make(alloc: Global, parts: &[Entry]) -> Result<Self, AllocError>
        requires { IsParts kind parts.now }
        ensures { IfOk result (λ made. (body made).entries ≡ parts.now) };

    fn len(&self) -> usize
        ensures { result ≡ length (body self.now).entries };

    fn entry_at(&self, i: usize) -> Entry
        requires { i < length (body self.now).entries }
        ensures { slice_get (body self.now).entries i ≡ Some result };

    #[inline(always)]
    fn get(&self, i: usize) -> Option<Entry>
        ensures { result ≡ slice_get (body self.now).entries i }
    {
        if i < self.len() {
            Some(self.entry_at(i))
        } else {
            None
        }
    }

    #[inline(always)]
    fn note_from(&self, from: usize, found: &mut [u64]) -> Noted
        requires within { from ≤ length (body self.now).entries }
        requires room { ROOM ≤ length found.old }
        ensures next { result.next ≡ from + length (next_entries (body self.now).entries from) }
        ensures references { take result.references found.new ≡
            references (next_entries (body self.now).entries from) }
        ensures few { result.references ≤ ROOM }
        ensures room { length found.new ≡ length found.old }
    {
        let next = from + AT_ONCE.min(self.len() - from);
        let mut references = 0;
        'entries: for i in from..next {
            references = note_entry(found, references, self.entry_at(i));
        }
        Noted { next, references }
    }

    fn find(&self, key: Val) -> Option<usize>
        ensures { result ≡ position (has_key key) (body self.now).entries };

    fn value_of(&self, key: Val) -> Option<Val>
        ensures { result ≡ value_at (body self.now).entries key }
    {
        match self.find(key) {
            Some(i) => Some(self.entry_at(i).val),
            None => None,
        }
    }

    fn put(&mut self, key: Val, val: Val) -> Result<Option<Val>, AllocError>
        requires { CanPut kind (body self.old).entries key }
        ensures ok { OnOk result (body self.new ≡
            body_of (after_put kind (body self.old).entries key val) (body self.old).spare) }
        ensures replaced { IfOk result (λ was. was ≡ value_under kind (body self.old).entries key) }
        ensures present { IsSome (value_under kind (body self.old).entries key) → IsOk result }
        ensures err { OnErr result (body self.new ≡ body self.old) };

    fn take(&mut self, i: usize) -> Entry
        requires { i < length (body self.old).entries }
        ensures entry { slice_get (body self.old).entries i ≡ Some result }
        ensures rest { body self.new ≡ body_of (after_take kind (body self.old).entries i)
            (spare_after_leave kind (body self.old).spare) };

    fn take_key(&mut self, key: Val) -> Option<Entry>
        ensures entry { result ≡ entry_under (body self.old).entries key }
        ensures rest { OnSome result (body self.new
            ≡ body_of (after_take_key kind (body self.old).entries key)
            (spare_after_leave kind (body self.old).spare)) }
        ensures none { IfNone result (body self.new ≡ body self.old) }
    {
        match self.find(key) {
            Some(i) => Some(self.take(i)),
            None => None,
        }
    }

    fn detach(&mut self) -> Option<Entry>
        ensures last { IfSome result (λ e. (body self.old).entries ≡
            without_last (body self.old).entries ++ e ∷ []) }
        ensures rest { OnSome result (body self.new ≡ body_of (without_last (body self.old).entries)
            (spare_after_leave kind (body self.old).spare)) }
        ensures empty { IsNone result ↔ ((body self.old).entries ≡ []) }
        ensures none { IfNone result (body self.new ≡ body self.old) };

    fn reserve(&mut self, n: usize) -> Result<(), AllocError>
        ensures ok { OnOk result (body self.new ≡ body_of (body self.old).entries
            (body self.new).spare) }
        ensures room { kind ≡ code.List → OnOk result (n ≤ (body self.new).spare) }
        ensures no_less { OnOk result ((body self.old).spare ≤ (body self.new).spare) }
        ensures err { OnErr result (body self.new ≡ body self.old) };

    fn append_reserved(&mut self, val: Val)
        requires { kind ≡ code.List → 0 < (body self.old).spare }
        ensures appends { kind ≡ code.List → body self.new ≡
            body_of ((body self.old).entries ++ item val ∷ []) ((body self.old).spare - 1) }
        ensures others { kind ≢ code.List → body self.new ≡ body self.old };

    #[inline(always)]
    fn append(&mut self, val: Val) -> Result<(), AllocError>
        ensures appends { kind ≡ code.List → OnOk result (body self.new ≡
            body_of ((body self.old).entries ++ item val ∷ []) (body self.new).spare) }
        ensures others { kind ≢ code.List → OnOk result (body self.new ≡
            body_of (body self.old).entries (body self.new).spare) }
        ensures err { OnErr result (body self.new ≡ body self.old) }
    {
        self.reserve(1)?;
        self.append_reserved(val);
        Ok(())
    }
}
