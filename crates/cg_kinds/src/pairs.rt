//! Dictionaries and instances, which differ only in their code.
ghost use Rattle.std.specs.Prelude.{◌≡◌};
ghost use Rattle.cg_value.specs.declared.KindCode.{KindCode};
ghost use Rattle.cg_value.specs.declared.KindCode.TheVariants as code;
ghost use Rattle.cg_kinds.specs.Pairs.{IsKeyed};
ghost use Rattle.cg_kinds.specs.Held.{entries_held};

use crate::body_slab::BodySlab;
use crate::contents::Contents;
use crate::held::Held;
use cg_kind::Noted;
use cg_value::{Entry, KindCode, Val};
use std::alloc::{AllocError, Global};
use std::marker::PhantomData;

/// Dictionaries, each by its keys and values.
pub type DictKind = BodySlab<Pairs<Dictionary>>;

/// Instances of classes, each by its attributes.
pub type InstKind = BodySlab<Pairs<Instance>>;

/// A kind whose objects hold values under keys.
pub trait Keyed: Drop {
    ghost kind: { KindCode };

    fn code() -> KindCode
        ensures { result ≡ kind };

    ghost keyed: { IsKeyed kind };
}

/// Marks dictionaries.
#[derive(Drop)]
pub struct Dictionary;

impl Keyed for Dictionary {
    ghost use Rattle.std.specs.Prelude.{refl};
    ghost use Rattle.std.proofs.Common.{inl};

    ghost kind = { code.Dict };

    ghost keyed = { inl refl };

    fn code() -> KindCode {
        KindCode::Dict
    }
}

/// Marks instances.
#[derive(Drop)]
pub struct Instance;

impl Keyed for Instance {
    ghost use Rattle.std.specs.Prelude.{refl};
    ghost use Rattle.std.proofs.Common.{inr};

    ghost kind = { code.Inst };

    ghost keyed = { inr refl };

    fn code() -> KindCode {
        KindCode::Inst
    }
}

/// Keys and their values, in insertion order.
#[derive(Drop)]
pub struct Pairs<K> {
    held: Held,
    of: PhantomData<K>,
}

impl<K: Keyed> Contents for Pairs<K> {
    ghost use Rattle.cg_kind.specs.Bodies.{body_of};

    ghost kind = { K.kind };

    ghost body = { λ p. body_of (entries_held p.held) 0 };

    fn code() -> KindCode {
        K::code()
    }

    fn make(alloc: Global, parts: &[Entry]) -> Result<Self, AllocError> {
        let _ = parts;
        Ok(Pairs {
            held: Held::new(alloc),
            of: PhantomData,
        })
    }

    fn len(&self) -> usize {
        self.held.len()
    }

    fn entry_at(&self, i: usize) -> Entry {
        self.held.entry_at(i)
    }

    fn note_from(&self, from: usize, found: &mut [u64]) -> Noted {
        self.held.note_from(from, found)
    }

    fn find(&self, key: Val) -> Option<usize> {
        self.held.find(key)
    }

    fn value_of(&self, key: Val) -> Option<Val> {
        self.held.value_of(key)
    }

    fn put(&mut self, key: Val, val: Val) -> Result<Option<Val>, AllocError> {
        let replaced = self.held.put(key, val)?;
        Ok(replaced)
    }

    fn take(&mut self, i: usize) -> Entry {
        self.held.take(i)
    }

    fn take_key(&mut self, key: Val) -> Option<Entry> {
        self.held.take_key(key)
    }

    fn detach(&mut self) -> Option<Entry> {
        self.held.detach()
    }

    fn reserve(&mut self, n: usize) -> Result<(), AllocError> {
        let _ = n;
        Ok(())
    }

    fn append_reserved(&mut self, val: Val) {
        let _ = val;
    }
}
