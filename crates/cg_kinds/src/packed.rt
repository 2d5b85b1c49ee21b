//! Values in plain words, as lists store a few of them.
ghost use Rattle.std.specs.Prelude.{◌≡◌, IfOk, map};
ghost use Rattle.cg_value.specs.declared.Val.{Val};
ghost use Rattle.cg_graph.specs.Value.{item, reference_in};
ghost use Rattle.cg_kind.specs.Calls.{AreItems};
ghost use Rattle.cg_kinds.specs.Values.{value_in, AreWords};

use crate::kept::KeepsEntry;
use crate::values::reference_of;
use cg_kind::note_reference;
use cg_value::{Entry, Val};
use std::alloc::{AllocError, Global};
use std::marker::Model;

/// A value in two 64-bit words: its sort and its number.
///
/// There is no padding between or after them, so a run of values moves as one run of bytes. A `Val`
/// has padding, and a run of those moves field by field.
#[derive(Drop)]
pub struct Packed {
    sort: u64,
    number: u64,
}

impl Model for Packed {
    ghost Value = { Val };

    ghost view = { λ p. value_in p.sort p.number };

    ghost invariant = { λ p. AreWords p.sort p.number };
}

impl Packed {
    /// Packs a value.
    #[inline(always)]
    pub fn new(val: Val) -> Packed
        ensures { result ≡ val }
    {
        match val {
            Val::None => Packed { sort: 0, number: 0 },
            Val::Int(number) => Packed {
                sort: 1,
                number: number.cast_unsigned(),
            },
            Val::Str(name) => Packed {
                sort: 2,
                number: name as u64,
            },
            Val::Ref(serial) => Packed {
                sort: 3,
                number: serial,
            },
        }
    }

    /// The value.
    #[inline(always)]
    pub fn val(&self) -> Val
        ensures { result ≡ self.now }
    {
        match self.sort {
            0 => Val::None,
            1 => Val::Int(self.number.cast_signed()),
            2 => Val::Str(self.number as u32),
            _ => Val::Ref(self.number),
        }
    }

    /// The serial of a reference.
    #[inline(always)]
    fn reference(&self) -> Option<u64>
        ensures { result ≡ reference_in self.now }
    {
        reference_of(self.sort, self.number)
    }
}

impl KeepsEntry for Packed {
    ghost kept = { item };

    #[inline(always)]
    fn note(&self, found: &mut [u64], count: usize) -> usize {
        note_reference(found, count, self.reference())
    }
}

/// The values of items, in order.
pub fn packed_values_of(alloc: Global, parts: &[Entry]) -> Result<Vec<Packed>, AllocError>
    requires { AreItems parts.now }
    ensures { IfOk result (λ values. map item values.items ≡ parts.now) }
{
    let mut values = Vec::with_capacity(alloc, parts.len())?;
    for part in parts {
        values.push(Packed::new(part.val))?;
    }
    Ok(values)
}
