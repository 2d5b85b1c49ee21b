//! Items: entries without keys, as lists, tuples, functions and weak references store them.
ghost use Rattle.std.specs.Prelude.{◌≡◌, IfOk, map, length, position, List};
ghost use Rattle.cg_value.specs.declared.Val.{Val};
ghost use Rattle.cg_graph.specs.Value.{item};
ghost use Rattle.cg_kind.specs.Calls.{has_key, AreItems};

use cg_value::{Entry, Val};
use std::alloc::{AllocError, Global};

/// The entry of a value without a key.
#[inline(always)]
pub fn item_of(val: Val) -> Entry
    ensures { result ≡ item val }
{
    Entry {
        key: Val::None,
        val,
    }
}

/// The values of items, in order.
pub fn values_of(alloc: Global, parts: &[Entry]) -> Result<Vec<Val>, AllocError>
    requires { AreItems parts.now }
    ensures { IfOk result (λ values. map item values.items ≡ parts.now) }
{
    let mut values = Vec::with_capacity(alloc, parts.len())?;
    for part in parts {
        values.push(part.val)?;
    }
    Ok(values)
}

/// The first position of a key among items, whose keys are `None`, given how many there are.
pub fn find_item(count: usize, key: Val) -> Option<usize>
    ensures { (values : List Val) → length values ≡ count → result ≡ position (has_key key)
        (map item values) }
{
    if count > 0 && key == Val::None {
        Some(0)
    } else {
        None
    }
}
