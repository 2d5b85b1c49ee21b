//! What an object refers to.
ghost use Rattle.std.specs.Prelude.{◌≡◌, ◌+◌, ◌≤◌, ◌++◌, IfOk, OnOk, Some, length};
ghost use Rattle.cg_graph.specs.Value.{references, references_of_value};
ghost use Rattle.cg_graph.specs.Store.{IsLive, entries_of};

use cg_heap::{Heap, Steps};
use cg_kind::Kind;
use cg_value::Val;
use std::alloc::{AllocError, Global};
use std::sync::ledger::Ledger;

/// Appends the object that a value refers to, if any.
fn push_reference(listed: &mut Vec<u64>, value: Val) -> Result<(), AllocError>
    ensures { OnOk result (listed.new.items ≡ listed.old.items
        ++ references_of_value (Some value)) }
{
    if let Val::Ref(object) = value {
        listed.push(object)?;
    }
    Ok(())
}

/// The objects that a live object refers to, in entry order, with the value before the key in each
/// entry; an object that occurs twice is listed twice. (`gc` manual, `gc.get_referents`.)
///
/// Looks at each entry once. Answers `AllocError` only if memory runs out.
pub fn referents<B: Kind, L: Ledger>(
    alloc: Global,
    heap: &Heap<B>,
    object: u64,
    steps: &mut Steps<L>,
) -> Result<Vec<u64>, AllocError>
    requires { IsLive heap.now object }
    ensures listed { IfOk result (λ listed. listed.items
        ≡ references (entries_of heap.now object)) }
    ensures looks { steps.new ≤ steps.old + length (entries_of heap.now object) }
{
    let mut listed = Vec::new(alloc);
    'entries: for i in 0..heap.len(object) {
        let entry = heap.look(object, i, steps);
        push_reference(&mut listed, entry.val)?;
        push_reference(&mut listed, entry.key)?;
    }
    Ok(listed)
}
