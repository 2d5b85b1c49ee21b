//! A search by breadth: what is held otherwise comes first, and then what it leads to, the nearest
//! first.
ghost use Rattle.std.specs.Prelude.{◌≡◌, ◌+◌, ◌*◌, ◌≤◌, ◌∷◌, [], Some, IfOk, OnOk, length, slice_get};
ghost use Rattle.cg_graph.specs.Object.{serials};
ghost use Rattle.cg_graph.specs.Store.{objects_of};
ghost use Rattle.cg_inspect.specs.Inspection.{HeldElse, arrows_of, entry_number_in_all};
ghost use Rattle.cg_inspect.specs.Order.{references_by};
ghost use Rattle.cg_inspect.specs.Findings.{FindsInOrder, AreInOrder};
ghost use Rattle.cg_search.specs.Walks.{IsOver};

use crate::forwards::referents;
use crate::holders::held_else;
use cg_heap::{Heap, Steps};
use cg_kind::Kind;
use cg_serial::SerialHashing;
use indexmap::IndexMap;
use std::alloc::{AllocError, Global};
use std::sync::ledger::Ledger;

/// The objects found, in order, each with the position of its holder among them; None for one held
/// by a root.
pub type Found = IndexMap<u64, Option<usize>, SerialHashing>;

/// Adds the object if it is new.
pub fn find(found: &mut Found, object: u64, holder: Option<usize>) -> Result<(), AllocError>
    ensures { OnOk result (FindsInOrder found.old.entries (object ∷ []) holder found.new.entries) }
{
    if !found.contains_key(&object) {
        found.insert(object, holder)?;
    }
    Ok(())
}

/// Adds those of the references that were not found before, in their order.
fn find_all(found: &mut Found, references: &[u64], holder: usize) -> Result<(), AllocError>
    ensures { OnOk result (FindsInOrder found.old.entries references.now (Some holder)
        found.new.entries) }
{
    'references: for object in references.iter() {
        find(found, *object, Some(holder))?;
    }
    Ok(())
}

/// The object found at a position, and the position of its holder.
pub fn found_at(found: &Found, at: usize) -> Option<(u64, Option<usize>)>
    ensures { result ≡ slice_get found.now.entries at }
{
    match found.get_index(at) {
        Some((object, holder)) => Some((*object, *holder)),
        None => None,
    }
}

/// Finds what is held by a root, and than by the name that is asked about, which holds the object;
/// and all that it leads to, in order. The objects are all live ones.
pub fn search<B: Kind, L: Ledger>(
    alloc: Global,
    heap: &Heap<B>,
    objects: &[u64],
    object: u64,
    steps: &mut Steps<L>,
) -> Result<Found, AllocError>
    requires { objects.now ≡ serials (objects_of heap.now) }
    ensures looks { steps.new ≤ steps.old + 2 * entry_number_in_all heap.now }
    ensures found { IfOk result (λ found. IsOver (HeldElse heap.now object) (arrows_of heap.now)
        found.entries) }
    ensures order { IfOk result (λ found. AreInOrder (references_by heap.now) found.entries
        (length found.entries)) }
{
    heap.sound();
    let mut found = held_else(alloc, heap, objects, object, steps)?;
    let mut at = 0;
    'turns: while let Some((holder, _)) = found_at(&found, at) {
        let references = referents(alloc, heap, holder, steps)?;
        find_all(&mut found, &references, at)?;
        at += 1;
    }
    Ok(found)
}
