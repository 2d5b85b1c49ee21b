//! The search for a path of holders.
ghost use Rattle.std.specs.Prelude.{◌+◌, ◌*◌, ◌≤◌, ◌<◌, ℕ, List, IfOk, length};
ghost use Rattle.cg_inspect.specs.Inspection.{IsIdle, IsReason, entry_number_in_all};
ghost use Rattle.cg_inspect.specs.Order.{IsFirst};
ghost use Rattle.cg_search.specs.Walks.{HaveTrails, IsPathBack};

use crate::live::live_objects;
use crate::reason::Why;
use crate::search::{Found, found_at, search};
use cg_heap::{Heap, Steps};
use cg_kind::Kind;
use std::alloc::{AllocError, Global};
use std::sync::ledger::Ledger;

/// The path that found the object at a place.
fn path_back(alloc: Global, found: &Found, last: usize) -> Result<Vec<u64>, AllocError>
    requires trails { (trails : List (List ℕ)) × HaveTrails found.now.entries trails }
    requires within { last < length found.now.entries }
    ensures { IfOk result (λ path. IsPathBack found.now.entries last path.items) }
{
    let mut path = Vec::new(alloc);
    let mut cursor = Some(last);
    'holders: while let Some(at) = cursor {
        let Some((object, holder)) = found_at(found, at) else {
            unreachable!();
        };
        path.push(object)?;
        cursor = holder;
    }
    path.reverse();
    Ok(path)
}

/// Why the object is alive, apart from one name that holds it: a shortest path of holders from an
/// object held by a root, which is a name, the garbage root or a hold from outside the heap.
/// `Unreachable` exactly if there is none. (Ours.)
///
/// Where something else than an entry and one name holds the object, the path is the object alone.
/// Of several shortest paths the first is told: the one from the object with the lowest serial, and
/// then, wherever they part, the one by the earliest reference.
///
/// No collection may be under way. Looks at each entry at most twice: to find what roots hold, and
/// in the search. Answers `AllocError` only if memory runs out.
pub fn why<B: Kind, L: Ledger>(
    alloc: Global,
    heap: &Heap<B>,
    object: u64,
    steps: &mut Steps<L>,
) -> Result<Why, AllocError>
    requires { IsIdle heap.now }
    ensures reason { IfOk result (IsReason heap.now object) }
    ensures first { IfOk result (IsFirst heap.now object) }
    ensures looks { steps.new ≤ steps.old + 2 * entry_number_in_all heap.now }
{
    let objects = live_objects(alloc, heap)?;
    let found = search(alloc, heap, &objects, object, steps)?;
    match found.get_index_of(&object) {
        Some(last) => Ok(Why::Path(path_back(alloc, &found, last)?)),
        None => Ok(Why::Unreachable),
    }
}
