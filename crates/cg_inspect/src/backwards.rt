//! What refers to an object.
ghost use Rattle.std.specs.Prelude.{◌≡◌, ◌+◌, ◌≤◌, IfOk, filter, length};
ghost use Rattle.cg_graph.specs.Member.{includes};
ghost use Rattle.cg_graph.specs.Value.{references, entry_references};
ghost use Rattle.cg_graph.specs.Object.{serials};
ghost use Rattle.cg_graph.specs.Path.{refers_to};
ghost use Rattle.cg_graph.specs.Store.{IsLive, entries_of, objects_of};
ghost use Rattle.cg_inspect.specs.Inspection.{IsIdle, entry_number_in_all};

use crate::live::live_objects;
use cg_heap::{Heap, Steps};
use cg_kind::Kind;
use cg_value::{Entry, Val};
use std::alloc::{AllocError, Global};
use std::sync::ledger::Ledger;

/// Whether an entry holds the object, by its value or its key.
fn holds(entry: Entry, object: u64) -> bool
    ensures { result ≡ includes (entry_references entry) object }
{
    entry.val == Val::Ref(object) || entry.key == Val::Ref(object)
}

/// Whether an entry of a live object holds the other.
fn has_reference<B: Kind, L: Ledger>(
    heap: &Heap<B>,
    holder: u64,
    object: u64,
    steps: &mut Steps<L>,
) -> bool
    requires { IsLive heap.now holder }
    ensures found { result ≡ includes (references (entries_of heap.now holder)) object }
    ensures looks { steps.new ≤ steps.old + length (entries_of heap.now holder) }
{
    'entries: for i in 0..heap.len(holder) {
        if holds(heap.look(holder, i, steps), object) {
            return true;
        }
    }
    false
}

/// The objects that refer to an object, by rising serial, each once however often it refers. (`gc`
/// manual, `gc.get_referrers`; unlike there, untracked objects are included.)
///
/// No collection may be under way. Looks at each entry at most once. Answers `AllocError` only if
/// memory runs out.
pub fn referrers<B: Kind, L: Ledger>(
    alloc: Global,
    heap: &Heap<B>,
    object: u64,
    steps: &mut Steps<L>,
) -> Result<Vec<u64>, AllocError>
    requires { IsIdle heap.now }
    ensures listed { IfOk result (λ listed. listed.items
        ≡ serials (filter (refers_to object) (objects_of heap.now))) }
    ensures looks { steps.new ≤ steps.old + entry_number_in_all heap.now }
{
    let objects = live_objects(alloc, heap)?;
    let mut listed = Vec::new(alloc);
    'objects: for holder in objects.iter() {
        if has_reference(heap, *holder, object, steps) {
            listed.push(*holder)?;
        }
    }
    Ok(listed)
}
