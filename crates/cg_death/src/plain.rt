//! Deaths that call nothing.
ghost use Rattle.std.specs.Prelude.{◌≡◌, true, None, option_and_then, slice_get};
ghost use Rattle.cg_graph.specs.Object.{object_at};
ghost use Rattle.cg_graph.specs.Store.{IsLive, objects_of};
ghost use Rattle.cg_machine.specs.Program.{finalizer_of, legacy_of};
ghost use Rattle.cg_machine.specs.Weak.{has_weak_references, weak_references_if};

use crate::finalizers::finalizers_of;
use crate::weak::newest_to_clear;
use cg_heap::Heap;
use cg_kind::Kind;
use cg_script::Script;

/// Whether an object's class has no finalizer of either kind, and no weak reference to it is left.
/// Its death then goes straight to the contents, as most do.
#[inline(always)]
pub fn is_plain<B: Kind>(object: u64, heap: &Heap<B>, script: &Script) -> bool
    requires { IsLive heap.now object }
    ensures del { result ≡ true → option_and_then (finalizer_of script.now)
        (object_at (objects_of heap.now) object) ≡ None }
    ensures legacy { result ≡ true → option_and_then (legacy_of script.now)
        (object_at (objects_of heap.now) object) ≡ None }
    ensures weak { result ≡ true → slice_get (weak_references_if has_weak_references
        (objects_of heap.now) object) 0 ≡ None }
{
    let finalizers = finalizers_of(heap, script, object);
    match (finalizers.del, finalizers.legacy) {
        (None, None) => newest_to_clear(object, heap).is_none(),
        _ => false,
    }
}
