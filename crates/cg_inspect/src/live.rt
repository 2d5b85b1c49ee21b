//! All live objects.
ghost use Rattle.std.specs.Prelude.{◌≡◌, ◌++◌, IfOk, OnOk};
ghost use Rattle.cg_graph.specs.Object.{serials};
ghost use Rattle.cg_graph.specs.Store.{list_at, objects_of};
ghost use Rattle.cg_arena.specs.Nodes.{IsPlace};
ghost use Rattle.cg_inspect.specs.Inspection.{IsIdle, idle_lists};

use cg_arena::Near;
use cg_heap::Heap;
use cg_kind::Kind;
use cg_value::Place;
use std::alloc::{AllocError, Global};

/// Appends the objects of a place, in order.
fn append_place<B: Kind>(
    objects: &mut Vec<u64>,
    heap: &Heap<B>,
    place: Place,
) -> Result<(), AllocError>
    requires { IsPlace place }
    ensures { OnOk result (objects.new.items ≡ objects.old.items ++ list_at heap.now place) }
{
    heap.sound();
    let mut near = Near::default();
    let mut cursor = heap.first_near(place, &mut near);
    'objects: while let Some(object) = cursor {
        objects.push(object)?;
        cursor = heap.next_near(object, &mut near);
    }
    Ok(())
}

/// The objects of the places that may be occupied while no collection is under way.
fn placed_objects<B: Kind>(alloc: Global, heap: &Heap<B>) -> Result<Vec<u64>, AllocError>
    ensures { IfOk result (λ objects. objects.items ≡ idle_lists heap.now) }
{
    let mut objects = Vec::new(alloc);
    append_place(&mut objects, heap, Place::Untracked)?;
    append_place(&mut objects, heap, Place::Gen(0))?;
    append_place(&mut objects, heap, Place::Gen(1))?;
    append_place(&mut objects, heap, Place::Gen(2))?;
    append_place(&mut objects, heap, Place::Frozen)?;
    Ok(objects)
}

/// The serials of all live objects, rising.
pub fn live_objects<B: Kind>(alloc: Global, heap: &Heap<B>) -> Result<Vec<u64>, AllocError>
    requires { IsIdle heap.now }
    ensures { IfOk result (λ objects. objects.items ≡ serials (objects_of heap.now)) }
{
    heap.sound();
    let mut objects = placed_objects(alloc, heap)?;
    objects.sort_unstable();
    Ok(objects)
}
