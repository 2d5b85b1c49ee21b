//! Sets aside unreachable objects whose class has a legacy finalizer, and what is reachable from
//! them. (`gc` manual, `gc.garbage`; PEP 442, "legacy finalizers".)
ghost use Rattle.std.specs.Prelude.{◌≡◌, ◌+◌, ◌≤◌, length};
ghost use Rattle.cg_graph.specs.Value.{references};
ghost use Rattle.cg_graph.specs.Store.{IsLive, entries_of};
ghost use Rattle.cg_heap.specs.Calls.{IsLiveValue};
ghost use Rattle.cg_collect.specs.Ready.{IsEmptyAt};
ghost use Rattle.cg_collect.specs.Starting.{SetsLegacyAside, SetsFinalizedAside, Closes, SetsReferencesAside};
ghost use Rattle.cg_collect.specs.Looks.{entries_listed};
ghost use Rattle.cg_trial.specs.View.{targets};

use cg_arena::Near;
use cg_death::finalizers_of;
use cg_heap::{Heap, Steps};
use cg_kind::Kind;
use cg_script::Script;
use cg_value::{KindCode, Place, Val};
use std::sync::ledger::Ledger;

/// Sets aside the candidates with a legacy finalizer, and the candidates reachable from them.
pub fn set_legacy_aside<B: Kind, L: Ledger>(
    heap: &mut Heap<B>,
    script: &Script,
    steps: &mut Steps<L>,
)
    requires { IsEmptyAt heap.old Place.Legacy }
    ensures sets { SetsLegacyAside script.now heap.old heap.new }
    ensures looks { steps.new ≤ steps.old + entries_listed heap.new Place.Legacy }
{
    heap.sound();
    set_finalized_aside(heap, script);
    close(heap, steps);
}

/// Sets aside the candidates with a legacy finalizer.
fn set_finalized_aside<B: Kind>(heap: &mut Heap<B>, script: &Script)
    ensures { SetsFinalizedAside script.now heap.old heap.new }
{
    heap.sound();
    let mut near = Near::default();
    let mut next = heap.first_near(Place::Cand, &mut near);
    'objects: while let Some(object) = next {
        heap.sound();
        let here = near;
        next = heap.next_near(object, &mut near);
        if finalizers_of(heap, script, object).legacy.is_some() {
            heap.move_near(object, here, Place::Legacy);
        }
    }
    heap.sound();
}

/// Sets aside what is reachable from them: each object found goes to the end of the list, and is
/// visited in turn.
fn close<B: Kind, L: Ledger>(heap: &mut Heap<B>, steps: &mut Steps<L>)
    ensures closes { Closes heap.old heap.new }
    ensures looks { steps.new ≤ steps.old + entries_listed heap.new Place.Legacy }
{
    heap.sound();
    let mut next = heap.first(Place::Legacy);
    'objects: while let Some(object) = next {
        heap.sound();
        set_references_aside(heap, object, steps);
        heap.sound();
        next = heap.next(object);
    }
    heap.sound();
}

/// Sets aside the candidates among the references of an object.
fn set_references_aside<B: Kind, L: Ledger>(heap: &mut Heap<B>, object: u64, steps: &mut Steps<L>)
    requires { IsLive heap.old object }
    ensures sets { SetsReferencesAside (references (entries_of heap.old object)) heap.old heap.new }
    ensures looks { steps.new ≡ steps.old + length (entries_of heap.old object) }
{
    heap.sound();
    match heap.kind_of(object) {
        KindCode::List => set_aside_from_last(heap, object, steps),
        KindCode::Tuple => set_aside_from_last(heap, object, steps),
        _ => set_aside_from_first(heap, object, steps),
    }
}

/// The same, from the last entry to the first.
fn set_aside_from_last<B: Kind, L: Ledger>(heap: &mut Heap<B>, object: u64, steps: &mut Steps<L>)
    requires { IsLive heap.old object }
    ensures sets { SetsReferencesAside (references (entries_of heap.old object)) heap.old heap.new }
    ensures looks { steps.new ≡ steps.old + length (entries_of heap.old object) }
{
    heap.sound();
    let mut end = heap.len(object);
    'entries: while end > 0 {
        end -= 1;
        let entry = heap.look(object, end, steps);
        set_aside(heap, entry.val);
        set_aside(heap, entry.key);
    }
}

/// The same, from the first entry to the last.
fn set_aside_from_first<B: Kind, L: Ledger>(heap: &mut Heap<B>, object: u64, steps: &mut Steps<L>)
    requires { IsLive heap.old object }
    ensures sets { SetsReferencesAside (references (entries_of heap.old object)) heap.old heap.new }
    ensures looks { steps.new ≡ steps.old + length (entries_of heap.old object) }
{
    heap.sound();
    'entries: for i in 0..heap.len(object) {
        let entry = heap.look(object, i, steps);
        set_aside(heap, entry.val);
        set_aside(heap, entry.key);
    }
}

/// Sets aside a candidate.
fn set_aside<B: Kind>(heap: &mut Heap<B>, val: Val)
    requires { IsLiveValue heap.old val }
    ensures { SetsReferencesAside (targets val) heap.old heap.new }
{
    heap.sound();
    if let Val::Ref(object) = val {
        if heap.place_of(object) == Place::Cand {
            heap.move_to(object, Place::Legacy);
        }
    }
}
