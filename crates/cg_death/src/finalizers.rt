//! The phases that call finalizers: the class of an object, and its frames.
ghost use Rattle.std.specs.Prelude.{◌≡◌, ◌<◌, ◌∷◌, [], option_and_then, slice_get, if◌then◌else◌, IsTrue, ◌↔◌};
ghost use Rattle.cg_value.specs.declared.Place.TheVariants as place_of;
ghost use Rattle.cg_graph.specs.Object.{object_at};
ghost use Rattle.cg_graph.specs.Store.{IsLive, outside_of, count_of, objects_of};
ghost use Rattle.cg_graph.specs.Changes.{unheld, held, moved};
ghost use Rattle.cg_machine.specs.Program.{classes, finalizer_of, legacy_of};
ghost use Rattle.cg_machine.specs.Dying.{finalizer_to_run};
ghost use Rattle.cg_script.specs.declared.Script.{Script};
ghost use Rattle.cg_heap.specs.Calls.{HasFewHolds};
ghost use Rattle.cg_death.specs.declared.phase.Phase.TheVariants as phase_of;
ghost use Rattle.cg_death.specs.Activities.{IsUnheld};
ghost use Rattle.cg_death.specs.Turns.{TakesTurn};

use crate::phase::{Phase, Turn};
use crate::plain::is_plain;
use cg_heap::Heap;
use cg_kind::Kind;
use cg_machine::{Event, FrameSort, FrameSpec};
use cg_script::{Items, Script};
use cg_value::{KindCode, Place};

/// The procedures of a class that are called when an instance dies.
#[derive(Clone, Copy, Drop)]
pub struct Finalizers {
    pub del: Option<u32>,
    pub legacy: Option<u32>,
}

/// The finalizers of an object without a class: none.
const NO_FINALIZERS: Finalizers = Finalizers {
    del: None,
    legacy: None,
};

/// The finalizers of the class with this number; none if there is no such class.
#[inline(never)]
fn finalizers_in(items: &Items, class: u32) -> Finalizers
    ensures del { result.del ≡ option_and_then (λ c. c.del) (slice_get (classes items.now) class) }
    ensures legacy { result.legacy ≡ option_and_then (λ c. c.legacy) (slice_get (classes items.now)
        class) }
{
    match items.class(class) {
        Some(def) => Finalizers {
            del: def.del,
            legacy: def.legacy,
        },
        None => NO_FINALIZERS,
    }
}

/// The finalizers of an object's class. Only instances have one.
#[inline(always)]
pub fn finalizers_of<B: Kind>(heap: &Heap<B>, script: &Script, object: u64) -> Finalizers
    requires { IsLive heap.now object }
    ensures del { result.del ≡
        option_and_then (finalizer_of script.now) (object_at (objects_of heap.now) object) }
    ensures legacy { result.legacy ≡
        option_and_then (legacy_of script.now) (object_at (objects_of heap.now) object) }
{
    match heap.kind_of(object) {
        KindCode::Inst => match heap.class_of(object) {
            Some(class) => finalizers_in(&script.items, class),
            None => NO_FINALIZERS,
        },
        _ => NO_FINALIZERS,
    }
}

/// The finalizer of an object if it has not run. (PEP 442: a finalizer is called once.)
#[inline(always)]
pub fn finalizer_to_run<B: Kind>(heap: &Heap<B>, script: &Script, object: u64) -> Option<u32>
    requires { IsLive heap.now object }
    ensures { result ≡
        option_and_then (finalizer_to_run script.now) (object_at (objects_of heap.now) object) }
{
    // Most classes have no finalizer, so the mark is looked up last.
    let proc = finalizers_of(heap, script, object).del?;
    if heap.is_finalized(object) {
        None
    } else {
        Some(proc)
    }
}

/// Runs the finalizer if it has not run: the object is tracked in generation 0, marked, and held
/// for its frame. If the death has nothing else to call either, it goes straight to the contents.
pub fn run_finalizer<B: Kind>(object: u64, heap: &mut Heap<B>, script: &Script) -> Turn
    requires few { HasFewHolds heap.old }
    requires unheld { IsUnheld heap.old object }
    ensures { TakesTurn script.now heap.old object phase_of.Finalizer heap.new result }
{
    if is_plain(object, heap, script) {
        heap.sound();
        return Turn::to(Phase::Emptying);
    }
    match finalizer_to_run(heap, script, object) {
        None => Turn::to(Phase::Clearing),
        Some(proc) => {
            heap.move_to(object, Place::Gen(0));
            heap.set_finalized(object);
            heap.hold(object);
            Turn::runs(
                finalizer_frame(FrameSort::Del, proc, object),
                Phase::AfterFinalizer,
            )
        }
    }
}

/// Runs the legacy finalizer: the object is tracked in generation 0, and held for its frame.
pub fn run_legacy<B: Kind>(object: u64, heap: &mut Heap<B>, script: &Script) -> Turn
    requires few { HasFewHolds heap.old }
    requires unheld { IsUnheld heap.old object }
    ensures { TakesTurn script.now heap.old object phase_of.LegacyFinalizer heap.new result }
{
    match finalizers_of(heap, script, object).legacy {
        None => Turn::to(Phase::Detaching),
        Some(proc) => {
            heap.move_to(object, Place::Gen(0));
            heap.hold(object);
            Turn::runs(
                finalizer_frame(FrameSort::Legacy, proc, object),
                Phase::AfterLegacy,
            )
        }
    }
}

/// The frame of a finalizer or a legacy finalizer.
pub fn finalizer_frame(sort: FrameSort, proc: u32, object: u64) -> FrameSpec
    ensures { result ≡ record { sort = sort; proc = proc; subject = object; func = None } }
{
    FrameSpec {
        sort,
        proc,
        subject: object,
        func: None,
    }
}

/// Gives up the hold of the object's own frame. If it is still held, it was resurrected and its
/// death is over; else it is untracked again and the death goes on.
pub fn end_finalizer<B: Kind>(object: u64, heap: &mut Heap<B>) -> Turn
    requires { 0 < outside_of heap.old object }
    ensures { (script : Script) → TakesTurn script heap.old object phase_of.AfterFinalizer heap.new
        result }
{
    if is_unheld_now(object, heap) {
        Turn::to(Phase::Clearing)
    } else {
        Turn::tells(Event::Alive(object), Phase::Over)
    }
}

/// The same after the frame of a legacy finalizer.
pub fn end_legacy<B: Kind>(object: u64, heap: &mut Heap<B>) -> Turn
    requires { 0 < outside_of heap.old object }
    ensures { (script : Script) → TakesTurn script heap.old object phase_of.AfterLegacy heap.new
        result }
{
    if is_unheld_now(object, heap) {
        Turn::to(Phase::Detaching)
    } else {
        Turn::tells(Event::Alive(object), Phase::Over)
    }
}

/// Gives up the hold of an object's own frame. If nothing else holds it, it is untracked.
fn is_unheld_now<B: Kind>(object: u64, heap: &mut Heap<B>) -> bool
    requires { 0 < outside_of heap.old object }
    ensures rest { heap.new ≡ (if result then moved object place_of.Untracked
        (unheld (object ∷ []) heap.old)
        else unheld (object ∷ []) heap.old) }
    ensures answer { IsTrue result ↔ (count_of (unheld (object ∷ []) heap.old) object ≡ 0) }
{
    if heap.unhold(object) {
        heap.move_to(object, Place::Untracked);
        true
    } else {
        false
    }
}
