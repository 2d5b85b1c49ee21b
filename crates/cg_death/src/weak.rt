//! The phases on weak references: they are cleared, and the callbacks of those that wait are
//! called.
ghost use Rattle.std.specs.Prelude.{◌≡◌, ◌<◌, ◌∷◌, [], Some, None, true, false, IfSome, IsSome, slice_get, option_map, option_and_then, if◌then◌else◌, is_some, unwrap_or};
ghost use Rattle.cg_script.specs.declared.Script.{Script};
ghost use Rattle.cg_value.specs.declared.Val.TheVariants as val_of;
ghost use Rattle.cg_graph.specs.Value.{item};
ghost use Rattle.cg_graph.specs.Object.{object_at};
ghost use Rattle.cg_graph.specs.Rows.{referent_in, waiting_in};
ghost use Rattle.cg_graph.specs.Store.{IsLive, entries_of, objects_of};
ghost use Rattle.cg_graph.specs.Changes.{held, rewritten};
ghost use Rattle.cg_machine.specs.declared.event.FrameSort.TheVariants as sort_of;
ghost use Rattle.cg_machine.specs.Weak.{weak_references_if, has_weak_references, callback_of};
ghost use Rattle.cg_machine.specs.Dying.{has_finalizers};
ghost use Rattle.cg_heap.specs.Calls.{HasFewHolds};
ghost use Rattle.cg_heap.specs.Weak.{cleared_weak};
ghost use Rattle.cg_death.specs.declared.phase.Phase.TheVariants as phase_of;
ghost use Rattle.cg_death.specs.Activities.{IsUnheld, HasHolds, AreNewer, HasCallback, HaveCallbacks};
ghost use Rattle.cg_death.specs.Turns.{TakesTurn};

use crate::finalizers::finalizers_of;
use crate::phase::{Phase, Turn};
use crate::release::{Release, give_up};
use cg_graph::reference_in;
use cg_heap::Heap;
use cg_kind::Kind;
use cg_machine::{Event, FrameSort, FrameSpec};
use cg_script::Script;
use cg_value::KindCode;

/// Clears the newest weak reference to a dying instance or function. One with a callback waits, and
/// is held.
pub fn clear_one<B: Kind>(object: u64, heap: &mut Heap<B>) -> Turn
    requires few { HasFewHolds heap.old }
    requires unheld { IsUnheld heap.old object }
    requires newer { AreNewer heap.old object }
    ensures { (script : Script) → TakesTurn script heap.old object phase_of.Clearing heap.new
        result }
{
    heap.sound();
    match newest_to_clear(object, heap) {
        None => Turn::to(Phase::Calling),
        Some(weak) => {
            lose_referent(weak, heap);
            Turn::tells(Event::Cleared(weak), Phase::Clearing)
        }
    }
}

/// The newest weak reference to an object of a kind that supports them: an instance or a function.
/// (`weakref` manual.)
#[inline(always)]
pub(crate) fn newest_to_clear<B: Kind>(object: u64, heap: &Heap<B>) -> Option<u64>
    requires { IsLive heap.now object }
    ensures newest { result ≡
        slice_get (weak_references_if has_weak_references (objects_of heap.now) object) 0 }
    ensures refers { IfSome result (λ w. referent_in heap.now.rows w ≡ Some object) }
    ensures live { IfSome result (λ w. IsLive heap.now w) }
{
    heap.sound();
    match heap.kind_of(object) {
        KindCode::Inst | KindCode::Func => heap.newest_of(object),
        _ => None,
    }
}

/// Clears a weak reference. One with a callback waits, and is held.
fn lose_referent<B: Kind>(weak: u64, heap: &mut Heap<B>)
    requires few { HasFewHolds heap.old }
    requires live { IsLive heap.old weak }
    requires refers { IsSome (referent_in heap.old.rows weak) }
    ensures { heap.new ≡ (if is_some (callback_of (objects_of heap.old) weak)
        then cleared_weak weak true (held (weak ∷ []) heap.old) else cleared_weak weak false
        heap.old) }
{
    if has_callback(weak, heap) {
        heap.hold(weak);
        heap.clear_weak(weak, true);
    } else {
        heap.clear_weak(weak, false);
    }
}

/// Whether a weak reference has a callback.
fn has_callback<B: Kind>(weak: u64, heap: &Heap<B>) -> bool
    requires { IsLive heap.now weak }
    ensures { result ≡ is_some (callback_of (objects_of heap.now) weak) }
{
    callback_of(heap, weak).is_some()
}

/// The callback of a weak reference, if it has one.
pub fn callback_of<B: Kind>(heap: &Heap<B>, weak: u64) -> Option<u64>
    requires { IsLive heap.now weak }
    ensures { result ≡ callback_of (objects_of heap.now) weak }
{
    if heap.len(weak) == 0 {
        return None;
    }
    reference_in(heap.entry_at(weak, 0).val)
}

/// Removes and calls the callback of the newest waiting weak reference; both are held.
pub fn call_one<B: Kind>(object: u64, heap: &mut Heap<B>) -> Turn
    requires few { HasFewHolds heap.old }
    requires live { IsLive heap.old object }
    requires callbacks { HaveCallbacks heap.old object }
    ensures { (script : Script) → TakesTurn script heap.old object phase_of.Calling heap.new
        result }
{
    match heap.newest_waiting(object) {
        None => Turn::to(Phase::LegacyFinalizer),
        Some(weak) => call_back(object, weak, heap),
    }
}

/// Calls the callback of a waiting weak reference.
fn call_back<B: Kind>(object: u64, weak: u64, heap: &mut Heap<B>) -> Turn
    requires few { HasFewHolds heap.old }
    requires callbacks { HaveCallbacks heap.old object }
    requires newest { slice_get (waiting_in heap.old.rows object) 0 ≡ Some weak }
    ensures { (script : Script) → TakesTurn script heap.old object phase_of.Calling heap.new
        result }
{
    heap.sound();
    let callback = take_callback(weak, heap);
    heap.forget_weak(weak);
    Turn::runs(
        callback_frame(heap, weak, callback),
        Phase::AfterCall { weak, callback },
    )
}

/// The frame of the callback of a weak reference.
pub fn callback_frame<B: Kind>(heap: &Heap<B>, weak: u64, callback: u64) -> FrameSpec
    requires { IsLive heap.now callback }
    ensures { result ≡ record {
      sort = sort_of.Callback;
      proc = unwrap_or (option_and_then (λ x. x.class) (object_at (objects_of heap.now) callback))
          0;
      subject = weak;
      func = Some callback;
    } }
{
    FrameSpec {
        sort: FrameSort::Callback,
        proc: heap.class_of(callback).unwrap_or(0),
        subject: weak,
        func: Some(callback),
    }
}

/// Removes the callback from a weak reference; it is then held from outside.
fn take_callback<B: Kind>(weak: u64, heap: &mut Heap<B>) -> u64
    requires few { HasFewHolds heap.old }
    requires live { IsLive heap.old weak }
    requires callback { HasCallback heap.old weak }
    ensures callback { entries_of heap.old weak ≡ item (val_of.Ref result) ∷ [] }
    ensures rest { heap.new ≡ held (result ∷ []) (rewritten weak [] heap.old) }
{
    let entry = heap.detach(weak).unwrap();
    reference_in(entry.val).unwrap()
}

/// After the frame of a callback: gives up the callback, and then the weak reference.
pub fn end_call<B: Kind>(object: u64, weak: u64, callback: u64, heap: &mut Heap<B>) -> Turn
    requires unheld { IsUnheld heap.old object }
    requires held { HasHolds heap.old (callback ∷ weak ∷ []) }
    ensures { (script : Script) → TakesTurn script heap.old object
        (phase_of.AfterCall weak callback) heap.new result }
{
    let answer = give_up(heap, callback);
    Turn {
        phase: Phase::Calling,
        release: Some(Release::of(weak)),
        answer,
    }
}

/// Clears the newest weak reference that the object's own frames made, without callback.
pub fn detach_one<B: Kind>(object: u64, heap: &mut Heap<B>, script: &Script) -> Turn
    requires { IsLive heap.old object }
    ensures { TakesTurn script.now heap.old object phase_of.Detaching heap.new result }
{
    heap.sound();
    match newest_to_detach(object, heap, script) {
        None => Turn::to(Phase::Emptying),
        Some(weak) => {
            heap.clear_weak(weak, false);
            Turn::tells(Event::Cleared(weak), Phase::Detaching)
        }
    }
}

/// The newest weak reference to an object whose class has a finalizer or a legacy finalizer.
fn newest_to_detach<B: Kind>(object: u64, heap: &Heap<B>, script: &Script) -> Option<u64>
    requires { IsLive heap.now object }
    ensures newest { result ≡
        slice_get (weak_references_if (has_finalizers script.now) (objects_of heap.now) object) 0 }
    ensures refers { IfSome result (λ w. referent_in heap.now.rows w ≡ Some object) }
    ensures live { IfSome result (λ w. IsLive heap.now w) }
{
    heap.sound();
    if has_finalizers(object, heap, script) {
        heap.newest_of(object)
    } else {
        None
    }
}

/// Whether the class of an object has a finalizer or a legacy finalizer.
fn has_finalizers<B: Kind>(object: u64, heap: &Heap<B>, script: &Script) -> bool
    requires { IsLive heap.now object }
    ensures { result ≡
        unwrap_or (option_map (has_finalizers script.now) (object_at (objects_of heap.now) object))
        false }
{
    let finalizers = finalizers_of(heap, script, object);
    finalizers.del.is_some() || finalizers.legacy.is_some()
}
