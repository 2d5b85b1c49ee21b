//! The weak phase: clears weak references to and of condemned objects, and calls the callbacks of
//! those that are not condemned. (PEP 442; `weakref` manual.)
ghost use Rattle.std.specs.Prelude.{◌≡◌, ◌+◌, ◌≤◌, ◌∷◌, [], ◌==◌, ◌||◌, not, Some, None, IsSome, true, false, is_some, slice_get, unwrap_or, option_and_then, if◌then◌else◌};
ghost use Rattle.cg_value.specs.declared.Place.TheVariants as place_of;
ghost use Rattle.cg_script.specs.declared.Script.{Script as AnyScript};
ghost use Rattle.cg_policy.specs.Policy.{Policy as Standing};
ghost use Rattle.cg_graph.specs.Object.{object_at};
ghost use Rattle.cg_graph.specs.Rows.{referent_in, weak_references_in};
ghost use Rattle.cg_graph.specs.Store.{Store, IsLive, objects_of};
ghost use Rattle.cg_graph.specs.Changes.{held, moved};
ghost use Rattle.cg_heap.specs.Calls.{HasFewHolds};
ghost use Rattle.cg_heap.specs.Weak.{cleared_weak};
ghost use Rattle.cg_machine.specs.declared.event.FrameSort.TheVariants as sort_of;
ghost use Rattle.cg_machine.specs.Weak.{callback_of};
ghost use Rattle.cg_machine.specs.Program.{profile_of};
ghost use Rattle.cg_machine.specs.Collect.{is_condemned_in, waits};
ghost use Rattle.cg_collect.specs.declared.collection.Facts.{Facts as AnyFacts};
ghost use Rattle.cg_collect.specs.declared.phase.Phase.TheVariants as phase_of;
ghost use Rattle.cg_collect.specs.Ready.{IsReadyForCollectionAt, IsWalk, loses_alone, loses_at, looked_at_for};
ghost use Rattle.cg_collect.specs.Turns.{TakesTurn};
ghost use Rattle.cg_collect.specs.Looks.{looks_left, most_looks};

use crate::answer::CollectStep;
use crate::collection::Facts;
use crate::phase::{Phase, Turn, older};
use cg_death::{Release, callback_frame};
use cg_graph::reference_in;
use cg_heap::{Heap, Steps};
use cg_kind::Kind;
use cg_machine::{Event, FrameSpec};
use cg_value::Place;
use std::sync::ledger::Ledger;

/// Visits the next weak reference of the walk, or the next condemned object.
///
/// For each condemned object all weak references to it are looked at, from the newest on; for a
/// weak reference that is condemned and is to lose a referent that is not, all to its referent. So
/// each list is walked once or twice, and callbacks come in the order of the condemned objects, as
/// in CPython.
pub fn clear_one<B: Kind, L: Ledger>(
    heap: &mut Heap<B>,
    profile: u8,
    member: Option<u64>,
    weak: Option<u64>,
    steps: &mut Steps<L>,
) -> Turn
    requires ready { IsReadyForCollectionAt heap.old 0 (phase_of.WeakClearing member weak) }
    requires walk { IsWalk profile heap.old member weak }
    requires few { HasFewHolds heap.old }
    ensures takes { (script : AnyScript) → profile_of script.items ≡ profile
        → (facts : AnyFacts) (policy : Standing) → TakesTurn script facts
        (phase_of.WeakClearing member weak) heap.old policy heap.new policy result }
    ensures looks { steps.new + looks_left (phase_of.WeakClearing member weak) result.phase heap.new
        ≤ steps.old + most_looks 0 (phase_of.WeakClearing member weak) heap.old }
{
    match weak {
        Some(weak) => look_at(heap, profile, member, weak, steps),
        None => next_member(heap, profile, member, steps),
    }
}

/// Clears a weak reference, if it is to be cleared.
fn look_at<B: Kind, L: Ledger>(
    heap: &mut Heap<B>,
    profile: u8,
    member: Option<u64>,
    weak: u64,
    steps: &mut Steps<L>,
) -> Turn
    requires ready { IsReadyForCollectionAt heap.old 0 (phase_of.WeakClearing member (Some weak)) }
    requires walk { IsWalk profile heap.old member (Some weak) }
    requires few { HasFewHolds heap.old }
    ensures takes { (script : AnyScript) → profile_of script.items ≡ profile
        → (facts : AnyFacts) (policy : Standing) → TakesTurn script facts
        (phase_of.WeakClearing member (Some weak)) heap.old policy heap.new policy result }
    ensures looks { steps.new + looks_left (phase_of.WeakClearing member (Some weak)) result.phase
        heap.new ≤ steps.old + most_looks 0 (phase_of.WeakClearing member (Some weak)) heap.old }
{
    heap.sound();
    let phase = Phase::WeakClearing {
        member,
        weak: heap.older_looking(weak, steps),
    };
    if loses(heap, profile, weak, steps) {
        lose(heap, weak, steps);
        heap.sound();
        Turn::tells(Event::Cleared(weak), phase)
    } else {
        Turn::to(phase)
    }
}

/// Whether a weak reference is to be cleared: it has a referent, and one of the two is condemned.
fn loses<B: Kind, L: Ledger>(heap: &Heap<B>, profile: u8, weak: u64, steps: &mut Steps<L>) -> bool
    requires { IsLive heap.now weak }
    ensures loses { result ≡ loses_at profile heap.now weak }
    ensures looks { steps.new ≤ steps.old + 2 }
{
    heap.sound();
    match heap.referent_looking(weak, steps) {
        Some(referent) => {
            is_lost_early(heap, profile, weak, steps)
                && (is_condemned(heap, referent) || is_condemned(heap, weak))
        }
        None => false,
    }
}

/// Whether a weak reference is cleared before the finalizers run. In profile 2, one without a
/// callback keeps its referent for them.
fn is_lost_early<B: Kind, L: Ledger>(
    heap: &Heap<B>,
    profile: u8,
    weak: u64,
    steps: &mut Steps<L>,
) -> bool
    requires { IsLive heap.now weak }
    ensures early { result ≡ not (profile == 2)
        || is_some (callback_of (objects_of heap.now) weak) }
    ensures looks { steps.new ≤ steps.old + 1 }
{
    profile != 2 || callback_looking(heap, weak, steps).is_some()
}

/// The callback of a weak reference, if it has one; this looks at its entry.
fn callback_looking<B: Kind, L: Ledger>(
    heap: &Heap<B>,
    weak: u64,
    steps: &mut Steps<L>,
) -> Option<u64>
    requires { IsLive heap.now weak }
    ensures callback { result ≡ callback_of (objects_of heap.now) weak }
    ensures looks { steps.new ≤ steps.old + 1 }
{
    if heap.len(weak) == 0 {
        return None;
    }
    reference_in(heap.look(weak, 0, steps).val)
}

/// Whether an object is condemned.
fn is_condemned<B: Kind>(heap: &Heap<B>, object: u64) -> bool
    requires { IsLive heap.now object }
    ensures { result ≡ is_condemned_in (objects_of heap.now) object }
{
    match heap.place_of(object) {
        Place::Cand => true,
        Place::Seen => true,
        _ => false,
    }
}

/// Clears a weak reference. One that is not condemned and has a callback waits, and is held.
fn lose<B: Kind, L: Ledger>(heap: &mut Heap<B>, weak: u64, steps: &mut Steps<L>)
    requires few { HasFewHolds heap.old }
    requires live { IsLive heap.old weak }
    requires refers { IsSome (referent_in heap.old.rows weak) }
    ensures heap { heap.new ≡ (if waits (objects_of heap.old) weak
        then moved weak place_of.Pend (held (weak ∷ []) (cleared_weak weak false heap.old)) else
        cleared_weak weak false heap.old) }
    ensures looks { steps.new ≤ steps.old + 1 }
{
    let waits = waits(heap, weak, steps);
    heap.clear_weak(weak, false);
    if waits {
        heap.hold(weak);
        heap.move_to(weak, Place::Pend);
    }
}

/// Whether a weak reference waits for its callback after it is cleared.
fn waits<B: Kind, L: Ledger>(heap: &Heap<B>, weak: u64, steps: &mut Steps<L>) -> bool
    requires { IsLive heap.now weak }
    ensures waits { result ≡ waits (objects_of heap.now) weak }
    ensures looks { steps.new ≤ steps.old + 1 }
{
    !is_condemned(heap, weak) && callback_looking(heap, weak, steps).is_some()
}

/// Visits the weak references to the next condemned object, or those to its referent; after the
/// last, the callbacks follow. They follow at once if no weak reference has a referent.
fn next_member<B: Kind, L: Ledger>(
    heap: &mut Heap<B>,
    profile: u8,
    member: Option<u64>,
    steps: &mut Steps<L>,
) -> Turn
    requires ready { IsReadyForCollectionAt heap.old 0 (phase_of.WeakClearing member None) }
    requires walk { IsWalk profile heap.old member None }
    ensures takes { (script : AnyScript) → profile_of script.items ≡ profile
        → (facts : AnyFacts) (policy : Standing) → TakesTurn script facts
        (phase_of.WeakClearing member None) heap.old policy heap.new policy result }
    ensures looks { steps.new + looks_left (phase_of.WeakClearing member None) result.phase heap.new
        ≤ steps.old + most_looks 0 (phase_of.WeakClearing member None) heap.old }
{
    heap.sound();
    if heap.is_unreferred() {
        return Turn::to(Phase::WeakCalling);
    }
    match member {
        Some(object) => Turn::to(Phase::WeakClearing {
            member: heap.next(object),
            weak: first_to_look_at(heap, profile, object, steps),
        }),
        None => Turn::to(Phase::WeakCalling),
    }
}

/// The newest weak reference to the referent of a condemned one that is to lose it by itself, or
/// else to a condemned object.
fn first_to_look_at<B: Kind, L: Ledger>(
    heap: &Heap<B>,
    profile: u8,
    object: u64,
    steps: &mut Steps<L>,
) -> Option<u64>
    requires { IsLive heap.now object }
    ensures first { result
        ≡ slice_get (weak_references_in heap.now.rows (looked_at_for profile heap.now object)) 0 }
    ensures looks { steps.new ≤ steps.old + 4 }
{
    heap.sound();
    match heap.referent_looking(object, steps) {
        Some(referent) if loses_alone(heap, profile, object, referent, steps) => {
            heap.newest_looking(referent, steps)
        }
        _ => heap.newest_looking(object, steps),
    }
}

/// Whether a weak reference is to lose this referent of its own by itself: the referent is not
/// condemned.
fn loses_alone<B: Kind, L: Ledger>(
    heap: &Heap<B>,
    profile: u8,
    weak: u64,
    referent: u64,
    steps: &mut Steps<L>,
) -> bool
    requires live { IsLive heap.now weak }
    requires referent_live { IsLive heap.now referent }
    requires refers { referent_in heap.now.rows weak ≡ Some referent }
    ensures alone { result ≡ loses_alone profile heap.now weak }
    ensures looks { steps.new ≤ steps.old + 2 }
{
    !is_condemned(heap, referent) && loses(heap, profile, weak, steps)
}

/// The first of those that wait has its callback called; when none is left, the finalizers follow.
pub fn call_one<B: Kind, L: Ledger>(heap: &mut Heap<B>, steps: &mut Steps<L>) -> Turn
    requires ready { IsReadyForCollectionAt heap.old 0 phase_of.WeakCalling }
    ensures takes { (script : AnyScript) (facts : AnyFacts) (policy : Standing)
        → TakesTurn script facts phase_of.WeakCalling heap.old policy heap.new policy result }
    ensures looks { steps.new ≤ steps.old + most_looks 0 phase_of.WeakCalling heap.old }
{
    heap.sound();
    match heap.first(Place::Pend) {
        Some(weak) => Turn::runs(
            frame_of_callback(heap, weak, steps),
            Phase::AfterCallback(weak),
        ),
        None => Turn::to(Phase::Finalizing),
    }
}

/// The frame of the callback of a weak reference that has one.
fn frame_of_callback<B: Kind, L: Ledger>(
    heap: &Heap<B>,
    weak: u64,
    steps: &mut Steps<L>,
) -> FrameSpec
    requires live { IsLive heap.now weak }
    requires callback { IsSome (callback_of (objects_of heap.now) weak) }
    ensures frame { let f = unwrap_or (callback_of (objects_of heap.now) weak) 0 in result
        ≡ record {
          sort = sort_of.Callback;
          proc = unwrap_or (option_and_then (λ x. x.class) (object_at (objects_of heap.now) f)) 0;
          subject = weak;
          func = Some f;
        } }
    ensures looks { steps.new ≤ steps.old + 1 }
{
    heap.sound();
    let callback = callback_looking(heap, weak, steps).unwrap_or(0);
    callback_frame(heap, weak, callback)
}

/// After the frame of a callback: gives up the weak reference.
pub fn after_callback(weak: u64) -> Turn
    ensures { (script : AnyScript) (facts : AnyFacts) (store : Store) (policy : Standing)
        → IsReadyForCollectionAt store facts.generation (phase_of.AfterCallback weak)
        → TakesTurn script facts (phase_of.AfterCallback weak) store policy store policy result }
{
    Turn::gives_up(Release::of(weak), Phase::AfterRelease(weak))
}

/// It counts as collected if giving it up freed it; if it lives, it moves to the older generation.
pub fn after_release<B: Kind>(facts: Facts, heap: &mut Heap<B>, weak: u64) -> Turn
    requires generation { facts.generation ≤ 2 }
    requires ready { IsReadyForCollectionAt heap.old facts.generation (phase_of.AfterRelease weak) }
    ensures { (script : AnyScript) (policy : Standing) → TakesTurn script facts
        (phase_of.AfterRelease weak) heap.old policy heap.new policy result }
{
    heap.sound();
    if heap.has(weak) {
        heap.move_to(weak, Place::Gen(older(facts.generation)));
        Turn::to(Phase::WeakCalling)
    } else {
        Turn {
            phase: Phase::WeakCalling,
            release: None,
            collected: 1,
            answer: CollectStep::Continue,
        }
    }
}
