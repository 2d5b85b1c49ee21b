//! The second reachability pass: what finalizers resurrected is alive; the rest is the final set.
//! (PEP 442, "disposal of cyclic isolates".)
ghost use Rattle.std.specs.Prelude.{◌≡◌, ◌+◌, ◌≤◌, Some, None, true, slice_get, option_and_then};
ghost use Rattle.cg_value.specs.declared.Place.TheVariants as place_of;
ghost use Rattle.cg_graph.specs.Object.{same_place};
ghost use Rattle.cg_graph.specs.Rows.{referent_in, weak_references_in};
ghost use Rattle.cg_graph.specs.Store.{IsLive, place_of};
ghost use Rattle.cg_script.specs.declared.Script.{Script as AnyScript};
ghost use Rattle.cg_policy.specs.Policy.{Policy as Standing};
ghost use Rattle.cg_collect.specs.declared.collection.Facts.{Facts as AnyFacts};
ghost use Rattle.cg_collect.specs.declared.phase.Phase.TheVariants as phase_of;
ghost use Rattle.cg_collect.specs.Ready.{IsReadyForCollectionAt};
ghost use Rattle.cg_collect.specs.Turns.{TakesTurn};
ghost use Rattle.cg_collect.specs.Looks.{looks_left, most_looks};

use crate::answer::CollectStep;
use crate::collection::Facts;
use crate::phase::{Phase, Turn, older};
use cg_heap::{Heap, Steps};
use cg_kind::Kind;
use cg_machine::Event;
use cg_trial::split;
use cg_value::Place;
use std::sync::ledger::Ledger;

/// Survivors move to the older generation. The rest is the final set; its size is added to the
/// collected number.
pub fn detect<B: Kind, L: Ledger>(facts: Facts, heap: &mut Heap<B>, steps: &mut Steps<L>) -> Turn
    requires generation { facts.generation ≤ 2 }
    requires ready { IsReadyForCollectionAt heap.old facts.generation phase_of.Split }
    ensures takes { (script : AnyScript) (policy : Standing) → TakesTurn script facts phase_of.Split
        heap.old policy heap.new policy result }
    ensures looks { steps.new ≤ steps.old + most_looks facts.generation phase_of.Split heap.old }
{
    heap.sound();
    split(heap, Place::Cand, steps);
    let living = heap.first(Place::Back);
    heap.merge(Place::Back, Place::Gen(older(facts.generation)));
    heap.sound();
    Turn {
        phase: Phase::Living(living),
        release: None,
        collected: heap.size(Place::Cand),
        answer: CollectStep::Continue,
    }
}

/// Prints the next survivor; afterwards the weak references to the final set are cleared.
pub fn tell_living<B: Kind>(facts: Facts, heap: &Heap<B>, next: Option<u64>) -> Turn
    requires generation { facts.generation ≤ 2 }
    requires ready { IsReadyForCollectionAt heap.now facts.generation (phase_of.Living next) }
    ensures { (script : AnyScript) (policy : Standing) → TakesTurn script facts
        (phase_of.Living next) heap.now policy heap.now policy result }
{
    heap.sound();
    match next {
        Some(object) => Turn::tells(Event::Alive(object), Phase::Living(heap.next(object))),
        None => Turn::to(Phase::Detaching(heap.first(Place::Cand))),
    }
}

/// Clears the newest weak reference to a member of the final set, without callback; if none is
/// left, goes to the next member. After the last member, the members that are weak references are
/// cleared. If no weak reference has a referent, the turns of the members follow at once.
pub fn detach_one<B: Kind, L: Ledger>(
    heap: &mut Heap<B>,
    next: Option<u64>,
    steps: &mut Steps<L>,
) -> Turn
    requires ready { IsReadyForCollectionAt heap.old 0 (phase_of.Detaching next) }
    ensures takes { (script : AnyScript) (facts : AnyFacts) (policy : Standing)
        → TakesTurn script facts (phase_of.Detaching next) heap.old policy heap.new policy result }
    ensures looks { steps.new + looks_left (phase_of.Detaching next) result.phase heap.new ≤
        steps.old + most_looks 0 (phase_of.Detaching next) heap.old }
{
    heap.sound();
    if heap.is_unreferred() {
        return Turn::to(Phase::Turns);
    }
    let Some(object) = next else {
        return Turn::to(Phase::Unlinking {
            member: heap.first(Place::Cand),
            weak: None,
        });
    };
    match heap.newest_looking(object, steps) {
        Some(weak) => {
            heap.clear_weak(weak, false);
            Turn::tells(Event::Cleared(weak), Phase::Detaching(next))
        }
        None => Turn::to(Phase::Detaching(heap.next(object))),
    }
}

/// Visits the next weak reference of the walk, or the next member of the final set.
///
/// For each member with a referent it visits all weak references to that referent, newest first,
/// and clears the members among them. So it walks each list once.
pub fn unlink_one<B: Kind, L: Ledger>(
    heap: &mut Heap<B>,
    member: Option<u64>,
    weak: Option<u64>,
    steps: &mut Steps<L>,
) -> Turn
    requires ready { IsReadyForCollectionAt heap.old 0 (phase_of.Unlinking member weak) }
    ensures takes { (script : AnyScript) (facts : AnyFacts) (policy : Standing)
        → TakesTurn script facts (phase_of.Unlinking member weak) heap.old policy heap.new policy
        result }
    ensures looks { steps.new + looks_left (phase_of.Unlinking member weak) result.phase heap.new ≤
        steps.old + most_looks 0 (phase_of.Unlinking member weak) heap.old }
{
    match weak {
        Some(weak) => look_at(heap, member, weak, steps),
        None => next_member(heap, member, steps),
    }
}

/// Clears a weak reference that is a member, without callback.
fn look_at<B: Kind, L: Ledger>(
    heap: &mut Heap<B>,
    member: Option<u64>,
    weak: u64,
    steps: &mut Steps<L>,
) -> Turn
    requires ready { IsReadyForCollectionAt heap.old 0 (phase_of.Unlinking member (Some weak)) }
    ensures takes { (script : AnyScript) (facts : AnyFacts) (policy : Standing)
        → TakesTurn script facts (phase_of.Unlinking member (Some weak)) heap.old policy heap.new
        policy result }
    ensures looks { steps.new + looks_left (phase_of.Unlinking member (Some weak)) result.phase
        heap.new ≤ steps.old + most_looks 0 (phase_of.Unlinking member (Some weak)) heap.old }
{
    heap.sound();
    let phase = Phase::Unlinking {
        member,
        weak: heap.older_looking(weak, steps),
    };
    if is_member(heap, weak) {
        heap.clear_weak(weak, false);
        heap.sound();
        Turn::tells(Event::Cleared(weak), phase)
    } else {
        Turn::to(phase)
    }
}

/// Whether an object is a member of the final set.
fn is_member<B: Kind>(heap: &Heap<B>, object: u64) -> bool
    requires { IsLive heap.now object }
    ensures { result ≡ same_place (place_of heap.now object) place_of.Cand }
{
    match heap.place_of(object) {
        Place::Cand => true,
        _ => false,
    }
}

/// Visits the weak references to the next member's referent; after the last member, the turns
/// follow.
fn next_member<B: Kind, L: Ledger>(
    heap: &mut Heap<B>,
    member: Option<u64>,
    steps: &mut Steps<L>,
) -> Turn
    requires ready { IsReadyForCollectionAt heap.old 0 (phase_of.Unlinking member None) }
    ensures takes { (script : AnyScript) (facts : AnyFacts) (policy : Standing)
        → TakesTurn script facts (phase_of.Unlinking member None) heap.old policy heap.new policy
        result }
    ensures looks { steps.new + looks_left (phase_of.Unlinking member None) result.phase heap.new ≤
        steps.old + most_looks 0 (phase_of.Unlinking member None) heap.old }
{
    heap.sound();
    match member {
        Some(object) => Turn::to(Phase::Unlinking {
            member: heap.next(object),
            weak: newest_beside(heap, object, steps),
        }),
        None => Turn::to(Phase::Turns),
    }
}

/// The newest weak reference to the referent of an object, if it has one.
fn newest_beside<B: Kind, L: Ledger>(
    heap: &Heap<B>,
    object: u64,
    steps: &mut Steps<L>,
) -> Option<u64>
    requires { IsLive heap.now object }
    ensures newest { result ≡ option_and_then (λ o. slice_get (weak_references_in heap.now.rows o)
        0) (referent_in heap.now.rows object) }
    ensures looks { steps.new ≤ steps.old + 2 }
{
    heap.sound();
    match heap.referent_looking(object, steps) {
        Some(referent) => heap.newest_looking(referent, steps),
        None => None,
    }
}
