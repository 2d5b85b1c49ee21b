//! The clearing: each member of the final set has a turn. (Developer guide, "destroying unreachable
//! objects". That it is emptied entry by entry is ours.)
ghost use Rattle.std.specs.Prelude.{◌≡◌, ◌+◌, ◌<◌, ◌≤◌, Some, slice_get};
ghost use Rattle.cg_value.specs.declared.Place.TheVariants as place_of;
ghost use Rattle.cg_script.specs.declared.Script.{Script as AnyScript};
ghost use Rattle.cg_policy.specs.Policy.{Policy as Standing};
ghost use Rattle.cg_graph.specs.Store.{outside_of, list_at};
ghost use Rattle.cg_heap.specs.Calls.{HasFewHolds};
ghost use Rattle.cg_collect.specs.declared.collection.Facts.{Facts as AnyFacts};
ghost use Rattle.cg_collect.specs.declared.phase.Phase.TheVariants as phase_of;
ghost use Rattle.cg_collect.specs.Ready.{IsReadyForCollectionAt};
ghost use Rattle.cg_collect.specs.Turns.{TakesTurn};
ghost use Rattle.cg_collect.specs.Looks.{most_looks};

use crate::collection::Facts;
use crate::phase::{Phase, Turn, older};
use bitflags::Flags;
use cg_death::Release;
use cg_heap::{Heap, Steps};
use cg_kind::Kind;
use cg_machine::Event;
use cg_policy::Flagset;
use cg_value::{KindCode, Place};
use std::sync::ledger::Ledger;

/// Begins the turn of the next member; after the last one, the end follows.
pub fn take_turn<B: Kind>(facts: Facts, heap: &mut Heap<B>) -> Turn
    requires generation { facts.generation ≤ 2 }
    requires ready { IsReadyForCollectionAt heap.old facts.generation phase_of.Turns }
    requires few { HasFewHolds heap.old }
    ensures { (script : AnyScript) (policy : Standing) → TakesTurn script facts phase_of.Turns
        heap.old policy heap.new policy result }
{
    heap.sound();
    match heap.first(Place::Cand) {
        Some(object) => begin_turn(facts, heap, object),
        None => Turn::to(Phase::Ending),
    }
}

/// With SAVEALL it is saved. A tuple cannot be cleared. Any other object is held, to be emptied.
fn begin_turn<B: Kind>(facts: Facts, heap: &mut Heap<B>, object: u64) -> Turn
    requires generation { facts.generation ≤ 2 }
    requires ready { IsReadyForCollectionAt heap.old facts.generation phase_of.Turns }
    requires few { HasFewHolds heap.old }
    requires first { slice_get (list_at heap.old place_of.Cand) 0 ≡ Some object }
    ensures { (script : AnyScript) (policy : Standing) → TakesTurn script facts phase_of.Turns
        heap.old policy heap.new policy result }
{
    heap.sound();
    if facts.flags.intersects(Flagset::SAVEALL) {
        heap.save(object);
        heap.sound();
        heap.move_to(object, Place::Gen(older(facts.generation)));
        return Turn::tells(Event::GcSaved(object), Phase::Turns);
    }
    match heap.kind_of(object) {
        KindCode::Tuple => {
            heap.move_to(object, Place::Gen(older(facts.generation)));
            Turn::to(Phase::Turns)
        }
        _ => {
            heap.hold(object);
            Turn::to(Phase::Turn(object))
        }
    }
}

/// Removes its last entry, to be given up; if none is left, gives up the object itself.
pub fn empty_one<B: Kind, L: Ledger>(heap: &mut Heap<B>, object: u64, steps: &mut Steps<L>) -> Turn
    requires ready { IsReadyForCollectionAt heap.old 0 (phase_of.Turn object) }
    requires few { HasFewHolds heap.old }
    requires held { 0 < outside_of heap.old object }
    ensures takes { (script : AnyScript) (facts : AnyFacts) (policy : Standing)
        → TakesTurn script facts (phase_of.Turn object) heap.old policy heap.new policy result }
    ensures looks { steps.new ≤ steps.old + most_looks 0 (phase_of.Turn object) heap.old }
{
    heap.sound();
    match heap.detach_looking(object, steps) {
        Some(entry) => Turn::gives_up(Release::new(entry), Phase::Turn(object)),
        None => Turn::gives_up(Release::of(object), Phase::AfterTurn(object)),
    }
}

/// If it lives after its turn, it moves to the older generation.
pub fn after_turn<B: Kind>(facts: Facts, heap: &mut Heap<B>, object: u64) -> Turn
    requires generation { facts.generation ≤ 2 }
    requires ready { IsReadyForCollectionAt heap.old facts.generation (phase_of.AfterTurn object) }
    ensures { (script : AnyScript) (policy : Standing) → TakesTurn script facts
        (phase_of.AfterTurn object) heap.old policy heap.new policy result }
{
    heap.sound();
    if !heap.has(object) {
        return Turn::to(Phase::Turns);
    }
    heap.move_to(object, Place::Gen(older(facts.generation)));
    Turn::to(Phase::Turns)
}
