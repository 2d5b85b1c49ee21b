//! The finalizer phase: visits the condemned objects, and runs the finalizers that have not run.
//! (PEP 442: a finalizer is called once.)
ghost use Rattle.std.specs.Prelude.{◌≡◌, ◌∷◌, [], Some, None, slice_get};
ghost use Rattle.cg_script.specs.declared.Script.{Script as AnyScript};
ghost use Rattle.cg_policy.specs.Policy.{Policy as Standing};
ghost use Rattle.cg_value.specs.declared.Place.TheVariants as place_of;
ghost use Rattle.cg_graph.specs.Store.{Store, IsLive, list_at};
ghost use Rattle.cg_graph.specs.Changes.{held, moved};
ghost use Rattle.cg_heap.specs.Calls.{HasFewHolds, with_node, marked};
ghost use Rattle.cg_machine.specs.declared.event.FrameSort.TheVariants as sort_of;
ghost use Rattle.cg_collect.specs.declared.answer.CollectStep.TheVariants as answer_of;
ghost use Rattle.cg_collect.specs.declared.collection.Facts.{Facts as AnyFacts};
ghost use Rattle.cg_collect.specs.declared.phase.Phase.TheVariants as phase_of;
ghost use Rattle.cg_collect.specs.Ready.{IsReadyForCollectionAt};
ghost use Rattle.cg_collect.specs.Turns.{TakesTurn};

use crate::phase::{Phase, Turn};
use cg_arena::Near;
use cg_death::{Release, finalizer_frame, finalizer_to_run};
use cg_heap::Heap;
use cg_kind::Kind;
use cg_machine::FrameSort;
use cg_script::Script;
use cg_value::Place;

/// Visits a condemned object, if one is left; afterwards all are condemned again, and the second
/// reachability pass follows.
pub fn look_at_one<B: Kind>(heap: &mut Heap<B>, script: &Script) -> Turn
    requires ready { IsReadyForCollectionAt heap.old 0 phase_of.Finalizing }
    requires few { HasFewHolds heap.old }
    ensures { (facts : AnyFacts) (policy : Standing) → TakesTurn script.now facts
        phase_of.Finalizing heap.old policy heap.new policy result }
{
    heap.sound();
    let mut near = Near::default();
    match heap.first_near(Place::Cand, &mut near) {
        Some(object) => look_at(heap, script, object, near),
        None => {
            heap.merge(Place::Seen, Place::Cand);
            Turn::to(Phase::Split)
        }
    }
}

/// Runs its finalizer unless that has run. The object is near.
fn look_at<B: Kind>(heap: &mut Heap<B>, script: &Script, object: u64, near: Near) -> Turn
    requires ready { IsReadyForCollectionAt heap.old 0 phase_of.Finalizing }
    requires few { HasFewHolds heap.old }
    requires first { slice_get (list_at heap.old place_of.Cand) 0 ≡ Some object }
    ensures { (facts : AnyFacts) (policy : Standing) → TakesTurn script.now facts
        phase_of.Finalizing heap.old policy heap.new policy result }
{
    heap.sound();
    match finalizer_to_run(heap, script, object) {
        Some(proc) => run(heap, object, proc),
        None => {
            heap.move_near(object, near, Place::Seen);
            Turn::to(Phase::Finalizing)
        }
    }
}

/// Runs a finalizer: its object is marked, and held for its frame.
fn run<B: Kind>(heap: &mut Heap<B>, object: u64, proc: u32) -> Turn
    requires live { IsLive heap.old object }
    requires few { HasFewHolds heap.old }
    ensures heap { heap.new
        ≡ held (object ∷ []) (with_node marked object (moved object place_of.Seen heap.old)) }
    ensures turn { result ≡ record {
      phase = phase_of.AfterFinalizing object;
      release = None;
      collected = 0;
      answer = answer_of.Frame (record {
        sort = sort_of.Del;
        proc = proc;
        subject = object;
        func = None;
      });
    } }
{
    heap.move_to(object, Place::Seen);
    heap.set_finalized(object);
    heap.hold(object);
    let frame = finalizer_frame(FrameSort::Del, proc, object);
    Turn::runs(frame, Phase::AfterFinalizing(object))
}

/// After the frame of a finalizer: gives up the object.
pub fn after_finalizer(object: u64) -> Turn
    ensures { (script : AnyScript) (facts : AnyFacts) (store : Store) (policy : Standing)
        → IsReadyForCollectionAt store facts.generation (phase_of.AfterFinalizing object)
        → TakesTurn script facts (phase_of.AfterFinalizing object) store policy store policy
        result }
{
    Turn::gives_up(Release::of(object), Phase::Finalizing)
}
