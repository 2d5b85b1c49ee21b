//! The death of an unheld object.
ghost use Rattle.std.specs.Prelude.{◌≡◌, ◌↔◌, ◌∷◌, [], None, false, is_some, IsTrue};
ghost use Rattle.cg_value.specs.declared.Place.TheVariants as place_of;
ghost use Rattle.cg_graph.specs.Rows.{waiting_in};
ghost use Rattle.cg_graph.specs.Store.{IsLive};
ghost use Rattle.cg_graph.specs.Changes.{moved};
ghost use Rattle.cg_machine.specs.World as machine;
ghost use Rattle.cg_machine.specs.Frame.{begin_death};
ghost use Rattle.cg_represents.specs.Represents.{Represents};
ghost use Rattle.cg_heap.specs.Calls.{HasFewHolds};
ghost use Rattle.cg_death.specs.declared.answer.DeathStep.TheVariants as answer_of;
ghost use Rattle.cg_death.specs.declared.phase.Phase.TheVariants as phase_of;
ghost use Rattle.cg_death.specs.Activities.{IsUnheld, HasHolds, IsReadyForDeathAt, own_holds_at, death_of};
ghost use Rattle.cg_death.specs.Answers.{DeathSteps, MakesNone};
ghost use Rattle.cg_death.specs.Deaths.{object_of, on_stack, held_by, IsReadyForDeath, IsOver, IsSettled, IsGoing, IsOffStack, IsGoingAfter, DeathFalls, HasCause, TakesNext, forgets_referent};
ghost use Rattle.cg_death.specs.Steady.{IsFresh, IsSteady, TakesFewHolds, KeepsNames, DeathStandsAfterFrame, DiesUnheld};
ghost use Rattle.cg_death.specs.Turns.{TakesTurn};
ghost use Rattle.cg_script.specs.declared.Script.{Script as AnyScript};

use crate::answer::DeathStep;
use crate::contents::empty_one;
use crate::finalizers::{end_finalizer, end_legacy, run_finalizer, run_legacy};
use crate::phase::{Phase, Turn};
use crate::release::{Release, give_up};
use crate::weak::{call_one, clear_one, detach_one, end_call};
use cg_heap::Heap;
use cg_kind::Kind;
use cg_script::Script;
use cg_value::Place;

/// The death of an object, phase by phase. (PEP 442, "Disposal of regular objects"; developer
/// guide, "Reference counting".)
#[derive(Drop)]
pub struct Death {
    object: u64,
    phase: Phase,
    release: Option<Release>,
}

impl Death {
    /// Begins the death of an object: it is untracked, and a weak reference is cleared without a
    /// line. No weak reference waits with it.
    pub fn begin<B: Kind>(heap: &mut Heap<B>, object: u64) -> Death
        requires unheld { IsUnheld heap.old object }
        requires none_waits { waiting_in heap.old.rows object ≡ [] }
        ensures rest { heap.new ≡ forgets_referent object (moved object place_of.Untracked
            heap.old) }
        ensures begins { (w : machine.World) → Represents heap.old w
            → Represents heap.new (begin_death object w) }
        ensures stack { on_stack result heap.new ≡ death_of object machine.Finalizer ∷ [] }
        ensures settled { IsSettled result }
        ensures going { IsGoing result }
        ensures object { object_of result ≡ object }
        ensures objects { MakesNone heap.old heap.new }
        ensures holds { TakesFewHolds heap.old heap.new }
        ensures names { KeepsNames heap.old heap.new }
        ensures steady { (script : AnyScript) → IsFresh heap.old object →
            IsSteady script result heap.new }
    {
        heap.sound();
        heap.move_to(object, Place::Untracked);
        lose_own_referent(object, heap);
        Death {
            object,
            phase: Phase::Finalizer,
            release: None,
        }
    }

    /// One action of the death.
    ///
    /// `Frame` if a finalizer or a callback is to be called; the next steps give back the holds
    /// that it takes. `Died` exactly if a reference was given up and nothing holds its object any
    /// more; it is never the dying object. `Gone` exactly if the death is over: the object was
    /// freed or resurrected.
    pub fn step<B: Kind>(&mut self, heap: &mut Heap<B>, script: &Script) -> DeathStep
        requires few { HasFewHolds heap.old }
        requires held { HasHolds heap.old (held_by self.old heap.old) }
        requires ready { IsReadyForDeath self.old heap.old }
        ensures steps { DeathSteps script.now heap.old (on_stack self.old heap.old) heap.new
            (on_stack self.new heap.new) result }

        ensures falls { result ≡ answer_of.Continue → DeathFalls self.old heap.old self.new
            heap.new }
        ensures cause { HasCause self.old heap.new result }
        ensures gone { (result ≡ answer_of.Gone) ↔ IsOver self.old }
        ensures over { result ≡ answer_of.Gone → on_stack self.new heap.new ≡ [] }
        ensures settled { IsSettled self.old → IsSettled self.new }
        ensures going { IsGoingAfter result self.new }
        ensures object { object_of self.new ≡ object_of self.old }
        ensures objects { MakesNone heap.old heap.new }
        ensures holds { TakesFewHolds heap.old heap.new }
        ensures names { KeepsNames heap.old heap.new }

        // If nothing else runs, the next step may be taken after any answer.
        ensures steady { IsSteady script.now self.old heap.old → IsSteady script.now self.new
            heap.new }
        ensures framed { DeathStandsAfterFrame result self.new }
        ensures died { DiesUnheld result heap.new }
    {
        if let Some(object) = next_reference(&mut self.release) {
            return give_up(heap, object);
        }
        let turn = turn(self.object, self.phase, heap, script);
        self.phase = turn.phase;
        self.release = turn.release;
        turn.answer
    }

    /// Whether it is over: the object was freed or resurrected, and nothing of the death is left on
    /// the stack.
    pub fn is_over(&self) -> bool
        ensures over { IsTrue result → IsOffStack self.now }
        ensures going { result ≡ false → IsGoing self.now }
    {
        self.phase == Phase::Over && self.release.is_none()
    }
}

/// Takes the first of the references still to be given up, if there is one.
fn next_reference(release: &mut Option<Release>) -> Option<u64>
    ensures { TakesNext release.old result release.new }
{
    match release {
        Some(release) => release.take_first(),
        None => None,
    }
}

/// Clears an object that is a weak reference.
fn lose_own_referent<B: Kind>(object: u64, heap: &mut Heap<B>)
    requires { IsLive heap.old object }
    ensures { heap.new ≡ forgets_referent object heap.old }
{
    if heap.referent_of(object).is_some() {
        heap.clear_weak(object, false);
    }
}

/// One action of a phase.
fn turn<B: Kind>(object: u64, phase: Phase, heap: &mut Heap<B>, script: &Script) -> Turn
    requires few { HasFewHolds heap.old }
    requires held { HasHolds heap.old (own_holds_at object phase) }
    requires ready { IsReadyForDeathAt heap.old object phase }
    ensures takes { TakesTurn script.now heap.old object phase heap.new result }
    ensures over { phase ≡ phase_of.Over → result.answer ≡ answer_of.Gone }
    ensures rests { phase ≡ phase_of.Over → heap.new ≡ heap.old }
{
    match phase {
        Phase::Finalizer => run_finalizer(object, heap, script),
        Phase::AfterFinalizer => end_finalizer(object, heap),
        Phase::Clearing => clear_one(object, heap),
        Phase::Calling => call_one(object, heap),
        Phase::AfterCall { weak, callback } => end_call(object, weak, callback, heap),
        Phase::LegacyFinalizer => run_legacy(object, heap, script),
        Phase::AfterLegacy => end_legacy(object, heap),
        Phase::Detaching => detach_one(object, heap, script),
        Phase::Emptying => empty_one(object, heap),
        Phase::Over => Turn {
            phase: Phase::Over,
            release: None,
            answer: DeathStep::Gone,
        },
    }
}
