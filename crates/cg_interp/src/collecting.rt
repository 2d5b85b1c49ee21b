//! A collection: how one begins, and its turns.
ghost use Rattle.std.specs.Prelude.{◌≡◌, ◌↔◌, ◌<◌, ◌≤◌, Bool, true, false, List, [], ◌∷◌, Some};
ghost use Rattle.cg_death.specs.Answers.{MakesNone};
ghost use Rattle.cg_machine.specs.World.{World, push};
ghost use Rattle.cg_machine.specs.Commands.{new_collection};
ghost use Rattle.cg_machine.specs.declared.event.Event.TheVariants as event_of;
ghost use Rattle.cg_laws.specs.Kept.{StaysKept};
ghost use Rattle.cg_script.specs.declared.Script.{Script as AnyScript};
ghost use Rattle.cg_script.specs.Spelled.{IsSpelled};
ghost use Rattle.cg_collect.specs.declared.answer.CollectStep.TheVariants as answer_of;
ghost use Rattle.cg_collect.specs.declared.collection.Collection.{Collection as AnyCollection};
ghost use Rattle.cg_collect.specs.declared.stage.Stage.TheVariants as stage;
ghost use Rattle.cg_collect.specs.Stages.{stage_of};
ghost use Rattle.cg_collect.specs.Collections.{KeepsReady, DiesUnheld};
ghost use Rattle.cg_interp.specs.declared.activity.Activity.{Activity as AnyActivity};
ghost use Rattle.cg_interp.specs.declared.activity.Activity.TheVariants as activity_of;
ghost use Rattle.cg_interp.specs.Engines.{StandsFor, under, lowered};
ghost use Rattle.cg_interp.specs.Stacks.{asked_on};
ghost use Rattle.cg_interp.specs.declared.turned.Turned.TheVariants as turned_of;
ghost use Rattle.cg_interp.specs.Collecting.{StandsWith};
ghost use Rattle.cg_interp.specs.Telling.{IsAtAnyTurn, TurnsAny, CollectsNextOnTop, CollectTurns};
ghost use Rattle.cg_interp.specs.Quietly.{IsCollecting, LastStep, StepsOnTop};
ghost use Rattle.cg_interp.specs.Turns.{IsFit, TurnKeeps, StaysFit};

use crate::activity::Activity;
use crate::engine::Engine;
use crate::turned::Turned;
use cg_collect::{CollectStep, Collection, Stage};
use cg_heap::{Heap, Steps};
use cg_kind::Kind;
use cg_machine::Event;
use cg_policy::Policy;
use cg_script::Script;
use std::sync::ledger::Ledger;

impl<B: Kind> Engine<B> {
    /// Begins a collection of a generation above the activity from the top. The next turn makes its
    /// first step.
    pub fn collect(&mut self, top: Activity, asked: bool, generation: u8)
        requires generation { generation ≤ 2 }
        requires room { 1 < self.old.room }
        requires idle { self.old.policy.running ≡ false }
        requires stands { (script : AnyScript) × IsSpelled script × IsFit script self.old
            × (w : World) × StandsFor script (under top self.old) w
            × StaysKept script self.old.first_budget (push (new_collection generation asked w) w) }
        ensures begins { (script : AnyScript) (w : World) → StandsFor script (under top self.old) w
            → StandsWith script self.new [] (push (new_collection generation asked w) w) }
        ensures keeps { TurnKeeps self.old self.new }
    {
        self.stack.push(top);
        self.heap.sound();
        let collection = Collection::begin(&mut self.heap, &mut self.policy, generation);
        self.stack.push(Activity::Collecting { asked, collection });
    }

    /// A turn of the collection on top.
    #[inline(always)]
    pub fn turn_of_collection<L: Ledger>(
        &mut self,
        asked: bool,
        script: &Script,
        steps: &mut Steps<L>,
    ) -> Turned
        requires asked { asked_on self.old.activities ≡ Some asked }
        requires stands { IsAtAnyTurn script.now self.old }
        ensures turns { TurnsAny script.now self.old self.new result }
        ensures fit { StaysFit self.old self.new }
    {
        self.heap.sound();
        self.go_on_collecting(asked, script, steps)
    }

    /// Makes the steps of the collection on top, as long as there is nothing to print.
    #[inline(always)]
    fn go_on_collecting<L: Ledger>(
        &mut self,
        asked: bool,
        script: &Script,
        steps: &mut Steps<L>,
    ) -> Turned
        requires stands { CollectsNextOnTop script.now asked self.old }
        ensures turns { (c : AnyCollection) (below : List AnyActivity)
            → self.old.activities ≡ activity_of.Collecting asked c ∷ below
            → CollectTurns script.now asked c (lowered below self.old) self.new result }
        ensures keeps { TurnKeeps self.old self.new }
    {
        match self.collect_on_top(script, steps) {
            CollectStep::Continue => Turned::Quiet,
            CollectStep::Emit(event) => Turned::Line(event),
            CollectStep::Frame(spec) => {
                self.heap.sound();
                self.start(spec)
            }
            CollectStep::Died(object) => {
                self.die(object);
                Turned::Quiet
            }
            CollectStep::Finished {
                collected,
                uncollectable,
            } => {
                self.stack.pop();
                answered(asked, collected + uncollectable)
            }
        }
    }

    /// Makes the steps of the collection on top, in its place, until one ends the turn.
    #[inline(always)]
    fn collect_on_top<L: Ledger>(&mut self, script: &Script, steps: &mut Steps<L>) -> CollectStep
        requires stands { (asked : Bool) × CollectsNextOnTop script.now asked self.old }
        ensures steps { (asked : Bool) (c : AnyCollection) (below : List AnyActivity)
            → self.old.activities ≡ activity_of.Collecting asked c ∷ below
            → StepsOnTop script.now asked c below self.old self.new result }
        ensures died { DiesUnheld result self.new.store }
        ensures room { self.new.room ≡ self.old.room }
        ensures keeps { TurnKeeps self.old self.new }
    {
        let collection = self.stack.collection_on_top_mut();
        collect_on(&mut self.heap, &mut self.policy, collection, script, steps)
    }
}

/// Makes the steps of a collection, until one ends the turn.
fn collect_on<B: Kind, L: Ledger>(
    heap: &mut Heap<B>,
    policy: &mut Policy,
    collection: &mut Collection,
    script: &Script,
    steps: &mut Steps<L>,
) -> CollectStep
    requires stands { IsCollecting script.now collection.old heap.old policy.old }
    ensures last { LastStep script.now collection.old heap.old policy.old collection.new heap.new
        policy.new result }
    ensures ready { KeepsReady script.now collection.new heap.new result }
    ensures died { DiesUnheld result heap.new }
    ensures objects { MakesNone heap.old heap.new }
{
    'collecting: loop {
        heap.sound();
        let answer = collection.step(heap, policy, script, steps);
        if !goes_on(answer, collection) {
            return answer;
        }
        heap.sound();
    }
}

/// Whether a collection makes its next step in the same turn: there is nothing to print, and
/// neither this step nor the next is a reachability pass. A pass needs a turn of its own, since it
/// is recorded from the heaps before and after the turn.
fn goes_on(answer: CollectStep, collection: &Collection) -> bool
    ensures { (result ≡ true) ↔ ((answer ≡ answer_of.Continue) × (stage_of collection.now
        ≡ stage.Between)) }
{
    match (answer, collection.stage()) {
        (CollectStep::Continue, Stage::Between) => true,
        _ => false,
    }
}

/// What is printed when a collection ends: the answer to the command that asked for it, if any.
fn answered(asked: bool, number: u64) -> Turned
    ensures asked { asked ≡ true → result ≡ turned_of.Line (event_of.Collected number) }
    ensures not { asked ≡ false → result ≡ turned_of.Quiet }
{
    if asked {
        Turned::Line(Event::Collected(number))
    } else {
        Turned::Quiet
    }
}
