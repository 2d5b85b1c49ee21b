//! A collection of a generation.
ghost use Rattle.std.specs.Prelude.{◌≡◌, ◌+◌, ◌≤◌, ◌↔◌, ℕ, false, true, Bool, None, IfNone, IfSome};
ghost use Rattle.cg_script.specs.declared.Script.{Script as AnyScript};
ghost use Rattle.cg_machine.specs.Program.{profile_of};
ghost use Rattle.cg_machine.specs.World.{World, push};
ghost use Rattle.cg_machine.specs.Collect.{begun};
ghost use Rattle.cg_machine.specs.Commands.{new_collection};
ghost use Rattle.cg_represents.specs.Represents.{Represents};
ghost use Rattle.cg_heap.specs.Calls.{HasFewHolds};
ghost use Rattle.cg_death.specs.Activities.{HasHolds};
ghost use Rattle.cg_death.specs.Answers.{MakesNone};
ghost use Rattle.cg_death.specs.Steady.{KeepsNames};
ghost use Rattle.cg_collect.specs.declared.answer.CollectStep.TheVariants as answer_of;
ghost use Rattle.cg_collect.specs.declared.phase.Phase.TheVariants as phase_of;
ghost use Rattle.cg_collect.specs.Numbers.{AreSmall};
ghost use Rattle.cg_collect.specs.Ready.{IsClear, IsReadyForCollectionAt, HasItsWalk, IsBegun};
ghost use Rattle.cg_collect.specs.Turns.{pass_of, passes_on, TakesTurn};
ghost use Rattle.cg_collect.specs.Looks.{looks_left, most_looks};
ghost use Rattle.cg_collect.specs.Answers.{CollectSteps, CollectionShows};
ghost use Rattle.cg_collect.specs.Stages.{stage_of, detection_at, LeavesStage, MeetsStage};
ghost use Rattle.cg_collect.specs.declared.stage.Stage.TheVariants as stage;
ghost use Rattle.cg_collect.specs.Collections.{IsReadyForCollection, KeepsReady, CollectFalls, DiesUnheld, CollectionEndsWith, GivesUpNext, StopsWith, stop_turn, held_by, given_up_by, own_holds_at, facts_of};

use crate::answer::CollectStep;
use crate::detection::{detach_one, detect, tell_living, unlink_one};
use crate::ending::{end, tell_end, tell_saved, tell_uncollectable};
use crate::finalizing::{after_finalizer, look_at_one};
use crate::phase::{Phase, Turn};
use crate::stage::{Detection, Stage};
use crate::start::{start, tell_condemned, tell_sizes};
use crate::turns::{after_turn, empty_one, take_turn};
use crate::weak::{after_callback, after_release, call_one, clear_one};
use cg_death::{DeathStep, Release};
use cg_heap::{Heap, Steps};
use cg_kind::Kind;
use cg_policy::{Flagset, Policy};
use cg_script::Script;
use std::sync::ledger::Ledger;

/// A collection of a generation, step by step. (Developer guide, "garbage collector design"; PEP
/// 442.)
///
/// It runs no command: it answers frames and deaths for the caller to run, and is resumed after
/// them.
#[derive(Drop)]
pub struct Collection {
    generation: u8,
    // Read when it began.
    flags: Flagset,
    // How many objects it found to be garbage.
    collected: u64,
    phase: Phase,
    release: Option<Release>,
    // The reachability pass of its last step, if that made one.
    detected: Option<Detection>,
}

/// What the phases know of their collection.
#[derive(Clone, Copy)]
pub struct Facts {
    pub generation: u8,
    pub flags: Flagset,
    pub collected: u64,
}

impl Collection {
    /// Begins a collection of a generation, 0 to 2: changes the counts, and reads the debug flags.
    pub fn begin<B: Kind>(heap: &mut Heap<B>, policy: &mut Policy, generation: u8) -> Collection
        requires generation { generation ≤ 2 }
        requires idle { policy.old.running ≡ false }
        requires bounded { AreSmall policy.old.numbers }
        requires clear { IsClear heap.old }
        ensures heap { heap.new ≡ heap.old }
        ensures policy { policy.new ≡ record {
          numbers = begun generation policy.old.numbers;
          running = true;
        } }
        ensures begins { (asked : Bool) (w : World) → Represents heap.old w → policy.old.numbers
            ≡ w.numbers
            → CollectionShows asked result heap.new policy.new
            (push (new_collection generation asked w) w) w.stack }
        ensures ready { (script : AnyScript) → IsReadyForCollection script result heap.new }
        ensures stage { stage_of result ≡ stage.BeforeFirst }
    {
        let flags = policy.flags();
        policy.begin(generation);
        Collection {
            generation,
            flags,
            collected: 0,
            phase: Phase::Start,
            release: None,
            detected: None,
        }
    }

    /// The generation that it collects.
    pub fn generation(&self) -> u8
        ensures { result ≡ self.now.generation }
    {
        self.generation
    }

    /// Before, at or after each reachability pass.
    pub fn stage(&self) -> Stage
        ensures stage { result ≡ stage_of self.now }

        // It is before a pass exactly if its phase's step makes one.
        ensures first { (result ≡ stage.BeforeFirst) ↔ (self.now.phase ≡ phase_of.Start) }
        ensures second { (result ≡ stage.BeforeSecond) ↔ (self.now.phase ≡ phase_of.Split) }
    {
        match (self.phase, self.detected) {
            (Phase::Start, _) => Stage::BeforeFirst,
            (Phase::Split, _) => Stage::BeforeSecond,
            (_, Some(Detection::First)) => Stage::AfterFirst,
            (_, Some(Detection::Second)) => Stage::AfterSecond,
            (_, None) => Stage::Between,
        }
    }

    /// One action of the collection.
    pub fn step<B: Kind, L: Ledger>(
        &mut self,
        heap: &mut Heap<B>,
        policy: &mut Policy,
        script: &Script,
        steps: &mut Steps<L>,
    ) -> CollectStep
        requires few { HasFewHolds heap.old }
        requires held { HasHolds heap.old (held_by self.old) }
        requires ready { IsReadyForCollection script.now self.old heap.old }
        requires bounded { AreSmall policy.old.numbers }
        ensures steps { CollectSteps script.now self.old heap.old policy.old self.new heap.new
            policy.new result }
        ensures ready { KeepsReady script.now self.new heap.new result }
        ensures falls { result ≡ answer_of.Continue → CollectFalls self.old heap.old self.new
            heap.new }
        ensures died { DiesUnheld result heap.new }

        // At its end it prints two numbers, the collected and the uncollectable objects, and
        // answers both.
        ensures stops { (set_aside : ℕ) → self.old.phase ≡ phase_of.Stopping set_aside
            → self.old.release ≡ None
            → StopsWith self.old self.new result set_aside }
        ensures ends { CollectionEndsWith self.old result }

        // What holds after any answer.
        ensures generation { self.new.generation ≡ self.old.generation }
        ensures begun { IsBegun self.new.phase }
        ensures detected { self.new.detected ≡ detection_at self.old.phase }
        ensures stage { LeavesStage self.old.phase (stage_of self.new) }
        ensures meets { MeetsStage self.old.phase (stage_of self.new) self.new.phase }
        ensures onward { pass_of self.old.phase + passes_on self.old.phase ≤ pass_of
            self.new.phase }
        ensures objects { MakesNone heap.old heap.new }
        ensures names { KeepsNames heap.old heap.new }
        ensures looks { steps.new + looks_left self.old.phase self.new.phase heap.new ≤ steps.old +
            most_looks self.old.generation self.old.phase heap.old }
    {
        // A phase whose step makes one gives nothing up.
        self.detected = self.phase.detection();
        if let Some(answer) = self.give_up(heap) {
            return answer;
        }
        let turn = self.turn(heap, policy, script, steps);
        self.phase = turn.phase;
        self.release = turn.release;
        self.collected += turn.collected;
        turn.answer
    }

    /// Gives up the next reference, if there is one to give up.
    fn give_up<B: Kind>(&mut self, heap: &mut Heap<B>) -> Option<CollectStep>
        requires { HasHolds heap.old (given_up_by self.old.release) }
        ensures none { IfNone result ((self.new ≡ self.old) × (heap.new ≡ heap.old)
            × (self.old.release ≡ None)) }
        ensures some { IfSome result (λ answer. GivesUpNext self.old heap.old self.new heap.new
            answer) }
    {
        let answer = match &mut self.release {
            Some(release) => release.step(heap),
            None => return None,
        };
        match answer {
            DeathStep::Died(object) => Some(CollectStep::Died(object)),
            DeathStep::Gone => {
                self.release = None;
                Some(CollectStep::Continue)
            }
            _ => Some(CollectStep::Continue),
        }
    }

    /// One action of a phase.
    fn turn<B: Kind, L: Ledger>(
        &self,
        heap: &mut Heap<B>,
        policy: &mut Policy,
        script: &Script,
        steps: &mut Steps<L>,
    ) -> Turn
        requires generation { self.now.generation ≤ 2 }
        requires ready { IsReadyForCollectionAt heap.old self.now.generation self.now.phase }
        requires walk { HasItsWalk (profile_of script.now.items) heap.old self.now.phase }
        requires few { HasFewHolds heap.old }
        requires held { HasHolds heap.old (own_holds_at self.now.phase) }
        requires bounded { AreSmall policy.old.numbers }
        ensures takes { TakesTurn script.now (facts_of self.now) self.now.phase heap.old policy.old
            heap.new policy.new result }
        ensures stops { (set_aside : ℕ) → self.now.phase ≡ phase_of.Stopping set_aside → result
            ≡ stop_turn (facts_of self.now) set_aside }
        ensures looks { steps.new + looks_left self.now.phase result.phase heap.new ≤ steps.old +
            most_looks self.now.generation self.now.phase heap.old }
        ensures apart { self.now.phase ≡ phase_of.Start → detection_at result.phase ≡ None }
    {
        let facts = Facts {
            generation: self.generation,
            flags: self.flags,
            collected: self.collected,
        };
        match self.phase {
            Phase::Start => start(facts, heap, policy, script, steps),
            Phase::Sizes {
                zero,
                one,
                two,
                frozen,
            } => tell_sizes(facts, heap, zero, one, two, frozen),
            Phase::Telling(next) => tell_condemned(heap, next),
            Phase::WeakClearing { member, weak } => {
                clear_one(heap, script.profile(), member, weak, steps)
            }
            Phase::WeakCalling => call_one(heap, steps),
            Phase::AfterCallback(weak) => after_callback(weak),
            Phase::AfterRelease(weak) => after_release(facts, heap, weak),
            Phase::Finalizing => look_at_one(heap, script),
            Phase::AfterFinalizing(object) => after_finalizer(object),
            Phase::Split => detect(facts, heap, steps),
            Phase::Living(next) => tell_living(facts, heap, next),
            Phase::Detaching(next) => detach_one(heap, next, steps),
            Phase::Unlinking { member, weak } => unlink_one(heap, member, weak, steps),
            Phase::Turns => take_turn(facts, heap),
            Phase::Turn(object) => empty_one(heap, object, steps),
            Phase::AfterTurn(object) => after_turn(facts, heap, object),
            Phase::Ending => end(facts, heap, policy, script),
            Phase::Uncollectable {
                first,
                next,
                number,
            } => tell_uncollectable(facts, heap, first, next, number),
            Phase::Saved { next, number } => tell_saved(facts, heap, script, next, number),
            Phase::Stopping(number) => tell_end(facts, number),
            Phase::Over(number) => Turn::answers(
                Phase::Over(number),
                CollectStep::Finished {
                    collected: self.collected,
                    uncollectable: number,
                },
            ),
        }
    }
}
