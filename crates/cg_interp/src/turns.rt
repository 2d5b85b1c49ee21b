//! One turn of a run.
ghost use Rattle.std.specs.Prelude.{◌≡◌, [], None, IsSome};
ghost use Rattle.cg_script.specs.declared.Script.{Script as AnyScript};
ghost use Rattle.cg_interp.specs.declared.activity.Activity.TheVariants as activity_of;
ghost use Rattle.cg_interp.specs.Engines.{under};
ghost use Rattle.cg_interp.specs.Stacks.{death_in, death_on, asked_in, asked_on};
ghost use Rattle.cg_interp.specs.Turns.{IsFit, StaysFit};
ghost use Rattle.cg_interp.specs.Telling.{IsAtTurn, TurnsFrom, IsAtAnyTurn, TurnsAny, TurnsAnyBy};

use crate::activity::Activity;
use crate::engine::Engine;
use crate::turned::Turned;
use cg_death::Release;
use cg_heap::Steps;
use cg_kind::Kind;
use cg_machine::Event;
use cg_script::Script;
use std::sync::ledger::Ledger;

impl<B: Kind> Engine<B> {
    /// One turn: the top activity goes on. The lines in `waiting` come before those of the answer.
    pub fn turn<L: Ledger>(
        &mut self,
        script: &Script,
        steps: &mut Steps<L>,
        waiting: &mut Vec<Event>,
    ) -> Turned
        requires stands { IsAtAnyTurn script.now self.old }
        requires empty { waiting.old.items ≡ [] }
        ensures turns { TurnsAnyBy script.now waiting.new.items self.old self.new result }
        ensures fit { StaysFit self.old self.new }
    {
        if self.stack.has_death_on_top() {
            self.turn_of_death(script)
        } else if let Some(asked) = self.stack.asked_on_top() {
            self.turn_of_collection(asked, script, steps)
        } else {
            self.turn_of_another(script, waiting)
        }
    }

    /// A turn of an activity on top that is neither a death nor a collection. It is taken off.
    #[inline(always)]
    fn turn_of_another(&mut self, script: &Script, waiting: &mut Vec<Event>) -> Turned
        requires no_death { death_on self.old.activities ≡ None }
        requires no_collection { asked_on self.old.activities ≡ None }
        requires stands { IsAtAnyTurn script.now self.old }
        requires empty { waiting.old.items ≡ [] }
        ensures turns { TurnsAnyBy script.now waiting.new.items self.old self.new result }
        ensures fit { StaysFit self.old self.new }
    {
        match self.stack.pop() {
            Some(top) => self.turn_of(top, script, waiting),
            None => unreachable!(),
        }
    }

    /// The same, taken from the top.
    #[inline(always)]
    fn turn_of(&mut self, top: Activity, script: &Script, waiting: &mut Vec<Event>) -> Turned
        requires no_death { death_in top ≡ None }
        requires no_collection { asked_in top ≡ None }
        requires fit { IsFit script.now self.old }
        requires stands { IsAtAnyTurn script.now (under top self.old) }
        requires empty { waiting.old.items ≡ [] }
        ensures turns { TurnsAnyBy script.now waiting.new.items (under top self.old) self.new result }
        ensures fit { StaysFit self.old self.new }
    {
        match top {
            Activity::Script { next } => self.go_on(script, next, waiting),
            Activity::Frame {
                locals,
                procedure,
                next,
            } => self.go_on_in(script, locals, procedure, next, waiting),
            Activity::Releasing(release) => self.turn_of_release(release),
            Activity::Shutdown { started } => self.turn_of_shutdown(started),
            Activity::Dying(_) => unreachable!(),
            Activity::Collecting { .. } => unreachable!(),
        }
    }

    /// A turn of a release, taken from the top.
    #[inline(always)]
    fn turn_of_release(&mut self, release: Release) -> Turned
        requires stands { (script : AnyScript) × IsAtTurn script (activity_of.Releasing release)
            self.old }
        ensures turns { (script : AnyScript) →
            TurnsFrom script (activity_of.Releasing release) self.old self.new result }
        ensures fit { StaysFit self.old self.new }
    {
        self.go_on_releasing(release)
    }

    /// A turn of the shutdown, taken from the top.
    #[inline(always)]
    fn turn_of_shutdown(&mut self, started: bool) -> Turned
        requires stands { (script : AnyScript) × IsAtTurn script (activity_of.Shutdown started)
            self.old }
        ensures turns { (script : AnyScript) → TurnsFrom script (activity_of.Shutdown started)
            self.old self.new result }
        ensures fit { StaysFit self.old self.new }
    {
        self.heap.sound();
        if started {
            self.tell_left()
        } else {
            self.shut_down()
        }
    }

    /// A turn of the death on top.
    #[inline(always)]
    fn turn_of_death(&mut self, script: &Script) -> Turned
        requires dying { IsSome (death_on self.old.activities) }
        requires stands { IsAtAnyTurn script.now self.old }
        ensures turns { TurnsAny script.now self.old self.new result }
        ensures fit { StaysFit self.old self.new }
    {
        self.go_on_dying(script)
    }
}
