//! A death on top of the stack.
ghost use Rattle.std.specs.Prelude.{◌≡◌, ◌≢◌, ◌<◌, ◌≤◌, []};
ghost use Rattle.cg_script.specs.declared.Script.{Script as AnyScript};
ghost use Rattle.cg_machine.specs.World.{World};
ghost use Rattle.cg_machine.specs.Frame.{begin_death};
ghost use Rattle.cg_death.specs.declared.answer.DeathStep.TheVariants as answer_of;
ghost use Rattle.cg_death.specs.Activities.{IsUnheld};
ghost use Rattle.cg_death.specs.Deaths.{on_stack};
ghost use Rattle.cg_death.specs.Steady.{DiesUnheld};
ghost use Rattle.cg_death.specs.Answers.{numbers_after, MakesNone};
ghost use Rattle.cg_policy.specs.Policy.{with_numbers};
ghost use Rattle.cg_laws.specs.Kept.{StaysKept};
ghost use Rattle.cg_interp.specs.Engines.{StandsFor};
ghost use Rattle.cg_interp.specs.Quietly.{IsActing, Acts, DiesNext, ActsOnTop, HasSomeCause};
ghost use Rattle.cg_interp.specs.Turns.{DyingIsSound, Turns, TurnKeeps};

use crate::activity::Activity;
use crate::engine::Engine;
use crate::turned::Turned;
use cg_death::{Death, DeathStep};
use cg_heap::Heap;
use cg_kind::Kind;
use cg_machine::Event;
use cg_script::Script;

impl<B: Kind> Engine<B> {
    /// The death of an object begins.
    pub fn die(&mut self, object: u64)
        requires unheld { IsUnheld self.old.store object }
        requires room { 0 < self.old.room }
        requires stands { (script : AnyScript) × (w : World) × StandsFor script self.old w
            × DyingIsSound (begin_death object w) }
        ensures begins { (script : AnyScript) (w : World) → StandsFor script self.old w
            → StandsFor script self.new (begin_death object w) }
        ensures keeps { TurnKeeps self.old self.new }
    {
        let death = Death::begin(&mut self.heap, object);
        self.stack.push(Activity::Dying(death));
    }

    /// The actions of the death on top one after the other, as long as the machine goes on without
    /// a line. The death begins of another object that nothing holds any more.
    #[inline(always)]
    pub fn go_on_dying(&mut self, script: &Script) -> Turned
        requires room { 0 < self.old.room }
        requires stands { DiesNext script.now self.old }
        ensures turns { (w : World) → StandsFor script.now self.old w
            → StaysKept script.now self.old.first_budget w → Turns script.now w self.new result }
        ensures keeps { TurnKeeps self.old self.new }
    {
        match self.act_on_top(script) {
            DeathStep::Continue => unreachable!(),
            DeathStep::Gone => Turned::Quiet,
            DeathStep::Emit(event) => {
                self.count_freed(event);
                Turned::Line(event)
            }
            DeathStep::Frame(spec) => self.start(spec),
            DeathStep::Died(object) => {
                self.die(object);
                Turned::Quiet
            }
        }
    }

    /// Takes the actions of the death on top, in its place, until one ends the turn. A death that
    /// is over is taken off.
    #[inline(always)]
    fn act_on_top(&mut self, script: &Script) -> DeathStep
        requires stands { DiesNext script.now self.old }
        ensures acts { ActsOnTop script.now self.old self.new result }
        ensures more { result ≢ answer_of.Continue }
        ensures cause { HasSomeCause self.new.store result }
        ensures died { DiesUnheld result self.new.store }
        ensures room { self.old.room ≤ self.new.room }
        ensures keeps { TurnKeeps self.old self.new }
    {
        let death = self.stack.death_on_top_mut();
        let answer = act(&mut self.heap, death, script);
        if death.is_over() {
            self.stack.pop();
        }
        answer
    }

    /// Makes the policy count a freed object, if a line reports one.
    fn count_freed(&mut self, event: Event)
        ensures counts { self.new.policy
            ≡ with_numbers (numbers_after event self.old.policy.numbers) self.old.policy }
        ensures store { self.new.store ≡ self.old.store }
        ensures activities { self.new.activities ≡ self.old.activities }
        ensures budget { self.new.budget ≡ self.old.budget }
        ensures keeps { TurnKeeps self.old self.new }
    {
        match event {
            Event::Free(_) => self.policy.freed(),
            _ => {}
        }
    }
}

/// Takes the actions of a death, until one ends the turn.
fn act<B: Kind>(heap: &mut Heap<B>, death: &mut Death, script: &Script) -> DeathStep
    requires stands { IsActing script.now heap.old death.old }
    ensures acts { Acts script.now heap.old death.old heap.new death.new result }
    ensures more { result ≢ answer_of.Continue }
    ensures cause { HasSomeCause heap.new result }
    ensures over { result ≡ answer_of.Gone → on_stack death.new heap.new ≡ [] }
    ensures died { DiesUnheld result heap.new }
    ensures objects { MakesNone heap.old heap.new }
{
    'actions: loop {
        heap.sound();
        match death.step(heap, script) {
            DeathStep::Continue => {
                heap.sound();
            }
            answer => return answer,
        }
    }
}
