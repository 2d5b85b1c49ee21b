//! A release on top.
ghost use Rattle.std.specs.Prelude.{◌≡◌, ◌<◌, IfSome};
ghost use Rattle.cg_script.specs.declared.Script.{Script as AnyScript};
ghost use Rattle.cg_machine.specs.World.{World};
ghost use Rattle.cg_machine.specs.Frame.{begin_death};
ghost use Rattle.cg_graph.specs.Value.{references_of_value};
ghost use Rattle.cg_death.specs.Activities.{references_left, IsUnheld};
ghost use Rattle.cg_death.specs.Answers.{MakesNone};
ghost use Rattle.cg_interp.specs.declared.activity.Activity.TheVariants as activity_of;
ghost use Rattle.cg_interp.specs.Engines.{State, StandsFor, under, over};
ghost use Rattle.cg_interp.specs.Quietly.{Released};
ghost use Rattle.cg_interp.specs.Turns.{Turns, DyingIsSound, StaysSound, TurnKeeps};

use crate::activity::Activity;
use crate::engine::Engine;
use crate::turned::Turned;
use cg_death::{DeathStep, Release};
use cg_heap::Heap;
use cg_kind::Kind;
use cg_value::{Entry, Val};

impl<B: Kind> Engine<B> {
    /// Goes on with a release, taken from the top: gives up its references, until one leaves its
    /// object unheld. The death of that object begins.
    #[inline(always)]
    pub fn go_on_releasing(&mut self, release: Release) -> Turned
        requires room { 1 < self.old.room }
        requires stands { (script : AnyScript) × (w : World)
            × StandsFor script (under (activity_of.Releasing release) self.old) w
            × StaysSound script w }
        ensures turns { (script : AnyScript) (w : World)
            → StandsFor script (under (activity_of.Releasing release) self.old) w
            → StaysSound script w → Turns script w self.new result }
        ensures keeps { TurnKeeps self.old self.new }
    {
        let mut release = release;
        match give_up(&mut self.heap, &mut release) {
            Some(object) => {
                self.die_in(release, object);
                Turned::Quiet
            }
            None => Turned::Quiet,
        }
    }

    /// Begins the death of an object that a release, taken from the top, answers.
    pub fn die_in(&mut self, release: Release, object: u64)
        requires unheld { IsUnheld self.old.store object }
        requires room { 1 < self.old.room }
        requires stands { (script : AnyScript) × (w : World)
            × StandsFor script (under (activity_of.Releasing release) self.old) w
            × DyingIsSound (begin_death object w) }
        ensures begins { (script : AnyScript) (w : World)
            → StandsFor script (under (activity_of.Releasing release) self.old) w
            → StandsFor script self.new (begin_death object w) }
        ensures keeps { TurnKeeps self.old self.new }
    {
        self.stack.push(Activity::Releasing(release));
        self.die(object);
    }
}

/// Gives up what a name had, where that is a reference, else nothing.
pub fn release_of(val: Option<Val>) -> Release
    ensures { references_left result ≡ references_of_value val }
{
    Release::new(Entry {
        key: Val::None,
        val: val.unwrap_or(Val::None),
    })
}

/// Gives up the references of a release one after the other, up to one whose object nothing holds
/// any more. It answers that object, if there is one: its death is to begin.
#[inline(always)]
pub fn give_up<B: Kind>(heap: &mut Heap<B>, release: &mut Release) -> Option<u64>
    requires stands { (script : AnyScript) × (e : State) × (w : World)
        × StandsFor script (under (activity_of.Releasing release.old) (over heap.old e)) w
        × StaysSound script w }
    ensures releases { (script : AnyScript) (e : State) (w : World)
        → StandsFor script (under (activity_of.Releasing release.old) (over heap.old e)) w
        → StaysSound script w
        → Released script w (over heap.new e) release.new result }
    ensures unheld { IfSome result (λ o. IsUnheld heap.new o) }
    ensures objects { MakesNone heap.old heap.new }
{
    'references: loop {
        match release.step(heap) {
            DeathStep::Continue => {}
            DeathStep::Died(object) => return Some(object),
            DeathStep::Gone => return None,
            _ => unreachable!(),
        }
    }
}
