//! The shutdown at the end of a script that declares one: all names are given up, a full collection
//! runs, and what is left is counted.
ghost use Rattle.std.specs.Prelude.{◌≡◌, ◌<◌, ℕ, Option, [], None, Some, false, true, length};
ghost use Rattle.cg_script.specs.declared.Script.{Script as AnyScript};
ghost use Rattle.cg_heap.specs.Calls.{HasFewHolds, IsSound};
ghost use Rattle.cg_machine.specs.Program.{commands_of};
ghost use Rattle.cg_machine.specs.World.{World};
ghost use Rattle.cg_machine.specs.Due.{due};
ghost use Rattle.cg_machine.specs.Shutdown.{greatest_from};
ghost use Rattle.cg_interp.specs.declared.activity.Activity.TheVariants as activity_of;
ghost use Rattle.cg_interp.specs.Engines.{StandsFor, under, commands_from};
ghost use Rattle.cg_interp.specs.Turns.{Turns, TurnKeeps};
ghost use Rattle.cg_interp.specs.Telling.{IsAtTurn, TurnsFrom};

use crate::activity::Activity;
use crate::engine::Engine;
use crate::releases::release_of;
use crate::turned::Turned;
use cg_kind::Kind;
use cg_script::Script;

impl<B: Kind> Engine<B> {
    /// The script, taken from the top, has no command left: the run ends, or the shutdown replaces
    /// it.
    pub fn end_commands(&mut self, script: &Script) -> Turned
        requires room { 0 < self.old.room }
        ensures ends { (next : Option ℕ) (w : World)
            → commands_from next (commands_of script.now.items) ≡ [] → due w ≡ None
            → StandsFor script.now (under (activity_of.Script next) self.old) w
            → Turns script.now w self.new result }
        ensures keeps { TurnKeeps self.old self.new }
    {
        if script.shutdown() {
            self.stack.push(Activity::Shutdown { started: false });
            Turned::Quiet
        } else {
            Turned::Ended
        }
    }

    /// Gives up the bound name with the greatest number, or starts the last collection if none is
    /// bound. The shutdown was taken from the top.
    pub fn shut_down(&mut self) -> Turned
        requires few { HasFewHolds self.old.store }
        requires room { 2 < self.old.room }
        requires stands { (script : AnyScript) × IsAtTurn script (activity_of.Shutdown false)
            self.old }
        ensures turns { (script : AnyScript) → TurnsFrom script (activity_of.Shutdown false)
            self.old self.new result }
        ensures keeps { TurnKeeps self.old self.new }
    {
        match self.greatest_bound() {
            Some(name) => self.give_up(name),
            None => {
                self.collect(Activity::Shutdown { started: true }, false, 2);
                Turned::Quiet
            }
        }
    }

    /// The bound name with the greatest number. Skips a name that is given up, once.
    fn greatest_bound(&mut self) -> Option<u32>
        ensures same { self.new ≡ self.old }
        ensures greatest { result ≡ greatest_from 0 self.old.store.names }
    {
        self.heap.greatest_name()
    }

    /// Gives up the value of a name, the greatest bound one. The shutdown was taken from the top.
    fn give_up(&mut self, name: u32) -> Turned
        requires name { name < length self.old.store.names }
        requires few { HasFewHolds self.old.store }
        requires room { 1 < self.old.room }
        ensures gives { greatest_from 0 self.old.store.names ≡ Some name
            → (script : AnyScript) (w : World)
            → StandsFor script (under (activity_of.Shutdown false) self.old) w
            → Turns script w self.new result }
        ensures keeps { TurnKeeps self.old self.new }
    {
        self.heap.sound();
        let val = self.heap.unbind(name);
        self.stack.push(Activity::Shutdown { started: false });
        self.stack.push(Activity::Releasing(release_of(val)));
        Turned::Quiet
    }

    /// Reports how many objects are left, and ends the run. The shutdown was taken from the top,
    /// and its collection is over.
    pub fn tell_left(&self) -> Turned
        requires sound { IsSound self.now.store }
        ensures left { (script : AnyScript) (w : World)
            → StandsFor script (under (activity_of.Shutdown true) self.now) w
            → Turns script w self.now result }
    {
        Turned::Left(self.heap.live())
    }
}
