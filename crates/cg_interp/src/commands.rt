//! What the engine does after a command.
ghost use Rattle.std.specs.Prelude.{◌≡◌, ◌<◌, ◌≤◌, ◌++◌, ◌∷◌, true, false, [], Ok, IfNone, OnSome};
ghost use Rattle.cg_value.specs.declared.Val.TheVariants as val_of;
ghost use Rattle.cg_graph.specs.Value.{item};
ghost use Rattle.cg_graph.specs.Store.{IsLive, Store};
ghost use Rattle.cg_heap.specs.Calls.{HasFewHolds};
ghost use Rattle.cg_script.specs.declared.Script.{Script as AnyScript};
ghost use Rattle.cg_script.specs.declared.Command.{Command as AnyCommand};
ghost use Rattle.cg_script.specs.Spelled.{IsSpelled};
ghost use Rattle.cg_death.specs.Activities.{IsUnheld};
ghost use Rattle.cg_machine.specs.World.{World, push, with_stack};
ghost use Rattle.cg_machine.specs.declared.event.FrameSort.TheVariants as sort_of;
ghost use Rattle.cg_machine.specs.Frame.{start_frame, procedure_of, begin_death};
ghost use Rattle.cg_represents.specs.Represents.{Represents};
ghost use Rattle.cg_machine.specs.Commands.{refused, stopped_frame, without_commands, new_collection, effect};
ghost use Rattle.cg_laws.specs.Kept.{StaysKept};
ghost use Rattle.cg_machine.specs.Effects.{Collects};
ghost use Rattle.cg_policy.specs.Policy.{Policy as AnyPolicy};
ghost use Rattle.cg_interp.specs.declared.activity.Activity.TheVariants as activity_of;
ghost use Rattle.cg_interp.specs.Engines.{StandsFor, under};
ghost use Rattle.cg_interp.specs.Quietly.{ComesTo};
ghost use Rattle.cg_interp.specs.Collecting.{StandsWith};
ghost use Rattle.cg_interp.specs.Callers.{caller_activity, Changes, releasing, transition_of_change, call_of, told, GivesUp, DoesAny, Tells, TellsTo, IsPerformed, HasPerformed, StaysKeptAfter};
ghost use Rattle.cg_interp.specs.Turns.{Makes, entered, TurnKeeps, IsFit, StaysSound, DyingIsSound};

use crate::activity::Activity;
use crate::caller::Caller;
use crate::engine::Engine;
use crate::releases::{give_up, release_of};
use crate::turned::Turned;
use cg_commands::{Done, Lines, Refusal};
use cg_death::Release;
use cg_heap::Heap;
use cg_kind::Kind;
use cg_machine::{Event, FrameSort, FrameSpec};
use cg_value::Entry;

impl<B: Kind> Engine<B> {
    /// What the engine does after a command of the caller, taken from the top. Answers `None` if the
    /// caller is to go on; it is then not put back, and the command's line, if any, is in `waiting`.
    #[inline(always)]
    pub fn answer(
        &mut self,
        caller: &Caller,
        done: Result<Done, Refusal>,
        waiting: &mut Vec<Event>,
    ) -> Option<Turned>
        requires room { 2 < self.old.room }
        requires performed { (script : AnyScript) × IsSpelled script × IsFit script self.old
            × HasPerformed script (caller_activity caller.now) self.old done }
        ensures does { (script : AnyScript) (w : World) (command : AnyCommand) (before : Store)
            (was : AnyPolicy)
            → IsPerformed script (caller_activity caller.now) self.old w command before was done
            → TellsTo script w command (caller_activity caller.now) self.new waiting.old.items
            waiting.new.items result }
        ensures waits { OnSome result (waiting.new.items ≡ waiting.old.items) }
        ensures policy { IfNone result (self.new.policy ≡ self.old.policy) }
        ensures keeps { TurnKeeps self.old self.new }
    {
        match done {
            Ok(done) => self.proceed(caller, done, waiting),
            Err(refusal) => Some(self.refuse(caller, refusal.number())),
        }
    }

    /// The same after a command that was not refused.
    #[inline(always)]
    fn proceed(&mut self, caller: &Caller, done: Done, waiting: &mut Vec<Event>) -> Option<Turned>
        requires room { 2 < self.old.room }
        requires performed { (script : AnyScript) × IsSpelled script × IsFit script self.old
            × HasPerformed script (caller_activity caller.now) self.old (Ok done) }
        ensures does { (script : AnyScript) (w : World) (command : AnyCommand) (before : Store)
            (was : AnyPolicy)
            → IsPerformed script (caller_activity caller.now) self.old w command before was
            (Ok done)
            → TellsTo script w command (caller_activity caller.now) self.new waiting.old.items
            waiting.new.items result }
        ensures waits { OnSome result (waiting.new.items ≡ waiting.old.items) }
        ensures policy { IfNone result (self.new.policy ≡ self.old.policy) }
        ensures keeps { TurnKeeps self.old self.new }
    {
        match done {
            Done::Changed { line, given_up } => {
                match self.give_up_after(caller, line, given_up) {
                    Some(answer) => Some(answer),
                    None => self.tell_line(caller, line, waiting),
                }
            }
            Done::Calls(function) => Some(self.call(caller, function)),
            Done::Collects(generation) => Some(self.collect_if_idle(caller, generation)),
            Done::Quits => Some(self.quit(caller)),
            Done::Tells(lines) => Some(self.tell(caller, lines)),
        }
    }

    /// A command was refused, which also ends its frame.
    #[inline(always)]
    pub fn refuse(&mut self, caller: &Caller, number: u8) -> Turned
        requires room { 0 < self.old.room }
        ensures refuses { (script : AnyScript) (w : World)
            → StandsFor script (under (caller_activity caller.now) self.old) w
            → Makes script (refused number w) self.new result }
        ensures keeps { TurnKeeps self.old self.new }
    {
        self.stop_frame(caller);
        Turned::Line(Event::Refused(number))
    }

    /// Puts a caller back; a frame without its remaining commands.
    #[inline(never)]
    fn stop_frame(&mut self, caller: &Caller)
        requires room { 0 < self.old.room }
        ensures stops { (script : AnyScript) (w : World)
            → StandsFor script (under (caller_activity caller.now) self.old) w
            → StandsFor script self.new (with_stack (stopped_frame w.stack) w) }
        ensures keeps { TurnKeeps self.old self.new }
    {
        self.stack.push(caller.stopped_frame().activity());
    }

    /// A command made its change, and references are given up. If that leaves an object unheld, its
    /// death begins.
    #[inline(always)]
    pub fn give_up_after(
        &mut self,
        caller: &Caller,
        line: Option<Event>,
        given_up: Entry,
    ) -> Option<Turned>
        requires room { 2 < self.old.room }
        requires stands { (script : AnyScript) × (after : World)
            × Changes script (caller_activity caller.now) self.old given_up after
            × StaysSound script (releasing given_up after) }
        ensures gives_up { (script : AnyScript) (after : World)
            → Changes script (caller_activity caller.now) self.old given_up after
            → StaysSound script (releasing given_up after)
            → GivesUp script (releasing given_up after) (caller_activity caller.now) self.new line
            result }
        ensures room { IfNone result (self.new.room ≡ self.old.room) }
        ensures policy { IfNone result (self.new.policy ≡ self.old.policy) }
        ensures keeps { TurnKeeps self.old self.new }
    {
        let mut release = Release::new(given_up);
        let object = give_up(&mut self.heap, &mut release)?;
        self.die_above(caller, release, object);
        Some(told(line))
    }

    /// Begins the death of an object that a release above the caller answers. Puts both back.
    #[inline(never)]
    fn die_above(&mut self, caller: &Caller, release: Release, object: u64)
        requires unheld { IsUnheld self.old.store object }
        requires room { 2 < self.old.room }
        requires stands { (script : AnyScript) × (w : World)
            × StandsFor script (under (activity_of.Releasing release)
            (under (caller_activity caller.now) self.old)) w
            × DyingIsSound (begin_death object w) }
        ensures begins { (script : AnyScript) (w : World)
            → StandsFor script (under (activity_of.Releasing release)
            (under (caller_activity caller.now) self.old)) w
            → StandsFor script self.new (begin_death object w) }
        ensures keeps { TurnKeeps self.old self.new }
    {
        self.stack.push(caller.activity());
        self.die_in(release, object);
    }

    /// A line, if any, waits, and the caller goes on. If no more lines can wait, it ends the turn;
    /// then the caller is put back.
    #[inline(always)]
    fn tell_line(
        &mut self,
        caller: &Caller,
        line: Option<Event>,
        waiting: &mut Vec<Event>,
    ) -> Option<Turned>
        requires room { 0 < self.old.room }
        ensures tells { (script : AnyScript) (w : World)
            → ComesTo script w (under (caller_activity caller.now) self.old)
            → Tells script w (caller_activity caller.now) self.new line waiting.old.items waiting.new.items
            result }
        ensures waits { OnSome result (waiting.new.items ≡ waiting.old.items) }
        ensures policy { IfNone result (self.new.policy ≡ self.old.policy) }
        ensures keeps { TurnKeeps self.old self.new }
    {
        match line {
            Some(event) => {
                if keep(waiting, event) {
                    None
                } else {
                    self.wait(caller);
                    Some(Turned::Line(event))
                }
            }
            None => None,
        }
    }

    /// Puts a caller back, to go on later.
    #[inline(never)]
    fn wait(&mut self, caller: &Caller)
        requires room { 0 < self.old.room }
        ensures waits { (script : AnyScript) (w : World)
            → StandsFor script (under (caller_activity caller.now) self.old) w
            → StandsFor script self.new w }
        ensures keeps { TurnKeeps self.old self.new }
    {
        self.stack.push(caller.activity());
    }

    /// A command prints lines and gives nothing up.
    #[inline(always)]
    fn tell(&mut self, caller: &Caller, lines: Lines) -> Turned
        requires room { 1 < self.old.room }
        ensures tells { (script : AnyScript) (after : World)
            → Changes script (caller_activity caller.now) self.old (item val_of.None) after
            → Makes script (transition_of_change lines (item val_of.None) after) self.new result }
        ensures keeps { TurnKeeps self.old self.new }
    {
        self.wait_releasing(caller);
        Turned::Lines(lines)
    }

    /// Puts a caller back, with an empty release on top.
    #[inline(never)]
    fn wait_releasing(&mut self, caller: &Caller)
        requires room { 1 < self.old.room }
        ensures waits { (script : AnyScript) (after : World)
            → Changes script (caller_activity caller.now) self.old (item val_of.None) after
            → StandsFor script self.new (releasing (item val_of.None) after) }
        ensures keeps { TurnKeeps self.old self.new }
    {
        self.stack.push(caller.activity());
        self.stack.push(Activity::Releasing(release_of(None)));
    }

    /// A command ends its frame, or the script.
    #[inline(always)]
    fn quit(&mut self, caller: &Caller) -> Turned
        requires room { 0 < self.old.room }
        ensures quits { (script : AnyScript) (w : World)
            → StandsFor script (under (caller_activity caller.now) self.old) w
            → Makes script ([], with_stack (without_commands w.stack) w) self.new result }
        ensures keeps { TurnKeeps self.old self.new }
    {
        self.stop(caller);
        Turned::Quiet
    }

    /// Puts a caller back, without commands.
    #[inline(never)]
    fn stop(&mut self, caller: &Caller)
        requires room { 0 < self.old.room }
        ensures stops { (script : AnyScript) (w : World)
            → StandsFor script (under (caller_activity caller.now) self.old) w
            → StandsFor script self.new (with_stack (without_commands w.stack) w) }
        ensures keeps { TurnKeeps self.old self.new }
    {
        self.stack.push(caller.with_next(None).activity());
    }

    /// A command calls a function.
    #[inline(always)]
    fn call(&mut self, caller: &Caller, function: u64) -> Turned
        requires few { HasFewHolds self.old.store }
        requires live { IsLive self.old.store function }
        requires room { 1 < self.old.room }
        ensures calls { (script : AnyScript) (w : World)
            → StandsFor script (under (caller_activity caller.now) self.old) w
            → Makes script (start_frame script (call_of function w) w) self.new result }
        ensures keeps { TurnKeeps self.old self.new }
    {
        if self.start_call(caller, function) {
            Turned::Line(Event::Enter {
                sort: FrameSort::Call,
                serial: function,
            })
        } else {
            Turned::Spent
        }
    }

    /// Starts the frame of a call above the caller, which is put back. Answers whether the budget
    /// had a frame left.
    #[inline(never)]
    fn start_call(&mut self, caller: &Caller, function: u64) -> bool
        requires few { HasFewHolds self.old.store }
        requires live { IsLive self.old.store function }
        requires room { 1 < self.old.room }
        ensures calls { (script : AnyScript) (w : World)
            → StandsFor script (under (caller_activity caller.now) self.old) w
            → Makes script (start_frame script (call_of function w) w) self.new
            (entered sort_of.Call function result) }
        ensures keeps { TurnKeeps self.old self.new }
    {
        let proc = procedure_of(&self.heap, function);
        self.stack.push(caller.activity());
        self.enters(FrameSpec {
            sort: FrameSort::Call,
            proc,
            subject: function,
            func: Some(function),
        })
    }

    /// Starts the collection that a command asks for. If one is under way, none starts, and the
    /// answer is 0.
    #[inline(always)]
    fn collect_if_idle(&mut self, caller: &Caller, generation: u8) -> Turned
        requires generation { generation ≤ 2 }
        requires room { 2 < self.old.room }
        requires stands { (script : AnyScript) × IsSpelled script × IsFit script self.old
            × (command : AnyCommand) × (w : World)
            × StandsFor script (under (caller_activity caller.now) self.old) w
            × (effect w command ≡ Ok (Collects generation)) × StaysKeptAfter script
            self.old.first_budget w command }
        ensures does { (script : AnyScript) (command : AnyCommand) (w : World)
            → StandsFor script (under (caller_activity caller.now) self.old) w
            → effect w command ≡ Ok (Collects generation) → DoesAny script w command self.new
            result }
        ensures keeps { TurnKeeps self.old self.new }
    {
        if self.policy.running() {
            self.wait(caller);
            Turned::Line(Event::Collected(0))
        } else {
            self.collect_asked(caller, generation);
            Turned::Quiet
        }
    }

    /// Begins a requested collection above the caller, which is put back.
    #[inline(never)]
    fn collect_asked(&mut self, caller: &Caller, generation: u8)
        requires generation { generation ≤ 2 }
        requires room { 1 < self.old.room }
        requires idle { self.old.policy.running ≡ false }
        requires stands { (script : AnyScript) × IsSpelled script × IsFit script self.old
            × (w : World) × StandsFor script (under (caller_activity caller.now) self.old) w
            × StaysKept script self.old.first_budget (push (new_collection generation true w) w) }
        ensures begins { (script : AnyScript) (w : World)
            → StandsFor script (under (caller_activity caller.now) self.old) w
            → StandsWith script self.new [] (push (new_collection generation true w) w) }
        ensures keeps { TurnKeeps self.old self.new }
    {
        self.collect(caller.activity(), true, generation);
    }
}

/// How many lines of commands a turn lets wait, at most.
pub const MOST_WAITING: usize = 64;

/// Keeps a line that waits to be printed. Answers whether there was room for it.
#[inline(always)]
fn keep(waiting: &mut Vec<Event>, event: Event) -> bool
    ensures kept { result ≡ true → waiting.new.items ≡ waiting.old.items ++ event ∷ [] }
    ensures full { result ≡ false → waiting.new.items ≡ waiting.old.items }
{
    if waiting.len() < MOST_WAITING {
        waiting.push(event).is_ok()
    } else {
        false
    }
}

/// The answer with this line, or without one.
#[inline(always)]
fn told(line: Option<Event>) -> Turned
    ensures { result ≡ told line }
{
    match line {
        Some(event) => Turned::Line(event),
        None => Turned::Quiet,
    }
}

/// The procedure of a function.
fn procedure_of<B: Kind>(heap: &Heap<B>, function: u64) -> u32
    requires { IsLive heap.now function }
    ensures { (w : World) → Represents heap.now w → procedure_of w function ≡ result }
{
    heap.class_of(function).unwrap_or(0)
}
