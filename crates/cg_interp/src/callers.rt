//! The script, or a frame, on top.
ghost use Rattle.std.specs.Prelude.{◌≡◌, ◌<◌, ◌≤◌, ◌+◌, ◌∷◌, ℕ, true, false, [], length, Option, Some, None, IfNone, OnSome};
ghost use Rattle.cg_machine.specs.Program.{commands_of, body_of as body_in};
ghost use Rattle.cg_machine.specs.World.{World, push};
ghost use Rattle.cg_machine.specs.Commands.{new_collection};
ghost use Rattle.cg_laws.specs.Kept.{StaysKept};
ghost use Rattle.cg_script.specs.declared.Script.{Script as AnyScript};
ghost use Rattle.cg_script.specs.Spelled.{IsSpelled, IsSpelledCommand};
ghost use Rattle.cg_commands.specs.Attempts.{only_changes};
ghost use Rattle.cg_commands.specs.Stands.{LocalsLive};
ghost use Rattle.cg_policy.specs.Policy.{due_of};
ghost use Rattle.cg_interp.specs.declared.activity.Activity.TheVariants as activity_of;
ghost use Rattle.cg_interp.specs.Engines.{StandsFor, under, commands_from};
ghost use Rattle.cg_interp.specs.Collecting.{StandsWith};
ghost use Rattle.cg_interp.specs.Turns.{IsFit, StaysFit, TurnKeeps, HasRoomForOneMore, HasMoreRoom};
ghost use Rattle.cg_interp.specs.Telling.{IsAtTurn, TurnsFrom, TurnsBy};
ghost use Rattle.cg_interp.specs.Callers.{caller_activity, caller_locals, frame_caller, with_next, MayCommand, ComesNext, IsAtCommand, TellsTo, StepsFrom, StepsOn};

use crate::activity::Activity;
use crate::caller::{Caller, Runner};
use crate::engine::Engine;
use crate::next::{body_of, next_change, next_in, next_of};
use crate::turned::Turned;
use cg_commands::{Locals, change, makes_object, only_changes, perform};
use cg_kind::Kind;
use cg_machine::Event;
use cg_script::{Command, Script};

impl<B: Kind> Engine<B> {
    /// Goes on with the script, taken from the top: does command after command, until one starts
    /// something or no more lines can wait. A due collection comes first, also before the end or
    /// the shutdown. The lines in `waiting` come before those of the answer.
    pub fn go_on(
        &mut self,
        script: &Script,
        next: Option<usize>,
        waiting: &mut Vec<Event>,
    ) -> Turned
        requires stands { IsAtTurn script.now (activity_of.Script next) self.old }
        requires empty { waiting.old.items ≡ [] }
        ensures turns { TurnsBy script.now waiting.new.items (activity_of.Script next) self.old self.new
            result }
        ensures fit { StaysFit self.old self.new }
    {
        let mut next = next;
        // Built once; rebuilding would copy every field for each command.
        let mut caller = Caller {
            runner: Runner::Script,
            next,
        };
        'commands: loop {
            match next_in(&script.items, next) {
                Some((command, after)) => {
                    caller.go_on_from(after);
                    match self.step(&caller, &None, next, command, waiting) {
                        Some(answer) => return answer,
                        None => next = Some(after),
                    }
                }
                None => return self.end(script, next),
            }
        }
    }

    /// The script, taken from the top, has no command left. A due collection comes first.
    fn end(&mut self, script: &Script, next: Option<usize>) -> Turned
        requires none { commands_from next (commands_of script.now.items) ≡ [] }
        requires stands { IsAtTurn script.now (activity_of.Script next) self.old }
        ensures turns { TurnsFrom script.now (activity_of.Script next) self.old self.new result }
        ensures fit { StaysFit self.old self.new }
    {
        match self.policy.due() {
            Some(generation) => {
                self.collect(Activity::Script { next }, false, generation);
                Turned::Quiet
            }
            None => self.end_commands(script),
        }
    }

    /// The same for a frame. A due collection comes before its next command, but not before its
    /// end.
    pub fn go_on_in(
        &mut self,
        script: &Script,
        locals: Locals,
        procedure: u32,
        next: Option<usize>,
        waiting: &mut Vec<Event>,
    ) -> Turned
        requires stands { IsAtTurn script.now (activity_of.Frame locals procedure next) self.old }
        requires empty { waiting.old.items ≡ [] }
        ensures turns { TurnsBy script.now waiting.new.items (activity_of.Frame locals procedure next)
            self.old self.new result }
        ensures fit { StaysFit self.old self.new }
    {
        match next {
            Some(number) => self.go_on_at(script, locals, procedure, number, waiting),
            None => self.leave(locals),
        }
    }

    /// The same from the command with this number on. First does the run of commands that change
    /// names or entries, since most commands are of this sort.
    fn go_on_at(
        &mut self,
        script: &Script,
        locals: Locals,
        procedure: u32,
        number: usize,
        waiting: &mut Vec<Event>,
    ) -> Turned
        requires stands { IsAtTurn script.now (activity_of.Frame locals procedure (Some number))
            self.old }
        requires empty { waiting.old.items ≡ [] }
        ensures turns { TurnsBy script.now waiting.new.items
            (activity_of.Frame locals procedure (Some number)) self.old self.new result }
        ensures fit { StaysFit self.old self.new }
    {
        let body = body_of(script, procedure);
        let mut number = number;
        'commands: loop {
            match self.make_changes(body, locals, procedure, &mut number) {
                Some(answer) => return answer,
                None => {}
            }
            match next_of(body, Some(number)) {
                Some((command, after)) => {
                    let gone_on = Caller {
                        runner: Runner::Frame { locals, procedure },
                        next: Some(after),
                    };
                    match self.step(&gone_on, &Some(locals), Some(number), command, waiting) {
                        Some(answer) => return answer,
                        None => number = after,
                    }
                }
                None => return self.leave(locals),
            }
        }
    }

    /// Does the next commands of a frame, taken from the top, while they change names or entries
    /// and no collection is due. Then `number` is that of the next one. Answers `None` if the frame
    /// is to go on; it is then not put back.
    ///
    /// No such command makes a collection due, so that is checked once.
    #[inline(always)]
    fn make_changes(
        &mut self,
        body: &[Command],
        locals: Locals,
        procedure: u32,
        number: &mut usize,
    ) -> Option<Turned>
        requires stands { (script : AnyScript) × (body.now ≡ body_in script procedure)
            × IsAtTurn script (activity_of.Frame locals procedure (Some number.old)) self.old }
        ensures steps { (script : AnyScript) → body.now ≡ body_in script procedure
            → StepsFrom script (frame_caller locals procedure (Some number.new)) (Some number.old)
            self.old self.new result }
        ensures left { length (commands_from (Some number.new) body.now) ≤ length
            (commands_from (Some number.old) body.now) }
        ensures fit { StaysFit self.old self.new }
    {
        let Some(first) = next_change(body, *number) else {
            return None;
        };
        match self.policy.due() {
            Some(_) => None,
            None => self.make_changes_from(body, locals, procedure, number, first),
        }
    }

    /// The same where the first of them is known and no collection is due. This is a call of its
    /// own: at the head of a loop over commands of any sort, each command would pay for putting
    /// together what the other sorts answer.
    #[inline(never)]
    fn make_changes_from(
        &mut self,
        body: &[Command],
        locals: Locals,
        procedure: u32,
        number: &mut usize,
        first: &Command,
    ) -> Option<Turned>
        requires none { due_of self.old.policy ≡ None }
        requires within { number.old < length body.now }
        requires there { commands_from (Some number.old) body.now ≡ first.now
            ∷ commands_from (Some (number.old + 1)) body.now }
        requires changes { only_changes first.now ≡ true }
        requires stands { (script : AnyScript) × (body.now ≡ body_in script procedure)
            × IsAtTurn script (activity_of.Frame locals procedure (Some number.old)) self.old }
        ensures steps { (script : AnyScript) → body.now ≡ body_in script procedure
            → StepsFrom script (frame_caller locals procedure (Some number.new)) (Some number.old)
            self.old self.new result }
        ensures left { length (commands_from (Some number.new) body.now) ≤ length
            (commands_from (Some number.old) body.now) }
        ensures fit { StaysFit self.old self.new }
    {
        let within = Some(locals);
        let mut at = *number;
        // Built once; rebuilding would copy every field for each command.
        let mut caller = Caller {
            runner: Runner::Frame { locals, procedure },
            next: Some(at),
        };
        let mut command = first;
        'commands: loop {
            at += 1;
            caller.go_on_from(at);
            match self.step_change(&caller, &within, command) {
                Some(answer) => {
                    *number = at;
                    return Some(answer);
                }
                None => {}
            }
            match next_change(body, at) {
                Some(next) => command = next,
                None => {
                    *number = at;
                    return None;
                }
            }
        }
    }

    /// Does the next command of a caller, taken from the top, if it changes names or entries and no
    /// collection is due. The caller has already advanced past it. After `None`, no collection is
    /// due either.
    #[inline(always)]
    fn step_change(
        &mut self,
        caller: &Caller,
        locals: &Option<Locals>,
        command: &Command,
    ) -> Option<Turned>
        requires own { locals.now ≡ caller_locals caller.now }
        requires changes { only_changes command.now ≡ true }
        requires none { due_of self.old.policy ≡ None }
        requires stands { (script : AnyScript) × (next : Option ℕ) × ComesNext script caller.now
            next command.now
            × IsAtTurn script (caller_activity (with_next next caller.now)) self.old }
        ensures steps { (script : AnyScript) (next : Option ℕ) → ComesNext script caller.now next
            command.now
            → StepsFrom script caller.now next self.old self.new result }
        ensures policy { IfNone result (self.new.policy ≡ self.old.policy) }
        ensures fit { StaysFit self.old self.new }
    {
        // Heaps are bounded, and while no collection is under way its places are empty.
        self.heap.sound();
        // What `change` answers is matched here: handed on, or made a `Done`, it would be copied
        // for each command.
        match change(&mut self.heap, locals, command) {
            Ok(given_up) => self.give_up_after(caller, None, given_up),
            Err(refusal) => Some(self.refuse(caller, refusal.number())),
        }
    }

    /// Does the next command of a caller, taken from the top, or starts a due collection before it.
    /// The caller has already advanced past that command, which has this number. Answers `None` if
    /// the caller is to go on; it is then not put back. `locals` are the caller's.
    #[inline(always)]
    fn step(
        &mut self,
        caller: &Caller,
        locals: &Option<Locals>,
        next: Option<usize>,
        command: &Command,
        waiting: &mut Vec<Event>,
    ) -> Option<Turned>
        requires own { locals.now ≡ caller_locals caller.now }
        requires stands { (script : AnyScript) × ComesNext script caller.now next command.now
            × IsAtTurn script (caller_activity (with_next next caller.now)) self.old }
        ensures steps { (script : AnyScript) → ComesNext script caller.now next command.now
            → StepsOn script caller.now next self.old self.new waiting.old.items waiting.new.items result }
        ensures waits { OnSome result (waiting.new.items ≡ waiting.old.items) }
        ensures fit { StaysFit self.old self.new }
    {
        // Heaps are bounded, and while no collection is under way its places are empty.
        self.heap.sound();
        match self.policy.due() {
            Some(generation) => {
                self.collect_first(caller, next, generation);
                Some(Turned::Quiet)
            }
            None => {
                if only_changes(command) {
                    self.step_change(caller, locals, command)
                } else {
                    self.run(caller, locals, command, waiting)
                }
            }
        }
    }

    /// Begins a due collection above the caller, before the caller's next command, which has this
    /// number.
    #[inline(never)]
    fn collect_first(&mut self, caller: &Caller, next: Option<usize>, generation: u8)
        requires generation { generation ≤ 2 }
        requires room { 1 < self.old.room }
        requires idle { self.old.policy.running ≡ false }
        requires stands { (script : AnyScript) × IsSpelled script × IsFit script self.old
            × (w : World) × StandsFor script (under (caller_activity (with_next next caller.now))
            self.old) w
            × StaysKept script self.old.first_budget (push (new_collection generation false w) w) }
        ensures begins { (script : AnyScript) (w : World)
            → StandsFor script (under (caller_activity (with_next next caller.now)) self.old) w
            → StandsWith script self.new [] (push (new_collection generation false w) w) }
        ensures keeps { TurnKeeps self.old self.new }
    {
        self.collect(caller.with_next(next).activity(), false, generation);
    }

    /// Does a command of another sort than `step_change` does, of the caller that was on top, which
    /// has gone on to the command after it.
    #[inline(always)]
    fn run(
        &mut self,
        caller: &Caller,
        locals: &Option<Locals>,
        command: &Command,
        waiting: &mut Vec<Event>,
    ) -> Option<Turned>
        requires own { locals.now ≡ caller_locals caller.now }
        requires spelled { IsSpelledCommand (length self.old.store.names) command.now }
        requires locals { LocalsLive self.old.store locals.now }
        requires may { MayCommand self.old }
        requires other { only_changes command.now ≡ false }
        requires stands { (script : AnyScript) × IsSpelled script × IsFit script self.old
            × (w : World)
            × IsAtCommand script caller.now self.old w command.now }
        ensures does { (script : AnyScript) (w : World) → IsAtCommand script caller.now self.old w
            command.now
            → TellsTo script w command.now (caller_activity caller.now) self.new waiting.old.items
            waiting.new.items result }
        ensures waits { OnSome result (waiting.new.items ≡ waiting.old.items) }
        ensures fit { StaysFit self.old self.new }
    {
        let room = self.make_room(command);
        self.carry_out(caller, locals, command, room, waiting)
    }

    /// The same; an object is made only if there is room for its death.
    #[inline(always)]
    fn carry_out(
        &mut self,
        caller: &Caller,
        locals: &Option<Locals>,
        command: &Command,
        room: bool,
        waiting: &mut Vec<Event>,
    ) -> Option<Turned>
        requires own { locals.now ≡ caller_locals caller.now }
        requires spelled { IsSpelledCommand (length self.old.store.names) command.now }
        requires locals { LocalsLive self.old.store locals.now }
        requires may { MayCommand self.old }
        requires other { only_changes command.now ≡ false }
        requires stands { (script : AnyScript) × IsSpelled script × IsFit script self.old
            × (w : World)
            × IsAtCommand script caller.now self.old w command.now }
        requires one_more { room ≡ true → HasRoomForOneMore self.old }
        ensures does { (script : AnyScript) (w : World) → IsAtCommand script caller.now self.old w
            command.now
            → TellsTo script w command.now (caller_activity caller.now) self.new waiting.old.items
            waiting.new.items result }
        ensures waits { OnSome result (waiting.new.items ≡ waiting.old.items) }
        ensures fit { StaysFit self.old self.new }
    {
        let done = perform(
            self.alloc,
            &mut self.heap,
            &mut self.policy,
            locals,
            command,
            room,
        );
        self.answer(caller, done, waiting)
    }

    /// Makes room on the stack for the death of an object, if the command makes one. Answers
    /// whether it does and there is room.
    #[inline(always)]
    fn make_room(&mut self, command: &Command) -> bool
        ensures one_more { result ≡ true → HasRoomForOneMore self.new }
        ensures alone { HasMoreRoom self.old self.new }
    {
        if makes_object(command) {
            self.reserve()
        } else {
            false
        }
    }

    /// Makes room on the stack for the death of one more object. Answers whether there is room.
    #[inline(never)]
    fn reserve(&mut self) -> bool
        ensures one_more { result ≡ true → HasRoomForOneMore self.new }
        ensures alone { HasMoreRoom self.old self.new }
    {
        self.heap.sound();
        // The garbage list is an object too.
        let objects = self.heap.live() as usize + 1;
        let height = self.first_budget as usize + 2 * (objects + 1) + 8;
        self.stack.reserve_up_to(height).is_ok()
    }
}
