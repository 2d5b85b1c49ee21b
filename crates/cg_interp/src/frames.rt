//! How a frame starts and ends.
ghost use Rattle.std.specs.Prelude.{◌≡◌, ◌<◌, true, [], ℕ, Option, IfSome, OnSome, option_to_list, Some};
ghost use Rattle.cg_graph.specs.Store.{IsLive};
ghost use Rattle.cg_heap.specs.Calls.{HasFewHolds};
ghost use Rattle.cg_script.specs.declared.Script.{Script as AnyScript};
ghost use Rattle.cg_machine.specs.declared.event.FrameSort.TheVariants as sort_of;
ghost use Rattle.cg_machine.specs.Program.{body_of};
ghost use Rattle.cg_machine.specs.World.{World};
ghost use Rattle.cg_machine.specs.Frame.{start_frame, gives_up_function};
ghost use Rattle.cg_interp.specs.declared.activity.Activity.TheVariants as activity_of;
ghost use Rattle.cg_machine.specs.Holdings.{call_holds};
ghost use Rattle.cg_graph.specs.Changes.{held};
ghost use Rattle.cg_interp.specs.Engines.{StandsFor, under, commands_from};
ghost use Rattle.cg_interp.specs.Releases.{released_by, with_release, with_release_on};
ghost use Rattle.cg_interp.specs.Turns.{Makes, entered, Turns, TurnKeeps, HasOtherStack};

use crate::activity::Activity;
use crate::engine::Engine;
use crate::releases::release_of;
use crate::turned::Turned;
use cg_commands::Locals;
use cg_death::Release;
use cg_heap::Heap;
use cg_kind::Kind;
use cg_machine::{Event, FrameSort, FrameSpec};

impl<B: Kind> Engine<B> {
    /// Starts a frame, which costs one of the budget. With none left, the run ends.
    pub fn start(&mut self, spec: FrameSpec) -> Turned
        requires few { spec.sort ≡ sort_of.Call → HasFewHolds self.old.store }
        requires live { 0 < self.old.budget → spec.sort ≡ sort_of.Call
            → IfSome spec.func (λ f. IsLive self.old.store f) }
        requires room { 0 < self.old.room }
        ensures starts { (script : AnyScript) (w : World) → StandsFor script self.old w
            → Makes script (start_frame script spec w) self.new result }
        ensures keeps { TurnKeeps self.old self.new }
    {
        if self.enters(spec) {
            Turned::Line(Event::Enter {
                sort: spec.sort,
                serial: spec.subject,
            })
        } else {
            Turned::Spent
        }
    }

    /// Starts a frame if the budget has one left. Answers whether it has.
    #[inline(always)]
    pub fn enters(&mut self, spec: FrameSpec) -> bool
        requires few { spec.sort ≡ sort_of.Call → HasFewHolds self.old.store }
        requires live { 0 < self.old.budget → spec.sort ≡ sort_of.Call
            → IfSome spec.func (λ f. IsLive self.old.store f) }
        requires room { 0 < self.old.room }
        ensures starts { (script : AnyScript) (w : World) → StandsFor script self.old w
            → Makes script (start_frame script spec w) self.new (entered spec.sort spec.subject
            result) }
        ensures keeps { TurnKeeps self.old self.new }
    {
        if self.budget == 0 {
            false
        } else {
            self.enter(spec);
            true
        }
    }

    /// Starts a frame; the budget has one left.
    fn enter(&mut self, spec: FrameSpec)
        requires few { spec.sort ≡ sort_of.Call → HasFewHolds self.old.store }
        requires live { spec.sort ≡ sort_of.Call → IfSome spec.func (λ f. IsLive self.old.store f) }
        requires room { 0 < self.old.room }
        requires budget { 0 < self.old.budget }
        ensures starts { (script : AnyScript) (w : World) → StandsFor script self.old w
            → Makes script (start_frame script spec w) self.new (entered spec.sort spec.subject
            true) }
        ensures keeps { TurnKeeps self.old self.new }
    {
        self.budget -= 1;
        hold_if(&mut self.heap, called(spec.sort, spec.func));
        self.stack.push(Activity::Frame {
            locals: Locals {
                sort: spec.sort,
                subject: spec.subject,
                func: spec.func,
            },
            procedure: spec.proc,
            next: Some(0),
        });
    }

    /// Pushes a release, if there is one.
    fn push_if(&mut self, release: Option<Release>)
        requires room { 0 < self.old.room }
        ensures top { self.new.activities ≡ with_release_on release self.old.activities }
        ensures alone { HasOtherStack self.old self.new }
        ensures keeps { TurnKeeps self.old self.new }
    {
        match release {
            Some(release) => self.stack.push(Activity::Releasing(release)),
            None => {}
        }
    }

    /// Ends a frame, taken from the top. If a command called its function, the function is given
    /// up.
    pub fn leave(&mut self, locals: Locals) -> Turned
        requires room { 0 < self.old.room }
        ensures leaves { (script : AnyScript) (procedure : ℕ) (next : Option ℕ) (w : World)
            → commands_from next (body_of script procedure) ≡ []
            → StandsFor script (under (activity_of.Frame locals procedure next) self.old) w
            → Turns script w self.new result }
        ensures keeps { TurnKeeps self.old self.new }
    {
        self.push_if(given_up_by(locals));
        Turned::Line(Event::Leave)
    }
}

/// What the end of a frame gives up: its function, if a command called it.
fn given_up_by(locals: Locals) -> Option<Release>
    ensures world { (w : World) →
        gives_up_function locals.sort locals.func w ≡ with_release result w }
    ensures holds { call_holds locals.sort locals.func ≡ released_by result }
{
    match locals.sort {
        FrameSort::Call => Some(match locals.func {
            Some(function) => Release::of(function),
            None => release_of(None),
        }),
        FrameSort::Del | FrameSort::Legacy | FrameSort::Callback => None,
    }
}

/// What a frame holds: its function, where a command called it.
fn called(sort: FrameSort, function: Option<u64>) -> Option<u64>
    ensures holds { call_holds sort function ≡ option_to_list result }
    ensures only { IfSome result (λ f. function ≡ Some f) }
    ensures call { OnSome result (sort ≡ sort_of.Call) }
{
    match sort {
        FrameSort::Call => function,
        FrameSort::Del | FrameSort::Legacy | FrameSort::Callback => None,
    }
}

/// Holds an object, if any.
fn hold_if<B: Kind>(heap: &mut Heap<B>, object: Option<u64>)
    requires few { OnSome object (HasFewHolds heap.old) }
    requires live { IfSome object (λ o. IsLive heap.old o) }
    ensures { heap.new ≡ held (option_to_list object) heap.old }
{
    match object {
        Some(object) => heap.hold(object),
        None => {}
    }
}
