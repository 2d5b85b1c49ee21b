//! The phases of a collection, and what a turn of one phase leaves.
//!
//! In order. A turn prints at most one line. The right side shows what else runs before the next turn: a frame, or the deaths
//! that follow from what the turn gave up.
//!
//! ```text
//! Start                      count, merge, find the unreachable, untrack, set legacy finalizers aside (`start`)
//!   Sizes, Telling             lines
//! WeakClearing               each weak reference to a condemned object, newest first (`weak`)
//! WeakCalling  <--------+    the next one waiting for its callback
//!   AfterCallback       |      the frame of the callback
//!   AfterRelease  ------+      the death of the weak reference, if nothing else holds it
//! Finalizing   <--------+    the next condemned object not yet visited (`finalizing`)
//!   AfterFinalizing  ---+      the frame of its finalizer, then its death, if nothing else holds it
//! Split                      find what finalizers resurrected (`detection`)
//!   Living                     lines
//! Detaching, Unlinking       weak references to and in the final set are cleared
//! Turns        <--------+    the next member of the final set (`turns`)
//!   Turn                |      once for each entry: the deaths after the entry is given up
//!   AfterTurn  ---------+      its own death, if nothing else holds it
//! Ending                     uncollectable objects (`ending`)
//!   Uncollectable, Saved       lines
//! Stopping, Over             the last line
//! ```
//!
//! Frames and deaths are above the collection on the stack of `cg_interp`, which resumes the collection when they end.
ghost use Rattle.std.specs.Prelude.{◌≡◌, Some, None, ◌≤◌};
ghost use Rattle.cg_machine.specs.Collect.{older};
ghost use Rattle.cg_collect.specs.declared.answer.CollectStep.TheVariants as answer_of;
ghost use Rattle.cg_collect.specs.Stages.{detection_at};

use crate::answer::CollectStep;
use crate::stage::Detection;
use cg_death::Release;
use cg_machine::{Event, FrameSpec};

/// The next phase. (PEP 442, "Disposal of cyclic isolates"; developer guide, "Destroying
/// unreachable objects".)
///
/// A step of the machine may print several lines. It is done at once, and the following calls print
/// its other lines: `Sizes` and `Telling` after the start, `Living`, `Detaching` and `Unlinking`
/// after the second reachability pass, `Uncollectable`, `Saved` and `Stopping` after the end.
#[derive(Clone, Copy, Debug, PartialEq, Eq, Drop)]
pub enum Phase {
    /// Everything before the weak phase.
    Start,
    /// Prints the sizes that the generations had.
    Sizes {
        zero: u64,
        one: u64,
        two: u64,
        frozen: u64,
    },
    /// Prints condemned objects, starting with this one.
    Telling(Option<u64>),
    /// Clears weak references to and of condemned objects. `member` is the next condemned object,
    /// and `weak` the next weak reference of the list being walked, newest first.
    WeakClearing {
        member: Option<u64>,
        weak: Option<u64>,
    },
    /// The callbacks of the waiting weak references come next.
    WeakCalling,
    /// The frame of a callback runs or has ended; the weak reference is held.
    AfterCallback(u64),
    /// The weak reference was given up; it lives or has died.
    AfterRelease(u64),
    /// Visits condemned objects for their finalizers.
    Finalizing,
    /// The frame of a finalizer runs or has ended; the object is held.
    AfterFinalizing(u64),
    /// The second reachability pass comes next.
    Split,
    /// Prints its survivors, starting with this one.
    Living(Option<u64>),
    /// Clears weak references to members of the final set, starting with this member.
    Detaching(Option<u64>),
    /// Clears members of the final set that are weak references. `member` is the next member, and
    /// `weak` the next weak reference of the list being walked, newest first.
    Unlinking {
        member: Option<u64>,
        weak: Option<u64>,
    },
    /// Members of the final set have their turns.
    Turns,
    /// The entries of a member are removed; it is held.
    Turn(u64),
    /// The member was given up; it lives or has died.
    AfterTurn(u64),
    /// Reports and saves the uncollectable objects.
    Ending,
    /// Prints the uncollectable objects, `number` of them starting with `first`, from `next` on.
    Uncollectable {
        first: Option<u64>,
        next: Option<u64>,
        number: u64,
    },
    /// Prints those of them that were saved, from `next` on.
    Saved {
        next: Option<u64>,
        number: u64,
    },
    /// Prints the end, with the number of uncollectable objects.
    Stopping(u64),
    /// It ended, with that number.
    Over(u64),
}

impl Phase {
    /// The reachability pass that the step of a phase makes, if any.
    pub fn detection(self) -> Option<Detection>
        ensures { result ≡ detection_at self }
    {
        match self {
            Phase::Start => Some(Detection::First),
            Phase::Split => Some(Detection::Second),
            _ => None,
        }
    }
}

/// What a turn of a phase leaves, and what it answers.
#[derive(Drop)]
pub struct Turn {
    pub phase: Phase,
    /// What to give up before the phase goes on.
    pub release: Option<Release>,
    /// By how much the number of collected objects rises.
    pub collected: u64,
    pub answer: CollectStep,
}

impl Turn {
    /// A turn that gives this answer, and goes on with a phase.
    pub fn answers(phase: Phase, answer: CollectStep) -> Turn
        ensures { result ≡ record {
          phase = phase;
          release = None;
          collected = 0;
          answer = answer;
        } }
    {
        Turn {
            phase,
            release: None,
            collected: 0,
            answer,
        }
    }

    /// The collection goes on with a phase.
    pub fn to(phase: Phase) -> Turn
        ensures { result ≡ record {
          phase = phase;
          release = None;
          collected = 0;
          answer = answer_of.Continue;
        } }
    {
        Turn::answers(phase, CollectStep::Continue)
    }

    /// A line is to be printed, and the collection goes on with a phase.
    pub fn tells(event: Event, phase: Phase) -> Turn
        ensures { result ≡ record {
          phase = phase;
          release = None;
          collected = 0;
          answer = answer_of.Emit event;
        } }
    {
        Turn::answers(phase, CollectStep::Emit(event))
    }

    /// A frame is to run, and the collection goes on with a phase.
    pub fn runs(frame: FrameSpec, phase: Phase) -> Turn
        ensures { result ≡ record {
          phase = phase;
          release = None;
          collected = 0;
          answer = answer_of.Frame frame;
        } }
    {
        Turn::answers(phase, CollectStep::Frame(frame))
    }

    /// Gives up the references of an entry; then the collection goes on with a phase.
    pub fn gives_up(release: Release, phase: Phase) -> Turn
        ensures { result ≡ record {
          phase = phase;
          release = Some release;
          collected = 0;
          answer = answer_of.Continue;
        } }
    {
        Turn {
            phase,
            release: Some(release),
            collected: 0,
            answer: CollectStep::Continue,
        }
    }
}

/// The older generation, where survivors go.
pub fn older(generation: u8) -> u8
    requires { generation ≤ 2 }
    ensures { result ≡ older generation }
{
    if generation == 0 { 1 } else { 2 }
}
