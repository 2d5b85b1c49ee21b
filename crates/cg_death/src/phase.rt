//! The phases of a death, and what a turn of one phase leaves.
ghost use Rattle.std.specs.Prelude.{◌≡◌};
ghost use Rattle.cg_death.specs.declared.answer.DeathStep.TheVariants as answer_of;

use crate::answer::DeathStep;
use crate::release::Release;
use cg_machine::{Event, FrameSpec};

/// The phase of a death. (PEP 442, "Disposal of regular objects": finalizer, weak references,
/// contents.)
#[derive(Clone, Copy, Debug, PartialEq, Eq, Drop)]
pub enum Phase {
    /// The finalizer comes next.
    Finalizer,
    /// The frame of the finalizer runs or has ended; the object is held.
    AfterFinalizer,
    /// Weak references are cleared, newest first. Those with a callback wait for it, and are held.
    Clearing,
    /// The callbacks of the waiting weak references come next.
    Calling,
    /// The frame of a callback runs or has ended; the weak reference and the callback are held.
    AfterCall { weak: u64, callback: u64 },
    /// The legacy finalizer comes next.
    LegacyFinalizer,
    /// The frame of the legacy finalizer runs or has ended; the object is held.
    AfterLegacy,
    /// Weak references that those frames made are cleared.
    Detaching,
    /// The entries are removed, last first, and then the object is freed.
    Emptying,
    /// The object was freed or resurrected.
    Over,
}

/// What a turn of a phase leaves, and what it answers.
#[derive(Drop)]
pub struct Turn {
    pub phase: Phase,
    pub release: Option<Release>,
    pub answer: DeathStep,
}

impl Turn {
    /// The death goes on with a phase.
    pub fn to(phase: Phase) -> Turn
        ensures { result ≡ record { phase = phase; release = None; answer = answer_of.Continue } }
    {
        Turn {
            phase,
            release: None,
            answer: DeathStep::Continue,
        }
    }

    /// A line is to be printed, and the death goes on with a phase.
    pub fn tells(event: Event, phase: Phase) -> Turn
        ensures { result ≡ record { phase = phase; release = None; answer = answer_of.Emit event } }
    {
        Turn {
            phase,
            release: None,
            answer: DeathStep::Emit(event),
        }
    }

    /// A frame is to run, and the death goes on with a phase.
    pub fn runs(frame: FrameSpec, phase: Phase) -> Turn
        ensures { result ≡ record {
          phase = phase;
          release = None;
          answer = answer_of.Frame
              frame;
        } }
    {
        Turn {
            phase,
            release: None,
            answer: DeathStep::Frame(frame),
        }
    }
}
