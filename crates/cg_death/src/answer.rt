//! What a step of a death or a release answers.
use cg_machine::{Event, FrameSpec};

/// What a step of a death or a release answers.
#[derive(Clone, Copy, Debug, PartialEq, Eq, Drop)]
pub enum DeathStep {
    /// It went on, and printed nothing.
    Continue,
    /// It went on, and this line is to be printed.
    Emit(Event),
    /// This frame must run to its end before the next step.
    Frame(FrameSpec),
    /// Nothing holds this object any more; its death must end before the next step.
    Died(u64),
    /// It ended.
    Gone,
}
