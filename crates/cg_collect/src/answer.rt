//! What a step of a collection answers.
use cg_machine::{Event, FrameSpec};

/// What a step of a collection answers.
#[derive(Clone, Copy, Debug, PartialEq, Eq, Drop)]
pub enum CollectStep {
    /// It went on, and printed nothing.
    Continue,
    /// It went on, and this line is to be printed.
    Emit(Event),
    /// This frame must run to its end before the next step.
    Frame(FrameSpec),
    /// Nothing holds this object any more; its death must end before the next step.
    Died(u64),
    /// It ended. A command that asked for it answers the sum of the two numbers.
    Finished { collected: u64, uncollectable: u64 },
}
