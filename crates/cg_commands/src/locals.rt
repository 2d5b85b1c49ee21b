//! The locals of a frame.
use cg_machine::FrameSort;

/// The locals of a frame.
#[derive(Clone, Copy, Debug, PartialEq, Eq, Drop)]
pub struct Locals {
    /// Why the frame runs.
    pub sort: FrameSort,
    /// The object whose finalizer runs, the weak reference whose callback runs, or the function
    /// that was called.
    pub subject: u64,
    /// The function whose cells the frame sees. `None` exactly for finalizers and legacy
    /// finalizers.
    pub func: Option<u64>,
}
