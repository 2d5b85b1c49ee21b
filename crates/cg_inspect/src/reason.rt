//! The answer to the question why an object is alive.

/// Why an object is alive.
#[derive(Debug, PartialEq, Eq, Drop)]
pub enum Why {
    /// The first object is held by a root, each further one by its predecessor, and the last is the
    /// object itself.
    Path(Vec<u64>),
    /// No path from a root leads to the object.
    Unreachable,
}
