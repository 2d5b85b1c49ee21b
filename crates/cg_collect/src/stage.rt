//! Before, at or after each of a collection's two reachability passes.

/// Before, at or after each reachability pass. A collection meets each of the first four once,
/// between two steps.
#[derive(Clone, Copy, Debug, PartialEq, Eq, Drop)]
pub enum Stage {
    /// It has begun, and its next step makes the first pass.
    BeforeFirst,
    /// Its last step made the first pass, and partitioned what that found.
    AfterFirst,
    /// Its next step makes the second pass.
    BeforeSecond,
    /// Its last step made the second pass: the remaining condemned objects are the final set.
    AfterSecond,
    /// None of these.
    Between,
}

/// A reachability pass of a collection.
#[derive(Clone, Copy, Debug, PartialEq, Eq, Drop)]
pub enum Detection {
    /// The first: what is unreachable among the candidates.
    First,
    /// The second: which condemned objects finalizers resurrected.
    Second,
}
