//! The size limits of an object graph. (Ours.)

/// The maximum number of live objects, not counting the garbage list.
pub const MOST_OBJECTS: u64 = 1_000_000;

/// The maximum number of entries of all objects, not counting those of the garbage list.
pub const MOST_ENTRIES: u64 = 4_000_000;
