//! Why a call of the heap fails.
use thiserror::Error;

/// Why a call of the heap fails. It has then changed nothing.
#[derive(Clone, Copy, Debug, PartialEq, Eq, Drop, Error)]
pub enum HeapFault {
    /// 1,000,000 objects are live, not counting the garbage list.
    #[error("too many objects")]
    ObjectLimit,
    /// The objects would have more than 4,000,000 entries in total, not counting those of the
    /// garbage list.
    #[error("too many entries")]
    EntryLimit,
    /// Memory ran out.
    #[error("out of memory")]
    OutOfMemory,
}
