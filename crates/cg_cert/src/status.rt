//! How the checker ends.

/// How the checker ends, by its exit status.
#[derive(Clone, Copy, Debug, PartialEq, Eq)]
pub enum CheckStatus {
    /// The bytes are records, and each graph of them is right.
    Yes = 0,
    /// The bytes are not records, or a graph in them has a fault.
    No = 1,
    /// There are words, but the checker takes none.
    BadWords = 2,
    /// The source of the bytes failed.
    ReadFault = 3,
    /// The sink of the line failed.
    WriteFault = 4,
    /// Memory ran out, and nothing was written.
    OutOfMemory = 5,
    /// There are more than 67,108,864 bytes.
    TooLarge = 7,
}
