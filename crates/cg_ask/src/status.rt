//! How the program ends.

/// How the program ends, by its exit status.
#[derive(Clone, Copy, Debug, PartialEq, Eq)]
pub enum AskStatus {
    /// The questions were answered.
    Answered = 0,
    /// The bytes are not a heap with questions, or the heap has a fault.
    Faulty = 1,
    /// There are words, but the program takes none.
    BadWords = 2,
    /// The source of the bytes failed.
    ReadFault = 3,
    /// The sink of the answers failed.
    WriteFault = 4,
    /// Memory ran out.
    OutOfMemory = 5,
    /// There are more than 268,435,456 bytes.
    TooLarge = 7,
}
