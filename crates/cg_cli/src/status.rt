//! How the program ends.

/// How the program ends, by its exit status.
#[derive(Clone, Copy, Debug, PartialEq, Eq)]
pub enum Status {
    /// The script ran to its end.
    Done = 0,
    /// A line of the script is bad.
    BadScript = 1,
    /// The arguments ask for nothing that the program does.
    BadWords = 2,
    /// The source of the script failed.
    ReadFault = 3,
    /// The sink of the text failed.
    WriteFault = 4,
    /// Memory was refused before anything was written.
    OutOfMemory = 5,
    /// The run ended because a frame was to start and the budget was spent.
    Budget = 6,
    /// The script has more than 16,777,216 bytes.
    TooLarge = 7,
}
