//! What a run prints, one event a line, and the frames that a run starts.
use cg_value::{KindCode, Val};

/// Why a frame runs.
#[derive(Clone, Copy, Debug, PartialEq, Eq, Drop)]
pub enum FrameSort {
    /// The finalizer of an object (PEP 442, `__del__`).
    Del,
    /// The legacy finalizer of an object (`tp_del`).
    Legacy,
    /// The callback of a weak reference.
    Callback,
    /// A command called a function.
    Call,
}

/// A frame that is to start.
#[derive(Clone, Copy, Debug, PartialEq, Eq, Drop)]
pub struct FrameSpec {
    pub sort: FrameSort,
    /// The procedure that runs: the one of the subject's class for a finalizer or legacy finalizer,
    /// else the function's.
    pub proc: u32,
    /// The serial in the line `enter`.
    pub subject: u64,
    /// The function whose cells the frame sees. `None` exactly for finalizers and legacy
    /// finalizers.
    pub func: Option<u64>,
}

/// What a line says. Objects appear by serial.
#[derive(Clone, Copy, Debug, PartialEq, Eq, Drop)]
pub enum Event {
    /// An object was made.
    Made {
        code: KindCode,
        serial: u64,
    },
    /// A frame begins.
    Enter {
        sort: FrameSort,
        serial: u64,
    },
    /// The top frame ends.
    Leave,
    /// A weak reference lost its referent.
    Cleared(u64),
    /// An object was freed.
    Free(u64),
    /// An object was resurrected.
    Alive(u64),
    /// A collection of this generation begins.
    GcStart(u8),
    /// The debug line of a condemned object.
    GcCollectable(u64),
    /// The debug line of an uncollectable object.
    GcUncollectable(u64),
    /// An object was appended to the garbage list.
    GcSaved(u64),
    /// A collection ends.
    GcStop {
        generation: u8,
        collected: u64,
        uncollectable: u64,
    },
    /// The answer of `collect`.
    Collected(u64),
    /// The answer of `print`.
    Value(Val),
    /// The answer of `refs`.
    RefCount(u64),
    /// The answer of `tracked`.
    Tracked(bool),
    /// The answer of `finalized`.
    Finalized(bool),
    /// A line of `referents`: an object that the inspected one refers to.
    Referent(u64),
    /// A line of `referrers`: an object that refers to the inspected one.
    Referrer(u64),
    /// How many lines `referents` or `referrers` printed.
    Listed(u64),
    /// The first line of `why`: an object that is held by a root.
    Held(u64),
    /// A further line of `why`: the object that the previous one refers to.
    Via(u64),
    /// The answer of `why` where no path from a root leads to the object.
    Unreachable,
    /// The three counts.
    Count {
        zero: u64,
        one: u64,
        two: u64,
    },
    /// The sizes of the three generations and of the permanent one.
    Gens {
        zero: u64,
        one: u64,
        two: u64,
        frozen: u64,
    },
    /// A command was refused; the number says why.
    Refused(u8),
    /// The run ends because the budget is spent.
    BudgetSpent,
    /// How many objects are left after the shutdown, not counting the garbage list.
    Left(u64),
    /// The run ends.
    End,
}
