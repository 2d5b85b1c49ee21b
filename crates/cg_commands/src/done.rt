//! What a command did, and why one is refused.
ghost use Rattle.std.specs.Prelude.{◌≡◌};
ghost use Rattle.cg_value.specs.declared.Val.TheVariants as val_of;
ghost use Rattle.cg_graph.specs.Value.{item};
ghost use Rattle.cg_commands.specs.declared.done.Done.TheVariants as done;
ghost use Rattle.cg_commands.specs.Refusals.{number_of, refusal_by};

use crate::lines::Lines;
use cg_heap::HeapFault;
use cg_machine::Event;
use cg_value::{Entry, Val};

/// What a command did, and what follows.
#[derive(Debug, Drop)]
pub enum Done {
    /// It made its change, and perhaps prints a line. The references of the entry are outside holds
    /// to give up next: the one in the value, then the one in the key.
    Changed {
        line: Option<Event>,
        given_up: Entry,
    },
    /// A frame of this function's procedure is to start. The function is not held from outside yet.
    Calls(u64),
    /// It asks for a collection of this generation, 0 to 2. Nothing has changed. If a collection is
    /// under way, none starts; the machine's step then prints its own line.
    Collects(u8),
    /// The top frame is to end, or the script.
    Quits,
    /// It prints these lines in order. Nothing has changed, and nothing is to be given up.
    Tells(Lines),
}

/// Why a command is refused. It has changed nothing.
#[derive(Clone, Copy, Debug, PartialEq, Eq, Drop)]
pub enum Refusal {
    /// An operand is an unbound name, or a local that the frame lacks.
    NoName,
    /// The object is not of the kind that the command expects.
    WrongKind,
    /// The index is below 0 or not below the length.
    NoIndex,
    /// The dictionary has no such key.
    NoKey,
    /// The instance has no such attribute.
    NoAttribute,
    /// The value is not a weak reference.
    NotWeak,
    /// The value is not a function.
    NotCallable,
    /// The number of a `collect` is not 0, 1 or 2.
    BadGeneration,
    /// The key is a list, a tuple, a dictionary or a weak reference.
    Unhashable,
    /// Memory was refused.
    OutOfMemory,
    /// 1,000,000 objects live, and the command makes one.
    ObjectLimit,
    /// The entries would pass 4,000,000.
    EntryLimit,
    /// A collection is under way, and the command would report objects that it may be about to
    /// free.
    InCollection,
}

impl Refusal {
    /// The number in the line `refused`.
    pub fn number(self) -> u8
        ensures { result ≡ number_of self }
    {
        match self {
            Refusal::NoName => 1,
            Refusal::WrongKind => 2,
            Refusal::NoIndex => 3,
            Refusal::NoKey => 4,
            Refusal::NoAttribute => 5,
            Refusal::NotWeak => 6,
            Refusal::NotCallable => 7,
            Refusal::BadGeneration => 8,
            Refusal::Unhashable => 9,
            Refusal::OutOfMemory => 10,
            Refusal::ObjectLimit => 11,
            Refusal::EntryLimit => 12,
            Refusal::InCollection => 13,
        }
    }
}

/// A change with nothing to give up, and with this line, if any.
#[inline(always)]
pub(crate) fn told(line: Option<Event>) -> Done
    ensures { result ≡ done.Changed line (item val_of.None) }
{
    Done::Changed {
        line,
        given_up: Entry {
            key: Val::None,
            val: Val::None,
        },
    }
}

/// The refusal for a fault of the heap.
#[inline(always)]
pub(crate) fn refusal_by(fault: HeapFault) -> Refusal
    ensures { result ≡ refusal_by fault }
{
    match fault {
        HeapFault::ObjectLimit => Refusal::ObjectLimit,
        HeapFault::EntryLimit => Refusal::EntryLimit,
        HeapFault::OutOfMemory => Refusal::OutOfMemory,
    }
}
