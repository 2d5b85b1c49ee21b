//! What a turn answers.
ghost use Rattle.std.specs.Prelude.{◌≡◌, ◌++◌};
ghost use Rattle.std.specs.List.{list_any};
ghost use Rattle.cg_interp.specs.Recorded.{wants_memory};
ghost use Rattle.cg_interp.specs.Running.{events_told, standing_after};

use cg_commands::{Lines, Refusal};
use cg_machine::Event;

/// What a turn answers.
#[derive(Drop)]
pub enum Turned {
    /// It went on, without a line.
    Quiet,
    /// It went on, with this line to print.
    Line(Event),
    /// It went on, with these lines of one step to print.
    Lines(Lines),
    /// The run has ended; the line `end` is to be printed.
    Ended,
    /// The run has ended; `left` with the number of live objects, and `end`, are to be printed.
    Left(u64),
    /// The run has ended because the budget is spent; `budget spent` is to be printed.
    Spent,
}

/// The state of a run after a turn.
#[derive(Clone, Copy, Debug, PartialEq, Eq, Drop)]
pub enum Standing {
    /// It goes on.
    Running,
    /// It has ended by `end`.
    Ended,
    /// It has ended because the budget is spent.
    Spent,
}

impl Turned {
    /// The state of the run after it.
    pub fn standing(&self) -> Standing
        ensures { result ≡ standing_after self.now }
    {
        match self {
            Turned::Quiet | Turned::Line(_) | Turned::Lines(_) => Standing::Running,
            Turned::Ended | Turned::Left(_) => Standing::Ended,
            Turned::Spent => Standing::Spent,
        }
    }

    /// Whether one of its lines reports a command refused for memory.
    fn wants_memory(&self) -> bool
        ensures { result ≡ list_any wants_memory (events_told self.now) }
    {
        match self {
            Turned::Line(event) => wants_memory(event),
            Turned::Lines(lines) => any_wants_memory(lines.as_slice()),
            Turned::Quiet | Turned::Ended | Turned::Left(_) | Turned::Spent => false,
        }
    }
}

/// Whether an event reports a command refused for memory.
fn wants_memory(event: &Event) -> bool
    ensures { result ≡ wants_memory event.now }
{
    match event {
        Event::Refused(number) => *number == Refusal::OutOfMemory.number(),
        _ => false,
    }
}

/// Whether one of them does.
fn any_wants_memory(events: &[Event]) -> bool
    ensures { result ≡ list_any wants_memory events.now }
{
    events.iter().any(|event| wants_memory(event))
}

/// Whether one of the lines of a turn does: those that waited, and those of its answer.
pub fn wants_memory_in(waits: &Vec<Event>, answer: &Turned) -> bool
    ensures { result ≡ list_any wants_memory (waits.now.items ++ events_told answer.now) }
{
    any_wants_memory(waits.as_slice()) || answer.wants_memory()
}
