//! The lines that a command prints.
ghost use Rattle.std.specs.Prelude.{◌≡◌};

use cg_machine::Event;
use std::marker::Model;

/// Several lines, in the order in which they are printed.
#[derive(Debug, Drop)]
pub struct Lines {
    events: Vec<Event>,
}

impl Model for Lines {
    ghost use Rattle.std.specs.Prelude.{List};
    ghost use Rattle.cg_machine.specs.declared.event.Event.{Event};

    ghost Value = { List Event };

    ghost view = { λ l. l.events.items };
}

impl Lines {
    pub(crate) fn new(events: Vec<Event>) -> Lines
        ensures { result ≡ events.items }
    {
        Lines { events }
    }

    pub fn as_slice(&self) -> &[Event]
        ensures { result.now ≡ self.now }
    {
        &self.events
    }
}
