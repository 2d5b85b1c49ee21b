//! Declarations, and a whole script.
ghost use Rattle.std.specs.Prelude.{◌≡◌};
ghost use Rattle.cg_script.specs.Items.{profile_of, declared_budget, declares_shutdown};

use crate::command::Command;
use crate::members::{Commands, Items};
use cg_value::Names;

/// A class: its finalizer and its legacy finalizer, each the number of a procedure.
/// (`object.__del__`, PEP 442; a legacy finalizer is a type's `tp_del`.)
#[derive(Clone, Copy)]
pub struct ClassDef {
    pub name: u32,
    pub del: Option<u32>,
    pub legacy: Option<u32>,
}

/// A procedure: the commands between `def P` and `end`.
#[derive(Drop)]
pub struct Proc {
    pub name: u32,
    pub body: Commands,
}

/// A declaration, or a command outside procedures. Procedures and classes are numbered by their
/// position among their kind.
#[derive(Drop)]
pub enum Item {
    /// Which rules weak references without a callback follow in a collection: 1, CPython's, or 2.
    Profile(u8),
    /// At the end all names are given up, and what is left is collected and counted.
    Shutdown,
    /// How many frames may start, 0 to 100,000.
    Budget(u32),
    /// A class.
    Class(ClassDef),
    /// A procedure.
    Def(Proc),
    /// A command of the script itself.
    Run(Command),
}

/// A whole script: its texts, and its lines in order.
#[derive(Drop)]
pub struct Script {
    pub names: Names,
    pub items: Items,
}

impl Script {
    /// Which rules weak references without a callback follow in a collection: 1, CPython's and the
    /// default, or 2. Constant time, no allocation.
    pub fn profile(&self) -> u8
        ensures { result ≡ profile_of self.now.items }
    {
        self.items.profile()
    }

    /// How many frames may start, 0 to 100,000, if a line declares it. Constant time, no
    /// allocation.
    pub fn budget(&self) -> Option<u32>
        ensures { result ≡ declared_budget self.now.items }
    {
        self.items.budget()
    }

    /// Whether all names are given up at the end, and what is left is collected and counted.
    /// Constant time, no allocation.
    pub fn shutdown(&self) -> bool
        ensures { result ≡ declares_shutdown self.now.items }
    {
        self.items.shutdown()
    }
}
