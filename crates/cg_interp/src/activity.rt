//! The activities of a run.
use cg_collect::Collection;
use cg_commands::Locals;
use cg_death::{Death, Release};

/// An activity.
#[derive(Drop)]
pub enum Activity {
    /// The script's own commands, from the one with this number on; `None` if none is left.
    Script {
        next: Option<usize>,
    },
    /// A frame: its locals, the procedure that it runs, and the number of its next command, if any.
    Frame {
        locals: Locals,
        procedure: u32,
        next: Option<usize>,
    },
    /// References given up one after the other.
    Releasing(Release),
    /// The shutdown at the end of the script, and whether its collection has started.
    Shutdown {
        started: bool,
    },
    /// The death of an object.
    Dying(Death),
    /// A collection, and whether a command asked for it.
    Collecting {
        asked: bool,
        collection: Collection,
    },
}
