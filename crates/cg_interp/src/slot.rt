//! How the stack stores an activity: a collection is stored in a separate seat.
ghost use Rattle.std.specs.Prelude.{◌≡◌, true, None, Some, IsSome};
ghost use Rattle.std.specs.Borrow.{Lends, sem};
ghost use Rattle.cg_interp.specs.Engines.{is_collecting};
ghost use Rattle.cg_interp.specs.Slots.{filled, takes_seat, Seats, death_at};

use crate::activity::Activity;
use cg_collect::Collection;
use cg_commands::Locals;
use cg_death::{Death, Release};

/// An activity, with a collection stored in the seat. There is at most one, so other activities
/// need not have room for it.
#[derive(Drop)]
pub enum Slot {
    /// The script's own commands.
    Script {
        next: Option<usize>,
    },
    /// A frame.
    Frame {
        locals: Locals,
        procedure: u32,
        next: Option<usize>,
    },
    /// References given up one after the other.
    Releasing(Release),
    /// The shutdown at the end of the script.
    Shutdown {
        started: bool,
    },
    /// The death of an object.
    Dying(Death),
    /// The collection in the seat, and whether a command asked for it.
    Collecting {
        asked: bool,
    },
}

impl Slot {
    ghost use Rattle.cg_death.specs.contracts.death.Death as death_type;
    ghost use Rattle.cg_interp.specs.contracts.slot.Slot.{the_row};

    /// The death in this slot, which must be one, to be changed in its place.
    #[inline(always)]
    pub fn death_mut(&mut self) -> &mut Death
        requires { IsSome (death_at self.old) }
        ensures* writes_back { sem 𝓛 (Lends the_row death_type.the_row self.entry result
            Slot.Dying) }
        ensures value { death_at self.old ≡ Some result.now }
    {
        match self {
            Slot::Dying(death) => death,
            _ => unreachable!(),
        }
    }
}

/// The slot of an activity. A collection moves into the seat, which is empty.
#[inline(always)]
pub fn slot_of(activity: Activity, seat: &mut Option<Collection>) -> Slot
    requires { is_collecting activity ≡ true → seat.old ≡ None }
    ensures is { filled seat.new result ≡ activity }
    ensures seats { Seats result seat.old seat.new }
{
    match activity {
        Activity::Script { next } => Slot::Script { next },
        Activity::Frame {
            locals,
            procedure,
            next,
        } => Slot::Frame {
            locals,
            procedure,
            next,
        },
        Activity::Releasing(release) => Slot::Releasing(release),
        Activity::Shutdown { started } => Slot::Shutdown { started },
        Activity::Dying(death) => Slot::Dying(death),
        Activity::Collecting { asked, collection } => {
            *seat = Some(collection);
            Slot::Collecting { asked }
        }
    }
}

/// The activity of a slot. A collection leaves the seat.
#[inline(always)]
pub fn activity_of(slot: Slot, seat: &mut Option<Collection>) -> Activity
    requires { takes_seat slot ≡ true → IsSome seat.old }
    ensures is { result ≡ filled seat.old slot }
    ensures seats { Seats slot seat.new seat.old }
{
    match slot {
        Slot::Script { next } => Activity::Script { next },
        Slot::Frame {
            locals,
            procedure,
            next,
        } => Activity::Frame {
            locals,
            procedure,
            next,
        },
        Slot::Releasing(release) => Activity::Releasing(release),
        Slot::Shutdown { started } => Activity::Shutdown { started },
        Slot::Dying(death) => Activity::Dying(death),
        Slot::Collecting { asked } => match seat.take() {
            Some(collection) => Activity::Collecting { asked, collection },
            None => unreachable!(),
        },
    }
}
