//! The last phase: the entries are removed, and the object is freed.
ghost use Rattle.cg_script.specs.declared.Script.{Script};
ghost use Rattle.cg_heap.specs.Calls.{HasFewHolds};
ghost use Rattle.cg_heap.specs.Weak.{IsInNoRow};
ghost use Rattle.cg_death.specs.declared.phase.Phase.TheVariants as phase_of;
ghost use Rattle.cg_death.specs.Activities.{IsUnheld};
ghost use Rattle.cg_death.specs.Turns.{TakesTurn};

use crate::answer::DeathStep;
use crate::phase::{Phase, Turn};
use crate::release::Release;
use cg_heap::Heap;
use cg_kind::Kind;
use cg_machine::Event;

/// Removes the last entry, whose references are given up next, or frees the object.
pub fn empty_one<B: Kind>(object: u64, heap: &mut Heap<B>) -> Turn
    requires few { HasFewHolds heap.old }
    requires unheld { IsUnheld heap.old object }
    requires no_row { IsInNoRow object heap.old.rows }
    ensures { (script : Script) → TakesTurn script heap.old object phase_of.Emptying heap.new
        result }
{
    heap.sound();
    match heap.detach(object) {
        Some(entry) => Turn {
            phase: Phase::Emptying,
            release: Some(Release::new(entry)),
            answer: DeathStep::Continue,
        },
        None => {
            heap.free(object);
            Turn::tells(Event::Free(object), Phase::Over)
        }
    }
}
