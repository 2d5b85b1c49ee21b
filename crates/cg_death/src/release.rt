//! References given up one after the other.
ghost use Rattle.std.specs.Prelude.{◌≡◌, ◌<◌, ◌++◌, ◌∷◌, [], option_to_list, if◌then◌else◌, ◌==◌, IfNone, drop};
ghost use Rattle.cg_value.specs.declared.Val.TheVariants as val_of;
ghost use Rattle.cg_graph.specs.Value.{entry_references};
ghost use Rattle.cg_graph.specs.Store.{outside_of, count_of};
ghost use Rattle.cg_graph.specs.Changes.{unheld};
ghost use Rattle.cg_death.specs.declared.answer.DeathStep.TheVariants as answer_of;
ghost use Rattle.cg_death.specs.Activities.{references_left, HasHolds};
ghost use Rattle.cg_death.specs.Answers.{ReleaseSteps, once_released, release_answer, MakesNone};
ghost use Rattle.cg_death.specs.Steady.{TakesFewHolds, KeepsNames, DiesUnheld};
ghost use Rattle.cg_death.specs.Turns.{LeavesTheRest};

use crate::answer::DeathStep;
use cg_graph::reference_in;
use cg_heap::Heap;
use cg_kind::Kind;
use cg_value::Entry;

/// At most two references to give up. Each is an outside hold of its object.
#[derive(Drop)]
pub struct Release {
    first: Option<u64>,
    second: Option<u64>,
}

impl Release {
    /// Gives up the references of an entry: the one in its value, then the one in its key. (Ours.)
    #[inline(always)]
    pub fn new(entry: Entry) -> Release
        ensures { references_left result ≡ entry_references entry }
    {
        Release {
            first: reference_in(entry.val),
            second: reference_in(entry.key),
        }
    }

    /// Gives up a hold of one object.
    #[inline(always)]
    pub fn of(object: u64) -> Release
        ensures { references_left result ≡ object ∷ [] }
    {
        Release {
            first: Some(object),
            second: None,
        }
    }

    /// Gives up the next reference.
    ///
    /// `Died` exactly if nothing then holds its object, and `Gone` exactly if no reference was
    /// left. Never `Frame` or `Emit`. (Developer guide, "Reference counting": an object whose count
    /// reaches 0 is deallocated.)
    #[inline(always)]
    pub fn step<B: Kind>(&mut self, heap: &mut Heap<B>) -> DeathStep
        requires { HasHolds heap.old (references_left self.old) }
        ensures left { references_left self.new ≡ drop 1 (references_left self.old) }
        ensures rest { heap.new ≡ once_released (references_left self.old) heap.old }
        ensures answer { result ≡ release_answer (references_left self.old) heap.new }
        ensures steps { ReleaseSteps heap.old (references_left self.old) heap.new
            (references_left self.new) result }
        ensures objects { MakesNone heap.old heap.new }
        ensures holds { TakesFewHolds heap.old heap.new }
        ensures names { KeepsNames heap.old heap.new }
        ensures died { DiesUnheld result heap.new }
    {
        match self.take_first() {
            Some(object) => give_up(heap, object),
            None => DeathStep::Gone,
        }
    }

    #[inline(always)]
    pub(crate) fn take_first(&mut self) -> Option<u64>
        ensures taken { references_left self.old ≡ option_to_list result
            ++ references_left self.new }
        ensures none { IfNone result (references_left self.new ≡ []) }
    {
        match self.first {
            Some(object) => {
                self.first = None;
                Some(object)
            }
            None => {
                let object = self.second;
                self.second = None;
                object
            }
        }
    }
}

/// Gives up one outside hold of an object.
#[inline(always)]
pub(crate) fn give_up<B: Kind>(heap: &mut Heap<B>, object: u64) -> DeathStep
    requires { 0 < outside_of heap.old object }
    ensures rest { heap.new ≡ unheld (object ∷ []) heap.old }
    ensures answer { result ≡ (if count_of heap.new object == 0 then answer_of.Died object
        else answer_of.Continue) }
    ensures leaves { LeavesTheRest heap.old heap.new }
    ensures died { DiesUnheld result heap.new }
{
    if heap.unhold(object) {
        DeathStep::Died(object)
    } else {
        DeathStep::Continue
    }
}
