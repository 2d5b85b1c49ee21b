//! The commands on generations: `freeze`, `unfreeze`, `gens`, `count` and `collect`.
ghost use Rattle.std.specs.Prelude.{◌≡◌};
ghost use Rattle.cg_graph.specs.Store.{objects_of};
ghost use Rattle.cg_machine.specs.declared.event.Event.TheVariants as event;
ghost use Rattle.cg_machine.specs.Effects.{frozen, unfrozen, gens_line};
ghost use Rattle.cg_commands.specs.Controls.{IsAsked};
ghost use Rattle.cg_commands.specs.Places.{Replaces};

use crate::done::{Done, Refusal};
use cg_heap::Heap;
use cg_kind::Kind;
use cg_machine::Event;
use cg_policy::Policy;
use cg_value::Place;

/// Moves the objects of the generations to the permanent one. (`gc.freeze`.)
pub(crate) fn freeze<B: Kind>(heap: &mut Heap<B>)
    ensures { Replaces frozen heap.old heap.new }
{
    heap.sound();
    heap.merge(Place::Gen(0), Place::Frozen);
    heap.merge(Place::Gen(1), Place::Frozen);
    heap.merge(Place::Gen(2), Place::Frozen);
}

/// Moves the objects of the permanent generation to generation 2. (`gc.unfreeze`.)
pub(crate) fn unfreeze<B: Kind>(heap: &mut Heap<B>)
    ensures { Replaces unfrozen heap.old heap.new }
{
    heap.merge(Place::Frozen, Place::Gen(2));
}

/// The sizes of the generations and of the permanent one.
pub(crate) fn sizes<B: Kind>(heap: &Heap<B>) -> Event
    ensures { result ≡ gens_line (objects_of heap.now) }
{
    heap.sound();
    Event::Gens {
        zero: heap.size(Place::Gen(0)),
        one: heap.size(Place::Gen(1)),
        two: heap.size(Place::Gen(2)),
        frozen: heap.size(Place::Frozen),
    }
}

/// The three counts.
pub(crate) fn counts(policy: &Policy) -> Event
    ensures { result ≡ event.Count policy.now.numbers.zero_count policy.now.numbers.one_count
        policy.now.numbers.two_count }
{
    let counts = policy.counts();
    Event::Count {
        zero: counts.zero,
        one: counts.one,
        two: counts.two,
    }
}

/// A collection of the generation in a `collect`. (`gc.collect`: the number is 0 to 2.)
pub(crate) fn collect(generation: i64) -> Result<Done, Refusal>
    ensures { IsAsked generation result }
{
    if generation < 0 {
        return Err(Refusal::BadGeneration);
    }
    if generation < 3 {
        Ok(Done::Collects(generation as u8))
    } else {
        Err(Refusal::BadGeneration)
    }
}
