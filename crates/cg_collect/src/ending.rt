//! The end: uncollectable objects are reported and saved. (`gc` manual, `gc.garbage`,
//! `gc.DEBUG_UNCOLLECTABLE`.)
ghost use Rattle.std.specs.Prelude.{◌≡◌, ◌≤◌};
ghost use Rattle.cg_script.specs.declared.Script.{Script as AnyScript};
ghost use Rattle.cg_policy.specs.Policy.{Policy as Standing};
ghost use Rattle.cg_policy.specs.Flagset.{bits_of};
ghost use Rattle.cg_graph.specs.Store.{Store, IsLive};
ghost use Rattle.cg_collect.specs.Phases.{is_saved_at};
ghost use Rattle.cg_collect.specs.Saving.{with_saved, kept_aside};
ghost use Rattle.cg_collect.specs.declared.phase.Phase.TheVariants as phase_of;
ghost use Rattle.cg_collect.specs.Collections.{stop_turn};
ghost use Rattle.cg_collect.specs.Ready.{IsReadyForCollectionAt};
ghost use Rattle.cg_collect.specs.Turns.{TakesTurn};

use crate::collection::Facts;
use crate::phase::{Phase, Turn, older};
use bitflags::Flags;
use cg_death::finalizers_of;
use cg_heap::Heap;
use cg_kind::Kind;
use cg_machine::Event;
use cg_policy::{Flagset, Policy};
use cg_script::Script;
use cg_value::Place;

/// Saves the uncollectable objects that are to be saved, and moves all to the older generation. The
/// collection no longer counts as running.
pub fn end<B: Kind>(facts: Facts, heap: &mut Heap<B>, policy: &mut Policy, script: &Script) -> Turn
    requires generation { facts.generation ≤ 2 }
    requires ready { IsReadyForCollectionAt heap.old facts.generation phase_of.Ending }
    ensures { TakesTurn script.now facts phase_of.Ending heap.old policy.old heap.new policy.new
        result }
{
    heap.sound();
    let number = heap.size(Place::Legacy);
    let first = heap.first(Place::Legacy);
    save_legacy(facts, heap, script);
    heap.sound();
    heap.merge(Place::Legacy, Place::Gen(older(facts.generation)));
    heap.sound();
    policy.ended();
    if facts.flags.intersects(Flagset::UNCOLLECTABLE) {
        Turn::to(Phase::Uncollectable {
            first,
            next: first,
            number,
        })
    } else {
        Turn::to(Phase::Saved {
            next: first,
            number,
        })
    }
}

/// Saves the uncollectable objects that are to be saved.
fn save_legacy<B: Kind>(facts: Facts, heap: &mut Heap<B>, script: &Script)
    requires { IsReadyForCollectionAt heap.old facts.generation phase_of.Ending }
    ensures { heap.new ≡ with_saved (kept_aside script.now (bits_of facts.flags) heap.old)
        heap.old }
{
    heap.sound();
    let mut next = heap.first(Place::Legacy);
    'objects: while let Some(object) = next {
        next = heap.next(object);
        if is_saved(facts, heap, script, object) {
            heap.save(object);
        }
    }
}

/// Whether an uncollectable object is saved: with SAVEALL, or with a legacy finalizer.
fn is_saved<B: Kind>(facts: Facts, heap: &Heap<B>, script: &Script, object: u64) -> bool
    requires { IsLive heap.now object }
    ensures { result ≡ is_saved_at script.now (bits_of facts.flags) heap.now object }
{
    if facts.flags.intersects(Flagset::SAVEALL) {
        return true;
    }
    finalizers_of(heap, script, object).legacy.is_some()
}

/// Prints the next uncollectable object; afterwards the saved ones are printed.
pub fn tell_uncollectable<B: Kind>(
    facts: Facts,
    heap: &Heap<B>,
    first: Option<u64>,
    next: Option<u64>,
    number: u64,
) -> Turn
    requires generation { facts.generation ≤ 2 }
    requires ready { IsReadyForCollectionAt heap.now facts.generation (phase_of.Uncollectable first
        next number) }
    ensures { (script : AnyScript) (policy : Standing) → TakesTurn script facts
        (phase_of.Uncollectable first next number) heap.now policy heap.now policy result }
{
    heap.sound();
    match next {
        Some(object) => Turn::tells(
            Event::GcUncollectable(object),
            Phase::Uncollectable {
                first,
                next: heap.next(object),
                number,
            },
        ),
        None => Turn::to(Phase::Saved {
            next: first,
            number,
        }),
    }
}

/// Prints the next object if it was saved; afterwards the end is printed.
pub fn tell_saved<B: Kind>(
    facts: Facts,
    heap: &Heap<B>,
    script: &Script,
    next: Option<u64>,
    number: u64,
) -> Turn
    requires generation { facts.generation ≤ 2 }
    requires ready { IsReadyForCollectionAt heap.now facts.generation (phase_of.Saved next number) }
    ensures { (policy : Standing) → TakesTurn script.now facts (phase_of.Saved next number) heap.now
        policy heap.now policy result }
{
    let Some(object) = next else {
        return Turn::to(Phase::Stopping(number));
    };
    heap.sound();
    let phase = Phase::Saved {
        next: heap.next(object),
        number,
    };
    if is_saved(facts, heap, script, object) {
        Turn::tells(Event::GcSaved(object), phase)
    } else {
        Turn::to(phase)
    }
}

/// Prints the end, with both numbers.
pub fn tell_end(facts: Facts, number: u64) -> Turn
    ensures takes { (script : AnyScript) (store : Store) (policy : Standing)
        → TakesTurn script facts (phase_of.Stopping number) store policy store policy result }
    ensures stops { result ≡ stop_turn facts number }
{
    let event = Event::GcStop {
        generation: facts.generation,
        collected: facts.collected,
        uncollectable: number,
    };
    Turn::tells(event, Phase::Over(number))
}
