//! Everything before the weak phase: trial subtraction, the survivors, and the uncollectable
//! objects.
ghost use Rattle.std.specs.Prelude.{◌≡◌, ◌+◌, ◌<◌, ◌≤◌, Some, None, unwrap_or, if◌then◌else◌};
ghost use Rattle.cg_script.specs.declared.Script.{Script as AnyScript};
ghost use Rattle.cg_machine.specs.Collect.{has_flag, stats};
ghost use Rattle.cg_policy.specs.Policy.{Policy as Standing};
ghost use Rattle.cg_policy.specs.Flagset.{bits_of};
ghost use Rattle.cg_heap.specs.Calls.{HasFewHolds};
ghost use Rattle.cg_collect.specs.Numbers.{AreSmall};
ghost use Rattle.cg_collect.specs.declared.collection.Facts.{Facts as AnyFacts};
ghost use Rattle.cg_collect.specs.declared.phase.Phase.TheVariants as phase_of;
ghost use Rattle.cg_collect.specs.Ready.{IsReadyForCollectionAt};
ghost use Rattle.cg_collect.specs.Starting.{MergesYounger, GetOlder, told_sizes, told_weak, told_after_sizes};
ghost use Rattle.cg_collect.specs.Turns.{TakesTurn};
ghost use Rattle.cg_collect.specs.Looks.{most_looks};
ghost use Rattle.cg_collect.specs.Stages.{detection_at};

use crate::answer::CollectStep;
use crate::collection::Facts;
use crate::legacy::set_legacy_aside;
use crate::phase::{Phase, Turn, older};
use crate::untracking::untrack;
use bitflags::Flags;
use cg_heap::{Heap, Steps};
use cg_kind::Kind;
use cg_machine::Event;
use cg_policy::{Flagset, Policy};
use cg_script::Script;
use cg_trial::split;
use cg_value::Place;
use std::sync::ledger::Ledger;

/// The start: merges the younger generations into this one. Its unreachable objects become the
/// candidates, except for the uncollectable ones. The survivors are untracked or move to the older
/// generation.
pub fn start<B: Kind, L: Ledger>(
    facts: Facts,
    heap: &mut Heap<B>,
    policy: &mut Policy,
    script: &Script,
    steps: &mut Steps<L>,
) -> Turn
    requires generation { facts.generation ≤ 2 }
    requires ready { IsReadyForCollectionAt heap.old facts.generation phase_of.Start }
    requires few { HasFewHolds heap.old }
    requires bounded { AreSmall policy.old.numbers }
    ensures takes { TakesTurn script.now facts phase_of.Start heap.old policy.old heap.new
        policy.new result }
    ensures looks { steps.new ≤ steps.old + most_looks facts.generation phase_of.Start heap.old }
    ensures apart { detection_at result.phase ≡ None }
{
    heap.sound();
    let next = first_phase(facts, heap);
    merge_younger(facts.generation, heap);
    heap.sound();
    split(heap, Place::Gen(facts.generation), steps);
    untrack(heap, facts.generation, steps);
    heap.sound();
    let survivors = heap.size(Place::Gen(facts.generation));
    policy.survived(facts.generation, survivors);
    get_older(facts.generation, heap);
    heap.sound();
    set_legacy_aside(heap, script, steps);
    heap.sound();
    Turn::tells(
        Event::GcStart(facts.generation),
        told_first(facts, heap, next),
    )
}

/// With STATS, the sizes of the generations before they are merged.
fn first_phase<B: Kind>(facts: Facts, heap: &Heap<B>) -> Option<Phase>
    ensures { result ≡ (if has_flag (bits_of facts.flags) stats then Some (told_sizes heap.now) else
        None) }
{
    if facts.flags.contains(Flagset::STATS) {
        Some(Phase::Sizes {
            zero: heap.size(Place::Gen(0)),
            one: heap.size(Place::Gen(1)),
            two: heap.size(Place::Gen(2)),
            frozen: heap.size(Place::Frozen),
        })
    } else {
        None
    }
}

/// The first lines.
fn told_first<B: Kind>(facts: Facts, heap: &Heap<B>, sizes: Option<Phase>) -> Phase
    ensures { result ≡ unwrap_or sizes (told_after_sizes (bits_of facts.flags) heap.now) }
{
    match sizes {
        Some(phase) => phase,
        None => after_sizes(facts, heap),
    }
}

/// With COLLECTABLE, the condemned objects are printed before weak references to them are cleared.
fn after_sizes<B: Kind>(facts: Facts, heap: &Heap<B>) -> Phase
    ensures { result ≡ told_after_sizes (bits_of facts.flags) heap.now }
{
    if facts.flags.contains(Flagset::COLLECTABLE) {
        Phase::Telling(heap.first(Place::Cand))
    } else {
        weak_phase(heap)
    }
}

/// The weak phase, starting with the first condemned object.
fn weak_phase<B: Kind>(heap: &Heap<B>) -> Phase
    ensures { result ≡ told_weak heap.now }
{
    Phase::WeakClearing {
        member: heap.first(Place::Cand),
        weak: None,
    }
}

/// Merges the generations below this one into it.
fn merge_younger<B: Kind>(generation: u8, heap: &mut Heap<B>)
    requires { generation ≤ 2 }
    ensures { MergesYounger generation heap.old heap.new }
{
    match generation {
        0 => {}
        1 => heap.merge(Place::Gen(0), Place::Gen(1)),
        _ => {
            heap.merge(Place::Gen(0), Place::Gen(2));
            heap.merge(Place::Gen(1), Place::Gen(2));
        }
    }
}

/// Moves the survivors that are still tracked to the older generation.
fn get_older<B: Kind>(generation: u8, heap: &mut Heap<B>)
    requires { generation ≤ 2 }
    ensures { GetOlder generation heap.old heap.new }
{
    if generation < 2 {
        heap.merge(Place::Gen(generation), Place::Gen(older(generation)));
    }
}

/// Prints the sizes.
pub fn tell_sizes<B: Kind>(
    facts: Facts,
    heap: &Heap<B>,
    zero: u64,
    one: u64,
    two: u64,
    frozen: u64,
) -> Turn
    requires generation { facts.generation ≤ 2 }
    requires ready { IsReadyForCollectionAt heap.now facts.generation (phase_of.Sizes zero one two
        frozen) }
    ensures { (script : AnyScript) (policy : Standing) → TakesTurn script facts
        (phase_of.Sizes zero one two frozen) heap.now policy heap.now policy result }
{
    heap.sound();
    let event = Event::Gens {
        zero,
        one,
        two,
        frozen,
    };
    Turn::tells(event, after_sizes(facts, heap))
}

/// Prints the next condemned object.
pub fn tell_condemned<B: Kind>(heap: &Heap<B>, next: Option<u64>) -> Turn
    requires ready { IsReadyForCollectionAt heap.now 0 (phase_of.Telling next) }
    ensures { (script : AnyScript) (facts : AnyFacts) (policy : Standing) → TakesTurn script facts
        (phase_of.Telling next) heap.now policy heap.now policy result }
{
    heap.sound();
    match next {
        Some(object) => Turn::tells(
            Event::GcCollectable(object),
            Phase::Telling(heap.next(object)),
        ),
        None => Turn::to(weak_phase(heap)),
    }
}
