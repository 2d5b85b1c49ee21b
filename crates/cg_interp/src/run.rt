//! Runs of scripts.
ghost use Rattle.std.specs.Prelude.{◌≡◌, ◌≢◌, ◌<◌, ◌≤◌, List, length, IfOk, OnErr};
ghost use Rattle.std.specs.Io.KnownBytes.{Keeps};
ghost use Rattle.cg_io.specs.Causes.{Rose, HasCause};
ghost use Rattle.cg_script.specs.declared.limits.TheConstants.{MOST_BUDGET};
ghost use Rattle.cg_script.specs.Spelled.{IsSpelled};
ghost use Rattle.cg_script.specs.Texts.{TextsAreKnown};
ghost use Rattle.cg_graph.specs.Changes.{opening_store};
ghost use Rattle.cg_heap.specs.Calls.{IsSound};
ghost use Rattle.cg_machine.specs.declared.event.Event.{Event as AnyEvent};
ghost use Rattle.cg_machine.specs.World.{World, Ended, BudgetIsSpent};
ghost use Rattle.cg_laws.specs.Kept.{StaysKept};
ghost use Rattle.cg_interp.specs.Collecting.{StandsWith};
ghost use Rattle.cg_interp.specs.Turns.{StaysFit};
ghost use Rattle.cg_interp.specs.Written.{WroteRun, WrotePart, WroteKept};
ghost use Rattle.cg_interp.specs.Running.{MayWrite, MayRun, MayOpen, WritesTurn, CutsTurn};

use crate::commands::MOST_WAITING;
use crate::engine::Engine;
use crate::turned::Standing;
use crate::writing::write_turn;
use cg_heap::{Heap, Steps};
use cg_io::{Sink, WriteFailed};
use cg_kind::Kind;
use cg_laws::{fronts_begin_whole_texts, lines_are_printable, worlds_stay_kept};
use cg_machine::{Event, LineText};
use cg_promises::{no_dead_lines, one_finalizer_each};
use cg_script::Script;
use std::alloc::Global;
use std::marker::Brand;
use std::sync::ledger::{Blank, Ledger};

/// How a run ended.
#[derive(Clone, Copy, Debug, PartialEq, Eq)]
pub enum RunEnd {
    /// By `end`.
    Done,
    /// By `budget spent`.
    Budget,
    /// The sink failed.
    WriteFault,
    /// Memory for the run was refused at its start.
    OutOfMemory,
}

/// One turn; its lines gather in the text, and all of it is written if the run has ended.
fn turn_and_write<B: Kind, K: Sink, L: Ledger>(
    engine: &mut Engine<B>,
    script: &Script,
    steps: &mut Steps<L>,
    waiting: &mut Vec<Event>,
    text: &mut LineText,
    sink: &mut K,
) -> Result<Standing, WriteFailed>
    requires may { MayWrite script.now engine.old }
    ensures ok { IfOk result (λ stands. (w : World) (left : List AnyEvent) → StandsWith script.now
        engine.old left w
        → StaysKept script.now engine.old.first_budget w
        → WritesTurn script.now engine.old w left engine.new stands (K.written sink.old)
        (K.written sink.new) text.old.bytes text.new.bytes) }
    ensures err { OnErr result ((w : World) (left : List AnyEvent) → StandsWith script.now
        engine.old left w
        → StaysKept script.now engine.old.first_budget w
        → CutsTurn script.now engine.old w left engine.new (K.written sink.old)
        (K.written sink.new) text.old.bytes) }
    ensures cause { HasCause (K.faults sink.old) (K.faults sink.new) result }
    ensures fit { StaysFit engine.old engine.new }
    ensures sound { IsSound engine.new.store }
{
    waiting.clear();
    let answer = engine.turn(script, steps, waiting);
    // Heaps are bounded, so after a turn a collection has few lines and little work left.
    engine.heap.sound();
    match write_turn(waiting, &answer, &script.names, text, sink) {
        Ok(()) => Ok(answer.standing()),
        Err(fault) => Err(fault),
    }
}

/// Takes turns and writes their lines as they gather, until the run has ended or the sink has failed.
fn run_turns<B: Kind, K: Sink, L: Ledger>(
    engine: &mut Engine<B>,
    script: &Script,
    steps: &mut Steps<L>,
    waiting: &mut Vec<Event>,
    sink: &mut K,
) -> RunEnd
    requires may { MayRun script.now engine.old }
    ensures done { result ≡ RunEnd.Done
        → WroteRun script.now engine.old.first_budget Ended (K.written sink.old)
        (K.written sink.new) }
    ensures spent { result ≡ RunEnd.Budget
        → WroteRun script.now engine.old.first_budget BudgetIsSpent (K.written sink.old)
        (K.written sink.new) }
    ensures part { result ≡ RunEnd.WriteFault
        → WrotePart script.now engine.old.first_budget (K.written sink.old) (K.written sink.new) }
    ensures cause { result ≡ RunEnd.WriteFault → Rose (K.faults sink.old) (K.faults sink.new) }
    ensures memory { result ≢ RunEnd.OutOfMemory }
    ensures later { K.faults sink.old ≤ K.faults sink.new }
{
    fronts_begin_whole_texts();
    let mut text = LineText::new();
    'turns: loop {
        match turn_and_write(engine, script, steps, waiting, &mut text, sink) {
            Ok(Standing::Running) => {}
            Ok(Standing::Ended) => return RunEnd::Done,
            Ok(Standing::Spent) => return RunEnd::Budget,
            Err(WriteFailed) => return RunEnd::WriteFault,
        }
    }
}

/// The same on a new heap.
fn open_and_run<B: Kind, K: Sink, L: Ledger>(
    alloc: Global,
    heap: Heap<B>,
    script: &Script,
    budget: u32,
    sink: &mut K,
    blank: Blank,
) -> RunEnd
    requires may { MayOpen script.now heap budget }
    requires name { blank.name ≡ L.name }
    requires parts { blank.parts ≡ L.parts }
    requires some { 0 < blank.parts }
    ensures done { result ≡ RunEnd.Done → WroteRun script.now budget Ended (K.written sink.old)
        (K.written sink.new) }
    ensures spent { result ≡ RunEnd.Budget → WroteRun script.now budget BudgetIsSpent
        (K.written sink.old) (K.written sink.new) }
    ensures part { result ≡ RunEnd.WriteFault → WrotePart script.now budget (K.written sink.old)
        (K.written sink.new) }
    ensures cause { result ≡ RunEnd.WriteFault → Rose (K.faults sink.old) (K.faults sink.new) }
    ensures memory { result ≡ RunEnd.OutOfMemory → Keeps (K.written sink.old) (K.written sink.new) }
    ensures later { K.faults sink.old ≤ K.faults sink.new }
{
    worlds_stay_kept();
    lines_are_printable();
    let Ok(mut engine) = Engine::new(alloc, heap, script, budget) else {
        return RunEnd::OutOfMemory;
    };
    let mut steps = Steps::<L>::new(blank);
    let Ok(mut waiting) = Vec::<Event>::with_capacity(alloc, MOST_WAITING) else {
        return RunEnd::OutOfMemory;
    };
    run_turns(&mut engine, script, &mut steps, &mut waiting, sink)
}

/// Runs a script that some bytes spell, with a budget of at most 100,000 frames, on a new heap
/// (`Heap::new`) for the script's names, and writes the lines of the run, many in one `write`.
///
/// `Done` if the run ended by `end`, `Budget` if it ended by `budget spent`, `WriteFault` if the
/// sink failed, and `OutOfMemory` if memory was refused before anything was written. After any
/// answer, the lines begin each finalizer at most once (PEP 442), and name no object that an
/// earlier line frees.
pub fn run_script<B: Kind, K: Sink>(
    alloc: Global,
    heap: Heap<B>,
    script: &Script,
    budget: u32,
    sink: &mut K,
) -> RunEnd
    requires spelled { IsSpelled script.now }
    requires known { TextsAreKnown script.now }
    requires heap { heap ≡ opening_store (length script.now.names) }
    requires budget { budget ≤ MOST_BUDGET }
    ensures done { result ≡ RunEnd.Done → WroteRun script.now budget Ended (K.written sink.old)
        (K.written sink.new) }
    ensures spent { result ≡ RunEnd.Budget → WroteRun script.now budget BudgetIsSpent
        (K.written sink.old) (K.written sink.new) }
    ensures part { result ≡ RunEnd.WriteFault → WrotePart script.now budget (K.written sink.old)
        (K.written sink.new) }
    ensures cause { result ≡ RunEnd.WriteFault → Rose (K.faults sink.old) (K.faults sink.new) }
    ensures memory { result ≡ RunEnd.OutOfMemory → Keeps (K.written sink.old) (K.written sink.new) }
    ensures later { K.faults sink.old ≤ K.faults sink.new }

    // Each finalizer begins at most once, and no line names an object that an earlier line frees.
    ensures promises { WroteKept script.now.names (K.written sink.old) (K.written sink.new) }
{
    one_finalizer_each();
    no_dead_lines();
    // Only contracts count how many entries collections look at.
    open_and_run::<B, K, Brand>(alloc, heap, script, budget, sink, Blank::new(1))
}
