//! Runs of scripts that write records instead of their text.
ghost use Rattle.std.specs.Prelude.{◌≡◌, ◌≢◌, ◌<◌, ◌≤◌, ◌⊎◌, ◌++◌, List, length, codes, IfOk, OnErr};
ghost use Rattle.std.specs.Io.KnownBytes.{Appends};
ghost use Rattle.cg_io.specs.Causes.{Rose, HasCause, AppendsFront};
ghost use Rattle.cg_script.specs.declared.limits.TheConstants.{MOST_BUDGET};
ghost use Rattle.cg_script.specs.Spelled.{IsSpelled};
ghost use Rattle.cg_script.specs.Texts.{TextsAreKnown};
ghost use Rattle.cg_graph.specs.Changes.{opening_store};
ghost use Rattle.cg_heap.specs.Calls.{IsSound};
ghost use Rattle.cg_machine.specs.declared.event.Event.{Event as AnyEvent};
ghost use Rattle.cg_machine.specs.World.{World, Ended, BudgetIsSpent};
ghost use Rattle.cg_laws.specs.Kept.{StaysKept};
ghost use Rattle.cg_interp.specs.Collecting.{StandsWith};
ghost use Rattle.cg_interp.specs.Turns.{StaysFit};
ghost use Rattle.cg_interp.specs.Telling.{IsAtAnyTurn};
ghost use Rattle.cg_interp.specs.Recorded.{WroteRecords, WroteRecordsPart};
ghost use Rattle.cg_interp.specs.Graphs.{closing};
ghost use Rattle.cg_interp.specs.Recording.{RecordsTurn, CutsRecord};
ghost use Rattle.cg_interp.specs.Running.{MayRun, MayOpen};

use crate::commands::MOST_WAITING;
use crate::engine::Engine;
use crate::recording::{is_unfinished_after, recorded_of, write_end};
use crate::run::RunEnd;
use crate::turned::{Standing, wants_memory_in};
use cg_heap::{Heap, Steps};
use cg_io::{Sink, WriteFailed};
use cg_kind::Kind;
use cg_laws::{lines_are_printable, no_run_is_stuck, worlds_stay_kept};
use cg_machine::Event;
use cg_script::Script;
use std::alloc::Global;
use std::marker::Brand;
use std::sync::ledger::{Blank, Ledger};

/// One turn and its records; its lines are dropped. Answers the state of the run, or `None` if a
/// command was refused for memory.
fn turn_and_record<B: Kind, K: Sink, L: Ledger>(
    engine: &mut Engine<B>,
    script: &Script,
    steps: &mut Steps<L>,
    waiting: &mut Vec<Event>,
    unfinished: &mut bool,
    sink: &mut K,
) -> Result<Option<Standing>, WriteFailed>
    requires stands { IsAtAnyTurn script.now engine.old }
    ensures ok { IfOk result (λ told. (w : World) (left : List AnyEvent) → StandsWith script.now
        engine.old left w
        → StaysKept script.now engine.old.first_budget w
        → RecordsTurn script.now engine.old unfinished.old w left engine.new unfinished.new told
        (K.written sink.old) (K.written sink.new)) }
    ensures err { OnErr result ((w : World) (left : List AnyEvent) → StandsWith script.now
        engine.old left w
        → StaysKept script.now engine.old.first_budget w
        → CutsRecord script.now engine.old unfinished.old w left engine.new (K.written sink.old)
        (K.written sink.new)) }
    ensures cause { HasCause (K.faults sink.old) (K.faults sink.new) result }
    ensures fit { StaysFit engine.old engine.new }
    ensures was_sound { IsSound engine.old.store }
    ensures sound { IsSound engine.new.store }
{
    // Heaps are bounded, and each object is in the list of its place.
    engine.heap.sound();
    let detection = recorded_of(engine.next_detection(), *unfinished);
    engine.write_before(script, detection, *unfinished, sink)?;
    waiting.clear();
    let answer = engine.turn(script, steps, waiting);
    engine.heap.sound();
    engine.write_after(detection, sink)?;
    *unfinished = is_unfinished_after(detection, *unfinished);
    if wants_memory_in(waiting, &answer) {
        return Ok(None);
    }
    Ok(Some(answer.standing()))
}

/// Ends the records of a run that ended with this answer.
fn end_records<K: Sink>(unfinished: bool, end: RunEnd, sink: &mut K) -> RunEnd
    requires { (end ≡ RunEnd.Done) ⊎ (end ≡ RunEnd.Budget) }
    ensures only { (result ≡ end) ⊎ (result ≡ RunEnd.WriteFault) }
    ensures ok { result ≢ RunEnd.WriteFault
        → Appends (K.written sink.old) (K.written sink.new) (closing unfinished ++ codes "end\n") }
    ensures part { result ≡ RunEnd.WriteFault
        → AppendsFront (K.written sink.old) (K.written sink.new) (closing unfinished
        ++ codes "end\n") }
    ensures cause { result ≡ RunEnd.WriteFault → Rose (K.faults sink.old) (K.faults sink.new) }
    ensures later { K.faults sink.old ≤ K.faults sink.new }
{
    match write_end(unfinished, sink) {
        Ok(()) => end,
        Err(WriteFailed) => RunEnd::WriteFault,
    }
}

/// Takes turns and records each, until the run has ended, the sink has failed or a command was
/// refused for memory.
fn record_turns<B: Kind, K: Sink, L: Ledger>(
    engine: &mut Engine<B>,
    script: &Script,
    steps: &mut Steps<L>,
    waiting: &mut Vec<Event>,
    sink: &mut K,
) -> RunEnd
    requires may { MayRun script.now engine.old }
    ensures done { result ≡ RunEnd.Done
        → WroteRecords script.now engine.old.first_budget Ended (K.written sink.old)
        (K.written sink.new) }
    ensures spent { result ≡ RunEnd.Budget
        → WroteRecords script.now engine.old.first_budget BudgetIsSpent (K.written sink.old)
        (K.written sink.new) }
    ensures part { result ≡ RunEnd.WriteFault
        → WroteRecordsPart script.now engine.old.first_budget (K.written sink.old)
        (K.written sink.new) }
    ensures cause { result ≡ RunEnd.WriteFault → Rose (K.faults sink.old) (K.faults sink.new) }
    ensures memory { result ≡ RunEnd.OutOfMemory
        → WroteRecordsPart script.now engine.old.first_budget (K.written sink.old)
        (K.written sink.new) }
    ensures later { K.faults sink.old ≤ K.faults sink.new }
{
    no_run_is_stuck();
    let mut unfinished = false;
    'turns: loop {
        match turn_and_record(engine, script, steps, waiting, &mut unfinished, sink) {
            Ok(Some(Standing::Running)) => {}
            Ok(Some(Standing::Ended)) => return end_records(unfinished, RunEnd::Done, sink),
            Ok(Some(Standing::Spent)) => return end_records(unfinished, RunEnd::Budget, sink),
            Ok(None) => return RunEnd::OutOfMemory,
            Err(WriteFailed) => return RunEnd::WriteFault,
        }
    }
}

/// The same on a new heap.
fn open_and_record<B: Kind, K: Sink, L: Ledger>(
    alloc: Global,
    heap: Heap<B>,
    script: &Script,
    budget: u32,
    sink: &mut K,
    blank: Blank,
) -> RunEnd
    requires may { MayOpen script.now heap budget }
    requires name { blank.name ≡ L.name }
    requires parts { blank.parts ≡ L.parts }
    requires some { 0 < blank.parts }
    ensures done { result ≡ RunEnd.Done → WroteRecords script.now budget Ended (K.written sink.old)
        (K.written sink.new) }
    ensures spent { result ≡ RunEnd.Budget → WroteRecords script.now budget BudgetIsSpent
        (K.written sink.old) (K.written sink.new) }
    ensures part { result ≡ RunEnd.WriteFault → WroteRecordsPart script.now budget
        (K.written sink.old) (K.written sink.new) }
    ensures cause { result ≡ RunEnd.WriteFault → Rose (K.faults sink.old) (K.faults sink.new) }
    ensures memory { result ≡ RunEnd.OutOfMemory → WroteRecordsPart script.now budget
        (K.written sink.old) (K.written sink.new) }
    ensures later { K.faults sink.old ≤ K.faults sink.new }
{
    worlds_stay_kept();
    lines_are_printable();
    no_run_is_stuck();
    let Ok(mut engine) = Engine::new(alloc, heap, script, budget) else {
        return RunEnd::OutOfMemory;
    };
    let mut steps = Steps::<L>::new(blank);
    let Ok(mut waiting) = Vec::<Event>::with_capacity(alloc, MOST_WAITING) else {
        return RunEnd::OutOfMemory;
    };
    record_turns(&mut engine, script, &mut steps, &mut waiting, sink)
}

/// Runs a script as `run_script` does, under the same conditions, and writes the records of its
/// collections instead of its text, one `write` a line. The records allocate nothing.
///
/// `Done` if the run ended by `end`; `Budget` if it ended by `budget spent`; `WriteFault` if the
/// sink failed; `OutOfMemory` if memory was refused, either at the start before anything was
/// written, or to a command: then the run stops, and a prefix of the records was written.
pub fn run_recorded<B: Kind, K: Sink>(
    alloc: Global,
    heap: Heap<B>,
    script: &Script,
    budget: u32,
    sink: &mut K,
) -> RunEnd
    requires spelled { IsSpelled script.now }
    requires known { TextsAreKnown script.now }
    requires heap { heap ≡ opening_store (length script.now.names) }
    requires budget { budget ≤ MOST_BUDGET }

    // The text of the records of a whole run without a command refused for memory.
    ensures done { result ≡ RunEnd.Done → WroteRecords script.now budget Ended (K.written sink.old)
        (K.written sink.new) }
    ensures spent { result ≡ RunEnd.Budget → WroteRecords script.now budget BudgetIsSpent
        (K.written sink.old) (K.written sink.new) }

    // A prefix of the text of the records of a whole run.
    ensures part { result ≡ RunEnd.WriteFault → WroteRecordsPart script.now budget
        (K.written sink.old) (K.written sink.new) }
    ensures memory { result ≡ RunEnd.OutOfMemory → WroteRecordsPart script.now budget
        (K.written sink.old) (K.written sink.new) }
    ensures cause { result ≡ RunEnd.WriteFault → Rose (K.faults sink.old) (K.faults sink.new) }
    ensures later { K.faults sink.old ≤ K.faults sink.new }
{
    // Only contracts count how many entries collections look at.
    open_and_record::<B, K, Brand>(alloc, heap, script, budget, sink, Blank::new(1))
}
