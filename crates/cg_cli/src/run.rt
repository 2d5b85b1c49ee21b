//! A run job: reads a source as a script, and runs it on a heap over the kinds.
ghost use Rattle.std.specs.Prelude.{◌≡◌, ◌≤◌, ◌<◌, ◌⊎◌, length, map, replicate, IfSome};
ghost use Rattle.std.specs.FinMap as fin;
ghost use Rattle.std.specs.Io.KnownBytes.{Keeps};
ghost use Rattle.cg_io.specs.Causes.{Rose};
ghost use Rattle.cg_heap.specs.Boxes.{six_kinds};
ghost use Rattle.cg_machine.specs.World.{Ended, BudgetIsSpent};
ghost use Rattle.cg_script.specs.declared.limits.TheConstants.{MOST_BUDGET};
ghost use Rattle.cg_script.specs.Spelled.{IsSpelled};
ghost use Rattle.cg_script.specs.Texts.{TextsAreKnown};
ghost use Rattle.cg_script.specs.Reading.{reading};
ghost use Rattle.cg_interp.specs.Written.{WroteRun, WrotePart};
ghost use Rattle.cg_cli.specs.Jobs.{RunAnswers, outside};
ghost use Rattle.cg_cli.specs.Statuses.{RanWhole, RanBad, WroteFront, AnswersReading, budget_of};

use crate::budget::budget_for;
use crate::input::{LIMIT, read_whole, script_of};
use crate::status::Status;
use crate::tell::tell_bad_script;
use cg_heap::Heap;
use cg_interp::{RunEnd, run_script};
use cg_io::{Sink, Source};
use cg_kind::Kind;
use cg_promises::{no_dead_lines, one_finalizer_each};
use cg_script::{Script, ScriptFault};
use std::alloc::Global;

/// Runs a parsed script.
fn run_parsed<K: Sink, B: Kind>(
    alloc: Global,
    given: Option<u32>,
    script: &Script,
    sink: &mut K,
    kinds: Vec<B>,
) -> Status
    requires spelled { IsSpelled script.now }
    requires known { TextsAreKnown script.now }
    requires given { IfSome given (λ n. n ≤ MOST_BUDGET) }
    requires kinds { map B.kind kinds.items ≡ six_kinds }
    requires empty { map B.bodies kinds.items ≡ replicate 6 fin.empty }
    ensures done { result ≡ Status.Done → WroteRun script.now (budget_of given script.now) Ended
        (K.written sink.old) (K.written sink.new) }
    ensures spent { result ≡ Status.Budget → WroteRun script.now (budget_of given script.now)
        BudgetIsSpent (K.written sink.old) (K.written sink.new) }
    ensures part { result ≡ Status.WriteFault → WrotePart script.now (budget_of given script.now)
        (K.written sink.old) (K.written sink.new) }
    ensures cause { result ≡ Status.WriteFault → Rose (K.faults sink.old) (K.faults sink.new) }
    ensures memory { result ≡ Status.OutOfMemory → Keeps (K.written sink.old) (K.written sink.new) }
    ensures only { (result ≡ Status.Done) ⊎ (result ≡ Status.Budget) ⊎ (result ≡ Status.WriteFault)
        ⊎ (result ≡ Status.OutOfMemory) }
{
    let budget = budget_for(given, script);
    let Ok(heap) = Heap::new(alloc, kinds, script.names.len()) else {
        return Status::OutOfMemory;
    };
    match run_script(alloc, heap, script, budget, sink) {
        RunEnd::Done => Status::Done,
        RunEnd::Budget => Status::Budget,
        RunEnd::WriteFault => Status::WriteFault,
        RunEnd::OutOfMemory => Status::OutOfMemory,
    }
}

/// Runs the script that some bytes spell.
fn run_in_hand<K: Sink, B: Kind>(
    alloc: Global,
    given: Option<u32>,
    bytes: Vec<u8>,
    sink: &mut K,
    kinds: Vec<B>,
) -> Status
    requires few { length bytes.items < LIMIT }
    requires given { IfSome given (λ n. n ≤ MOST_BUDGET) }
    requires kinds { map B.kind kinds.items ≡ six_kinds }
    requires empty { map B.bodies kinds.items ≡ replicate 6 fin.empty }
    ensures done { result ≡ Status.Done → RanWhole given Ended bytes.items (K.written sink.old)
        (K.written sink.new) }
    ensures spent { result ≡ Status.Budget → RanWhole given BudgetIsSpent bytes.items
        (K.written sink.old) (K.written sink.new) }
    ensures bad_script { result ≡ Status.BadScript → RanBad bytes.items (K.written sink.old)
        (K.written sink.new) }
    ensures write { result ≡ Status.WriteFault → WroteFront given bytes.items (K.written sink.old)
        (K.written sink.new) }
    ensures cause { result ≡ Status.WriteFault → Rose (K.faults sink.old) (K.faults sink.new) }
    ensures memory { result ≡ Status.OutOfMemory → Keeps (K.written sink.old) (K.written sink.new) }
    ensures only { AnswersReading (reading bytes.items) result ⊎ (result ≡ Status.WriteFault)
        ⊎ (result ≡ Status.OutOfMemory) }
{
    match script_of(alloc, bytes) {
        Ok(script) => run_parsed(alloc, given, &script, sink, kinds),
        Err(ScriptFault::Bad { line, code }) => tell_bad_script(line, code, sink),
        Err(ScriptFault::OutOfMemory) => Status::OutOfMemory,
    }
}

/// Reads a source to its end, and runs its script.
pub fn run_job<S: Source, K: Sink, B: Kind>(
    alloc: Global,
    given: Option<u32>,
    source: &mut S,
    sink: &mut K,
    kinds: Vec<B>,
) -> Status
    requires given { IfSome given (λ n. n ≤ MOST_BUDGET) }
    requires kinds { map B.kind kinds.items ≡ six_kinds }
    requires empty { map B.bodies kinds.items ≡ replicate 6 fin.empty }
    ensures { RunAnswers given result
        (outside (S.left source.old) (S.faults source.old) (K.written sink.old) (K.faults sink.old))
        (outside (S.left source.new) (S.faults source.new) (K.written sink.new)
        (K.faults sink.new)) }
{
    one_finalizer_each();
    no_dead_lines();
    match read_whole(alloc, source, sink) {
        Ok(bytes) => run_in_hand(alloc, given, bytes, sink, kinds),
        Err(status) => status,
    }
}
