//! A record job: reads a source as a script, runs it on a heap over the kinds, and writes the
//! records of the run.
ghost use Rattle.std.specs.Prelude.{◌≡◌, ◌<◌, ◌⊎◌, None, length, map, replicate};
ghost use Rattle.std.specs.FinMap as fin;
ghost use Rattle.std.specs.Io.KnownBytes.{Keeps};
ghost use Rattle.cg_io.specs.Causes.{Rose};
ghost use Rattle.cg_heap.specs.Boxes.{six_kinds};
ghost use Rattle.cg_machine.specs.World.{Ended, BudgetIsSpent};
ghost use Rattle.cg_script.specs.Spelled.{IsSpelled};
ghost use Rattle.cg_script.specs.Texts.{TextsAreKnown};
ghost use Rattle.cg_script.specs.Reading.{reading};
ghost use Rattle.cg_interp.specs.Recorded.{WroteRecords, WroteRecordsPart};
ghost use Rattle.cg_cli.specs.Jobs.{RecordAnswers, outside};
ghost use Rattle.cg_cli.specs.Statuses.{RanBad, AnswersReading, budget_of};
ghost use Rattle.cg_cli.specs.Recordings.{RecordedWhole, RecordedPart, RecordedFront, RecordedSome};

use crate::budget::budget_for;
use crate::input::{LIMIT, read_whole, script_of};
use crate::status::Status;
use crate::tell::tell_bad_script;
use cg_heap::Heap;
use cg_interp::{RunEnd, run_recorded};
use cg_io::{Sink, Source};
use cg_kind::Kind;
use cg_script::{Script, ScriptFault};
use std::alloc::Global;

/// Runs a parsed script with its budget, and writes the records of the run.
fn record_parsed<K: Sink, B: Kind>(
    alloc: Global,
    script: &Script,
    sink: &mut K,
    kinds: Vec<B>,
) -> Status
    requires spelled { IsSpelled script.now }
    requires known { TextsAreKnown script.now }
    requires kinds { map B.kind kinds.items ≡ six_kinds }
    requires empty { map B.bodies kinds.items ≡ replicate 6 fin.empty }
    ensures done { result ≡ Status.Done → WroteRecords script.now (budget_of None script.now) Ended
        (K.written sink.old) (K.written sink.new) }
    ensures spent { result ≡ Status.Budget → WroteRecords script.now (budget_of None script.now)
        BudgetIsSpent (K.written sink.old) (K.written sink.new) }
    ensures part { result ≡ Status.WriteFault → WroteRecordsPart script.now
        (budget_of None script.now) (K.written sink.old) (K.written sink.new) }
    ensures cause { result ≡ Status.WriteFault → Rose (K.faults sink.old) (K.faults sink.new) }
    ensures memory { result ≡ Status.OutOfMemory → Keeps (K.written sink.old) (K.written sink.new)
        ⊎ WroteRecordsPart script.now (budget_of None script.now) (K.written sink.old)
        (K.written sink.new) }
    ensures only { (result ≡ Status.Done) ⊎ (result ≡ Status.Budget) ⊎ (result ≡ Status.WriteFault)
        ⊎ (result ≡ Status.OutOfMemory) }
{
    let budget = budget_for(None, script);
    let Ok(heap) = Heap::new(alloc, kinds, script.names.len()) else {
        return Status::OutOfMemory;
    };
    match run_recorded(alloc, heap, script, budget, sink) {
        RunEnd::Done => Status::Done,
        RunEnd::Budget => Status::Budget,
        RunEnd::WriteFault => Status::WriteFault,
        RunEnd::OutOfMemory => Status::OutOfMemory,
    }
}

/// Records a run of the script that some bytes spell.
fn record_in_hand<K: Sink, B: Kind>(
    alloc: Global,
    bytes: Vec<u8>,
    sink: &mut K,
    kinds: Vec<B>,
) -> Status
    requires few { length bytes.items < LIMIT }
    requires kinds { map B.kind kinds.items ≡ six_kinds }
    requires empty { map B.bodies kinds.items ≡ replicate 6 fin.empty }
    ensures done { result ≡ Status.Done → RecordedWhole Ended bytes.items (K.written sink.old)
        (K.written sink.new) }
    ensures spent { result ≡ Status.Budget → RecordedWhole BudgetIsSpent bytes.items
        (K.written sink.old) (K.written sink.new) }
    ensures bad_script { result ≡ Status.BadScript → RanBad bytes.items (K.written sink.old)
        (K.written sink.new) }
    ensures write { result ≡ Status.WriteFault → RecordedFront bytes.items (K.written sink.old)
        (K.written sink.new) }
    ensures cause { result ≡ Status.WriteFault → Rose (K.faults sink.old) (K.faults sink.new) }
    ensures memory { result ≡ Status.OutOfMemory → RecordedSome bytes.items (K.written sink.old)
        (K.written sink.new) }
    ensures only { AnswersReading (reading bytes.items) result ⊎ (result ≡ Status.WriteFault)
        ⊎ (result ≡ Status.OutOfMemory) }
{
    match script_of(alloc, bytes) {
        Ok(script) => record_parsed(alloc, &script, sink, kinds),
        Err(ScriptFault::Bad { line, code }) => tell_bad_script(line, code, sink),
        Err(ScriptFault::OutOfMemory) => Status::OutOfMemory,
    }
}

/// Reads a source to its end, and writes the records of a run of its script.
pub fn record_job<S: Source, K: Sink, B: Kind>(
    alloc: Global,
    source: &mut S,
    sink: &mut K,
    kinds: Vec<B>,
) -> Status
    requires kinds { map B.kind kinds.items ≡ six_kinds }
    requires empty { map B.bodies kinds.items ≡ replicate 6 fin.empty }
    ensures { RecordAnswers result
        (outside (S.left source.old) (S.faults source.old) (K.written sink.old) (K.faults sink.old))
        (outside (S.left source.new) (S.faults source.new) (K.written sink.new)
        (K.faults sink.new)) }
{
    match read_whole(alloc, source, sink) {
        Ok(bytes) => record_in_hand(alloc, bytes, sink, kinds),
        Err(status) => status,
    }
}
