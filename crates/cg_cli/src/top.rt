//! The top call: what the program does with its arguments, its source and its sink.
ghost use Rattle.std.specs.Prelude.{◌≡◌, ℕ, Option, map, replicate, string_bytes};
ghost use Rattle.std.specs.FinMap as fin;
ghost use Rattle.cg_heap.specs.Boxes.{six_kinds};
ghost use Rattle.cg_words.specs.Words.{AsksFor, Ask};
ghost use Rattle.cg_cli.specs.Jobs.{RunAnswers, GenerateAnswers, ExpandAnswers, RecordAnswers, NoJobAnswers, ReadNothing, outside};

use crate::expand::expand_job;
use crate::generate::generate_job;
use crate::record::record_job;
use crate::run::run_job;
use crate::status::Status;
use crate::tell::tell_bad_words;
use cg_io::{Sink, Source};
use cg_kind::Kind;
use cg_words::{Job, read_words};
use std::alloc::{AllocError, Global};

/// `gc_run` over kinds of any one type, for callers that need no boxes; it has the same clauses.
pub fn gc_over<S: Source, K: Sink, B: Kind>(
    alloc: Global,
    words: &[String],
    source: &mut S,
    sink: &mut K,
    kinds: Vec<B>,
) -> Status
    requires kinds { map B.kind kinds.items ≡ six_kinds }
    requires empty { map B.bodies kinds.items ≡ replicate 6 fin.empty }

    // Each job, and no job: what each answer means, what a fault leaves, which answer comes.
    ensures run { (given : Option ℕ) → AsksFor (map string_bytes words.now) (Job.Run given)
        → RunAnswers given result
        (outside (S.left source.old) (S.faults source.old) (K.written sink.old) (K.faults sink.old))
        (outside (S.left source.new) (S.faults source.new) (K.written sink.new)
        (K.faults sink.new)) }
    ensures generate { (blocks : ℕ) → AsksFor (map string_bytes words.now) (Job.Generate blocks)
        → GenerateAnswers blocks result
        (K.written sink.old) (K.written sink.new) (K.faults sink.old) (K.faults sink.new) }
    ensures expand { AsksFor (map string_bytes words.now) Job.Expand → ExpandAnswers result
        (outside (S.left source.old) (S.faults source.old) (K.written sink.old) (K.faults sink.old))
        (outside (S.left source.new) (S.faults source.new) (K.written sink.new)
        (K.faults sink.new)) }
    ensures records { AsksFor (map string_bytes words.now) Job.Record → RecordAnswers result
        (outside (S.left source.old) (S.faults source.old) (K.written sink.old) (K.faults sink.old))
        (outside (S.left source.new) (S.faults source.new) (K.written sink.new)
        (K.faults sink.new)) }
    ensures no_job { ¬ (Ask (map string_bytes words.now)) → NoJobAnswers result (K.written sink.old)
        (K.written sink.new) (K.faults sink.old) (K.faults sink.new) }

    // A job that needs no source leaves it unread.
    ensures unread { ReadNothing (map string_bytes words.now) → source.new ≡ source.old }
{
    match read_words(alloc, words) {
        Ok(Some(Job::Run { budget })) => run_job(alloc, budget, source, sink, kinds),
        Ok(Some(Job::Generate { blocks })) => generate_job(alloc, blocks, sink, kinds),
        Ok(Some(Job::Expand)) => expand_job(alloc, source, sink),
        Ok(Some(Job::Record)) => record_job(alloc, source, sink, kinds),
        Ok(None) => tell_bad_words(sink),
        Err(AllocError) => Status::OutOfMemory,
    }
}

/// Does what the arguments ask for, and answers how it ended.
///
/// | words | what is done |
/// |---|---|
/// | `run`, `run --budget N` | reads a script from the source and runs it; writes the text of the run, many lines in one `write` |
/// | `generate N` | runs the script of N blocks, and writes the summary of its text |
/// | `expand` | reads an extended script, and writes its expansion |
/// | `record` | reads and runs a script, and writes the records of its collections |
///
/// The kinds are in the order of `KindCode`, and have no objects. The budget is that of the arguments, else that of the script,
/// else 10,000. `Done`: the run ended by `end`, or the text was written. `Budget`: the run ended by `budget spent`. `BadWords`,
/// `BadScript` and `TooLarge`: the arguments, a line of the script or its size is wrong, and that was written. `ReadFault` and
/// `WriteFault`: the source or the sink failed. `OutOfMemory`: memory was refused before anything was written; under `generate`
/// and `record` also to a command, and `record` has then written a prefix of the records. The clauses speak of the bytes that the
/// source reports and of what the sink received. (Ours.)
pub fn gc_run<S: Source, K: Sink>(
    alloc: Global,
    words: &[String],
    source: &mut S,
    sink: &mut K,
    kinds: Vec<Box<dyn Kind>>,
) -> Status
    requires kinds { map (λ b. kind b) kinds.items ≡ six_kinds }
    requires empty { map (λ b. bodies b) kinds.items ≡ replicate 6 fin.empty }

    // Each job, and no job: what each answer means, what a fault leaves, which answer comes.
    ensures run { (given : Option ℕ) → AsksFor (map string_bytes words.now) (Job.Run given)
        → RunAnswers given result
        (outside (S.left source.old) (S.faults source.old) (K.written sink.old) (K.faults sink.old))
        (outside (S.left source.new) (S.faults source.new) (K.written sink.new)
        (K.faults sink.new)) }
    ensures generate { (blocks : ℕ) → AsksFor (map string_bytes words.now) (Job.Generate blocks)
        → GenerateAnswers blocks result
        (K.written sink.old) (K.written sink.new) (K.faults sink.old) (K.faults sink.new) }
    ensures expand { AsksFor (map string_bytes words.now) Job.Expand → ExpandAnswers result
        (outside (S.left source.old) (S.faults source.old) (K.written sink.old) (K.faults sink.old))
        (outside (S.left source.new) (S.faults source.new) (K.written sink.new)
        (K.faults sink.new)) }
    ensures records { AsksFor (map string_bytes words.now) Job.Record → RecordAnswers result
        (outside (S.left source.old) (S.faults source.old) (K.written sink.old) (K.faults sink.old))
        (outside (S.left source.new) (S.faults source.new) (K.written sink.new)
        (K.faults sink.new)) }
    ensures no_job { ¬ (Ask (map string_bytes words.now)) → NoJobAnswers result (K.written sink.old)
        (K.written sink.new) (K.faults sink.old) (K.faults sink.new) }

    // A job that needs no source leaves it unread.
    ensures unread { ReadNothing (map string_bytes words.now) → source.new ≡ source.old }
{
    gc_over(alloc, words, source, sink, kinds)
}
