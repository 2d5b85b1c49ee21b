//! A large script from a number: runs it, and writes the summary of its text.
ghost use Rattle.std.specs.Prelude.{◌≡◌, ◌≤◌, map, replicate, IfSome};
ghost use Rattle.std.specs.FinMap as fin;
ghost use Rattle.cg_heap.specs.Boxes.{six_kinds};
ghost use Rattle.cg_cli.specs.Jobs.{GenerateAnswers};
ghost use Rattle.cg_cli.specs.Summaries.{HasTally};

use crate::budget::USUAL;
use crate::status::Status;
use crate::tell::tell_summary;
use cg_generator::{Tally, TallySink, generated_script};
use cg_heap::Heap;
use cg_interp::{RunEnd, run_script};
use cg_io::Sink;
use cg_kind::Kind;
use std::alloc::Global;

/// The tally of a whole run of the script of `blocks` blocks. `None` if memory was refused to the
/// script, its heap, its run, or a command of it. The script starts no frame, so its run never ends
/// because the budget is spent.
fn tally_of_run<B: Kind>(alloc: Global, blocks: u32, kinds: Vec<B>) -> Option<Tally>
    requires few { blocks ≤ 10000 }
    requires kinds { map B.kind kinds.items ≡ six_kinds }
    requires empty { map B.bodies kinds.items ≡ replicate 6 fin.empty }
    ensures { IfSome result (HasTally blocks) }
{
    let Ok(script) = generated_script(alloc, blocks) else {
        return None;
    };
    let Ok(heap) = Heap::new(alloc, kinds, script.names.len()) else {
        return None;
    };
    let mut text = TallySink::new(alloc);
    match run_script(alloc, heap, &script, USUAL, &mut text) {
        RunEnd::Done if !text.has_refusal() => Some(text.tally()),
        _ => None,
    }
}

/// Runs the script of `blocks` blocks with the usual budget, and writes the summary of its text.
/// Answers `Done` if no command of it was refused, else `OutOfMemory` with nothing written.
pub fn generate_job<K: Sink, B: Kind>(
    alloc: Global,
    blocks: u32,
    sink: &mut K,
    kinds: Vec<B>,
) -> Status
    requires few { blocks ≤ 10000 }
    requires kinds { map B.kind kinds.items ≡ six_kinds }
    requires empty { map B.bodies kinds.items ≡ replicate 6 fin.empty }
    ensures { GenerateAnswers blocks result (K.written sink.old) (K.written sink.new)
        (K.faults sink.old) (K.faults sink.new) }
{
    match tally_of_run(alloc, blocks, kinds) {
        Some(tally) => tell_summary(&tally, sink),
        None => Status::OutOfMemory,
    }
}
