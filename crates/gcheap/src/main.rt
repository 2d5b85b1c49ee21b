//! `gcheap < HEAP`: answers questions about a recorded heap; the exit status is the top call's
//! status.
#![tactic(auto)]

mod remarks;

use crate::remarks::{remark_bad_heap, remark_status};
use cg_ask::{AskStatus, ask_run};
use cg_front::{Remembering, remark_that_input_is_awaited, words_given};
use cg_io::{ReadSource, WriteSink};
use std::io::{BufWriter, Write};
use std::process::ExitCode;

/// Answers standard input. The output is flushed at the end; a failure there is a sink failure.
fn ask(rt: &HostRuntime, words: &[String]) -> AskStatus {
    let Ok(mut output) = BufWriter::new(rt.alloc(), rt.stdout()) else {
        return AskStatus::OutOfMemory;
    };
    let mut input = Remembering::new(rt.alloc(), rt.stdin());
    let mut source = ReadSource::new(&mut input);
    let mut sink = WriteSink::new(&mut output);
    let status = ask_run(rt.alloc(), words, &mut source, &mut sink);
    // (the buffer still holds the one line of a faulty heap)
    if status == AskStatus::Faulty {
        remark_bad_heap(rt, input.remembered(), output.buffer());
    }
    match output.flush() {
        Ok(()) => status,
        Err(_) => AskStatus::WriteFault,
    }
}

fn main(rt: HostRuntime) -> ExitCode {
    let status = match words_given(&rt) {
        Ok(words) => {
            if words.is_empty() {
                remark_that_input_is_awaited(&rt, "gcheap", "a heap with questions");
            }
            ask(&rt, words.as_slice())
        }
        Err(_) => AskStatus::OutOfMemory,
    };
    remark_status(&rt, status);
    ExitCode::from(status as u8)
}
