//! `gcrun run < SCRIPT`: runs a script, writes the text of the run, and ends with the status as its
//! exit status. `gcrun generate N`: runs the script of N blocks, and writes its summary.
#![tactic(auto)]

mod kinds;
mod remarks;

use crate::kinds::run_over_kinds;
use crate::remarks::{remark_bad_line, remark_before, remark_status};
use cg_cli::Status;
use cg_front::{Remembering, words_given};
use cg_io::{ReadSource, WriteSink};
use std::io::{BufWriter, Write};
use std::process::ExitCode;

/// Runs with standard input and output. Flushes the output at the end; a failure there is one of
/// the sink.
fn run(rt: &HostRuntime, words: &[String]) -> Status {
    let Ok(mut output) = BufWriter::new(rt.alloc(), rt.stdout()) else {
        return Status::OutOfMemory;
    };
    let mut input = Remembering::new(rt.alloc(), rt.stdin());
    let mut source = ReadSource::new(&mut input);
    let mut sink = WriteSink::new(&mut output);
    let Ok(status) = run_over_kinds(rt.alloc(), words, &mut source, &mut sink) else {
        return Status::OutOfMemory;
    };
    // (the line of a bad script is still in the buffer)
    if status == Status::BadScript {
        remark_bad_line(rt, input.remembered(), output.buffer());
    }
    match output.flush() {
        Ok(()) => status,
        Err(_) => Status::WriteFault,
    }
}

fn main(rt: HostRuntime) -> ExitCode {
    let status = match words_given(&rt) {
        Ok(words) => {
            remark_before(&rt, words.as_slice());
            run(&rt, words.as_slice())
        }
        Err(_) => Status::OutOfMemory,
    };
    remark_status(&rt, status);
    ExitCode::from(status as u8)
}
