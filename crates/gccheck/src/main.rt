//! `gccheck < RECORDS`: checks records of collections and writes one line, the verdict; the exit
//! status is the top call's status.
#![tactic(auto)]

mod remarks;

use crate::remarks::{remark_status, remark_verdict};
use cg_cert::{CheckStatus, check_run};
use cg_front::{remark_that_input_is_awaited, words_given};
use cg_io::{ReadSource, WriteSink};
use std::io::{BufWriter, Write};
use std::process::ExitCode;

/// Checks standard input. The output is flushed at the end; a failure there is a sink failure.
fn check(rt: &HostRuntime, words: &[String]) -> CheckStatus {
    let Ok(mut output) = BufWriter::new(rt.alloc(), rt.stdout()) else {
        return CheckStatus::OutOfMemory;
    };
    let mut source = ReadSource::new(rt.stdin());
    let mut sink = WriteSink::new(&mut output);
    let status = check_run(rt.alloc(), words, &mut source, &mut sink);
    remark_verdict(rt, output.buffer());
    match output.flush() {
        Ok(()) => status,
        Err(_) => CheckStatus::WriteFault,
    }
}

fn main(rt: HostRuntime) -> ExitCode {
    let status = match words_given(&rt) {
        Ok(words) => {
            if words.is_empty() {
                remark_that_input_is_awaited(&rt, "gccheck", "the text of some records");
            }
            check(&rt, words.as_slice())
        }
        Err(_) => CheckStatus::OutOfMemory,
    };
    remark_status(&rt, status);
    ExitCode::from(status as u8)
}
