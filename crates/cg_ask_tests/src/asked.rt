//! A call, and its expected result.
use cg_ask::{AskStatus, ask_run};
use cg_io::{MemSink, MemSource};
use std::alloc::{AllocError, Global};
use std::process::Abort;

/// Expects this status and this text for these arguments and this input. The reads and writes with
/// these numbers fail, each write after its first two bytes.
pub(crate) fn ask_call(
    rt: &impl Abort,
    alloc: Global,
    words: &[String],
    bytes: &[u8],
    fails: (Vec<u64>, Vec<u64>),
    status: AskStatus,
    text: &[u8],
) -> Result<(), AllocError> {
    let mut source = MemSource::new(Vec::from_slice(alloc, bytes)?, fails.0);
    let mut sink = MemSink::new(alloc, fails.1, 2);
    let found = ask_run(alloc, words, &mut source, &mut sink);
    assert_eq!(rt; found, status);
    assert_eq!(rt; sink.bytes(), text);
    Ok(())
}

/// Expects this status and this text, without failures and arguments.
pub(crate) fn ask(
    rt: &impl Abort,
    alloc: Global,
    bytes: &[u8],
    status: AskStatus,
    text: &[u8],
) -> Result<(), AllocError> {
    let fails = (Vec::new(alloc), Vec::new(alloc));
    ask_call(rt, alloc, &[], bytes, fails, status, text)?;
    Ok(())
}
