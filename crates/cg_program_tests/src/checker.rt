//! Words, lines and faults, through the top call of the checker.
use crate::calls::words_of;
use cg_cert::{CheckStatus, check_run};
use cg_io::{MemSink, MemSource};
use std::alloc::{AllocError, Global};
use std::process::Abort;
use std::test::Fail;

/// A list that holds itself was thrown away.
const LIST: &str =
    "record 2\ngraph 1\nm 2 1 0\nr 2\nlost 2\ngraph 2\nm 2 1 0\nr 2\nlost 2\nstop\nend\n";

/// Calls: a name, the words, the records, which reads fail, which writes fail, each after its first
/// two bytes, how it ends, and its text.
type Call = (
    &'static str,
    &'static [&'static str],
    &'static str,
    &'static [u64],
    &'static [u64],
    CheckStatus,
    &'static [u8],
);

static CALLS: [Call; 7] = [
    ("a list", &[], LIST, &[], &[], CheckStatus::Yes, b"yes 1\n"),
    (
        "no records",
        &[],
        "end\n",
        &[],
        &[],
        CheckStatus::Yes,
        b"yes 0\n",
    ),
    (
        "no line feed",
        &[],
        "end",
        &[],
        &[],
        CheckStatus::No,
        b"no 0 1\n",
    ),
    (
        "an object that is not lost",
        &[],
        "record 0\ngraph 1\ngraph 2\nm 3 0 0\nstop\nend\n",
        &[],
        &[],
        CheckStatus::No,
        b"no 2 4\n",
    ),
    (
        "an empty word",
        &[""],
        LIST,
        &[],
        &[],
        CheckStatus::BadWords,
        b"bad words\n",
    ),
    (
        "a failed write",
        &[],
        LIST,
        &[],
        &[1],
        CheckStatus::WriteFault,
        b"ye",
    ),
    (
        "a failed read",
        &[],
        LIST,
        &[1],
        &[],
        CheckStatus::ReadFault,
        b"",
    ),
];

fn calls() -> &'static [Call] {
    &CALLS
}

/// The call is to end so, and to write its text into the sink.
fn check_call(
    rt: &impl Abort,
    alloc: Global,
    words: &[String],
    source: &mut MemSource,
    sink: &mut MemSink,
    call: Call,
) {
    let (name, _, _, _, _, status, text) = call;
    let found = check_run(alloc, words, source, sink);
    assert!(rt; found == status && sink.bytes() == text, "at {name:?}");
}

/// The same with a source and a sink of its own.
fn check_own(rt: &impl Abort, alloc: Global, call: Call) -> Result<(), AllocError> {
    let words = words_of(alloc, call.1)?;
    let bytes = Vec::from_slice(alloc, call.2.as_bytes())?;
    let mut source = MemSource::new(bytes, Vec::from_slice(alloc, call.3)?);
    let mut sink = MemSink::new(alloc, Vec::from_slice(alloc, call.4)?, 2);
    check_call(rt, alloc, &words, &mut source, &mut sink, call);
    Ok(())
}

#[test]
fn verdicts_are_written_and_faults_are_told(rt: HostRuntime) -> Result<(), Fail> {
    for call in calls() {
        check_own(&rt, rt.alloc(), *call)?;
    }
    Ok(())
}
