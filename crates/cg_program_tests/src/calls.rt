//! A call of the top call, and its answer.
//!
//! The lines of a script, and of a text, stand with `; ` between them.
use crate::kinds::six;
use cg_cli::{Status, gc_run};
use cg_io::{MemSink, PlainSource, Source};
use std::alloc::{AllocError, Global};
use std::process::Abort;

/// A worked script: its name, the script, and the text of a run that ends by `end`.
pub type Worked = (&'static str, &'static str, &'static str);

/// A call: its name, its words, its script, how it ends, and its text.
pub type Case = (
    &'static str,
    &'static [&'static str],
    &'static str,
    Status,
    &'static str,
);

pub const RUN: &[&str] = &["run"];

pub const RECORD: &[&str] = &["record"];

pub const EXPAND: &[&str] = &["expand"];

/// The write with this number, from 1, fails after its first `keep` bytes; the lists refuse the
/// call of `make` before which so many were made.
#[derive(Clone, Copy)]
pub struct Faults {
    pub write: u64,
    pub keep: usize,
    pub make: Option<usize>,
}

/// No write has the number 0.
pub const NO_FAULT: Faults = Faults {
    write: 0,
    keep: 0,
    make: None,
};

/// What a call answers, and what it writes.
#[derive(Drop)]
pub struct Answered {
    pub status: Status,
    pub text: Vec<u8>,
}

/// The arguments, as the program gets them.
pub fn words_of(alloc: Global, words: &[&str]) -> Result<Vec<String>, AllocError> {
    let mut all = Vec::new(alloc);
    for word in words {
        all.push(String::from_str(alloc, word)?)?;
    }
    Ok(all)
}

/// The answer to these words and this source, under faults.
pub fn answer_under<S: Source>(
    alloc: Global,
    words: &[&str],
    source: &mut S,
    faults: Faults,
) -> Result<Answered, AllocError> {
    let words = words_of(alloc, words)?;
    let mut sink = MemSink::new(alloc, vec![in alloc; faults.write]?, faults.keep);
    let kinds = six(alloc, faults.make)?;
    let status = gc_run(alloc, words.as_slice(), source, &mut sink, kinds);
    Ok(Answered {
        status,
        text: Vec::from_slice(alloc, sink.bytes())?,
    })
}

/// The answer to these words and this source.
pub fn answer_to<S: Source>(
    alloc: Global,
    words: &[&str],
    source: &mut S,
) -> Result<Answered, AllocError> {
    answer_under(alloc, words, source, NO_FAULT)
}

/// The lines of a script or a text, each with a line feed.
pub fn lines(alloc: Global, text: &str) -> Result<Vec<u8>, AllocError> {
    let mut bytes = Vec::new(alloc);
    for byte in text.as_bytes() {
        match *byte {
            b';' => bytes.push(b'\n')?,
            b' ' if bytes.last() == Some(&b'\n') => {}
            other => bytes.push(other)?,
        }
    }
    bytes.push(b'\n')?;
    Ok(bytes)
}

/// Bytes as a text, to be shown where they are not as they should be.
pub fn shown(bytes: &[u8]) -> Option<&str> {
    str::from_utf8(bytes).ok()
}

/// It stops where a call has ended otherwise, or written another text.
pub fn assert_answer(rt: &impl Abort, found: &Answered, status: Status, text: &[u8], name: &str) {
    assert_eq!(rt; shown(&found.text), shown(text), "at {name:?}");
    assert_eq!(rt; found.status, status, "at {name:?}");
}

/// A call with these words and these bytes is to end so, and to write this text.
pub fn check_bytes(
    rt: &impl Abort,
    alloc: Global,
    words: &[&str],
    script: Vec<u8>,
    status: Status,
    text: &[u8],
    name: &str,
) -> Result<(), AllocError> {
    let found = answer_to(alloc, words, &mut PlainSource::new(script))?;
    assert_answer(rt, &found, status, text, name);
    Ok(())
}

/// The same with a script and a text of some lines.
pub fn check(
    rt: &impl Abort,
    alloc: Global,
    words: &[&str],
    script: &str,
    status: Status,
    text: &str,
    name: &str,
) -> Result<(), AllocError> {
    let bytes = lines(alloc, script)?;
    check_bytes(rt, alloc, words, bytes, status, &lines(alloc, text)?, name)
}
