//! One example: its files, its run, and its result.
//!
//! Next to `NAME.script` or `NAME.records` are `NAME.expected`, the expected text; `NAME.args`, one
//! argument a line, if it is not run with the usual ones; and `NAME.status`, if its status is not
//! 0.
ghost use Rattle.std.specs.Prelude.{◌≡◌, ◌↔◌};

use cg_any_kind::six;
use cg_cert::check_run;
use cg_cli::gc_over;
use cg_io::{MemSink, PlainSource};
use std::alloc::{AllocError, Global};
use std::io::ErrorKind;
use std::{fs, io};

/// The result of an example.
#[derive(Clone, Copy, Debug, PartialEq, Eq)]
pub enum Outcome {
    /// It gives the stored text and status, and the index links to it.
    AsStored,
    /// It gives another text.
    OtherText,
    /// It ends with another status.
    OtherStatus,
    /// The index has no link to it.
    NotInIndex,
}

impl Outcome {
    /// The words that begin its line.
    pub fn words(self) -> &'static str {
        match self {
            Outcome::AsStored => "ok",
            Outcome::OtherText => "another text:",
            Outcome::OtherStatus => "another status:",
            Outcome::NotInIndex => "not in the index:",
        }
    }
}

/// What a run gives: its text, and its status.
#[derive(Drop)]
struct Given {
    text: Vec<u8>,
    status: u8,
}

/// Compares what was found with what is stored.
fn compare(found: &Given, stored: &Given) -> Outcome
    ensures same { (result ≡ Outcome.AsStored) ↔ ((found.now.text.items ≡ stored.now.text.items)
        × (found.now.status ≡ stored.now.status)) }
{
    if found.text.as_slice() != stored.text.as_slice() {
        Outcome::OtherText
    } else if found.status != stored.status {
        Outcome::OtherStatus
    } else {
        Outcome::AsStored
    }
}

/// The content of a sink, and how the run ended.
fn gathered(alloc: Global, sink: &MemSink, status: u8) -> Result<Given, AllocError> {
    let mut text = Vec::new(alloc);
    text.extend_from_slice(sink.bytes())?;
    Ok(Given { text, status })
}

/// What the script gives with these arguments.
fn run_script(alloc: Global, words: &[String], script: Vec<u8>) -> Result<Given, AllocError> {
    let mut source = PlainSource::new(script);
    let mut sink = MemSink::new(alloc, Vec::new(alloc), 0);
    let status = gc_over(alloc, words, &mut source, &mut sink, six(alloc)?);
    gathered(alloc, &sink, status as u8)
}

/// The verdict on the records.
fn judge_records(alloc: Global, words: &[String], records: Vec<u8>) -> Result<Given, AllocError> {
    let mut source = PlainSource::new(records);
    let mut sink = MemSink::new(alloc, Vec::new(alloc), 0);
    let status = check_run(alloc, words, &mut source, &mut sink);
    gathered(alloc, &sink, status as u8)
}

/// The text of a file, or another text if there is no such file.
fn text_or(rt: &HostRuntime, path: &str, other: &str) -> io::Result<String> {
    match fs::read_to_string(rt, path) {
        Err(e) if e.kind() == ErrorKind::NotFound => Ok(String::from_str(rt.alloc(), other)?),
        text => text,
    }
}

/// The arguments for the example of this name: its own, one a line, or else `usual`.
fn words_for(rt: &HostRuntime, name: &str, usual: &str) -> io::Result<Vec<String>> {
    let text = text_or(rt, format!(in rt.alloc(); "{name}.args")?.as_str(), usual)?;
    let mut words = Vec::new(rt.alloc());
    for word in text.lines() {
        words.push(String::from_str(rt.alloc(), word)?)?;
    }
    Ok(words)
}

/// What is stored for the example of this name.
fn stored_for(rt: &HostRuntime, name: &str) -> io::Result<Given> {
    let text = fs::read(rt, format!(in rt.alloc(); "{name}.expected")?.as_str())?;
    let number = text_or(rt, format!(in rt.alloc(); "{name}.status")?.as_str(), "0")?;
    match number.trim_end().parse::<u8>() {
        Ok(status) => Ok(Given { text, status }),
        Err(_) => Err(io::Error::from(ErrorKind::InvalidData)),
    }
}

/// What the file at the path gives, and what is stored for it.
fn compared(rt: &HostRuntime, path: &str) -> io::Result<Outcome> {
    let input = fs::read(rt, path)?;
    if let Some(name) = path.strip_suffix(".records") {
        let words = words_for(rt, name, "")?;
        let found = judge_records(rt.alloc(), words.as_slice(), input)?;
        return Ok(compare(&found, &stored_for(rt, name)?));
    }
    let name = path.strip_suffix(".script").unwrap_or(path);
    let words = words_for(rt, name, "run")?;
    let found = run_script(rt.alloc(), words.as_slice(), input)?;
    Ok(compare(&found, &stored_for(rt, name)?))
}

/// The result of the example at the path, given the text of the index. Fails if one of its files
/// cannot be read.
pub fn outcome_of(rt: &HostRuntime, path: &str, index: &str) -> io::Result<Outcome> {
    if index.contains(format!(in rt.alloc(); "({path})")?.as_str()) {
        compared(rt, path)
    } else {
        Ok(Outcome::NotInIndex)
    }
}
