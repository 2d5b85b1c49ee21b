//! The words of the command line.
use std::alloc::Global;
use std::io::ErrorKind;
use std::{env, io};

fn words_after_name(rt: &HostRuntime) -> io::Result<Vec<String>> {
    let mut words = Vec::new(rt.alloc());
    for word in env::args(rt)?.skip(1) {
        words.push(word)?;
    }
    Ok(words)
}

/// A single empty word, which asks for nothing.
fn empty_word(alloc: Global) -> io::Result<Vec<String>> {
    let mut words = Vec::new(alloc);
    words.push(String::new(alloc))?;
    Ok(words)
}

/// The words after the program's name, for its top call. If one is not UTF-8, they are a single
/// empty word, which is no program's job. Returns an error only if memory runs out.
pub fn words_given(rt: &HostRuntime) -> io::Result<Vec<String>> {
    match words_after_name(rt) {
        Err(e) if e.kind() == ErrorKind::InvalidData => empty_word(rt.alloc()),
        words => words,
    }
}
