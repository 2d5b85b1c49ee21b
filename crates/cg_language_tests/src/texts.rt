//! Scripts for tests, and the words of a bad line.
use cg_script::ScriptFault;
use std::alloc::{AllocError, Global};

/// The lines of a text, which are joined by `; `, each with a line feed.
pub fn lines(alloc: Global, text: &str) -> Result<Vec<u8>, AllocError> {
    let mut bytes = Vec::new(alloc);
    for byte in text.as_bytes() {
        match *byte {
            b';' => bytes.push(b'\n')?,
            b' ' if bytes.last() == Some(&b'\n') => {}
            other => bytes.push(other)?,
        }
    }
    bytes.push(b'\n')?;
    Ok(bytes)
}

/// A text, followed by another so many times.
pub fn repeated(
    alloc: Global,
    front: &str,
    more: &str,
    times: usize,
) -> Result<String, AllocError> {
    let mut text = String::from_str(alloc, front)?;
    for _ in 0..times {
        text.push_str(more)?;
    }
    Ok(text)
}

/// The number and the code of the first bad line.
pub fn fault_text(alloc: Global, fault: ScriptFault) -> Result<String, AllocError> {
    match fault {
        ScriptFault::Bad { line, code } => format!(in alloc; "bad {line} {code}"),
        ScriptFault::OutOfMemory => Err(AllocError),
    }
}
