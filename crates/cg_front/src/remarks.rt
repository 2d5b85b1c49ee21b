//! Remarks for a person, on standard error. A failure there is ignored: no answer depends on a
//! remark.
use std::alloc::{AllocError, Global};
use std::io::IsTerminal;

/// The maximum number of bytes of a line that are shown.
const SHOWN: usize = 200;

/// Writes a remark on its own line.
pub fn remark(rt: &HostRuntime, text: &str) {
    let _ = eprintln!(rt; "{text}");
}

/// If standard input is a terminal, says what input is expected.
pub fn remark_that_input_is_awaited(rt: &HostRuntime, program: &str, what: &str) {
    if rt.stdin().is_terminal() {
        let _ = eprintln!(rt;
            "{program}: {what} is read from this terminal; end it with Control-D"
        );
    }
}

/// Some bytes as text, with `?` for each that is not printable ASCII.
fn printable(alloc: Global, bytes: &[u8]) -> Result<String, AllocError> {
    let mut text = String::new(alloc);
    for byte in bytes {
        let shown = if byte.is_ascii_graphic() || *byte == b' ' {
            *byte
        } else {
            b'?'
        };
        text.push(char::from(shown))?;
    }
    Ok(text)
}

/// Shows a line of the input by its number, from 1: its first 200 bytes. Shows nothing if there is
/// no such line.
pub fn remark_line(rt: &HostRuntime, input: &[u8], number: u64) {
    let place = usize::try_from(number.saturating_sub(1)).unwrap_or(usize::MAX);
    let Some(line) = input.split(|byte| *byte == b'\n').nth(place) else {
        return;
    };
    if let Ok(text) = printable(rt.alloc(), &line[..line.len().min(SHOWN)]) {
        let _ = eprintln!(rt; "line {number}: {text}");
    }
}
