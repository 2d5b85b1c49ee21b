//! Messages on standard error. Standard output and the exit status do not depend on them.
use cg_ask::AskStatus;
use cg_front::{number_at, remark, remark_line};

const USAGE: &str = "usage: gcheap < HEAP
docs/HEAPS.md has the text of a heap with its questions; python/README.md says how the heap of a
    process is taken.";

/// Shows the bad line, or explains the code of a fault. (docs/HEAPS.md.)
pub fn remark_bad_heap(rt: &HostRuntime, input: &[u8], text: &[u8]) {
    if text.starts_with(b"bad line ") {
        if let Some(number) = number_at(text, 2) {
            remark_line(rt, input, number);
        }
        return;
    }
    match number_at(text, 1) {
        Some(2) => remark(
            rt,
            "a reference or an untold word of the member names no member",
        ),
        Some(3) => remark(
            rt,
            "the member's in-degree is below its occurrences among the references",
        ),
        Some(4) => remark(
            rt,
            "the member's in-degree is below its occurrences among references and untold words",
        ),
        _ => {}
    }
}

/// Explains why answers are missing, unless standard output does.
pub fn remark_status(rt: &HostRuntime, status: AskStatus) {
    match status {
        AskStatus::BadWords => remark(rt, USAGE),
        AskStatus::ReadFault => remark(rt, "gcheap: standard input failed"),
        AskStatus::WriteFault => remark(rt, "gcheap: standard output failed"),
        AskStatus::OutOfMemory => remark(rt, "gcheap: out of memory"),
        _ => {}
    }
}
