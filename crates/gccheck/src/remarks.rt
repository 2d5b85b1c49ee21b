//! Messages on standard error. Standard output and the exit status do not depend on them.
use cg_cert::CheckStatus;
use cg_front::{number_at, remark};

const USAGE: &str = "usage: gccheck < RECORDS
docs/RECORDS.md says what is read, and how a real process is recorded.";

/// Explains the code of a verdict `no G C`. (docs/RECORDS.md.)
pub fn remark_verdict(rt: &HostRuntime, text: &[u8]) {
    if !text.starts_with(b"no ") {
        return;
    }
    match number_at(text, 2) {
        Some(1) => remark(rt, "the input is not the text of some records"),
        Some(2) => remark(
            rt,
            "a member stands twice, or a reference or a set names no member",
        ),
        Some(3) => remark(
            rt,
            "an in-degree is below the member's occurrences among the references",
        ),
        Some(4) => remark(rt, "what was found unreachable is not just what is"),
        Some(5) => remark(rt, "what was set aside is not just what is to be"),
        _ => {}
    }
}

/// Explains why there is no verdict, unless standard output does.
pub fn remark_status(rt: &HostRuntime, status: CheckStatus) {
    match status {
        CheckStatus::BadWords => remark(rt, USAGE),
        CheckStatus::ReadFault => remark(rt, "gccheck: standard input failed"),
        CheckStatus::WriteFault => remark(rt, "gccheck: standard output failed"),
        CheckStatus::OutOfMemory => remark(rt, "gccheck: out of memory"),
        _ => {}
    }
}
