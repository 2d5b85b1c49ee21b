//! Messages on standard error. Standard output and the exit status do not depend on them.
use cg_cli::Status;
use cg_front::{number_at, remark, remark_line, remark_that_input_is_awaited};

const USAGE: &str = "usage: gcrun run [--budget N] < SCRIPT
       gcrun record < SCRIPT
       gcrun expand < SCRIPT
       gcrun generate N
docs/SCRIPT.md has the language and the words.";

/// Says that a script is expected, if it is read from a terminal.
pub fn remark_before(rt: &HostRuntime, words: &[String]) {
    let job = words.first().map_or("", |word| word.as_str());
    if matches!(job, "run" | "record" | "expand") {
        remark_that_input_is_awaited(rt, "gcrun", "a script");
    }
}

/// What the code of a bad line means. (docs/SCRIPT.md, "Bad scripts".)
fn meaning_of(code: u64) -> &'static str {
    match code {
        1 => "a byte that is no printable ASCII: a tab, a CRLF line end, a byte order mark",
        2 =>
            "no command of this form; what has weak maps or exit finalizers is expanded first, by `gcrun expand`",
        3 => "the number of words does not fit the command",
        4 => "a word has not the form that its place asks for, or is out of range",
        5 => "a line of more than 1,024 bytes or 64 words, or more than 400,000 lines",
        6 => "a procedure or class that no earlier line defines",
        7 => "a command in the wrong place, or a procedure without its `end`",
        8 => "a second one of a procedure, a class, a budget or a shutdown",
        _ => "a bad line",
    }
}

/// Shows the bad line named in a text `bad script L C`, and explains its code.
pub fn remark_bad_line(rt: &HostRuntime, input: &[u8], text: &[u8]) {
    if let Some(number) = number_at(text, 2) {
        remark_line(rt, input, number);
    }
    if let Some(code) = number_at(text, 3) {
        remark(rt, meaning_of(code));
    }
}

/// Says why there is no text, or only a part of it, if standard output does not.
pub fn remark_status(rt: &HostRuntime, status: Status) {
    match status {
        Status::BadWords => remark(rt, USAGE),
        Status::ReadFault => remark(rt, "gcrun: standard input failed"),
        Status::WriteFault => remark(rt, "gcrun: standard output failed"),
        Status::OutOfMemory => remark(rt, "gcrun: out of memory"),
        Status::Done | Status::BadScript | Status::Budget | Status::TooLarge => {}
    }
}
