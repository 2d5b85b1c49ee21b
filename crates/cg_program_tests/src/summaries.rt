//! Large scripts and their summaries. The numbers were worked out by hand from the blocks.
use crate::calls::Case;
use cg_cli::Status;

/// Summaries of some blocks.
static CASES: [Case; 6] = [
    (
        "one block",
        &["generate", "1"],
        "",
        Status::Done,
        "summary 3 3 1 2 10",
    ),
    (
        "two blocks",
        &["generate", "2"],
        "",
        Status::Done,
        "summary 6 6 1 2 16",
    ),
    (
        "three blocks",
        &["generate", "3"],
        "",
        Status::Done,
        "summary 7 7 1 2 18",
    ),
    (
        "three blocks, in three digits",
        &["generate", "003"],
        "",
        Status::Done,
        "summary 7 7 1 2 18",
    ),
    (
        "four blocks",
        &["generate", "4"],
        "",
        Status::Done,
        "summary 9 9 1 4 22",
    ),
    // Collections are due in it: fourteen, besides the one that it asks for.
    (
        "ten thousand blocks",
        &["generate", "10000"],
        "",
        Status::Done,
        "summary 20001 20001 15 6668 40034",
    ),
];

pub fn cases() -> &'static [Case] {
    &CASES
}
