//! Words that ask for nothing, and bad scripts.
use crate::calls::Case;
use cg_cli::Status;

/// Words that ask for nothing.
static WORDS: [Case; 15] = [
    ("no word", &[], "", Status::BadWords, "bad words"),
    (
        "a word too many",
        &["run", "now"],
        "",
        Status::BadWords,
        "bad words",
    ),
    (
        "no block",
        &["generate", "0"],
        "",
        Status::BadWords,
        "bad words",
    ),
    (
        "an empty word first",
        &["", "run"],
        "",
        Status::BadWords,
        "bad words",
    ),
    (
        "a budget without a number",
        &["run", "--budget"],
        "",
        Status::BadWords,
        "bad words",
    ),
    (
        "a word behind the budget",
        &["run", "--budget", "5", "6"],
        "",
        Status::BadWords,
        "bad words",
    ),
    (
        "the budget first",
        &["--budget", "5", "run"],
        "",
        Status::BadWords,
        "bad words",
    ),
    (
        "another option",
        &["run", "--budgets", "5"],
        "",
        Status::BadWords,
        "bad words",
    ),
    (
        "an empty budget",
        &["run", "--budget", ""],
        "",
        Status::BadWords,
        "bad words",
    ),
    (
        "a negative budget",
        &["run", "--budget", "-1"],
        "",
        Status::BadWords,
        "bad words",
    ),
    (
        "a budget with a plus",
        &["run", "--budget", "+5"],
        "",
        Status::BadWords,
        "bad words",
    ),
    (
        "a budget with a space",
        &["run", "--budget", "5 "],
        "",
        Status::BadWords,
        "bad words",
    ),
    (
        "a budget of seven digits",
        &["run", "--budget", "0000005"],
        "",
        Status::BadWords,
        "bad words",
    ),
    (
        "a budget past the greatest",
        &["run", "--budget", "100001"],
        "",
        Status::BadWords,
        "bad words",
    ),
    (
        "a budget in a word",
        &["run", "--budget", "many"],
        "",
        Status::BadWords,
        "bad words",
    ),
];

pub fn words() -> &'static [Case] {
    &WORDS
}

/// Bad scripts, and what is told of them.
static SCRIPTS: [(&str, &str); 29] = [
    ("a = list; b = list; del a; append a", "bad script 4 3"),
    ("def p; print 1", "bad script 3 7"),
    ("a = list; end", "bad script 2 7"),
    ("a = new C; class C", "bad script 1 6"),
    ("class C del=d; def d; end", "bad script 1 6"),
    ("budget 1; budget 2", "bad script 2 8"),
    ("budget 100001", "bad script 1 4"),
    // A number, a count or a name past its edge.
    ("print 9223372036854775808", "bad script 1 4"),
    ("print -9223372036854775809", "bad script 1 4"),
    ("print 9999999999999999999", "bad script 1 4"),
    ("print 00000000000000000007", "bad script 1 4"),
    ("print -00000000000000000007", "bad script 1 4"),
    ("setitem a 9223372036854775808 1", "bad script 1 4"),
    ("collect 9223372036854775808", "bad script 1 4"),
    ("threshold 2147483648", "bad script 1 4"),
    ("threshold 4294967296", "bad script 1 4"),
    ("threshold 0 0 9999999999", "bad script 1 4"),
    ("threshold 00000000009", "bad script 1 4"),
    ("budget 100001", "bad script 1 4"),
    ("budget 4294967296", "bad script 1 4"),
    ("budget 00000100000", "bad script 1 4"),
    ("a23456789012345678901234567890123 = list", "bad script 1 4"),
    ("print a23456789012345678901234567890123", "bad script 1 4"),
    ("def a23456789012345678901234567890123", "bad script 1 4"),
    ("class a23456789012345678901234567890123", "bad script 1 4"),
    (
        "class C del=a23456789012345678901234567890123",
        "bad script 1 4",
    ),
    (
        "setattr a a23456789012345678901234567890123 1",
        "bad script 1 4",
    ),
    (
        "x = new a23456789012345678901234567890123",
        "bad script 1 4",
    ),
    (
        "x = func a23456789012345678901234567890123",
        "bad script 1 4",
    ),
];

pub fn scripts() -> &'static [(&'static str, &'static str)] {
    &SCRIPTS
}
