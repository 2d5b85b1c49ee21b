//! Each byte in each place of a short script, and each front of a longer one.
use crate::calls::{RUN, answer_to, check_bytes, lines, shown};
use cg_cli::Status;
use cg_io::PlainSource;
use std::alloc::{AllocError, Global};
use std::process::Abort;
use std::test::Fail;

/// The short script, of fourteen bytes.
const SHORT: &str = "a = list\ndel a";

/// What a run of it prints.
const UNCHANGED: &str = "made list #2; free #2; end";

/// The list is bound to another name, or another name is to be dropped.
const NOT_DROPPED: &str = "made list #2; refused 1; end";

/// What is to be bound is an unbound variable, and so is what is to be dropped.
const NOT_BOUND: &str = "refused 1; refused 1; end";

/// What a run prints with another byte at a position.
fn text_with(place: usize, byte: u8) -> &'static str {
    let is_letter = matches!(byte, b'A'..=b'Z' | b'a'..=b'z' | b'_');
    let is_digit = matches!(byte, b'0'..=b'9');
    match (place, byte) {
        // No script has such a byte.
        (0..=8, 0..=9 | 11..=31 | 127..=255) => "bad script 1 1",
        (_, 0..=9 | 11..=31 | 127..=255) => "bad script 2 1",
        // In place of the name: a line of two words, a comment, another name.
        (0, b'\n') => "bad script 2 2",
        (0, b' ') => "bad script 1 2",
        (0, b'#') => "refused 1; end",
        (0, _) if is_letter => NOT_DROPPED,
        (0, _) => "bad script 1 4",
        // Around `=`, and instead of it: nothing is bound.
        (3, b'\n') => "bad script 1 3",
        (1..=3, _) => "bad script 1 2",
        // In `list`: another variable, two words, or a text; a line that ends there.
        (4, b'\n') => "bad script 1 3",
        (4, b' ') => NOT_BOUND,
        (4, b'\'') => "end",
        (4, _) if is_letter => NOT_BOUND,
        (5 | 6, b'\n') => "bad script 2 2",
        (5 | 6, b' ') => "bad script 1 3",
        (7, b'\n' | b' ') => NOT_BOUND,
        (5..=7, _) if is_letter || is_digit => NOT_BOUND,
        (4..=7, _) => "bad script 1 4",
        // One line: a list of `del`, or four words where a value is bound.
        (8, b' ') => "bad script 1 4",
        (8, _) => "bad script 1 3",
        // In `del`: a comment, a procedure without an end, a line that ends there.
        (9, b'#') => "made list #2; end",
        (9, b'\n') => "bad script 3 2",
        (11, b'f') => "bad script 3 7",
        (12, b'\n') => "bad script 2 3",
        (9..=12, _) => "bad script 2 2",
        // Instead of its name. With a second word `=` the line is a binding, which has three words.
        (_, b'\n' | b' ' | b'=') => "bad script 2 3",
        (_, _) if is_letter => NOT_DROPPED,
        (_, _) => "bad script 2 4",
    }
}

/// The short script with this byte at this position.
fn script_with(alloc: Global, place: usize, byte: u8) -> Result<Vec<u8>, AllocError> {
    let mut script = Vec::new(alloc);
    for (at, old) in SHORT.as_bytes().iter().enumerate() {
        script.push(if at == place { byte } else { *old })?;
    }
    Ok(script)
}

/// Each byte at one position, where the script has this one.
fn check_place(rt: &impl Abort, alloc: Global, place: usize, there: u8) -> Result<(), AllocError> {
    for byte in 0..=255u8 {
        let text = if byte == there {
            UNCHANGED
        } else {
            text_with(place, byte)
        };
        let status = if text.as_bytes().starts_with(b"bad") {
            Status::BadScript
        } else {
            Status::Done
        };
        let script = script_with(alloc, place, byte)?;
        check_bytes(rt, alloc, RUN, script, status, &lines(alloc, text)?, text)?;
    }
    Ok(())
}

#[test]
fn each_byte_in_each_place(rt: HostRuntime) -> Result<(), Fail> {
    let alloc = rt.alloc();
    for (place, there) in SHORT.as_bytes().iter().enumerate() {
        check_place(&rt, alloc, place, *there)?;
    }
    Ok(())
}

/// A script with a finalizer that makes a weak reference in a collection. Under each byte is what
/// the script that ends there is: good (a dot); bad in its last line, with this code; or bad with 7
/// in the line after, where a procedure is still open.
///
/// A line without `=` as its second word is of no form (2) until its first word is complete, and
/// then has too few words (3). One with it has too few (3) until there is a third word, which is a
/// variable as long as it is not the word of a form.
static FRONTS: [(&str, &str); 17] = [
    ("def cb\n", "2233777"),
    ("end\n", "22.."),
    ("def d\n", "223377"),
    // `attr` requires a value and a name.
    ("n = attr self other\n", "22337773333333777777"),
    // `ref` is also a value: the weak reference of the callback. As a form it requires a value, and
    // a second one may follow.
    ("w = ref n f\n", "223377777777"),
    ("del n\n", "223377"),
    ("end\n", "22.."),
    // No option is `d`, `de` or `del`, and `del=` names no procedure.
    ("class C del=d\n", "222233..4444.."),
    ("class D\n", "222233.."),
    // No procedure has the name `c`.
    ("f = func cb\n", "2233...336.."),
    ("a = new C\n", "2233..33.."),
    ("b = new D\n", "2233..33.."),
    ("setattr a other b\n", "2222223333333333.."),
    ("setattr a me a\n", "2222223333333.."),
    ("del a\n", "2233.."),
    ("del b\n", "2233.."),
    // It may lack a number.
    ("collect 2\n", "222222...."),
];

/// Runs a prefix that ends in the line with this number, or expects its bad line.
fn check_front(
    rt: &impl Abort,
    alloc: Global,
    front: &[u8],
    line: usize,
    code: u8,
) -> Result<(), AllocError> {
    let mut source = PlainSource::new(Vec::from_slice(alloc, front)?);
    let found = answer_to(alloc, RUN, &mut source)?;
    if code == b'.' {
        assert_eq!(rt; found.status, Status::Done, "in line {line}");
        assert!(rt; found.text.ends_with(b"end\n"), "in line {line}");
        return Ok(());
    }
    let bad = if code == b'7' {
        line.saturating_add(1)
    } else {
        line
    };
    let code = char::from(code);
    let text = format!(in alloc; "bad script {bad} {code}\n")?;
    assert_eq!(rt; shown(&found.text), Some(text.as_str()), "in line {line}");
    assert_eq!(rt; found.status, Status::BadScript, "in line {line}");
    Ok(())
}

#[test]
fn each_prefix_of_a_script(rt: HostRuntime) -> Result<(), Fail> {
    let alloc = rt.alloc();
    let mut front = Vec::new(alloc);
    check_front(&rt, alloc, &front, 1, b'.')?;
    for (above, (line, codes)) in FRONTS.iter().enumerate() {
        for (byte, code) in line.as_bytes().iter().zip(codes.as_bytes()) {
            front.push(*byte)?;
            check_front(&rt, alloc, &front, above.saturating_add(1), *code)?;
        }
    }
    Ok(())
}
