//! Two texts with each line left out, doubled and swapped with the next, and the resulting
//! verdicts.
use cg_cert::{Verdict, check_records};
use std::alloc::{AllocError, Global};
use std::process::Abort;
use std::test::Fail;

/// The edit of one line.
#[derive(Clone, Copy)]
pub enum Edit {
    LeftOut,
    Doubled,
    /// It changes places with the next.
    Swapped,
}

/// The lines, one of them edited.
pub fn edited(
    alloc: Global,
    lines: &[&[u8]],
    edit: Edit,
    at: usize,
) -> Result<Vec<u8>, AllocError> {
    let mut text = Vec::new(alloc);
    let mut held: &[u8] = b"";
    for (place, line) in lines.iter().enumerate() {
        if place != at {
            text.extend_from_slice(line)?;
            text.extend_from_slice(held)?;
            held = b"";
            continue;
        }
        match edit {
            Edit::LeftOut => {}
            Edit::Doubled => {
                text.extend_from_slice(line)?;
                text.extend_from_slice(line)?;
            }
            Edit::Swapped => held = *line,
        }
    }
    text.extend_from_slice(held)?;
    Ok(text)
}

/// A list that holds itself was thrown away: both graphs are that list, and it is lost.
pub const LIST: [&[u8]; 11] = [
    b"record 2\n",
    b"graph 1\n",
    b"m 2 1 0\n",
    b"r 2\n",
    b"lost 2\n",
    b"graph 2\n",
    b"m 2 1 0\n",
    b"r 2\n",
    b"lost 2\n",
    b"stop\n",
    b"end\n",
];

/// An instance with a legacy finalizer that holds itself was thrown away.
const INSTANCE: [&[u8]; 9] = [
    b"record 2\n",
    b"graph 1\n",
    b"m 2 1 1\n",
    b"r 2\n",
    b"lost 2\n",
    b"legacy 2\n",
    b"graph 2\n",
    b"stop\n",
    b"end\n",
];

/// The verdicts, by graph and code, on texts with each line edited, in order. The last line has no
/// next.
static VERDICTS: [(&str, &[&[u8]], Edit, &[(u64, u8)]); 6] = [
    (
        "a line of the list left out",
        &LIST,
        Edit::LeftOut,
        &[
            (0, 1),
            (0, 1),
            (0, 1),
            (1, 4),
            (1, 4),
            (0, 1),
            (0, 1),
            (2, 4),
            (2, 4),
            (0, 1),
            (0, 1),
        ],
    ),
    (
        "a line of the list doubled",
        &LIST,
        Edit::Doubled,
        &[
            (0, 1),
            (0, 1),
            (1, 2),
            (1, 3),
            (1, 2),
            (0, 1),
            (2, 2),
            (2, 3),
            (2, 2),
            (0, 1),
            (0, 1),
        ],
    ),
    (
        "two lines of the list swapped",
        &LIST,
        Edit::Swapped,
        &[(0, 1); 10],
    ),
    (
        "a line of the instance left out",
        &INSTANCE,
        Edit::LeftOut,
        &[
            (0, 1),
            (0, 1),
            (0, 1),
            (1, 4),
            (1, 4),
            (1, 5),
            (0, 1),
            (0, 1),
            (0, 1),
        ],
    ),
    (
        "a line of the instance doubled",
        &INSTANCE,
        Edit::Doubled,
        &[
            (0, 1),
            (0, 1),
            (1, 2),
            (1, 3),
            (1, 2),
            (1, 2),
            (0, 1),
            (0, 1),
            (0, 1),
        ],
    ),
    (
        "two lines of the instance swapped",
        &INSTANCE,
        Edit::Swapped,
        &[(0, 1); 8],
    ),
];

fn verdicts() -> &'static [(
    &'static str,
    &'static [&'static [u8]],
    Edit,
    &'static [(u64, u8)],
)] {
    &VERDICTS
}

/// Wants these verdicts of the lines with each line edited, in order.
fn check_edits(
    rt: &impl Abort,
    alloc: Global,
    lines: &[&[u8]],
    edit: Edit,
    wanted: &[(u64, u8)],
    name: &str,
) -> Result<(), AllocError> {
    for (at, (graph, code)) in wanted.iter().copied().enumerate() {
        let text = edited(alloc, lines, edit, at)?;
        let verdict = check_records(alloc, &text)?;
        assert_eq!(rt; verdict, Verdict::No { graph, code }, "{name}, at {at}");
    }
    Ok(())
}

#[test]
fn each_line_is_edited(rt: HostRuntime) -> Result<(), Fail> {
    for (name, lines, edit, wanted) in verdicts() {
        check_edits(&rt, rt.alloc(), lines, *edit, wanted, name)?;
    }
    Ok(())
}
