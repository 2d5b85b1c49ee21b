//! Worked scripts, tallies and summaries. The numbers of the large script were counted by hand from
//! its blocks.
use cg_generator::{Tally, TallySink, generated_script, summary_line, tally};
use cg_io::Sink;
use cg_script::print;
use std::alloc::{AllocError, Global};
use std::process::Abort;
use std::test::Fail;

/// The counts in the order of a summary.
fn counts(made: u64, freed: u64, stops: u64, collected: u64, lines: u64) -> Tally {
    Tally {
        made,
        freed,
        stops,
        collected,
        lines,
    }
}

/// Texts with their tallies, and whether they report a refusal.
const ROWS: [(&str, [u64; 5], bool); 18] = [
    ("", [0, 0, 0, 0, 0], false),
    ("made list #2\nfree #2\nend\n", [1, 1, 0, 0, 3], false),
    // A last line counts without its line feed, and so does an empty line with one.
    ("made list #2\nfree #2\nend", [1, 1, 0, 0, 3], false),
    ("\n\nend", [0, 0, 0, 0, 3], false),
    // Words inside another line, and incomplete words, do not count.
    (
        "value 'made \nvalue 'free \nvalue 'gc stop 2 1 0\n",
        [0, 0, 0, 0, 3],
        false,
    ),
    (
        "made\nfree\ngc stop\nrefused\n made list #2\n",
        [0, 0, 0, 0, 5],
        false,
    ),
    (
        "gc start 2\ngc stop 2 1 0\ncollected 1\n",
        [0, 0, 1, 1, 3],
        false,
    ),
    (
        "gc stop 0 466 0\ngc stop 2 12 3\n",
        [0, 0, 2, 478, 2],
        false,
    ),
    ("gc stop 0 007 0\n", [0, 0, 1, 7, 1], false),
    // Lines of another form give no number.
    (
        "gc stop 2 1\ngc stop 2 1 0 4\ngc stop 2 x 0\ngc stop \n",
        [0, 0, 4, 0, 4],
        false,
    ),
    (
        "gc stop  2 1 0\ngc stop 2 1 0 \ngc stop 2 -1 0\ngc stop 2 1 y\n",
        [0, 0, 4, 0, 4],
        false,
    ),
    // The sum is capped at the largest number of 64 bits.
    (
        "gc stop 2 18446744073709551615 0\n",
        [0, 0, 1, u64::MAX, 1],
        false,
    ),
    (
        "gc stop 2 18446744073709551615 0\ngc stop 2 7 0\n",
        [0, 0, 2, u64::MAX, 2],
        false,
    ),
    (
        "gc stop 2 99999999999999999999999 0\n",
        [0, 0, 1, u64::MAX, 1],
        false,
    ),
    ("refused 10\n", [0, 0, 0, 0, 1], true),
    ("made list #2\nrefused 1", [1, 0, 0, 0, 2], true),
    ("value 'refused 10\n", [0, 0, 0, 0, 1], false),
    ("refused 10\nend\n", [0, 0, 0, 0, 2], true),
];

/// Writes a text in pieces of `size` bytes.
fn write_in_pieces(rt: &impl Abort, sink: &mut TallySink, text: &[u8], size: usize) {
    let mut rest = text;
    'pieces: while !rest.is_empty() {
        let end = size.max(1).min(rest.len());
        assert!(rt; sink.write(&rest[..end]).is_ok());
        rest = &rest[end..];
    }
}

#[test]
fn worked_tallies(rt: HostRuntime) {
    for (text, [made, freed, stops, collected, lines], refused) in ROWS {
        let expected = counts(made, freed, stops, collected, lines);
        assert_eq!(rt; tally(text.as_bytes()), expected, "of {text:?}");
        for size in 1..10 {
            let mut sink = TallySink::new(rt.alloc());
            write_in_pieces(&rt, &mut sink, text.as_bytes(), size);
            assert_eq!(rt; sink.tally(), expected, "of {text:?} in pieces of {size}");
            assert_eq!(rt;
                sink.has_refusal(),
                refused,
                "of {text:?} in pieces of {size}"
            );
        }
    }
}

#[test]
fn summaries(rt: HostRuntime) {
    for (tally, line) in [
        (counts(7, 7, 1, 2, 18), "summary 7 7 1 2 18\n"),
        (counts(0, 0, 0, 0, 0), "summary 0 0 0 0 0\n"),
        (
            counts(u64::MAX, 1, u64::MAX, 20, u64::MAX),
            "summary 18446744073709551615 1 18446744073709551615 20 18446744073709551615\n",
        ),
    ] {
        assert_eq!(rt; summary_line(&tally).as_str(), line);
    }
}

/// Blocks, how many lines the large script of them has, and its text, where it is short. The number
/// of a tree is its value.
static SCRIPTS: [(u32, usize, &str); 6] = [
    (1, 8, ""),
    (2, 12, ""),
    (
        3,
        13,
        "c = list\na = list\nb = list a\nappend a b\ndel a\ndel b\na = list 2\na = list a a\na = list a a\ndel a\nc = list c\ndel c\ncollect 2\n",
    ),
    (4, 18, ""),
    (
        5,
        22,
        "c = list\na = list\nb = list a\nappend a b\ndel a\ndel b\na = list 2\na = list a a\na = list a a\ndel a\nc = list c\na = list\nb = list a\nappend a b\ndel a\ndel b\na = list 5\na = list a a\na = list a a\ndel a\ndel c\ncollect 2\n",
    ),
    (10_000, 33_338, ""),
];

fn scripts() -> &'static [(u32, usize, &'static str)] {
    &SCRIPTS
}

/// The script of so many blocks is to have so many lines, and this text.
fn check(
    rt: &impl Abort,
    alloc: Global,
    blocks: u32,
    lines: usize,
    text: &str,
) -> Result<(), AllocError> {
    assert!(rt; blocks <= 10_000);
    let script = generated_script(alloc, blocks)?;
    assert_eq!(rt; script.items.as_slice().len(), lines, "of {blocks}");
    if !text.is_empty() {
        assert!(rt;
            print(alloc, &script)?.as_slice() == text.as_bytes(),
            "of {blocks}"
        );
    }
    Ok(())
}

#[test]
fn scripts_have_the_lines_of_their_blocks(rt: HostRuntime) -> Result<(), Fail> {
    for (blocks, lines, text) in scripts() {
        check(&rt, rt.alloc(), *blocks, *lines, text)?;
    }
    Ok(())
}
