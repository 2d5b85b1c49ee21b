//! Scripts at the limits of the language: their bytes, lines, words and reads.
use crate::calls::{RUN, answer_to};
use crate::one_byte::OneByte;
use crate::parts::Line::{Filled, Plain};
use crate::parts::Part::{Again, Lines, Turns};
use crate::parts::{Part, built};
use cg_cli::Status;
use cg_io::{MemSource, PlainSource};
use std::alloc::{AllocError, Global};
use std::process::Abort;
use std::test::Fail;

/// A call with a long script or a long text: its name, its words, its script, how it ends, and its
/// text.
pub type Long = (
    &'static str,
    &'static [&'static str],
    &'static [Part],
    Status,
    &'static [Part],
);

/// The call is to end so, and to write its text, which is too long to be shown.
fn check_long(rt: &impl Abort, alloc: Global, call: Long) -> Result<(), AllocError> {
    let (name, words, script, status, text) = call;
    let found = answer_to(alloc, words, &mut PlainSource::new(built(alloc, script)?))?;
    assert_eq!(rt; found.status, status, "at {name:?}");
    let wanted = built(alloc, text)?;
    assert!(rt;
        found.text.as_slice() == wanted.as_slice(),
        "the text at {name:?}"
    );
    Ok(())
}

pub fn check_long_calls(rt: &impl Abort, alloc: Global, calls: &[Long]) -> Result<(), AllocError> {
    for call in calls {
        check_long(rt, alloc, *call)?;
    }
    Ok(())
}

/// 16,777,216 bytes are the most.
static BYTES: [Long; 15] = [
    (
        "the byte 0",
        RUN,
        &[Again(b"\0", 16_777_216)],
        Status::BadScript,
        &[Lines("bad script 1 1")],
    ),
    (
        "the byte 255",
        RUN,
        &[Again(b"\xff", 16_777_216)],
        Status::BadScript,
        &[Lines("bad script 1 1")],
    ),
    (
        "a line of spaces",
        RUN,
        &[Again(b" ", 16_777_216)],
        Status::BadScript,
        &[Lines("bad script 1 5")],
    ),
    (
        "a comment",
        RUN,
        &[Again(b"#", 16_777_216)],
        Status::BadScript,
        &[Lines("bad script 1 5")],
    ),
    (
        "one word",
        RUN,
        &[Again(b"a", 16_777_216)],
        Status::BadScript,
        &[Lines("bad script 1 5")],
    ),
    (
        "the last byte of a long line is no byte of a script, and that comes first",
        RUN,
        &[Again(b"a", 16_777_215), Again(b"\t", 1)],
        Status::BadScript,
        &[Lines("bad script 1 1")],
    ),
    (
        "spaces behind a line",
        RUN,
        &[Again(b"print 1", 1), Again(b" ", 16_777_209)],
        Status::BadScript,
        &[Lines("bad script 1 5")],
    ),
    (
        "the second line is too long",
        RUN,
        &[Again(b"print 1\n", 1), Again(b"1", 16_777_208)],
        Status::BadScript,
        &[Lines("bad script 2 5")],
    ),
    (
        "lines are counted where nothing stands in them",
        RUN,
        &[Again(b"\n", 16_777_216)],
        Status::BadScript,
        &[Lines("bad script 400001 5")],
    ),
    (
        "the first line is bad, before too many",
        RUN,
        &[Again(b"fly", 1), Again(b"\n", 16_777_213)],
        Status::BadScript,
        &[Lines("bad script 1 2")],
    ),
    (
        "one byte more, of line feeds",
        RUN,
        &[Again(b"\n", 16_777_217)],
        Status::TooLarge,
        &[Lines("too large")],
    ),
    (
        "one byte more, of the byte 0",
        RUN,
        &[Again(b"\0", 16_777_217)],
        Status::TooLarge,
        &[Lines("too large")],
    ),
    (
        "the largest script",
        RUN,
        &[Turns(16_384, &[Filled(b" ", 1023)])],
        Status::Done,
        &[Lines("end")],
    ),
    (
        "one byte more than the largest script",
        RUN,
        &TOO_LARGE,
        Status::TooLarge,
        &[Lines("too large")],
    ),
    (
        "one byte more than the largest script that is expanded",
        &["expand"],
        &TOO_LARGE,
        Status::TooLarge,
        &[Lines("too large")],
    ),
];

fn bytes() -> &'static [Long] {
    &BYTES
}

/// Lines of spaces, with one byte more than a script may have.
pub const TOO_LARGE: [Part; 2] = [Turns(16_384, &[Filled(b" ", 1023)]), Again(b" ", 1)];

/// 1,024 bytes and 64 words are the most of a line, and 400,000 lines the most of a script. At the
/// end bad scripts, byte by byte.
static LINES: [Long; 14] = [
    (
        "a line of 1,024 bytes",
        RUN,
        &[Again(b"print 1", 1), Again(b" ", 1017)],
        Status::Done,
        &[Lines("value 1; end")],
    ),
    (
        "a line of 1,025 bytes",
        RUN,
        &[Again(b"print 1", 1), Again(b" ", 1018)],
        Status::BadScript,
        &[Lines("bad script 1 5")],
    ),
    (
        "a second line of 1,025 spaces",
        RUN,
        &[Again(b"print 1\n", 1), Again(b" ", 1025)],
        Status::BadScript,
        &[Lines("bad script 2 5")],
    ),
    (
        "a comment of 1,025 bytes",
        RUN,
        &[
            Again(b"print 1\n#", 1),
            Again(b" ", 1024),
            Again(b"\nprint 2", 1),
        ],
        Status::BadScript,
        &[Lines("bad script 2 5")],
    ),
    (
        "a comment of 1,024 bytes",
        RUN,
        &[Again(b"#", 1024), Again(b"\nprint 2", 1)],
        Status::Done,
        &[Lines("value 2; end")],
    ),
    (
        "the longest text is printed whole",
        RUN,
        &[Again(b"print '", 1), Again(b"x", 1017)],
        Status::Done,
        &[Again(b"value '", 1), Again(b"x", 1017), Lines(";end")],
    ),
    (
        "a list of 61 items",
        RUN,
        &[
            Again(b"a = list", 1),
            Again(b" 7", 61),
            Lines("; b = item a 61; b = item a 60; print b"),
        ],
        Status::Done,
        &[Lines("made list #2; refused 3; value 7; end")],
    ),
    (
        "a list of 62 items",
        RUN,
        &[
            Again(b"a = list", 1),
            Again(b" 7", 62),
            Lines("; b = item a 61; b = item a 60; print b"),
        ],
        Status::BadScript,
        &[Lines("bad script 1 5")],
    ),
    (
        "a script of 400,000 lines",
        RUN,
        &[Turns(400_000, &[Plain("print 1")])],
        Status::Done,
        &[Turns(400_000, &[Plain("value 1")]), Lines("end")],
    ),
    (
        "a script of 400,001 lines",
        RUN,
        &[Turns(400_000, &[Plain("print 1")]), Again(b"#", 1)],
        Status::BadScript,
        &[Lines("bad script 400001 5")],
    ),
    (
        "a bad last line without a line feed",
        RUN,
        &[Again(b"a = list\nlist = list", 1)],
        Status::BadScript,
        &[Lines("bad script 2 4")],
    ),
    (
        "a bad line behind an empty one and a comment",
        RUN,
        &[Again(b"a = list\n\n# a comment\nfly a\n", 1)],
        Status::BadScript,
        &[Lines("bad script 4 2")],
    ),
    (
        "a bad line of one word",
        RUN,
        &[Again(b"del a\ndel\n", 1)],
        Status::BadScript,
        &[Lines("bad script 2 3")],
    ),
    (
        "a tab",
        RUN,
        &[Again(b"a = list\ta\n", 1)],
        Status::BadScript,
        &[Lines("bad script 1 1")],
    ),
];

fn lines() -> &'static [Long] {
    &LINES
}

#[test]
fn scripts_of_sixteen_mebibytes(rt: HostRuntime) -> Result<(), Fail> {
    check_long_calls(&rt, rt.alloc(), bytes())?;
    Ok(())
}

#[test]
fn lines_at_their_limits(rt: HostRuntime) -> Result<(), Fail> {
    check_long_calls(&rt, rt.alloc(), lines())?;
    Ok(())
}

/// Line feeds, how often a source that gives a byte a call is read for them, and how the run ends.
static READS: [(u32, u64, Status); 6] = [
    (0, 1, Status::Done),
    (1, 2, Status::Done),
    (400_000, 400_001, Status::Done),
    (16_777_216, 16_777_217, Status::BadScript),
    (16_777_217, 16_777_217, Status::TooLarge),
    (20_000_000, 16_777_217, Status::TooLarge),
];

fn reads() -> &'static [(u32, u64, Status)] {
    &READS
}

/// A source is read once for each byte, and once for the end, up to 16,777,217 times.
#[test]
fn sources_are_read_a_bounded_number_of_times(rt: HostRuntime) -> Result<(), Fail> {
    let alloc = rt.alloc();
    for (bytes, reads, status) in reads() {
        let script = built(alloc, &[Again(b"\n", *bytes)])?;
        let mut source = OneByte::new(MemSource::new(script, Vec::new(alloc)));
        let found = answer_to(alloc, RUN, &mut source)?;
        assert_eq!(&rt; found.status, *status, "of {bytes} bytes");
        assert_eq!(&rt; source.calls(), *reads, "of {bytes} bytes");
    }
    Ok(())
}
