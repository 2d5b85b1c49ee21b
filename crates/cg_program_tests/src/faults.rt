//! Each write refused, and a read refused at each call, whatever the job.
use crate::calls::{EXPAND, Faults, RECORD, RUN, answer_to, answer_under, assert_answer, lines};
use crate::one_byte::OneByte;
use crate::parts::Line::{Filled, Plain};
use crate::parts::Part::{Lines, Turns};
use crate::parts::built;
use crate::recordings::RECORD_OF_RING;
use crate::sizes::TOO_LARGE;
use cg_cli::Status;
use cg_io::{MemSource, PlainSource, Source};
use std::alloc::{AllocError, Global};
use std::process::Abort;
use std::test::Fail;

/// A call of which all is known: its words and its script, how often it reads a source that gives
/// the whole script at once, how it ends and its text.
type Call = (
    &'static [&'static str],
    &'static str,
    u64,
    Status,
    &'static str,
);

/// Two callbacks, a shutdown, an inspection, a spent budget, a bad script, bad words, a summary,
/// records, an expansion, and one of a bad script.
static CALLS: [Call; 10] = [
    (
        RUN,
        "def p; end; class C; f = func p; a = new C; u = ref a f; v = ref a f; del a",
        2,
        Status::Done,
        "made function #2; made instance #3; made weakref #4; made weakref #5; cleared #5; cleared #4; enter callback #5; leave; enter callback #4; leave; free #3; end",
    ),
    (
        RUN,
        "shutdown; a = list",
        2,
        Status::Done,
        "made list #2; free #2; gc start 2; gc stop 2 0 0; left 0; end",
    ),
    (
        RUN,
        "a = list; b = list a; c = list a; referrers a",
        2,
        Status::Done,
        "made list #2; made list #3; made list #4; referrer #3; referrer #4; listed 2; end",
    ),
    (
        &["run", "--budget", "1"],
        "def d; end; class C del=d; a = new C; del a; b = new C; del b",
        2,
        Status::Budget,
        "made instance #2; enter del #2; leave; free #2; made instance #3; budget spent",
    ),
    (
        RUN,
        "a = list; b = list; del a; append a",
        2,
        Status::BadScript,
        "bad script 4 3",
    ),
    (
        &["run", "now"],
        "a = list",
        0,
        Status::BadWords,
        "bad words",
    ),
    (GENERATE, "a = list", 0, Status::Done, "summary 7 7 1 2 18"),
    (
        RECORD,
        "a = list; append a a; del a; collect 2",
        2,
        Status::Done,
        "record 2; graph 1; m 2 1 0; r 2; lost 2; graph 2; m 2 1 0; r 2; lost 2; stop; end",
    ),
    // An expansion is written at once, so here it has one line.
    (EXPAND, "m = wmap", 2, Status::Done, "m = dict"),
    (EXPAND, "wdrop m", 2, Status::BadScript, "bad script 1 3"),
];

fn calls() -> &'static [Call] {
    &CALLS
}

const GENERATE: &[&str] = &["generate", "3"];

/// How many lines a text has.
fn line_count(text: &[u8]) -> u32 {
    let mut count = 0u32;
    for byte in text {
        if *byte == b'\n' {
            count = count.saturating_add(1);
        }
    }
    count
}

/// The lines of a run gather, and are written once they have more bytes than this.
const FULL: usize = 8200;

/// Where a write that begins at this byte ends: with the first line after which it has more bytes
/// than `full`, or else with the text.
fn end_of_write(text: &[u8], start: usize, full: usize) -> usize {
    for (at, byte) in text.iter().enumerate() {
        if *byte == b'\n' && at >= start.saturating_add(full) {
            return at.saturating_add(1);
        }
    }
    text.len()
}

/// Each write of a call fails in turn, and keeps nothing, two bytes or all that it is given.
fn check_writes(
    rt: &impl Abort,
    alloc: Global,
    words: &[&str],
    script: &[u8],
    status: Status,
    text: &[u8],
    name: &str,
) -> Result<(), AllocError> {
    // Records are written line by line.
    let records = words.iter().any(|word| *word == "record");
    let full = if records { 0 } else { FULL };
    for keep in [0usize, 2, 10000] {
        let mut start = 0usize;
        for write in 1..=u64::from(line_count(text)).saturating_add(1) {
            let end = end_of_write(text, start, full);
            let mut source = PlainSource::new(Vec::from_slice(alloc, script)?);
            let faults = Faults {
                write,
                keep,
                make: None,
            };
            let found = answer_under(alloc, words, &mut source, faults)?;
            if start >= text.len() {
                assert_answer(rt, &found, status, text, name);
                break;
            }
            let kept = start.saturating_add(keep).min(end).min(text.len());
            assert_answer(rt, &found, Status::WriteFault, &text[..kept], name);
            start = end;
        }
    }
    Ok(())
}

#[test]
fn each_write_fails_in_turn(rt: HostRuntime) -> Result<(), Fail> {
    let alloc = rt.alloc();
    for (words, script, _, status, text) in calls() {
        let bytes = lines(alloc, script)?;
        let text = lines(alloc, text)?;
        check_writes(&rt, alloc, words, &bytes, *status, &text, script)?;
    }
    let bytes = built(alloc, &[Turns(700, &[Plain("print -9223372036854775808")])])?;
    let text = built(
        alloc,
        &[
            Turns(700, &[Plain("value -9223372036854775808")]),
            Lines("end"),
        ],
    )?;
    check_writes(&rt, alloc, RUN, &bytes, Status::Done, &text, "prints")?;
    let bytes = built(alloc, &TOO_LARGE)?;
    let large = Status::TooLarge;
    check_writes(&rt, alloc, RUN, &bytes, large, b"too large\n", "spaces")?;
    Ok(())
}

/// A call with a source of which a read fails, or none.
fn check_read<S: Source>(
    rt: &impl Abort,
    alloc: Global,
    call: Call,
    source: &mut S,
    fails: bool,
) -> Result<(), AllocError> {
    let (words, script, _, status, text) = call;
    let found = answer_to(alloc, words, source)?;
    if fails {
        assert_answer(rt, &found, Status::ReadFault, b"", script);
    } else {
        assert_answer(rt, &found, status, &lines(alloc, text)?, script);
    }
    Ok(())
}

/// Each read of a call fails in turn, and the one after the last, with a source that gives all that
/// is asked for.
fn check_reads(
    rt: &impl Abort,
    alloc: Global,
    call: Call,
    script: &[u8],
) -> Result<(), AllocError> {
    for number in 1..call.2.saturating_add(2) {
        let bytes = Vec::from_slice(alloc, script)?;
        let mut source = MemSource::new(bytes, vec![in alloc; number]?);
        check_read(rt, alloc, call, &mut source, number <= call.2)?;
    }
    Ok(())
}

/// The same with a source that gives one byte a call: as many reads as bytes, and one for the end,
/// if it is read at all.
fn check_reads_of_a_byte(
    rt: &impl Abort,
    alloc: Global,
    call: Call,
    script: &[u8],
) -> Result<(), AllocError> {
    let reads = if call.2 == 0 {
        0
    } else {
        (script.len() as u64).saturating_add(1)
    };
    for number in 1..reads.saturating_add(2) {
        let bytes = Vec::from_slice(alloc, script)?;
        let mut source = OneByte::new(MemSource::new(bytes, vec![in alloc; number]?));
        check_read(rt, alloc, call, &mut source, number <= reads)?;
    }
    Ok(())
}

/// A script of twenty lines of 1,024 bytes each: five reads of 4,096 bytes, and one of the end.
const SPACES: Call = (RUN, "twenty lines of spaces", 6, Status::Done, "end");

#[test]
fn each_read_fails_in_turn(rt: HostRuntime) -> Result<(), Fail> {
    let alloc = rt.alloc();
    for call in calls() {
        let script = lines(alloc, call.1)?;
        check_reads(&rt, alloc, *call, &script)?;
        check_reads_of_a_byte(&rt, alloc, *call, &script)?;
    }
    let script = built(alloc, &[Turns(20, &[Filled(b" ", 1023)])])?;
    check_reads(&rt, alloc, SPACES, &script)?;
    Ok(())
}

/// Calls where the lists refuse a call of `make`: their words, how many were made before, how they
/// end, and their text. The script makes the garbage list, `a` and `b` by one call each; that of
/// three blocks makes eight.
static REFUSED: [(&[&str], usize, Status, &str); 12] = [
    (RECORD, 0, Status::OutOfMemory, ""),
    (RECORD, 1, Status::OutOfMemory, ""),
    (RECORD, 2, Status::OutOfMemory, RECORD_OF_RING),
    (GENERATE, 0, Status::OutOfMemory, ""),
    (GENERATE, 1, Status::OutOfMemory, ""),
    (GENERATE, 2, Status::OutOfMemory, ""),
    (GENERATE, 3, Status::OutOfMemory, ""),
    (GENERATE, 4, Status::OutOfMemory, ""),
    (GENERATE, 5, Status::OutOfMemory, ""),
    (GENERATE, 6, Status::OutOfMemory, ""),
    (GENERATE, 7, Status::OutOfMemory, ""),
    (GENERATE, 8, Status::Done, "summary 7 7 1 2 18"),
];

fn refused() -> &'static [(&'static [&'static str], usize, Status, &'static str)] {
    &REFUSED
}

/// A call is refused so.
fn check_refused(
    rt: &impl Abort,
    alloc: Global,
    words: &[&str],
    before: usize,
    status: Status,
    text: &str,
) -> Result<(), AllocError> {
    let script = "a = list; append a a; del a; collect 2; b = list; append b b; del b; collect 2";
    let mut source = PlainSource::new(lines(alloc, script)?);
    let faults = Faults {
        write: 0,
        keep: 0,
        make: Some(before),
    };
    let found = answer_under(alloc, words, &mut source, faults)?;
    assert_eq!(rt; found.status, status, "after {before}");
    if text.is_empty() {
        assert!(rt; found.text.is_empty(), "after {before}");
    } else {
        assert_answer(rt, &found, status, &lines(alloc, text)?, text);
    }
    Ok(())
}

#[test]
fn a_list_that_is_refused_ends_the_records_and_leaves_no_summary(
    rt: HostRuntime,
) -> Result<(), Fail> {
    for (words, before, status, text) in refused() {
        check_refused(&rt, rt.alloc(), words, *before, *status, text)?;
    }
    Ok(())
}
