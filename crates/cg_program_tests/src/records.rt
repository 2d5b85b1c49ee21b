//! Texts of records, and bytes that are none.
use crate::calls::shown;
use crate::edits::{Edit, LIST, edited};
use cg_records::{Graph, Rec, read_records, write_records};
use std::alloc::{AllocError, Global};
use std::process::Abort;
use std::test::Fail;

/// The text of what is read, or `None` if the bytes are invalid.
fn reread(alloc: Global, bytes: &[u8]) -> Result<Option<Vec<u8>>, AllocError> {
    match read_records(alloc, bytes)? {
        Some(records) => Ok(Some(write_records(alloc, &records)?)),
        None => Ok(None),
    }
}

/// A graph: its members, each with its serial, its in-degree, whether it has a legacy finalizer,
/// and its references; what is lost of it, and what is set aside.
type Told = (
    &'static [(u64, u64, bool, &'static [u64])],
    &'static [u64],
    &'static [u64],
);

fn assert_graph(rt: &impl Abort, graph: &Graph, told: Told) {
    let (members, lost, legacy) = told;
    let found = graph.members.as_slice();
    assert!(rt; found.len() == members.len());
    for (member, (serial, degree, marked, refs)) in found.iter().zip(members) {
        let is_same = member.degree == *degree && member.legacy == *marked;
        assert!(rt;
            member.serial == *serial && is_same && member.refs.as_slice() == *refs,
            "#{serial}"
        );
    }
    assert!(rt; graph.lost.as_slice() == lost && graph.legacy.as_slice() == legacy);
}

/// A record of one collection: its text, its generation, its first graph, and its second, if it has
/// one.
static RECORDS: [(&[u8], u8, Told, Option<Told>); 2] = [
    (
        b"record 2\ngraph 1\nm 2 1 0\nr 2\nlost 2\ngraph 2\nm 2 1 0\nr 2\nlost 2\nstop\nend\n",
        2,
        (&[(2, 1, false, &[2])], &[2], &[]),
        Some((&[(2, 1, false, &[2])], &[2], &[])),
    ),
    // One that is cut short.
    (
        b"record 0\ngraph 1\nm 7 18446744073709551615 1\nr 9\nr 7\nm 9 0 0\nlost 7\nlost 9\nlegacy 7\ncut\nend\n",
        0,
        (
            &[(7, u64::MAX, true, &[9, 7]), (9, 0, false, &[])],
            &[7, 9],
            &[7],
        ),
        None,
    ),
];

fn records() -> &'static [(&'static [u8], u8, Told, Option<Told>)] {
    &RECORDS
}

/// One record is to be read, with these graphs.
fn assert_record(
    rt: &impl Abort,
    records: &[Rec],
    generation: u8,
    first: Told,
    second: Option<Told>,
) {
    let [rec] = records else {
        panic!(rt; "not one record");
    };
    assert_eq!(rt; rec.generation, generation);
    assert_graph(rt, &rec.first, first);
    match (&rec.second, second) {
        (Some(graph), Some(told)) => assert_graph(rt, graph, told),
        (None, None) => {}
        _ => panic!(rt; "another number of graphs"),
    }
}

#[test]
fn records_are_read_and_written(rt: HostRuntime) -> Result<(), Fail> {
    let alloc = rt.alloc();
    for (text, generation, first, second) in records() {
        let read = read_records(alloc, text)?.ok_or("nothing was read")?;
        assert_record(&rt, read.as_slice(), *generation, *first, *second);
        assert_eq!(&rt; write_records(alloc, &read)?.as_slice(), *text);
    }
    Ok(())
}

/// Reads a text, which is valid or not, and expects it back if it is.
fn check_text(
    rt: &impl Abort,
    alloc: Global,
    text: &[u8],
    is_read: bool,
) -> Result<(), AllocError> {
    let name = shown(text);
    let again = reread(alloc, text)?;
    assert_eq!(rt; again.is_some(), is_read, "at {name:?}");
    if let Some(again) = again {
        assert_eq!(rt; again.as_slice(), text, "at {name:?}");
    }
    Ok(())
}

#[test]
fn lines_left_out_doubled_and_swapped(rt: HostRuntime) -> Result<(), Fail> {
    let alloc = rt.alloc();
    for at in 0..LIST.len() {
        // A graph may have any members, references to them and lost ones, in this order.
        let text = edited(alloc, &LIST, Edit::LeftOut, at)?;
        check_text(&rt, alloc, &text, [3, 4, 7, 8].contains(&at))?;
        let text = edited(alloc, &LIST, Edit::Doubled, at)?;
        check_text(&rt, alloc, &text, [2, 3, 4, 6, 7, 8].contains(&at))?;
        // The last line changes places with none.
        let text = edited(alloc, &LIST, Edit::Swapped, at)?;
        check_text(&rt, alloc, &text, at == 10)?;
    }
    Ok(())
}

/// Bytes that are no records, and the smallest texts.
static TEXTS: [(&[u8], bool); 27] = [
    (b"", false),
    (b"\n", false),
    (b"end", false),
    (b"end\r\n", false),
    (b"end\nend\n", false),
    (b"end\n\n", false),
    (b" end\n", false),
    (b"END\n", false),
    (b"record 3\ngraph 1\ncut\nend\n", false),
    (b"record 02\ngraph 1\ncut\nend\n", false),
    (b"record +2\ngraph 1\ncut\nend\n", false),
    (b"record  2\ngraph 1\ncut\nend\n", false),
    (b"record 2 \ngraph 1\ncut\nend\n", false),
    (b"record \ngraph 1\ncut\nend\n", false),
    (b"record 2\ngraph 2\ncut\nend\n", false),
    (b"record 2\ngraph 1\nstop\nend\n", false),
    (b"record 2\ngraph 1\ngraph 2\ncut\nend\n", false),
    (b"record 2\ngraph 1\ngraph 2\nlegacy 2\nstop\nend\n", false),
    (b"record 2\ngraph 1\nlegacy 2\nlost 2\ncut\nend\n", false),
    (b"record 2\ngraph 1\nm 2 1 2\ncut\nend\n", false),
    (b"record 2\ngraph 1\nm 2 1\ncut\nend\n", false),
    (b"record 2\ngraph 1\nm 2 01 0\ncut\nend\n", false),
    (
        b"record 2\ngraph 1\nm 18446744073709551616 1 0\ncut\nend\n",
        false,
    ),
    (
        b"record 2\ngraph 1\nlost 100000000000000000000\ncut\nend\n",
        false,
    ),
    (b"end\n", true),
    (b"record 1\ngraph 1\ncut\nend\n", true),
    (
        b"record 0\ngraph 1\nm 0 0 0\nlegacy 0\ngraph 2\nstop\nrecord 0\ngraph 1\ncut\nend\n",
        true,
    ),
];

fn texts() -> &'static [(&'static [u8], bool)] {
    &TEXTS
}

#[test]
fn the_smallest_texts_are_records_and_other_bytes_are_none(rt: HostRuntime) -> Result<(), Fail> {
    for (text, is_read) in texts() {
        check_text(&rt, rt.alloc(), text, *is_read)?;
    }
    Ok(())
}
