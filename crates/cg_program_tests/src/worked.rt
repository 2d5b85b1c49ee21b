//! Calls of the top call with worked scripts, by the tables of the other files.
use crate::calls::{
    Case, EXPAND, RECORD, RUN, Worked, answer_to, assert_answer, check, check_bytes, lines,
    words_of,
};
use crate::kinds::six;
use crate::{
    bad_input, collections, edges, expansions, inspections, promises, recordings, rows, shutdowns,
    summaries,
};
use cg_cert::{Verdict, check_records};
use cg_cli::{Status, gc_run};
use cg_io::{NullSink, PlainSource};
use std::alloc::{AllocError, Global};
use std::process::Abort;
use std::test::Fail;

/// A run of each script is to end so, and to write its text.
fn check_worked(
    rt: &impl Abort,
    alloc: Global,
    table: &[Worked],
    status: Status,
) -> Result<(), AllocError> {
    for (name, script, text) in table {
        check(rt, alloc, RUN, script, status, text, name)?;
    }
    Ok(())
}

#[test]
fn worked_scripts_with_collections_write_their_texts(rt: HostRuntime) -> Result<(), Fail> {
    let alloc = rt.alloc();
    check_worked(&rt, alloc, collections::cycles(), Status::Done)?;
    check_worked(&rt, alloc, collections::finalizers(), Status::Done)?;
    check_worked(&rt, alloc, collections::weak_references(), Status::Done)?;
    check_worked(&rt, alloc, collections::profile_2(), Status::Done)?;
    check_worked(&rt, alloc, collections::flags(), Status::Done)?;
    check_worked(&rt, alloc, collections::due(), Status::Done)?;
    check_worked(&rt, alloc, collections::frozen(), Status::Done)?;
    Ok(())
}

#[test]
fn worked_scripts_write_their_texts(rt: HostRuntime) -> Result<(), Fail> {
    let alloc = rt.alloc();
    check_worked(&rt, alloc, rows::lists(), Status::Done)?;
    check_worked(&rt, alloc, rows::others(), Status::Done)?;
    check_worked(&rt, alloc, rows::finalizers(), Status::Done)?;
    check_worked(&rt, alloc, rows::weak_references(), Status::Done)?;
    check_worked(&rt, alloc, rows::callbacks(), Status::Done)?;
    check_worked(&rt, alloc, rows::spent(), Status::Budget)?;
    check_worked(&rt, alloc, shutdowns::done(), Status::Done)?;
    check_worked(&rt, alloc, shutdowns::spent(), Status::Budget)?;
    check_worked(&rt, alloc, inspections::done(), Status::Done)?;
    check_worked(&rt, alloc, promises::done(), Status::Done)?;
    check_worked(&rt, alloc, edges::done(), Status::Done)?;
    Ok(())
}

/// Each call is to end so, and to write its text.
fn check_cases(rt: &impl Abort, alloc: Global, table: &[Case]) -> Result<(), AllocError> {
    for (name, words, script, status, text) in table {
        check(rt, alloc, words, script, *status, text, name)?;
    }
    Ok(())
}

#[test]
fn other_calls_write_their_texts(rt: HostRuntime) -> Result<(), Fail> {
    let alloc = rt.alloc();
    check_cases(&rt, alloc, rows::budgets())?;
    check_cases(&rt, alloc, collections::budgets())?;
    check_cases(&rt, alloc, recordings::cases())?;
    check_cases(&rt, alloc, expansions::written())?;
    check_cases(&rt, alloc, summaries::cases())?;
    check_cases(&rt, alloc, bad_input::words())?;
    Ok(())
}

#[test]
fn bad_scripts_are_told(rt: HostRuntime) -> Result<(), Fail> {
    for (script, text) in bad_input::scripts() {
        check(
            &rt,
            rt.alloc(),
            RUN,
            script,
            Status::BadScript,
            text,
            script,
        )?;
    }
    Ok(())
}

/// The text among some that these bytes are, and otherwise the first one.
fn one_of(alloc: Global, found: &[u8], texts: &[&str]) -> Result<Vec<u8>, AllocError> {
    let mut first = Vec::new(alloc);
    for text in texts {
        let wanted = lines(alloc, text)?;
        if wanted.as_slice() == found || first.is_empty() {
            first = wanted;
        }
    }
    Ok(first)
}

#[test]
fn lines_stand_in_any_order_that_the_rules_allow(rt: HostRuntime) -> Result<(), Fail> {
    let alloc = rt.alloc();
    for (name, words, script, texts) in collections::either() {
        let found = answer_to(alloc, words, &mut PlainSource::new(lines(alloc, script)?))?;
        let wanted = one_of(alloc, &found.text, texts)?;
        assert_answer(&rt, &found, Status::Done, &wanted, name);
    }
    Ok(())
}

/// What is written with these words, to which the script leads without a fault.
fn written(
    rt: &impl Abort,
    alloc: Global,
    words: &[&str],
    script: &str,
) -> Result<Vec<u8>, AllocError> {
    let found = answer_to(alloc, words, &mut PlainSource::new(lines(alloc, script)?))?;
    assert_eq!(rt; found.status, Status::Done, "at {script:?}");
    Ok(found.text)
}

#[test]
fn expansions_are_run(rt: HostRuntime) -> Result<(), Fail> {
    let alloc = rt.alloc();
    for (name, script, status, text) in expansions::runs() {
        let expansion = written(&rt, alloc, EXPAND, script)?;
        check_bytes(
            &rt,
            alloc,
            RUN,
            expansion,
            *status,
            &lines(alloc, text)?,
            name,
        )?;
    }
    Ok(())
}

#[test]
fn records_are_right(rt: HostRuntime) -> Result<(), Fail> {
    let alloc = rt.alloc();
    for (script, records) in recordings::right() {
        let text = written(&rt, alloc, RECORD, script)?;
        let yes = Verdict::Yes { records: *records };
        assert_eq!(&rt; check_records(alloc, &text)?, yes, "at {script:?}");
    }
    Ok(())
}

#[test]
fn a_sink_that_keeps_nothing(rt: HostRuntime) -> Result<(), Fail> {
    let alloc = rt.alloc();
    let words = words_of(alloc, RUN)?;
    let mut source = PlainSource::new(lines(alloc, "a = list")?);
    let mut sink = NullSink::new();
    let kinds = six(alloc, None)?;
    let status = gc_run(alloc, words.as_slice(), &mut source, &mut sink, kinds);
    assert_eq!(rt; status, Status::Done);
    Ok(())
}
