//! Arguments, and failing reads and writes.
use crate::asked::ask_call;
use cg_ask::AskStatus;
use std::test::Fail;

/// Two questions about no members.
static QUESTIONS: &[u8] = b"heap\nend\nhidden\nlost\n";

#[test]
fn words_are_bad(rt: HostRuntime) -> Result<(), Fail> {
    let alloc = rt.alloc();
    let mut words = Vec::new(alloc);
    words.push(String::new(alloc))?;
    let fails = (Vec::new(alloc), Vec::new(alloc));
    let bad = AskStatus::BadWords;
    ask_call(
        &rt,
        alloc,
        words.as_slice(),
        QUESTIONS,
        fails,
        bad,
        b"bad words\n",
    )?;
    Ok(())
}

#[test]
fn a_failed_write_leaves_the_answers_before_it(rt: HostRuntime) -> Result<(), Fail> {
    let alloc = rt.alloc();
    let fails = (Vec::new(alloc), vec![in alloc; 2]?);
    let text = b"hidden\ndone\nlo";
    ask_call(
        &rt,
        alloc,
        &[],
        QUESTIONS,
        fails,
        AskStatus::WriteFault,
        text,
    )?;
    let fails = (Vec::new(alloc), vec![in alloc; 1]?);
    ask_call(
        &rt,
        alloc,
        &[],
        b"heap\n",
        fails,
        AskStatus::WriteFault,
        b"ba",
    )?;
    Ok(())
}

#[test]
fn a_failed_read_writes_nothing(rt: HostRuntime) -> Result<(), Fail> {
    let alloc = rt.alloc();
    for call in 1..3 {
        let fails = (vec![in alloc; call]?, Vec::new(alloc));
        ask_call(&rt, alloc, &[], QUESTIONS, fails, AskStatus::ReadFault, b"")?;
    }
    Ok(())
}
