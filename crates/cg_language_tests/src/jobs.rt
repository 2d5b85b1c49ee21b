//! Arguments and their jobs.
use cg_words::{Job, read_words};
use std::alloc::{AllocError, Global};
use std::process::Abort;
use std::test::Fail;

/// Words, and their job.
static WORDS: [(&[&str], Job); 21] = [
    (&["run"], Job::Run { budget: None }),
    (&["run", "--budget", "5"], Job::Run { budget: Some(5) }),
    (&["run", "--budget=5"], Job::Run { budget: Some(5) }),
    (&["run", "--budget", "0"], Job::Run { budget: Some(0) }),
    (
        &["run", "--budget", "100000"],
        Job::Run {
            budget: Some(100_000),
        },
    ),
    (
        &["run", "--budget", "000100"],
        Job::Run { budget: Some(100) },
    ),
    (&["run", "--budget=007"], Job::Run { budget: Some(7) }),
    (&["run", "--"], Job::Run { budget: None }),
    (
        &["run", "--budget", "5", "--"],
        Job::Run { budget: Some(5) },
    ),
    (&["generate", "1"], Job::Generate { blocks: 1 }),
    (&["generate", "3"], Job::Generate { blocks: 3 }),
    (&["generate", "007"], Job::Generate { blocks: 7 }),
    (&["generate", "10000"], Job::Generate { blocks: 10_000 }),
    (&["generate", "010000"], Job::Generate { blocks: 10_000 }),
    (&["generate", "000001"], Job::Generate { blocks: 1 }),
    (&["generate", "--", "5"], Job::Generate { blocks: 5 }),
    (&["generate", "5", "--"], Job::Generate { blocks: 5 }),
    (&["expand"], Job::Expand),
    (&["expand", "--"], Job::Expand),
    (&["record"], Job::Record),
    (&["record", "--"], Job::Record),
];

fn words() -> &'static [(&'static [&'static str], Job)] {
    &WORDS
}

/// Words without one.
static NONE: [&[&str]; 60] = [
    &[],
    &[""],
    &["", "run"],
    &["run", ""],
    &["Run"],
    &["run "],
    &["ru"],
    &["run", "run"],
    &["run", "now"],
    &["run", "5"],
    &["run", "--budget"],
    &["run", "--budget", ""],
    &["run", "--budget="],
    &["run", "--budget", "100001"],
    &["run", "--budget=100001"],
    &["run", "--budget", "0000001"],
    &["run", "--budget", "-1"],
    &["run", "--budget=-1"],
    &["run", "--budget", "+1"],
    &["run", "--budget", "5x"],
    &["run", "--budget", " 5"],
    &["run", "--budget", "5", "6"],
    &["run", "--budget", "5", "--budget", "6"],
    &["run", "--budget=5", "--budget=5"],
    &["run", "--budgets", "5"],
    &["run", "--budge", "5"],
    &["run", "-b", "5"],
    &["run", "--", "5"],
    &["run", "--help"],
    &["run", "-h"],
    &["--help"],
    &["-h"],
    &["--version"],
    &["help"],
    &["help", "run"],
    &["--budget", "5", "run"],
    &["--", "run"],
    &["generate"],
    &["generate", ""],
    &["generate", "0"],
    &["generate", "10001"],
    &["generate", "0000001"],
    &["generate", "--5"],
    &["generate", "-5"],
    &["generate", "5", "5"],
    &["generate", "generate"],
    &["gcrun", "run"],
    &["expand", ""],
    &["expand", "5"],
    &["expand", "expand"],
    &["expand", "--budget", "5"],
    &["expand", "--help"],
    &["expand", "--", "5"],
    &["Expand"],
    &["--", "expand"],
    &["record", "5"],
    &["record", "run"],
    &["record", "--budget=5"],
    &["record", "-h"],
    &["records"],
];

fn none() -> &'static [&'static [&'static str]] {
    &NONE
}

/// What is read of the words.
fn job_of(alloc: Global, words: &[&str]) -> Result<Option<Job>, AllocError> {
    let mut strings = Vec::new(alloc);
    for word in words {
        strings.push(String::from_str(alloc, word)?)?;
    }
    read_words(alloc, strings.as_slice())
}

/// The words are to have this job.
fn check(
    rt: &impl Abort,
    alloc: Global,
    words: &[&str],
    job: Option<Job>,
) -> Result<(), AllocError> {
    let found = job_of(alloc, words)?;
    assert_eq!(rt; found, job, "at {words:?}");
    Ok(())
}

#[test]
fn words_with_a_job_and_without_one(rt: HostRuntime) -> Result<(), Fail> {
    for (words, job) in words() {
        check(&rt, rt.alloc(), words, Some(*job))?;
    }
    for words in none() {
        check(&rt, rt.alloc(), words, None)?;
    }
    Ok(())
}
