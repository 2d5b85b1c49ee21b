//! Interned texts and their numbers.
use cg_value::Names;
use std::alloc::AllocError;
use std::process::Abort;
use std::test::Fail;

/// Texts in the order in which they are interned, the numbers that they get, all texts by their
/// numbers, and one that is none.
static ORDERS: [(&[(&str, u32)], &[&str], &str); 2] = [
    (
        &[("a", 0), ("b", 1), ("", 2), ("b", 1), ("a", 0), ("c", 3)],
        &["a", "b", "", "c"],
        "d",
    ),
    // Texts of one length that begin and end alike share the guess of their number.
    (
        &[
            ("axb", 0),
            ("ayb", 1),
            ("axb", 0),
            ("azb", 2),
            ("azb", 2),
            ("ayb", 1),
            ("axb", 0),
        ],
        &["axb", "ayb", "azb"],
        "acb",
    ),
];

fn orders() -> &'static [(
    &'static [(&'static str, u32)],
    &'static [&'static str],
    &'static str,
)] {
    &ORDERS
}

/// A text that is interned gets this number.
fn check_interned(
    rt: &impl Abort,
    names: &mut Names,
    text: &str,
    number: u32,
) -> Result<(), AllocError> {
    assert!(rt; names.len() < 100);
    assert_eq!(rt; names.intern(text)?, number, "at {text:?}");
    assert_eq!(rt; names.find(text), Some(number), "at {text:?}");
    Ok(())
}

/// All texts stand by their numbers, and another text has none.
fn check_all(rt: &impl Abort, names: &Names, all: &[&str], none: &str) {
    assert!(rt;
        names.len() as usize == all.len() && names.find(none).is_none() && !names.has(none)
    );
    for number in 0..names.len() {
        let text = names.text(number);
        let is_there = names.find(text) == Some(number) && names.has(text);
        assert!(rt;
            is_there && all.get(number as usize) == Some(&text),
            "at {text:?}"
        );
    }
}

#[test]
fn a_text_has_its_first_number(rt: HostRuntime) -> Result<(), Fail> {
    for (texts, all, none) in orders() {
        let mut names = Names::new(rt.alloc());
        for (text, number) in *texts {
            check_interned(&rt, &mut names, text, *number)?;
        }
        check_all(&rt, &names, all, none);
    }
    Ok(())
}
