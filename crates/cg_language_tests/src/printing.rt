//! Printing each form, and reading back what was printed.
use crate::texts::fault_text;
use cg_script::{parse, print};
use std::alloc::{AllocError, Global};
use std::process::Abort;
use std::test::Fail;

/// A script, printed; or the number and the code of its first bad line.
fn printed(alloc: Global, bytes: &[u8]) -> Result<String, AllocError> {
    match parse(alloc, bytes) {
        Ok(script) => Ok(String::from_utf8_lossy(alloc, &print(alloc, &script)?)?),
        Err(fault) => fault_text(alloc, fault),
    }
}

/// Lines behind two procedures and a class, and what is printed of them.
static LINES: [(&str, &str); 63] = [
    ("  x =  list   -0 007", "x = list 0 7"),
    ("x = list", "x = list"),
    ("x = tuple y 'a none", "x = tuple y 'a none"),
    ("x = dict ", "x = dict"),
    (" x = new C", "x = new C"),
    ("f = func q c0 f -1", "f = func q c0 f -1"),
    ("f = func p", "f = func p"),
    ("x = ref y", "x = ref y"),
    ("x = ref y  none", "x = ref y"),
    ("x = ref y f", "x = ref y f"),
    ("x = ref none", "x = ref none"),
    ("x = ref", "x = ref"),
    ("x = self", "x = self"),
    ("x = garbage", "x = garbage"),
    ("x = c7", "x = c7"),
    ("x = c8", "x = c8"),
    ("x = '", "x = '"),
    ("x = 'none", "x = 'none"),
    ("x = '007", "x = '007"),
    ("x = 9223372036854775807", "x = 9223372036854775807"),
    ("x = -9223372036854775808", "x = -9223372036854775808"),
    ("x = -0000000000000000010", "x = -10"),
    ("del x", "del x"),
    ("append x 01", "append x 1"),
    ("setitem x 00 y", "setitem x 0 y"),
    ("delitem x -01", "delitem x -1"),
    ("put x 'k y", "put x 'k y"),
    ("drop x 'k", "drop x 'k"),
    ("setattr x list y", "setattr x list y"),
    ("delattr x n", "delattr x n"),
    ("x = item y 00", "x = item y 0"),
    ("x = get y 'k", "x = get y 'k"),
    ("x = attr y n", "x = attr y n"),
    ("x = deref y", "x = deref y"),
    ("call f", "call f"),
    ("quit none", "quit none"),
    ("collect", "collect 2"),
    ("collect -07", "collect -7"),
    ("enable", "enable"),
    ("disable", "disable"),
    ("threshold 0", "threshold 0"),
    ("threshold 0700 010", "threshold 700 10"),
    ("threshold 1 2 2147483647", "threshold 1 2 2147483647"),
    ("debug", "debug"),
    ("debug leak", "debug collectable uncollectable saveall"),
    (
        "debug saveall stats saveall leak",
        "debug stats collectable uncollectable saveall",
    ),
    ("freeze", "freeze"),
    ("unfreeze", "unfreeze"),
    ("budget 0000100000", "budget 100000"),
    ("class D legacy=p del=q", "class D del=q legacy=p"),
    ("class D  legacy=q", "class D legacy=q"),
    ("class D del=p", "class D del=p"),
    ("print 007", "print 7"),
    ("refs x", "refs x"),
    ("tracked 'x", "tracked 'x"),
    ("finalized self", "finalized self"),
    ("referents  x", "referents x"),
    ("referrers 'x", "referrers 'x"),
    ("why  why", "why why"),
    (" shutdown", "shutdown"),
    ("count", "count"),
    ("gens", "gens"),
    ("# nothing", ""),
];

fn lines() -> &'static [(&'static str, &'static str)] {
    &LINES
}

const FRONT: &str = "def p\nend\ndef q\ndel x\nend\nclass C\n";

/// Lines that are ignored and spaces are not printed.
static PASSED: [(&str, &str); 5] = [
    ("", ""),
    ("\n# a\n\n", ""),
    (
        "def p\n\n  del  a\n # b\nprint c0\nend\nf = func p f\nclass end del=p",
        "def p\ndel a\nprint c0\nend\nf = func p f\nclass end del=p",
    ),
    ("# 2\nprofile 02", "profile 2"),
    (
        "profile  1\nshutdown\nshutdown = profile\nbudget 01",
        "profile 1\nshutdown\nshutdown = profile\nbudget 1",
    ),
];

fn passed() -> &'static [(&'static str, &'static str)] {
    &PASSED
}

/// What stands before a line is printed as it is, the line in another way; what was printed is
/// printed as it is.
fn check(
    rt: &impl Abort,
    alloc: Global,
    front: &str,
    line: &str,
    want: &str,
) -> Result<(), AllocError> {
    let text = format!(in alloc; "{front}{line}")?;
    let end = if want.is_empty() { "" } else { "\n" };
    let wanted = format!(in alloc; "{front}{want}{end}")?;
    let once = printed(alloc, text.as_bytes())?;
    assert_eq!(rt; once.as_str(), wanted.as_str(), "at {line:?}");
    let again = printed(alloc, once.as_bytes())?;
    assert_eq!(rt; again.as_str(), once.as_str(), "again at {line:?}");
    Ok(())
}

#[test]
fn lines_as_they_are_printed(rt: HostRuntime) -> Result<(), Fail> {
    let alloc = rt.alloc();
    for (line, want) in lines() {
        check(&rt, alloc, FRONT, line, want)?;
    }
    for (line, want) in passed() {
        check(&rt, alloc, "", line, want)?;
    }
    Ok(())
}
