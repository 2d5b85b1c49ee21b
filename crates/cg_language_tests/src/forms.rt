//! Which lines spell a script, and which code comes first.
use crate::texts::{fault_text, repeated};
use cg_script::parse;
use std::alloc::{AllocError, Global};
use std::process::Abort;
use std::test::Fail;

/// Whether the bytes spell a script; else the number and the code of their first bad line.
fn told(alloc: Global, bytes: &[u8]) -> Result<String, AllocError> {
    match parse(alloc, bytes) {
        Ok(_) => String::from_str(alloc, "good"),
        Err(fault) => fault_text(alloc, fault),
    }
}

/// Worked scripts.
static WORKED: [(&str, &str); 10] = [
    ("", "good"),
    ("a = list\nappend a a\ndel a\ncollect 2", "good"),
    (
        "def d\nx = self\nend\nclass C del=d\na = new C\nsetattr a me a\ndel a\ncollect 2\ndel x\ncollect 2",
        "good",
    ),
    (
        "budget 1\ndef d\nend\nclass C del=d\na = new C\ndel a\nb = new C\ndel b",
        "good",
    ),
    ("a = list\nb = list\ndel a\nappend a", "bad 4 3"),
    ("def p\nprint 1", "bad 3 7"),
    (
        "class C\na = list 1\nx = item a 1\nappend 3 a\nput a 1 2\ncollect 7\nx = deref a\ncall a\nd = dict\nput d a 1\nx = get d 5\no = new C\nx = attr o n\nappend garbage 1\ndel x",
        "good",
    ),
    // A procedure is defined inside its own body.
    ("def p\nf = func p\nend", "good"),
    ("def p\nclass C\nend", "bad 2 7"),
    ("def p\n\n# end\nend", "good"),
];

fn worked() -> &'static [(&'static str, &'static str)] {
    &WORKED
}

/// Words at the edges of their forms.
static WORDS: [(&str, &str); 40] = [
    // Numbers.
    ("x = -0", "good"),
    ("x = 007", "good"),
    ("x = 9223372036854775807", "good"),
    ("x = 9223372036854775808", "bad 1 4"),
    ("x = -9223372036854775808", "good"),
    ("x = -9223372036854775809", "bad 1 4"),
    ("x = 0000000000000000001", "good"),
    ("x = 00000000000000000001", "bad 1 4"),
    ("x = -", "bad 1 4"),
    ("x = --1", "bad 1 4"),
    ("x = +1", "bad 1 4"),
    ("x = 1a", "bad 1 4"),
    // Identifiers.
    ("x = a234567890123456789012345678901_", "good"),
    ("x = a234567890123456789012345678901_2", "bad 1 4"),
    ("x = a-b", "bad 1 4"),
    ("x = c7", "good"),
    ("x = c8", "good"),
    ("x = listen", "good"),
    ("x = del", "bad 1 4"),
    ("c0 = 1", "bad 1 4"),
    ("self = 1", "bad 1 4"),
    // Strings.
    ("x = '", "good"),
    ("x = '#'~", "good"),
    ("x = 'a b", "bad 1 3"),
    // Counts.
    ("budget 100000", "good"),
    ("budget 0000100000", "good"),
    ("budget 00000100000", "bad 1 4"),
    ("budget 100001", "bad 1 4"),
    ("budget -1", "bad 1 4"),
    ("threshold 2147483647 0", "good"),
    ("threshold 2147483648", "bad 1 4"),
    ("threshold 1 2 x", "bad 1 4"),
    // Flags.
    ("debug", "good"),
    ("debug leak stats leak saveall leak", "good"),
    ("debug leak stats leak saveall leak leak", "bad 1 3"),
    ("debug Leak", "bad 1 4"),
    // Names of procedures, classes and attributes may be reserved words.
    ("class end\nx = new end", "good"),
    ("setattr x list 1", "good"),
    ("setattr x 9 1", "bad 1 4"),
    ("delattr x", "bad 1 3"),
];

fn words() -> &'static [(&'static str, &'static str)] {
    &WORDS
}

/// Each code, and lines with two faults.
static BAD_LINES: [(&str, &str); 72] = [
    // 1 before 5, 5 before 2.
    ("nonsense\t", "bad 1 1"),
    // 2 before everything else.
    ("nonsense", "bad 1 2"),
    ("x", "bad 1 2"),
    ("def p\nnonsense", "bad 2 2"),
    // 3 before 4.
    ("x =", "bad 1 3"),
    ("9 =", "bad 1 3"),
    ("9 = 1 2", "bad 1 3"),
    ("9 = tuple", "bad 1 3"),
    ("x = tuple", "bad 1 3"),
    ("x = dict 1", "bad 1 3"),
    ("x = new", "bad 1 3"),
    ("x = ref", "good"),
    ("x = ref y f g", "bad 1 3"),
    ("x = item a", "bad 1 3"),
    ("append 9a", "bad 1 3"),
    ("collect 1 2", "bad 1 3"),
    ("enable 1", "bad 1 3"),
    ("threshold", "bad 1 3"),
    ("threshold 1 2 3 4", "bad 1 3"),
    ("end end", "bad 1 3"),
    ("def", "bad 1 3"),
    ("class", "bad 1 3"),
    ("class C del=p legacy=p del=p", "bad 1 3"),
    ("budget", "bad 1 3"),
    // 3 before 7.
    ("def p\ndef", "bad 2 3"),
    ("end 1", "bad 1 3"),
    // 4 before 7, 8 and 6.
    ("9 = list", "bad 1 4"),
    ("del 9", "bad 1 4"),
    ("item = list", "bad 1 4"),
    ("append a 9a", "bad 1 4"),
    ("setitem a b 1", "bad 1 4"),
    ("collect x", "bad 1 4"),
    ("def p\ndef 9", "bad 2 4"),
    ("budget 1\nbudget x", "bad 2 4"),
    ("class C\nclass 9", "bad 2 4"),
    ("x = new 9", "bad 1 4"),
    ("9 = new C", "bad 1 4"),
    ("class C del", "bad 1 4"),
    ("class C del=", "bad 1 4"),
    ("class C del=9", "bad 1 4"),
    ("class C legacy=", "bad 1 4"),
    ("class C dell=p", "bad 1 4"),
    ("class C del=p del=p", "bad 1 4"),
    ("class C legacy=p legacy=p", "bad 1 4"),
    // 7 before 8 and 6.
    ("end", "bad 1 7"),
    ("def p\ndef q", "bad 2 7"),
    ("def p\ndef p", "bad 2 7"),
    ("def p\nbudget 1", "bad 2 7"),
    ("budget 1\ndef p\nbudget 1", "bad 3 7"),
    ("class C\ndef p\nclass C", "bad 3 7"),
    ("def p\nclass C del=q", "bad 2 7"),
    ("def p", "bad 2 7"),
    ("def p\n", "bad 2 7"),
    ("def p\n\n", "bad 3 7"),
    ("def p\nend\nend", "bad 3 7"),
    // 8 before 6.
    ("budget 1\nbudget 2", "bad 2 8"),
    ("def p\nend\ndef p\nend", "bad 3 8"),
    ("class C\nclass C", "bad 2 8"),
    ("class C\nclass C del=q", "bad 2 8"),
    // 6.
    ("x = new C", "bad 1 6"),
    ("x = new C\nclass C", "bad 1 6"),
    ("f = func p", "bad 1 6"),
    ("f = func p\ndef p\nend", "bad 1 6"),
    ("class p\nf = func p", "bad 2 6"),
    ("def C\nend\nx = new C", "bad 3 6"),
    ("class C del=p", "bad 1 6"),
    ("class C legacy=p", "bad 1 6"),
    ("def p\nend\nclass C del=p legacy=q", "bad 3 6"),
    ("def p\nend\nclass C legacy=p del=p", "good"),
    // The first bad line.
    ("x = 1\n\nx = new C\nnonsense", "bad 3 6"),
    // A comment is checked only for its bytes and its length.
    ("#x = new C\n # end", "good"),
    ("# \x7f", "bad 1 1"),
];

fn bad_lines() -> &'static [(&'static str, &'static str)] {
    &BAD_LINES
}

/// A profile and a shutdown: their words, and where they stand.
static DECLARATIONS: [(&str, &str); 40] = [
    ("profile 1", "good"),
    ("profile 2", "good"),
    ("profile 0000000002", "good"),
    ("\n # profile 2\n\nprofile 2\nshutdown\nbudget 1", "good"),
    ("shutdown", "good"),
    ("a = list\nclass C\nshutdown", "good"),
    ("def p\nend\nshutdown\nbudget 1\nclass C", "good"),
    // Neither word is reserved.
    ("profile = list", "good"),
    ("shutdown = list\nprofile = shutdown\ndel shutdown", "good"),
    ("profile = list\nprofile 1", "bad 2 7"),
    ("def shutdown\nend\nclass profile\nshutdown", "good"),
    // 2 and 3.
    ("Profile 1", "bad 1 2"),
    ("profile", "bad 1 3"),
    ("profile 1 2", "bad 1 3"),
    ("profile =", "bad 1 3"),
    ("shutdown 1", "bad 1 3"),
    ("shutdown shutdown", "bad 1 3"),
    // 4: no count from 1 to 2.
    ("profile 0", "bad 1 4"),
    ("profile 3", "bad 1 4"),
    ("profile 00", "bad 1 4"),
    ("profile 00000000001", "bad 1 4"),
    ("profile -1", "bad 1 4"),
    ("profile two", "bad 1 4"),
    ("profile 258", "bad 1 4"),
    // 3 and 4 before 7.
    ("a = list\nprofile", "bad 2 3"),
    ("a = list\nprofile 3", "bad 2 4"),
    ("def p\nshutdown 1", "bad 2 3"),
    // 7: a profile after a line that is not ignored.
    ("profile 1\nprofile 1", "bad 2 7"),
    ("a = list\nprofile 1", "bad 2 7"),
    ("class C\n\nprofile 2", "bad 3 7"),
    ("def p\nend\nprofile 2", "bad 3 7"),
    ("budget 1\nprofile 2", "bad 2 7"),
    ("shutdown\nprofile 2", "bad 2 7"),
    // 7: inside a procedure.
    ("def p\nprofile 1", "bad 2 7"),
    ("def p\nshutdown", "bad 2 7"),
    ("shutdown\ndef p\nshutdown", "bad 3 7"),
    // 8.
    ("shutdown\nshutdown", "bad 2 8"),
    ("profile 2\nshutdown\na = list\n#\nshutdown", "bad 5 8"),
    ("shutdown\nbudget 1\nbudget 1", "bad 3 8"),
    ("budget 1\nshutdown\nshutdown", "bad 3 8"),
];

fn declarations() -> &'static [(&'static str, &'static str)] {
    &DECLARATIONS
}

/// The commands that ask where objects are held.
static INSPECTIONS: [(&str, &str); 22] = [
    ("referents x", "good"),
    ("referents 'x", "good"),
    ("referrers garbage", "good"),
    ("why x", "good"),
    ("def p\nreferents c0\nreferrers self\nwhy x\nend", "good"),
    // None of the words is reserved.
    ("why = list\nwhy why", "good"),
    (
        "referents = list\nreferrers = referents\nreferents referrers",
        "good",
    ),
    ("def why\nend\nclass referents", "good"),
    // 2 and 3.
    ("referent x", "bad 1 2"),
    ("Why x", "bad 1 2"),
    ("referents", "bad 1 3"),
    ("referents x y", "bad 1 3"),
    ("referrers", "bad 1 3"),
    ("referrers x y", "bad 1 3"),
    ("why", "bad 1 3"),
    ("why x y", "bad 1 3"),
    ("why 1 2", "bad 1 3"),
    // 4.
    ("referents 9a", "bad 1 4"),
    ("referrers list", "bad 1 4"),
    ("why 1", "bad 1 4"),
    ("why 'x", "bad 1 4"),
    ("why self", "bad 1 4"),
];

fn inspections() -> &'static [(&'static str, &'static str)] {
    &INSPECTIONS
}

/// Bad lines of a few forms.
static FEW: [(&str, &str); 30] = [
    // Bytes that are not printable come first.
    ("a\t= list", "bad 1 1"),
    ("a = list\r\nlist = list", "bad 1 1"),
    ("# \x7f", "bad 1 1"),
    // Unknown forms, whatever else is wrong.
    ("a = list\ntrack a", "bad 2 2"),
    ("collected x", "bad 1 2"),
    ("def p\nable 9", "bad 2 2"),
    ("delete x", "bad 1 2"),
    ("a", "bad 1 2"),
    // The number of words.
    ("x =", "bad 1 3"),
    ("9 =", "bad 1 3"),
    ("del =", "bad 1 3"),
    ("del", "bad 1 3"),
    ("del a b", "bad 1 3"),
    ("del 9 9", "bad 1 3"),
    // The form of a word.
    ("a = list\nlist = list", "bad 2 4"),
    ("del = list", "bad 1 4"),
    ("del c7", "bad 1 4"),
    ("9a = list", "bad 1 4"),
    ("a-b = list", "bad 1 4"),
    ("mist = list\nlist = list", "bad 2 4"),
    ("ab1 = list\n1ab1 = list", "bad 2 4"),
    ("a2345678901234567890123456789012x = list", "bad 1 4"),
    ("9 = dict", "bad 1 4"),
    ("9 = list 1", "bad 1 4"),
    // Declarations.
    ("end", "bad 1 7"),
    ("def p\ndel a", "bad 3 7"),
    ("class C\nclass C", "bad 2 8"),
    ("a = new C", "bad 1 6"),
    // The least bad line.
    ("\n\n#\ndel\ncollect x\n\x01", "bad 4 3"),
    // A line of an unknown form behind spaces and a tab.
    (" a = list \n\n\tb", "bad 3 1"),
];

fn few() -> &'static [(&'static str, &'static str)] {
    &FEW
}

/// Lines of the collector's commands and of `tracked` that are bad, behind a good one.
static CONTROLS: [(&str, &str); 36] = [
    // The number of words.
    ("collect 1 2", "bad 2 3"),
    ("enable 1", "bad 2 3"),
    ("disable x", "bad 2 3"),
    ("threshold", "bad 2 3"),
    ("threshold 1 2 3 4", "bad 2 3"),
    ("debug leak leak leak leak leak leak", "bad 2 3"),
    ("freeze 2", "bad 2 3"),
    ("unfreeze none", "bad 2 3"),
    ("tracked", "bad 2 3"),
    ("tracked x y", "bad 2 3"),
    ("count 0", "bad 2 3"),
    ("gens 0", "bad 2 3"),
    // The form of a generation: a number.
    ("collect x", "bad 2 4"),
    ("collect '2", "bad 2 4"),
    ("collect +2", "bad 2 4"),
    ("collect 9223372036854775808", "bad 2 4"),
    ("collect -9223372036854775809", "bad 2 4"),
    // The form of a threshold: a count up to 2,147,483,647.
    ("threshold x", "bad 2 4"),
    ("threshold -1", "bad 2 4"),
    ("threshold 2147483648", "bad 2 4"),
    ("threshold 00000000700", "bad 2 4"),
    ("threshold 1 2147483648", "bad 2 4"),
    ("threshold 1 2 -3", "bad 2 4"),
    ("threshold 1 2 none", "bad 2 4"),
    // A flag.
    ("debug Stats", "bad 2 4"),
    ("debug 1", "bad 2 4"),
    ("debug stats all", "bad 2 4"),
    // A value.
    ("tracked 9a", "bad 2 4"),
    ("tracked list", "bad 2 4"),
    // The number of words before their form.
    ("threshold x 2 3 4", "bad 2 3"),
    ("collect x y", "bad 2 3"),
    ("tracked 9a y", "bad 2 3"),
    // None of these words is a variable.
    ("collect = 1", "bad 2 4"),
    ("debug = 1", "bad 2 4"),
    ("gens = list", "bad 2 4"),
    ("del count", "bad 2 4"),
];

fn controls() -> &'static [(&'static str, &'static str)] {
    &CONTROLS
}

/// Lines of each form, behind a procedure and a class.
static EACH: [(&str, &str); 48] = [
    ("x = list 1 x", "good"),
    ("x = tuple x 'a", "good"),
    ("x = dict", "good"),
    ("x = new C", "good"),
    ("x = func p x c0", "good"),
    ("x = ref y", "good"),
    ("x = ref y f", "good"),
    ("x = y", "good"),
    ("del x", "good"),
    ("append x 1", "good"),
    ("setitem x 0 y", "good"),
    ("delitem x -1", "good"),
    ("put x 'k y", "good"),
    ("drop x 'k", "good"),
    ("setattr x n y", "good"),
    ("delattr x n", "good"),
    ("x = item y 0", "good"),
    ("x = get y 'k", "good"),
    ("x = attr y n", "good"),
    ("x = deref y", "good"),
    ("call f", "good"),
    ("quit none", "good"),
    ("collect", "good"),
    ("collect 2", "good"),
    ("collect -1", "good"),
    ("collect 7", "good"),
    ("enable", "good"),
    ("disable", "good"),
    ("threshold 700", "good"),
    ("threshold 700 10", "good"),
    ("threshold 700 10 2147483647", "good"),
    ("debug", "good"),
    ("debug stats", "good"),
    ("freeze", "good"),
    ("unfreeze", "good"),
    ("print garbage", "good"),
    ("refs x", "good"),
    ("tracked x", "good"),
    ("finalized self", "good"),
    ("referents x", "good"),
    ("referrers 'x", "good"),
    ("why x", "good"),
    ("count", "good"),
    ("gens", "good"),
    ("budget 100000", "good"),
    ("shutdown", "good"),
    ("class D del=p legacy=p", "good"),
    ("def q\nend", "good"),
];

fn each() -> &'static [(&'static str, &'static str)] {
    &EACH
}

/// Lines that begin so and go on with so many words.
static MANY: [(&str, &str, usize, &str); 14] = [
    ("x = list", " 1", 61, "good"),
    ("x = list", " 1", 62, "bad 1 5"),
    ("x = tuple", " 1", 0, "bad 1 3"),
    ("x = tuple", " 1", 61, "good"),
    ("def p\nend\nf = func p", " 1", 8, "good"),
    ("def p\nend\nf = func p", " 1", 9, "bad 3 3"),
    ("nonsense", " 1", 63, "bad 1 2"),
    ("nonsense", " 1", 64, "bad 1 5"),
    ("nonsense x y", " a b", 30, "bad 1 2"),
    ("nonsense x y", " a b", 31, "bad 1 5"),
    ("tracked x y", " a b", 30, "bad 1 3"),
    ("tracked x y", " a b", 31, "bad 1 5"),
    ("# #", " a b", 31, "good"),
    ("# # #", " a b", 31, "bad 1 5"),
];

fn many() -> &'static [(&'static str, &'static str, usize, &'static str)] {
    &MANY
}

/// The text is to be told of so.
fn check(rt: &impl Abort, alloc: Global, text: &str, want: &str) -> Result<(), AllocError> {
    let found = told(alloc, text.as_bytes())?;
    assert_eq!(rt; found.as_str(), want, "at {text:?}");
    Ok(())
}

/// The same of each line, with what stands before and behind it.
fn check_each(
    rt: &impl Abort,
    alloc: Global,
    front: &str,
    lines: &[(&str, &str)],
    back: &str,
) -> Result<(), AllocError> {
    for (line, want) in lines {
        check(rt, alloc, &format!(in alloc; "{front}{line}{back}")?, want)?;
    }
    Ok(())
}

#[test]
fn lines_and_their_codes(rt: HostRuntime) -> Result<(), Fail> {
    let alloc = rt.alloc();
    check_each(&rt, alloc, "", worked(), "")?;
    check_each(&rt, alloc, "", words(), "")?;
    check_each(&rt, alloc, "", bad_lines(), "")?;
    check_each(&rt, alloc, "", declarations(), "")?;
    check_each(&rt, alloc, "", inspections(), "")?;
    check_each(&rt, alloc, "", few(), "")?;
    check_each(&rt, alloc, "a = list\n", controls(), "\n\x01")?;
    check_each(&rt, alloc, "def p\nend\nclass C\n", each(), "")?;
    Ok(())
}

#[test]
fn numbers_of_words(rt: HostRuntime) -> Result<(), Fail> {
    let alloc = rt.alloc();
    for (front, word, times, want) in many() {
        check(&rt, alloc, &repeated(alloc, front, word, *times)?, want)?;
    }
    Ok(())
}
