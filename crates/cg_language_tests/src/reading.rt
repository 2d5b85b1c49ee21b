//! What bytes are read as.
use crate::texts::{fault_text, repeated};
use cg_script::{ClassDef, Command, Item, Operand, Script, parse};
use std::alloc::{AllocError, Global};
use std::process::Abort;
use std::test::Fail;

/// Appends a word and a name with its number.
fn tell(text: &mut String, script: &Script, word: &str, name: u32) -> Result<(), AllocError> {
    text.push_str(word)?;
    if name < script.names.len() {
        text.push_str(script.names.text(name))?;
    }
    text.push_str(if name == 0 { " 0; " } else { " 1; " })
}

/// A description of what the bytes are read as.
fn told(alloc: Global, bytes: &[u8]) -> Result<String, AllocError> {
    let mut text = String::new(alloc);
    let script = match parse(alloc, bytes) {
        Ok(script) => script,
        Err(fault) => return fault_text(alloc, fault),
    };
    for item in script.items.as_slice() {
        match item {
            Item::Run(Command::MakeList { name, items }) if items.as_slice().is_empty() => {
                tell(&mut text, &script, "make ", *name)?
            }
            Item::Run(Command::Del { name }) => tell(&mut text, &script, "del ", *name)?,
            _ => text.push_str("?")?,
        }
    }
    Ok(text)
}

/// Texts, each with another that follows it so many times, and what they are read as.
static READ: [(&str, &str, usize, &str); 18] = [
    ("", "", 0, ""),
    ("\n\n \n# a = list\n  #del a\n#\n", "", 0, ""),
    (
        "a = list\na = list\ndel a\ndel a",
        "",
        0,
        "make a 0; make a 0; del a 0; del a 0; ",
    ),
    (
        "b = list\na = list\ndel b\n",
        "",
        0,
        "make b 0; make a 1; del b 0; ",
    ),
    ("  _x9   =  list ", "", 0, "make _x9 0; "),
    ("c8 = list\ndel List", "", 0, "make c8 0; del List 1; "),
    (
        "a234567890123456789012345678901_ = list",
        "",
        0,
        "make a234567890123456789012345678901_ 0; ",
    ),
    // Names whose last bytes are the same.
    (
        "aabc = list\nbabc = list\naabc = list\ndel babc\ndel aabc",
        "",
        0,
        "make aabc 0; make babc 1; make aabc 0; del babc 1; del aabc 0; ",
    ),
    (
        "ab = list\nab = list\ndel ab",
        "",
        0,
        "make ab 0; make ab 0; del ab 0; ",
    ),
    ("#", "#", 1023, ""),
    ("#", "#", 1024, "bad 1 5"),
    ("\t", "#", 1024, "bad 1 1"),
    ("x = list", " ", 1017, "bad 1 5"),
    ("", "\n", 400_000, ""),
    ("", "\n", 400_001, "bad 400001 5"),
    ("nonsense", "\n", 400_001, "bad 1 2"),
    ("", " ", 1025, "bad 1 5"),
    ("# #", " a b", 31, ""),
];

fn read() -> &'static [(&'static str, &'static str, usize, &'static str)] {
    &READ
}

#[test]
fn scripts_are_read_line_by_line(rt: HostRuntime) -> Result<(), Fail> {
    let alloc = rt.alloc();
    for (front, more, times, want) in read() {
        let text = repeated(alloc, front, more, *times)?;
        let found = told(alloc, text.as_bytes())?;
        assert_eq!(&rt; found.as_str(), *want, "at {front:?} and {times}");
    }
    Ok(())
}

const NONE: Operand = Operand::None;

/// A command: its word, its numbers, -1 for one that is absent, and its operands, `NONE` where it
/// has fewer than three.
type Parts = (&'static str, [i64; 3], [Operand; 3]);

/// How an absent number is told.
fn or_absent(number: Option<u32>) -> i64 {
    match number {
        Some(number) => i64::from(number),
        None => -1,
    }
}

/// The parts of a command, where it is one of some.
fn parts_of(command: &Command) -> Parts {
    match command {
        Command::Bind { name, value } => ("bind", [i64::from(*name), 0, 0], [*value, NONE, NONE]),
        Command::Put { dict, key, value } => ("put", [0; 3], [*dict, *key, *value]),
        Command::MakeInst { name, class } => {
            (
                "instance",
                [i64::from(*name), i64::from(*class), 0],
                [NONE; 3],
            )
        }
        Command::SetAttr {
            object,
            attr,
            value,
        } => ("setattr", [i64::from(*attr), 0, 0], [*object, *value, NONE]),
        Command::MakeRef {
            name,
            target,
            callback,
        } => (
            "weakref",
            [i64::from(*name), 0, 0],
            [*target, *callback, NONE],
        ),
        Command::MakeFunc { name, proc, cells } => match cells.as_slice() {
            [first, second, third] => (
                "function",
                [i64::from(*name), i64::from(*proc), 0],
                [*first, *second, *third],
            ),
            _ => ("function of other cells", [0; 3], [NONE; 3]),
        },
        Command::Collect { generation } => ("collect", [*generation, 0, 0], [NONE; 3]),
        Command::Threshold {
            first,
            second,
            third,
        } => (
            "threshold",
            [i64::from(*first), or_absent(*second), or_absent(*third)],
            [NONE; 3],
        ),
        Command::Flags { bits } => ("flags", [i64::from(*bits), 0, 0], [NONE; 3]),
        Command::Del { name } => ("del", [i64::from(*name), 0, 0], [NONE; 3]),
        Command::Why { name } => ("why", [i64::from(*name), 0, 0], [NONE; 3]),
        Command::Referents { value } => ("referents", [0; 3], [*value, NONE, NONE]),
        Command::Referrers { value } => ("referrers", [0; 3], [*value, NONE, NONE]),
        _ => ("another command", [0; 3], [NONE; 3]),
    }
}

/// The parts of the last item: of a procedure, those of its only command.
fn last_of(items: &[Item]) -> (&'static str, Parts) {
    let none = ("", [0; 3], [NONE; 3]);
    match items.last() {
        Some(Item::Run(command)) => ("run", parts_of(command)),
        Some(Item::Def(procedure)) => match procedure.body.as_slice() {
            [command] => ("procedure", parts_of(command)),
            _ => ("procedure of other commands", none),
        },
        Some(Item::Class(class)) => {
            let ClassDef { name, del, legacy } = *class;
            let numbers = [i64::from(name), or_absent(del), or_absent(legacy)];
            ("class", ("", numbers, [NONE; 3]))
        }
        Some(Item::Profile(profile)) => ("profile", ("", [i64::from(*profile), 0, 0], [NONE; 3])),
        Some(Item::Shutdown) => ("shutdown", none),
        _ => ("another item", none),
    }
}

/// Scripts, how many items each has, and the last of them.
static LAST: [(&str, usize, &str, Parts); 22] = [
    (
        "x = 'x",
        1,
        "run",
        ("bind", [0; 3], [Operand::Str(0), NONE, NONE]),
    ),
    (
        "x = '",
        1,
        "run",
        ("bind", [0; 3], [Operand::Str(1), NONE, NONE]),
    ),
    (
        "x = -9223372036854775808",
        1,
        "run",
        (
            "bind",
            [0; 3],
            [Operand::Int(-9223372036854775808), NONE, NONE],
        ),
    ),
    (
        "put x c7 self",
        1,
        "run",
        (
            "put",
            [0; 3],
            [Operand::Name(0), Operand::Cell(7), Operand::SelfLocal],
        ),
    ),
    (
        "class D\nclass C\nx = new C",
        3,
        "run",
        ("instance", [2, 1, 0], [NONE; 3]),
    ),
    (
        "setattr x n 'n",
        1,
        "run",
        (
            "setattr",
            [1, 0, 0],
            [Operand::Name(0), Operand::Str(1), NONE],
        ),
    ),
    (
        "x = ref y none",
        1,
        "run",
        ("weakref", [0; 3], [Operand::Name(1), NONE, NONE]),
    ),
    ("collect", 1, "run", ("collect", [2, 0, 0], [NONE; 3])),
    ("collect -03", 1, "run", ("collect", [-3, 0, 0], [NONE; 3])),
    (
        "threshold 5 006",
        1,
        "run",
        ("threshold", [5, 6, -1], [NONE; 3]),
    ),
    (
        "debug leak stats leak",
        1,
        "run",
        ("flags", [39, 0, 0], [NONE; 3]),
    ),
    (
        "def q\nend\ndef p\ndel a\nend",
        2,
        "procedure",
        ("del", [2, 0, 0], [NONE; 3]),
    ),
    (
        "def q\nend\ndef p\ndel a\nend\nf = func p c1 f -0",
        3,
        "run",
        (
            "function",
            [3, 1, 0],
            [Operand::Cell(1), Operand::Name(3), Operand::Int(0)],
        ),
    ),
    (
        "def p\nend\ndef q\nend\nclass C del=q legacy=p",
        3,
        "class",
        ("", [2, 1, 0], [NONE; 3]),
    ),
    (
        "def p\nend\ndef q\nend\nclass C legacy=p del=q",
        3,
        "class",
        ("", [2, 1, 0], [NONE; 3]),
    ),
    ("profile 1", 1, "profile", ("", [1, 0, 0], [NONE; 3])),
    ("#\nprofile 02", 1, "profile", ("", [2, 0, 0], [NONE; 3])),
    ("shutdown", 1, "shutdown", ("", [0; 3], [NONE; 3])),
    ("del a\nwhy b", 2, "run", ("why", [1, 0, 0], [NONE; 3])),
    (
        "del a\nreferents b",
        2,
        "run",
        ("referents", [0; 3], [Operand::Name(1), NONE, NONE]),
    ),
    (
        "referrers garbage",
        1,
        "run",
        ("referrers", [0; 3], [Operand::Garbage, NONE, NONE]),
    ),
    ("class C", 1, "class", ("", [0, -1, -1], [NONE; 3])),
];

fn last() -> &'static [(&'static str, usize, &'static str, Parts)] {
    &LAST
}

/// There are to be so many items, the last one with these parts.
fn check_last(rt: &impl Abort, items: &[Item], count: usize, told: (&str, Parts), name: &str) {
    let (sort, (word, numbers, operands)) = last_of(items);
    let (wanted, parts) = told;
    assert!(rt;
        items.len() == count && sort == wanted && word == parts.0,
        "at {name:?}"
    );
    assert!(rt; numbers == parts.1 && operands == parts.2, "at {name:?}");
}

#[test]
fn items_have_their_words_and_numbers(rt: HostRuntime) -> Result<(), Fail> {
    for (text, count, sort, parts) in last() {
        let script = parse(rt.alloc(), text.as_bytes())?;
        check_last(&rt, script.items.as_slice(), *count, (*sort, *parts), text);
    }
    Ok(())
}
