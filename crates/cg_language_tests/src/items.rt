//! The lists of a script give back what was added, in order; numbered items; declarations; words.
use cg_script::{
    ClassDef, Command, Commands, Item, Items, Operand, Operands, is_value, is_variable, parse,
};
use std::test::Fail;

#[test]
fn operands_in_order(rt: HostRuntime) -> Result<(), Fail> {
    let mut words = Vec::new(rt.alloc());
    words.push(Operand::Int(-1))?;
    words.push(Operand::Garbage)?;
    let operands = Operands::new(words);
    assert_eq!(rt;
        operands.as_slice(),
        [Operand::Int(-1), Operand::Garbage].as_slice()
    );
    Ok(())
}

#[test]
fn commands_in_order(rt: HostRuntime) -> Result<(), Fail> {
    let mut body = Vec::new(rt.alloc());
    body.push(Command::Del { name: 7 })?;
    body.push(Command::Freeze)?;
    let commands = Commands::new(body);
    assert!(rt;
        matches!(
            commands.as_slice(),
            [Command::Del { name: 7 }, Command::Freeze]
        )
    );
    Ok(())
}

#[test]
fn items_in_order(rt: HostRuntime) -> Result<(), Fail> {
    let alloc = rt.alloc();
    let mut lines = Vec::new(alloc);
    lines.push(Item::Budget(3))?;
    lines.push(Item::Run(Command::Count))?;
    let items = Items::new(lines);
    assert!(rt;
        matches!(
            items.as_slice(),
            [Item::Budget(3), Item::Run(Command::Count)]
        )
    );
    assert_eq!(rt; items.budget(), Some(3));
    assert!(rt; matches!(items.command(0), Some(Command::Count)));
    assert!(rt; items.command(1).is_none());
    Ok(())
}

#[test]
fn numbered_items_are_found(rt: HostRuntime) -> Result<(), Fail> {
    let script = b"del a\nclass C\ndef p\nfreeze\nend\nbudget 3\nclass D\ndef q\nend\ncount";
    let script = parse(rt.alloc(), script)?;
    let items = &script.items;
    assert!(rt; matches!(items.command(0), Some(Command::Del { name: 0 })));
    assert!(rt; matches!(items.command(1), Some(Command::Count)));
    assert!(rt; items.command(2).is_none());
    assert!(rt;
        matches!(items.procedure(0), Some(p) if matches!(p.body.as_slice(), [Command::Freeze]))
    );
    assert!(rt; matches!(items.procedure(1), Some(q) if q.body.as_slice().is_empty()));
    assert!(rt; items.procedure(2).is_none());
    assert!(rt; matches!(items.class(1), Some(ClassDef { name: 3, .. })));
    assert!(rt; items.class(2).is_none());
    Ok(())
}

#[test]
fn what_a_script_declares(rt: HostRuntime) -> Result<(), Fail> {
    for (script, profile, budget, shutdown) in [
        ("", 1, None, false),
        ("a = list\nclass C\nprofile = a", 1, None, false),
        ("profile 1\nbudget 2", 1, Some(2), false),
        ("profile 2\nbudget 0", 2, Some(0), false),
        ("shutdown", 1, None, true),
        (
            "profile 2\ndef p\ndel a\nend\nshutdown\ndel a\nbudget 100000",
            2,
            Some(100_000),
            true,
        ),
    ] {
        let read = parse(rt.alloc(), script.as_bytes())?;
        assert_eq!(rt;
            (read.profile(), read.budget(), read.shutdown()),
            (profile, budget, shutdown),
            "at {script:?}"
        );
    }
    Ok(())
}

#[test]
fn words_of_values_and_variables(rt: HostRuntime) -> Result<(), Fail> {
    for (word, value, variable) in [
        ("", false, false),
        ("x", true, true),
        ("_9", true, true),
        ("c8", true, true),
        ("why", true, true),
        ("profile", true, true),
        ("none", true, false),
        ("c7", true, false),
        ("garbage", true, false),
        ("list", false, false),
        ("budget", false, false),
        ("'", true, false),
        ("'x", true, false),
        ("-007", true, false),
        ("9a", false, false),
        ("9223372036854775808", false, false),
        ("a2345678901234567890123456789012x", false, false),
    ] {
        let bytes = word.as_bytes();
        assert_eq!(rt;
            (is_value(bytes), is_variable(bytes)),
            (value, variable),
            "at {word:?}"
        );
    }
    Ok(())
}
