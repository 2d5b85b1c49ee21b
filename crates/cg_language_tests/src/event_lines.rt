//! The line of each event, by the words that docs/SCRIPT.md and the worked scripts have for it.
ghost use Rattle.std.specs.Prelude.{ℕ, List, IsTrue};
ghost use Rattle.cg_machine.specs.Lines.{IsPrintable};

use cg_machine::{Event, FrameSort, line_of};
use cg_value::{KindCode, Names, Val};
use std::process::Abort;
use std::test::Fail;

/// Events and their lines.
static LINES: [(Event, &str); 21] = [
    (
        Event::Made {
            code: KindCode::Weak,
            serial: 12,
        },
        "made weakref #12\n",
    ),
    (
        Event::Enter {
            sort: FrameSort::Callback,
            serial: 5,
        },
        "enter callback #5\n",
    ),
    (Event::Cleared(4), "cleared #4\n"),
    (Event::Free(4), "free #4\n"),
    (Event::GcSaved(2), "gc saved #2\n"),
    (Event::Value(Val::Ref(1)), "value #1\n"),
    (
        Event::GcStop {
            generation: 2,
            collected: 18446744073709551615,
            uncollectable: 0,
        },
        "gc stop 2 18446744073709551615 0\n",
    ),
    (
        Event::Gens {
            zero: 1,
            one: 20,
            two: 300,
            frozen: 4000,
        },
        "gens 1 20 300 4000\n",
    ),
    (
        Event::Value(Val::Int(-9223372036854775808)),
        "value -9223372036854775808\n",
    ),
    (Event::Tracked(true), "tracked yes\n"),
    (Event::Refused(12), "refused 12\n"),
    (Event::BudgetSpent, "budget spent\n"),
    (Event::End, "end\n"),
    (Event::Referent(2), "referent #2\n"),
    (
        Event::Referrer(18446744073709551615),
        "referrer #18446744073709551615\n",
    ),
    (Event::Listed(0), "listed 0\n"),
    (Event::Held(3), "held #3\n"),
    (Event::Via(4), "via #4\n"),
    (Event::Unreachable, "unreachable\n"),
    (Event::Left(12), "left 12\n"),
    (Event::Refused(13), "refused 13\n"),
];

fn lines() -> &'static [(Event, &'static str)] {
    &LINES
}

/// Whether an event can be printed where no text has a number.
fn is_printable(event: &Event) -> bool
    ensures { IsTrue result → (names : List (List ℕ)) → IsPrintable names event.now }
{
    match *event {
        Event::Value(val) => match val {
            Val::Str(_) => false,
            _ => true,
        },
        _ => true,
    }
}

/// The line of an event is to be this one.
fn check(rt: &impl Abort, names: &Names, event: &Event, line: &str) {
    assert!(rt; is_printable(event), "{line}");
    assert_eq!(rt; line_of(event, names).as_str(), line);
}

#[test]
fn events_have_their_lines(rt: HostRuntime) -> Result<(), Fail> {
    let names = Names::new(rt.alloc());
    for (event, line) in lines() {
        check(&rt, &names, event, line);
    }
    Ok(())
}
