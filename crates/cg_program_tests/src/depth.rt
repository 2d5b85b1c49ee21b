//! Deaths, frames and collections within each other, through the whole budget, and large graphs.
//! The texts come from the rules of docs/RULES.md.
use crate::parts::Line::{Counted, Numbered, Plain};
use crate::parts::Part::{Lines, Turns};
use crate::sizes::{Long, check_long_calls};
use cg_cli::Status;
use std::test::Fail;

/// Calls within each other.
static DEEP: [Long; 5] = [
    // Each finalizer calls a function that makes an instance and drops it: its finalizer begins in
    // that frame. Each object takes two of 100,000 frames, and the finalizer of the last is one too
    // many.
    (
        "finalizers that make what is finalized",
        &["run"],
        &[Lines(
            "threshold 0; budget 100000; def d; call f; end; class C del=d; def p; x = new C; del x; end; f = func p; x = new C; del x",
        )],
        Status::Budget,
        &[
            Lines("made function #2; made instance #3"),
            Turns(
                50_000,
                &[
                    Numbered("enter del #", 3, 1),
                    Plain("enter call #2"),
                    Numbered("made instance #", 4, 1),
                ],
            ),
            Lines("budget spent"),
        ],
    ),
    // Each instance holds the one before, and its finalizer gives that up: 100,000 frames stand on
    // each other, and each ends.
    (
        "finalizers that drop what is finalized",
        &["run"],
        &[
            Lines(
                "threshold 0; budget 100000; def d; delattr self n; end; class C del=d; a = new C",
            ),
            Turns(
                99_999,
                &[Plain("b = new C"), Plain("setattr b n a"), Plain("a = b")],
            ),
            Lines("del b; del a"),
        ],
        Status::Done,
        &[
            Turns(100_000, &[Numbered("made instance #", 2, 1)]),
            Turns(100_000, &[Numbered("enter del #", 100_001, -1)]),
            Lines("refused 5"),
            Turns(100_000, &[Plain("leave"), Numbered("free #", 2, 1)]),
            Lines("end"),
        ],
    ),
    // 100,000 lists, each of a weak reference, its referent and the list before. A callback gives
    // the list up that is bound, by binding the one before: its referent dies, and is called back
    // for in that frame. The first list of all has no items.
    (
        "callbacks within callbacks",
        &["run"],
        &[
            Lines(
                "threshold 0; budget 100000; def cb; k = item k 2; end; class C; f = func cb; k = list",
            ),
            Turns(
                100_000,
                &[
                    Plain("a = new C"),
                    Plain("w = ref a f"),
                    Plain("k = list w a k"),
                ],
            ),
            Lines("del a; del w; k = item k 2"),
        ],
        Status::Done,
        &[
            Lines("made function #2; made list #3"),
            Turns(
                100_000,
                &[
                    Numbered("made instance #", 4, 3),
                    Numbered("made weakref #", 5, 3),
                    Numbered("made list #", 6, 3),
                ],
            ),
            Turns(
                100_000,
                &[
                    Numbered("cleared #", 300_002, -3),
                    Numbered("enter callback #", 300_002, -3),
                ],
            ),
            Lines("refused 3"),
            Turns(
                100_000,
                &[
                    Plain("leave"),
                    Numbered("free #", 4, 3),
                    Numbered("free #", 5, 3),
                    Numbered("free #", 6, 3),
                ],
            ),
            Lines("end"),
        ],
    ),
    // The finalizer of a dying instance collects, and the finalizer of what is found drops a chain
    // of 300,000 lists.
    (
        "a death within a collection within a death",
        &["run"],
        &[
            Lines(
                "threshold 0; def d; collect; end; def e; del c; end; class C del=d; class D del=e; c = list",
            ),
            Turns(299_999, &[Plain("c = list c")]),
            Lines("a = new C; b = new D; setattr b me b; del b; del a"),
        ],
        Status::Done,
        &[
            Turns(300_000, &[Numbered("made list #", 2, 1)]),
            Lines(
                "made instance #300002; made instance #300003; enter del #300002; gc start 2; enter del #300003",
            ),
            Turns(300_000, &[Numbered("free #", 2, 1)]),
            Lines("leave; free #300003; gc stop 2 1 0; collected 1; leave; free #300002; end"),
        ],
    ),
    (
        "ten thousand frames without a budget",
        &["run"],
        &[Lines("def p; call f; end; f = func p; call f")],
        Status::Budget,
        &[
            Lines("made function #2"),
            Turns(10_000, &[Plain("enter call #2")]),
            Lines("budget spent"),
        ],
    ),
];

fn deep() -> &'static [Long] {
    &DEEP
}

/// Large graphs, and the limits of objects and of entries.
static LARGE: [Long; 6] = [
    (
        "a chain of lists is collected and dropped",
        &["run"],
        &[
            Lines("threshold 0; c = list"),
            Turns(300_000, &[Plain("c = list c")]),
            Lines("collect 2; del c"),
        ],
        Status::Done,
        &[
            Turns(300_001, &[Numbered("made list #", 2, 1)]),
            Lines("gc start 2; gc stop 2 0 0; collected 0"),
            Turns(300_001, &[Numbered("free #", 2, 1)]),
            Lines("end"),
        ],
    ),
    // Items are given up last first, and the list that held them is the last to go.
    (
        "many lists in one are dropped, and nothing is left to collect",
        &["run"],
        &[
            Lines("threshold 0; k = list"),
            Turns(100_000, &[Plain("a = list"), Plain("append k a")]),
            Lines("del a; del k; collect 2"),
        ],
        Status::Done,
        &[
            Turns(100_001, &[Numbered("made list #", 2, 1)]),
            Turns(100_001, &[Numbered("free #", 100_002, -1)]),
            Lines("gc start 2; gc stop 2 0 0; collected 0; end"),
        ],
    ),
    (
        "a list in which a hundred thousand lists stand is told",
        &["run"],
        &[
            Lines("threshold 0; k = list; a = list k"),
            Turns(99_999, &[Plain("a = list k a")]),
            Lines("referrers k"),
        ],
        Status::Done,
        &[
            Turns(100_001, &[Numbered("made list #", 2, 1)]),
            Turns(100_000, &[Numbered("referrer #", 3, 1)]),
            Lines("listed 100000; end"),
        ],
    ),
    // The last is bound to `c`, and each holds the one before.
    (
        "a list is held along a ring of a hundred thousand",
        &["run"],
        &[
            Lines("threshold 0; d = list; c = list d"),
            Turns(99_998, &[Plain("c = list c")]),
            Lines("append d c; why d"),
        ],
        Status::Done,
        &[
            Turns(100_000, &[Numbered("made list #", 2, 1)]),
            Lines("held #100001"),
            Turns(99_999, &[Numbered("via #", 100_000, -1)]),
            Lines("end"),
        ],
    ),
    // A list and a function, and 999,998 lists are made by 1,000 frames: the last but one of the
    // last frame is refused.
    (
        "a million objects are the most",
        &["run"],
        &[
            Lines("threshold 0; l = list; def p"),
            Turns(1_000, &[Plain("x = list"), Plain("append l x")]),
            Lines("end; f = func p"),
            Turns(1_000, &[Plain("call f")]),
        ],
        Status::Done,
        &[
            Lines("made list #2; made function #3"),
            Turns(
                999,
                &[
                    Plain("enter call #3"),
                    Counted("made list #", 1_000, 4),
                    Plain("leave"),
                ],
            ),
            Lines("enter call #3"),
            Turns(998, &[Numbered("made list #", 999_004, 1)]),
            Lines("refused 11; leave; end"),
        ],
    ),
    // 4,000 frames append 1,000 numbers each: no entry more, and an object without entries.
    (
        "four million entries are the most",
        &["run"],
        &[
            Lines("l = list; def p"),
            Turns(1_000, &[Plain("append l 1")]),
            Lines("end; f = func p"),
            Turns(4_000, &[Plain("call f")]),
            Lines(
                "append l 1; t = tuple 1; d = dict; put d 1 2; delitem l 0; put d 1 2; append l 1",
            ),
        ],
        Status::Done,
        &[
            Lines("made list #2; made function #3"),
            Turns(4_000, &[Plain("enter call #3"), Plain("leave")]),
            Lines("refused 12; refused 12; made dict #4; refused 12; refused 12; end"),
        ],
    ),
];

fn large() -> &'static [Long] {
    &LARGE
}

#[test]
fn frames_within_each_other(rt: HostRuntime) -> Result<(), Fail> {
    check_long_calls(&rt, rt.alloc(), deep())?;
    Ok(())
}

#[test]
fn large_graphs(rt: HostRuntime) -> Result<(), Fail> {
    check_long_calls(&rt, rt.alloc(), large())?;
    Ok(())
}
