//! Extended scripts: their expansions, and what runs of these write. The texts come from the rules
//! of docs/SCRIPT.md and docs/RULES.md, worked out by hand.
use crate::calls::{Case, EXPAND};
use cg_cli::Status;

/// Expansions, and first bad lines.
static WRITTEN: [Case; 5] = [
    (
        "a map of weak values",
        EXPAND,
        "class C; m = wmap; a = new C; wset m 1 a; x = wget m 1; print x; del x; del a; x = wget m 1; print x",
        Status::Done,
        "class C; m = dict; a = new C; wv_4 = ref a; put m 1 wv_4; del wv_4; x = none; x = get m 1; x = deref x; print x; del x; del a; x = none; x = get m 1; x = deref x; print x",
    ),
    (
        "a line of no form is copied",
        EXPAND,
        "fly a; m = wmap",
        Status::Done,
        "fly a; m = dict",
    ),
    (
        "a list is bound to what is read",
        EXPAND,
        "x = wget x 1",
        Status::BadScript,
        "bad script 1 4",
    ),
    (
        "a name of the expansion",
        EXPAND,
        "a = list; print wv_1; wdrop m",
        Status::BadScript,
        "bad script 2 4",
    ),
    (
        "a finalizer within a procedure",
        EXPAND,
        "def p; finalize a f; end",
        Status::BadScript,
        "bad script 2 7",
    ),
];

pub fn written() -> &'static [Case] {
    &WRITTEN
}

/// How runs of expansions end, and what they write.
static RUNS: [(&str, &str, Status, &str); 5] = [
    (
        "a map of weak values",
        "class C; m = wmap; a = new C; wset m 1 a; x = wget m 1; print x; del x; del a; x = wget m 1; print x",
        Status::Done,
        "made dict #2; made instance #3; made weakref #4; value #3; cleared #4; free #3; value none; end",
    ),
    (
        "two finalizers, one called at the end",
        "def p; print 5; end; class C; f = func p; a = new C; b = new C; finalize a f; finalize b f; del a",
        Status::Done,
        "made function #2; made instance #3; made instance #4; made function #5; made weakref #6; made function #7; made weakref #8; cleared #6; enter callback #6; value 5; leave; free #3; enter call #7; free #8; enter call #2; value 5; leave; leave; enter call #5; leave; end",
    ),
    (
        "a value set anew under a key, and one that is dropped: their weak references go",
        "class C; m = wmap; a = new C; wset m 1 a; wset m 1 a; wdrop m 1; x = wget m 1; print x",
        Status::Done,
        "made dict #2; made instance #3; made weakref #4; made weakref #5; free #4; free #5; refused 4; refused 6; value none; end",
    ),
    (
        "the expansion of a bad script is a bad script",
        "fly a; m = wmap",
        Status::BadScript,
        "bad script 1 2",
    ),
    (
        "a procedure that does not end",
        "m = wmap; x = wget m 1 ; def p",
        Status::BadScript,
        "bad script 6 7",
    ),
];

pub fn runs() -> &'static [(&'static str, &'static str, Status, &'static str)] {
    &RUNS
}
