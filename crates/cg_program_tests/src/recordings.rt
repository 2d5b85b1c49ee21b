//! The records of worked scripts. The texts come from the rules of docs/RULES.md and
//! docs/RECORDS.md, worked out by hand.
use crate::calls::{Case, RECORD};
use cg_cli::Status;

/// A list that holds itself and is thrown away: both detections find it.
pub const RING: &str = "a = list; append a a; del a; collect 2";

pub const RECORD_OF_RING: &str =
    "record 2; graph 1; m 2 1 0; r 2; lost 2; graph 2; m 2 1 0; r 2; lost 2; stop";

/// One with a legacy finalizer: it is uncollectable.
const LEGACY: &str =
    "def p; end; class C legacy=p; a = new C; setattr a me a; del a; collect 2; x = item garbage 0";

const RECORDS_OF_LEGACY: &str =
    "record 2; graph 1; m 2 1 1; r 2; lost 2; legacy 2; graph 2; stop; end";

/// A resurrected object is not lost again.
const BACK: &str = "def d; x = self; end; class C del=d; a = new C; setattr a me a; del a; collect";

const RECORDS_OF_BACK: &str =
    "record 2; graph 1; m 2 1 0; r 2; lost 2; graph 2; m 2 2 0; r 2; stop; end";

/// A list in three collections: held, not examined, and lost.
const THRICE: &str = "a = list; append a a; collect 0; del a; collect 0; collect 1";

const RECORDS_OF_THRICE: &str =
    "record 0; graph 1; m 2 2 0; r 2; graph 2; stop; record 0; graph 1; graph 2; stop; record 1; graph 1; m 2 1 0; r 2; lost 2; graph 2; m 2 1 0; r 2; lost 2; stop; end";

/// Records, and what comes in place of them.
static CASES: [Case; 14] = [
    (
        "a list that holds itself",
        RECORD,
        RING,
        Status::Done,
        "record 2; graph 1; m 2 1 0; r 2; lost 2; graph 2; m 2 1 0; r 2; lost 2; stop; end",
    ),
    (
        "an instance with a legacy finalizer",
        RECORD,
        LEGACY,
        Status::Done,
        RECORDS_OF_LEGACY,
    ),
    (
        "what a finalizer brings back",
        RECORD,
        BACK,
        Status::Done,
        RECORDS_OF_BACK,
    ),
    (
        "a list in three collections",
        RECORD,
        THRICE,
        Status::Done,
        RECORDS_OF_THRICE,
    ),
    (
        "nothing is recorded of nothing",
        RECORD,
        "",
        Status::Done,
        "end",
    ),
    (
        "nothing is recorded but collections",
        RECORD,
        "a = list; append 3 a; print garbage",
        Status::Done,
        "end",
    ),
    (
        "objects by which something is held, and twice",
        RECORD,
        "a = list; append a a; append a a; freeze; b = list a a; collect",
        Status::Done,
        "record 2; graph 1; m 3 1 0; graph 2; stop; end",
    ),
    (
        "with the other order of weak references",
        RECORD,
        "profile 2; a = list; append a a; del a; collect 2",
        Status::Done,
        "record 2; graph 1; m 2 1 0; r 2; lost 2; graph 2; m 2 1 0; r 2; lost 2; stop; end",
    ),
    (
        "the last collection of a shutdown",
        RECORD,
        "shutdown; def p; end; class C legacy=p; a = new C; setattr a me a",
        Status::Done,
        RECORDS_OF_LEGACY,
    ),
    (
        "a collection that is due",
        RECORD,
        "threshold 0; a = list; threshold 1; collect 0; b = list; c = 5",
        Status::Done,
        "record 0; graph 1; m 2 1 0; graph 2; stop; end",
    ),
    (
        "a run that ends in a collection is cut",
        RECORD,
        "budget 0; def d; end; class C del=d; a = new C; setattr a me a; del a; collect; b = list",
        Status::Budget,
        "record 2; graph 1; m 2 1 0; r 2; lost 2; cut; end",
    ),
    (
        "behind the second graph the record has ended",
        RECORD,
        "budget 1; def d; x = self; end; def e; end; class C del=d; class D del=e; a = new C; setattr a me a; del a; collect; b = new D; del b",
        Status::Budget,
        RECORDS_OF_BACK,
    ),
    (
        "a bad script has no records",
        RECORD,
        "a = list; list = list",
        Status::BadScript,
        "bad script 2 4",
    ),
    (
        "a word too many",
        &["record", "2"],
        RING,
        Status::BadWords,
        "bad words",
    ),
];

pub fn cases() -> &'static [Case] {
    &CASES
}

/// Scripts whose records are right, and how many these are.
static RIGHT: [(&str, u64); 7] = [
    (RING, 1),
    (LEGACY, 1),
    (BACK, 1),
    (THRICE, 3),
    ("", 0),
    (
        "a = list; t = tuple a; append a t; b = list t; del a; del t; collect 0; del b; collect 1",
        2,
    ),
    (
        "def p; end; class C legacy=p; a = new C; l = list a; setattr a l l; b = list l; append b b; del a; del l; del b; collect 2",
        1,
    ),
];

pub fn right() -> &'static [(&'static str, u64)] {
    &RIGHT
}
