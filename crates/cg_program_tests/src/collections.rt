//! Worked scripts with collections, asked for and due. The texts come from the rules of
//! docs/RULES.md, worked out by hand.
use crate::calls::{Case, RECORD, RUN, Worked};
use cg_cli::Status;

/// Cycles.
static CYCLES: [Worked; 7] = [
    (
        "a list that holds itself",
        "a = list; append a a; del a; collect 2",
        "made list #2; gc start 2; free #2; gc stop 2 1 0; collected 1; end",
    ),
    (
        "a list and a tuple that hold each other",
        "a = list; t = tuple a; append a t; del a; del t; collect 2",
        "made list #2; made tuple #3; gc start 2; free #3; free #2; gc stop 2 2 0; collected 2; end",
    ),
    (
        "nothing is appended to a tuple",
        "a = list; t = tuple a; append t 1; append a t; del a; del t; collect 2",
        "made list #2; made tuple #3; refused 2; gc start 2; free #3; free #2; gc stop 2 2 0; collected 2; end",
    ),
    (
        "a list that grew older is found in generation 1",
        "a = list; append a a; collect 0; del a; collect 0; collect 1",
        "made list #2; gc start 0; gc stop 0 0 0; collected 0; gc start 0; gc stop 0 0 0; collected 0; gc start 1; free #2; gc stop 1 1 0; collected 1; end",
    ),
    (
        "a list that holds itself twice",
        "a = list; append a a; append a a; del a; collect; gens",
        "made list #2; gc start 2; free #2; gc stop 2 1 0; collected 1; gens 0 0 0 0; end",
    ),
    (
        "a tree with weak parents",
        "class Node; r = new Node; k = list; setattr r kids k; c = new Node; append k c; p = ref r; setattr c parent p; del k; del c; del p; del r; collect",
        "made instance #2; made list #3; made instance #4; made weakref #5; cleared #5; free #5; free #4; free #3; free #2; gc start 2; gc stop 2 0 0; collected 0; end",
    ),
    (
        "generations that are none are refused",
        "collect 3; collect 0; collect -1; collect",
        "refused 8; gc start 0; gc stop 0 0 0; collected 0; refused 8; gc start 2; gc stop 2 0 0; collected 0; end",
    ),
];

pub fn cycles() -> &'static [Worked] {
    &CYCLES
}

/// Finalizers in cycles.
static FINALIZERS: [Worked; 7] = [
    (
        "brought back by its finalizer, and found again without it",
        "def d; x = self; end; class C del=d; a = new C; setattr a me a; del a; collect 2; del x; collect 2",
        "made instance #2; gc start 2; enter del #2; leave; alive #2; gc stop 2 0 0; collected 0; gc start 2; free #2; gc stop 2 1 0; collected 1; end",
    ),
    (
        "a finalizer makes a weak reference to a member, which is not called back",
        "def cb; end; def d; n = attr self other; w = ref n f; del n; end; class C del=d; class D; f = func cb; a = new C; b = new D; setattr a other b; setattr a me a; del a; del b; collect 2",
        "made function #2; made instance #3; made instance #4; gc start 2; enter del #3; made weakref #5; leave; cleared #5; free #4; free #3; gc stop 2 2 0; collected 2; end",
    ),
    (
        "brought back by count, it is in generation 0",
        "def d; x = self; end; class C del=d; a = new C; del a; gens; del x",
        "made instance #2; enter del #2; leave; alive #2; gens 1 0 0 0; free #2; end",
    ),
    (
        "a finalizer takes the object out of its cycle: it dies in the frame that lets it go",
        "def d; delattr self me; end; class C del=d; a = new C; setattr a me a; del a; collect",
        "made instance #2; gc start 2; enter del #2; leave; free #2; gc stop 2 0 0; collected 0; end",
    ),
    (
        "a finalizer ends where a command of it is refused, and the collection goes on",
        "def d; del q; print 1; end; class C del=d; a = new C; setattr a me a; del a; collect",
        "made instance #2; gc start 2; enter del #2; refused 1; leave; free #2; gc stop 2 1 0; collected 1; end",
    ),
    (
        "a finalizer sets a threshold, by which the next collection is due",
        "def d; threshold 1; end; class C del=d; threshold 0; a = new C; setattr a me a; del a; l = list; m = list; collect; n = list; o = list; count",
        "made instance #2; made list #3; made list #4; gc start 2; enter del #2; leave; free #2; gc stop 2 1 0; collected 1; made list #5; made list #6; gc start 0; gc stop 0 0 0; count 0 1 0; end",
    ),
    (
        "what a finalizer makes is no part of the collection",
        "def d; l = list; append l l; del l; collect; gens; end; class C del=d; a = new C; setattr a me a; del a; collect; collect",
        "made instance #2; gc start 2; enter del #2; made list #3; collected 0; gens 1 0 0 0; leave; free #2; gc stop 2 1 0; collected 1; gc start 2; free #3; gc stop 2 1 0; collected 1; end",
    ),
];

pub fn finalizers() -> &'static [Worked] {
    &FINALIZERS
}

/// Weak references in collections.
static WEAK_REFERENCES: [Worked; 5] = [
    (
        "a weak reference that is a member is not called back",
        "def cb; end; class C; f = func cb; a = new C; w = ref a f; setattr a me a; setattr a w w; del w; del a; collect 2",
        "made function #2; made instance #3; made weakref #4; gc start 2; cleared #4; free #4; free #3; gc stop 2 2 0; collected 2; end",
    ),
    (
        "a callback collects nothing and is refused",
        "def cb; collect; append q 1; print 7; end; class C; f = func cb; a = new C; setattr a me a; w = ref a f; del a; collect 2",
        "made function #2; made instance #3; made weakref #4; gc start 2; cleared #4; enter callback #4; collected 0; refused 1; leave; free #3; gc stop 2 1 0; collected 1; end",
    ),
    (
        "a callback drops its own weak reference",
        "def cb; del w; end; class C; f = func cb; a = new C; setattr a me a; w = ref a f; del a; collect 2",
        "made function #2; made instance #3; made weakref #4; gc start 2; cleared #4; enter callback #4; leave; free #4; free #3; gc stop 2 2 0; collected 2; end",
    ),
    (
        "a weak reference to what is saved by its finalizer has lost it all the same",
        "def d; x = self; end; class C del=d; a = new C; setattr a me a; w = ref a; del a; collect; y = deref w; print y; print x",
        "made instance #2; made weakref #3; gc start 2; cleared #3; enter del #2; leave; alive #2; gc stop 2 0 0; collected 0; value none; value #2; end",
    ),
    (
        "two callbacks, the newer weak reference first; the first one's frame drops the other weak reference",
        "def cb; print ref; del u; end; class C; f = func cb; a = new C; setattr a me a; u = ref a f; v = ref a f; del a; collect",
        "made function #2; made instance #3; made weakref #4; made weakref #5; gc start 2; cleared #5; cleared #4; enter callback #5; value #5; leave; enter callback #4; value #4; refused 1; leave; free #4; free #3; gc stop 2 2 0; collected 2; end",
    ),
];

pub fn weak_references() -> &'static [Worked] {
    &WEAK_REFERENCES
}

/// In profile 2 a weak reference without a callback keeps its referent until the second detection.
static PROFILE_2: [Worked; 9] = [
    (
        "in profile 2 a finalizer reaches the other object by a weak reference, and what it holds survives",
        "profile 2; def d; x = deref w; end; class C del=d; class D; a = new C; b = new D; w = ref b; setattr a me a; setattr a other b; del b; del a; collect 2",
        "made instance #2; made instance #3; made weakref #4; gc start 2; enter del #2; leave; alive #3; free #2; gc stop 2 1 0; collected 1; end",
    ),
    (
        "in profile 1 a finalizer does not reach the other object",
        "def d; x = deref w; end; class C del=d; class D; a = new C; b = new D; w = ref b; setattr a me a; setattr a other b; del b; del a; collect 2",
        "made instance #2; made instance #3; made weakref #4; gc start 2; cleared #4; enter del #2; leave; free #3; free #2; gc stop 2 2 0; collected 2; end",
    ),
    (
        "in profile 2 a weak reference is condemned itself: a member with a weak reference to a member",
        "profile 2; class C; a = new C; w = ref a; setattr a me a; setattr a w w; del w; del a; collect 2",
        "made instance #2; made weakref #3; gc start 2; cleared #3; free #3; free #2; gc stop 2 2 0; collected 2; end",
    ),
    (
        "in profile 2 a callback reaches the condemned object by a weak reference that has none, and keeps it",
        "profile 2; def cb; x = deref u; end; class C; f = func cb; a = new C; setattr a me a; u = ref a; w = ref a f; del a; collect 2; y = deref u; print y",
        "made function #2; made instance #3; made weakref #4; made weakref #5; gc start 2; cleared #5; enter callback #5; leave; alive #3; gc stop 2 0 0; collected 0; value #3; end",
    ),
    (
        "in profile 1 a callback does not reach the condemned object",
        "def cb; x = deref u; end; class C; f = func cb; a = new C; setattr a me a; u = ref a; w = ref a f; del a; collect 2; y = deref u; print y",
        "made function #2; made instance #3; made weakref #4; made weakref #5; gc start 2; cleared #5; cleared #4; enter callback #5; leave; free #3; gc stop 2 1 0; collected 1; value none; end",
    ),
    (
        "in profile 2 a callback keeps it and drops it again: its weak reference is a late one",
        "profile 2; def cb; x = deref u; del x; end; class C; f = func cb; a = new C; setattr a me a; u = ref a; w = ref a f; del a; collect 2; y = deref u; print y",
        "made function #2; made instance #3; made weakref #4; made weakref #5; gc start 2; cleared #5; enter callback #5; leave; cleared #4; free #3; gc stop 2 1 0; collected 1; value none; end",
    ),
    (
        "in profile 2 a late one: nothing reached its referent",
        "profile 2; class C; a = new C; w = ref a; setattr a me a; del a; collect 2; y = deref w; print y",
        "made instance #2; made weakref #3; gc start 2; cleared #3; free #2; gc stop 2 1 0; collected 1; value none; end",
    ),
    (
        "in profile 2 members that refer outside lose it, the newest first; one that is no member keeps it",
        "profile 2; class C; b = new C; a = list; u = ref b; v = ref b; w = ref b; append a u; append a v; append a a; del u; del v; del a; collect 2; y = deref w; print y",
        "made instance #2; made list #3; made weakref #4; made weakref #5; made weakref #6; gc start 2; cleared #5; cleared #4; free #5; free #4; free #3; gc stop 2 3 0; collected 3; value #2; end",
    ),
    (
        "in profile 2 a finalizer brings a weak reference back that is condemned and refers outside: it still has its referent",
        "profile 2; def d; x = attr self w; end; class C del=d; b = new C; a = new C; w = ref b; setattr a w w; setattr a me a; del w; del a; collect 2; y = deref x; print y",
        "made instance #2; made instance #3; made weakref #4; gc start 2; enter del #3; leave; alive #4; free #3; gc stop 2 1 0; collected 1; value #2; end",
    ),
];

pub fn profile_2() -> &'static [Worked] {
    &PROFILE_2
}

/// Legacy finalizers and flags; tracking.
static FLAGS: [Worked; 6] = [
    (
        "an instance with a legacy finalizer is saved",
        "def p; end; class C legacy=p; a = new C; setattr a me a; del a; collect 2; x = item garbage 0; refs x; delitem garbage 0; refs x",
        "made instance #2; gc start 2; gc saved #2; gc stop 2 0 1; collected 1; refs 3; refs 2; end",
    ),
    (
        "all that is found is saved, and later is not",
        "def d; end; class C del=d; a = new C; setattr a me a; del a; debug saveall; collect 2; debug; delitem garbage 0; collect 2",
        "made instance #2; gc start 2; enter del #2; leave; gc saved #2; gc stop 2 1 0; collected 1; gc start 2; free #2; gc stop 2 1 0; collected 1; end",
    ),
    (
        "what is collectable is told, and how many are in each generation",
        "debug collectable; a = list; append a a; del a; collect; debug stats; collect 1",
        "made list #2; gc start 2; gc collectable #2; free #2; gc stop 2 1 0; collected 1; gc start 1; gens 0 0 0 0; gc stop 1 0 0; collected 0; end",
    ),
    (
        "the flags are read once, when a collection begins",
        "def d; debug saveall; end; class C del=d; a = new C; setattr a me a; del a; collect; a = new C; setattr a me a; del a; collect",
        "made instance #2; gc start 2; enter del #2; leave; free #2; gc stop 2 1 0; collected 1; made instance #3; gc start 2; enter del #3; leave; gc saved #3; gc stop 2 1 0; collected 1; end",
    ),
    (
        "tuples and a dictionary that hold atoms again",
        "d = dict; tracked d; l = list; put d 1 l; tracked d; drop d 1; tracked d; t = tuple 1 2; u = tuple t; collect; tracked d; tracked t; collect; tracked u",
        "made dict #2; tracked no; made list #3; tracked yes; tracked yes; made tuple #4; made tuple #5; gc start 2; gc stop 2 0 0; collected 0; tracked no; tracked no; gc start 2; gc stop 2 0 0; collected 0; tracked no; end",
    ),
    (
        "a dictionary of atoms is untracked by a collection of 2 alone, a tuple of them by any",
        "l = list; d = dict; put d 1 l; drop d 1; t = tuple 1; collect 1; tracked d; tracked t; collect 2; tracked d; tracked 5; tracked l",
        "made list #2; made dict #3; made tuple #4; gc start 1; gc stop 1 0 0; collected 0; tracked yes; tracked no; gc start 2; gc stop 2 0 0; collected 0; tracked no; tracked no; tracked yes; end",
    ),
];

pub fn flags() -> &'static [Worked] {
    &FLAGS
}

/// Collections that are due.
static DUE: [Worked; 7] = [
    (
        "the third list is one above the threshold",
        "threshold 2; a = list; b = list; c = list; count",
        "made list #2; made list #3; made list #4; gc start 0; gc stop 0 0 0; count 0 1 0; end",
    ),
    (
        "the quarter rule: generation 2 waits until a quarter of what the last full collection left is pending",
        "threshold 0; a = list; b = list; c = list; d = list; e = list; f = list; g = list; h = list; i = list; collect 2; j = list; collect 1; collect 0; threshold 1 0 0; k = list; m = dict; collect 0; n = list; p = dict; count",
        "made list #2; made list #3; made list #4; made list #5; made list #6; made list #7; made list #8; made list #9; made list #10; gc start 2; gc stop 2 0 0; collected 0; made list #11; gc start 1; gc stop 1 0 0; collected 0; gc start 0; gc stop 0 0 0; collected 0; made list #12; made dict #13; gc start 1; gc stop 1 0 0; gc start 0; gc stop 0 0 0; collected 0; made list #14; made dict #15; gc start 2; gc stop 2 0 0; count 0 0 0; end",
    ),
    (
        "one is due within a death: what the dying object holds survives it",
        "def cb; z = list; print 1; end; class C; f = func cb; a = new C; l = list; append l l; setattr a items l; w = ref a f; threshold 4; del l; del a; collect 1",
        "made function #2; made instance #3; made list #4; made weakref #5; cleared #5; enter callback #5; made list #6; gc start 0; gc stop 0 0 0; value 1; leave; free #3; gc start 1; free #4; gc stop 1 1 0; collected 1; end",
    ),
    (
        "one is due before the end of the script, but not before that of a frame",
        "def p; a = list; b = list; end; f = func p; threshold 2; call f",
        "made function #2; enter call #2; made list #3; made list #4; leave; gc start 0; gc stop 0 0 0; end",
    ),
    (
        "none is due while the collector is disabled",
        "disable; threshold 1; a = list; b = list; c = list; count; enable; print 1",
        "made list #2; made list #3; made list #4; count 3 0 0; gc start 0; gc stop 0 0 0; value 1; end",
    ),
    (
        "none is due while one is running: the objects that a finalizer makes wait for its end",
        "def d; l = list; m = list; n = list; print 1; end; class C del=d; a = new C; setattr a me a; del a; threshold 2; collect",
        "made instance #2; gc start 2; enter del #2; made list #3; made list #4; made list #5; value 1; leave; free #2; gc stop 2 1 0; collected 1; end",
    ),
    (
        "one is due when the objects that a finalizer made are counted",
        "def d; l = list; m = list; n = list; o = list; print 1; end; class C del=d; a = new C; setattr a me a; del a; threshold 2; collect; count",
        "made instance #2; gc start 2; enter del #2; made list #3; made list #4; made list #5; made list #6; value 1; leave; free #2; gc stop 2 1 0; collected 1; gc start 0; gc stop 0 0 0; count 0 1 0; end",
    ),
];

pub fn due() -> &'static [Worked] {
    &DUE
}

/// Frozen objects.
static FROZEN: [Worked; 3] = [
    (
        "a frozen list is not found",
        "a = list; append a a; del a; freeze; gens; collect; unfreeze; collect",
        "made list #2; gens 0 0 0 1; gc start 2; gc stop 2 0 0; collected 0; gc start 2; free #2; gc stop 2 1 0; collected 1; end",
    ),
    (
        "what was frozen is in generation 2",
        "a = list; b = list; count; freeze; count; unfreeze; gens; count",
        "made list #2; made list #3; count 2 0 0; count 0 0 0; gens 0 0 2 0; count 0 0 0; end",
    ),
    (
        "a finalizer freezes while a collection runs: what is condemned is not frozen",
        "def d; freeze; gens; end; class C del=d; l = list; a = new C; setattr a me a; del a; collect; gens",
        "made list #2; made instance #3; gc start 2; enter del #3; gens 0 0 0 1; leave; free #3; gc stop 2 1 0; collected 1; gens 0 0 0 1; end",
    ),
];

pub fn frozen() -> &'static [Worked] {
    &FROZEN
}

/// A callback, a finalizer and a call that it makes, in a collection.
const LAST: &str =
    "def cb; end; def d; call f; end; class C del=d; f = func cb; a = new C; setattr a me a; w = ref a f; del a; collect; print 1";

/// The last of the budget in a collection.
static BUDGETS: [Case; 3] = [
    (
        "no callback begins in a collection",
        &["run", "--budget", "0"],
        LAST,
        Status::Budget,
        "made function #2; made instance #3; made weakref #4; gc start 2; cleared #4; budget spent",
    ),
    (
        "no finalizer begins after a callback in a collection",
        &["run", "--budget", "1"],
        LAST,
        Status::Budget,
        "made function #2; made instance #3; made weakref #4; gc start 2; cleared #4; enter callback #4; leave; budget spent",
    ),
    (
        "no call begins in a finalizer in a collection",
        &["run", "--budget", "2"],
        LAST,
        Status::Budget,
        "made function #2; made instance #3; made weakref #4; gc start 2; cleared #4; enter callback #4; leave; enter del #3; budget spent",
    ),
];

pub fn budgets() -> &'static [Case] {
    &BUDGETS
}

/// The rules leave the order of some lines free: each has one of these texts.
static EITHER: [(&str, &[&str], &str, &[&str]); 5] = [
    (
        "a tree with strong parents",
        RUN,
        "class Node; r = new Node; k = list; setattr r kids k; c = new Node; append k c; setattr c parent r; del k; del c; del r; collect",
        &[
            "made instance #2; made list #3; made instance #4; gc start 2; free #4; free #3; free #2; gc stop 2 3 0; collected 3; end",
            "made instance #2; made list #3; made instance #4; gc start 2; free #2; free #4; free #3; gc stop 2 3 0; collected 3; end",
            "made instance #2; made list #3; made instance #4; gc start 2; free #3; free #2; free #4; gc stop 2 3 0; collected 3; end",
        ],
    ),
    (
        "an instance with a legacy finalizer and a list that it leads to are uncollectable",
        RUN,
        "def p; end; class C legacy=p; debug stats uncollectable; a = new C; l = list a; setattr a l l; del a; del l; collect 2",
        &[
            "made instance #2; made list #3; gc start 2; gens 2 0 0 0; gc uncollectable #2; gc uncollectable #3; gc saved #2; gc stop 2 0 2; collected 2; end",
            "made instance #2; made list #3; gc start 2; gens 2 0 0 0; gc uncollectable #3; gc uncollectable #2; gc saved #2; gc stop 2 0 2; collected 2; end",
        ],
    ),
    (
        "what a finalizer brings back has all its entries, and what it leads to has its own",
        RUN,
        "def d; x = self; end; class C del=d; a = new C; setattr a me a; l = list 7; setattr a l l; del l; del a; collect; y = attr x l; z = item y 0; print z",
        &[
            "made instance #2; made list #3; gc start 2; enter del #2; leave; alive #2; alive #3; gc stop 2 0 0; collected 0; value 7; end",
            "made instance #2; made list #3; gc start 2; enter del #2; leave; alive #3; alive #2; gc stop 2 0 0; collected 0; value 7; end",
        ],
    ),
    (
        "a full collection leaves no garbage, whatever stood between its objects",
        RUN,
        "d = dict; l = list; put d 1 l; append l d; del d; del l; collect; gens",
        &[
            "made dict #2; made list #3; gc start 2; free #3; free #2; gc stop 2 2 0; collected 2; gens 0 0 0 0; end",
            "made dict #2; made list #3; gc start 2; free #2; free #3; gc stop 2 2 0; collected 2; gens 0 0 0 0; end",
        ],
    ),
    (
        "two members of a record stand in any order",
        RECORD,
        "a = list; b = list a; collect 0",
        &[
            "record 0; graph 1; m 2 2 0; m 3 1 0; r 2; graph 2; stop; end",
            "record 0; graph 1; m 3 1 0; r 2; m 2 2 0; graph 2; stop; end",
        ],
    ),
];

pub fn either() -> &'static [(
    &'static str,
    &'static [&'static str],
    &'static str,
    &'static [&'static str],
)] {
    &EITHER
}
