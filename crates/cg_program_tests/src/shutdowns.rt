//! Worked scripts with a shutdown. The texts come from the rules of docs/RULES.md, worked out by
//! hand.
use crate::calls::Worked;

/// What the shutdown leaves, and collections that are due at it.
static DONE: [Worked; 10] = [
    (
        "nothing is left of nothing",
        "shutdown",
        "gc start 2; gc stop 2 0 0; left 0; end",
    ),
    (
        "the greatest name is given up first",
        "shutdown; a = list; b = list a; c = list; append c c; del c",
        "made list #2; made list #3; made list #4; free #3; free #2; gc start 2; free #4; gc stop 2 1 0; left 0; end",
    ),
    (
        "what a finalizer binds meanwhile is given up too",
        "shutdown; def d; x = self; end; class C del=d; a = new C",
        "made instance #2; enter del #2; leave; alive #2; free #2; gc start 2; gc stop 2 0 0; left 0; end",
    ),
    (
        "what a finalizer of the last collection binds stays",
        "shutdown; def d; x = self; end; class C del=d; a = new C; setattr a me a",
        "made instance #2; gc start 2; enter del #2; leave; alive #2; gc stop 2 0 0; left 1; end",
    ),
    (
        "what has a legacy finalizer is left",
        "shutdown; def p; end; class C legacy=p; a = new C; setattr a me a",
        "made instance #2; gc start 2; gc saved #2; gc stop 2 0 1; left 1; end",
    ),
    (
        "what is saved is left",
        "shutdown; debug saveall; a = list; append a a",
        "made list #2; gc start 2; gc saved #2; gc stop 2 1 0; left 1; end",
    ),
    (
        "what is frozen is left",
        "shutdown; a = list; append a a; freeze",
        "made list #2; gc start 2; gc stop 2 0 0; left 1; end",
    ),
    (
        "the line may stand anywhere, and `quit` ends the script as its last command does",
        "a = list; shutdown; quit none; b = list",
        "made list #2; free #2; gc start 2; gc stop 2 0 0; left 0; end",
    ),
    (
        "a collection that is due comes before the shutdown",
        "shutdown; threshold 1; a = list; b = list",
        "made list #2; made list #3; gc start 0; gc stop 0 0 0; free #3; free #2; gc start 2; gc stop 2 0 0; left 0; end",
    ),
    (
        "no collection comes between the steps of the shutdown",
        "shutdown; def d; x = list; y = list; threshold 1; end; class C del=d; a = new C",
        "made instance #2; enter del #2; made list #3; made list #4; leave; free #2; free #4; free #3; gc start 2; gc stop 2 0 0; left 0; end",
    ),
];

pub fn done() -> &'static [Worked] {
    &DONE
}

/// Budgets that are spent in the shutdown.
static SPENT: [Worked; 2] = [
    (
        "the second finalizer of the shutdown finds the budget spent",
        "budget 1; shutdown; def d; end; class C del=d; a = new C; b = new C",
        "made instance #2; made instance #3; enter del #3; leave; free #3; budget spent",
    ),
    (
        "the budget is spent in the collection of the shutdown",
        "budget 0; shutdown; def d; end; class C del=d; a = new C; setattr a me a",
        "made instance #2; gc start 2; budget spent",
    ),
];

pub fn spent() -> &'static [Worked] {
    &SPENT
}
