//! Worked scripts without collections. The texts come from the rules of docs/RULES.md, worked out
//! by hand.
use crate::calls::{Case, Worked};
use cg_cli::Status;

const RUN_ONE: &[&str] = &["run", "--budget", "1"];

/// Names and lists.
static LISTS: [Worked; 11] = [
    ("an empty script", "", "end"),
    ("a comment is not run", "# nothing is run", "end"),
    (
        "a list is dropped",
        "a = list; del a",
        "made list #2; free #2; end",
    ),
    (
        "a name that is bound again, and one that is dropped twice",
        "a = list; a = list; del a; del a",
        "made list #2; made list #3; free #2; free #3; refused 1; end",
    ),
    (
        "spaces and an empty line; a name that is not dropped keeps its list",
        "# two names; ;   b = list;a   =  list; del b",
        "made list #2; made list #3; free #2; end",
    ),
    (
        "lists in lists go when nothing holds them",
        "a = list; b = list a; c = list b a; del a; del b; del c",
        "made list #2; made list #3; made list #4; free #2; free #3; free #4; end",
    ),
    (
        "a number takes no items and has no references",
        "a = list 5; append a none; append 3 a; refs 7; refs a",
        "made list #2; refused 2; refused 2; refs 1; end",
    ),
    (
        "a list twice in a list and under a name",
        "a = list; b = list a a; refs a; a = a; refs a",
        "made list #2; made list #3; refs 3; refs 3; end",
    ),
    (
        "items that are replaced and deleted",
        "a = list; b = list a 5; del a; setitem b 0 none; delitem b 1; delitem b 0; delitem b 0; print b",
        "made list #2; made list #3; free #2; refused 3; value #3; end",
    ),
    (
        "a chain of lists goes from the first on",
        "c = list; c = list c; c = list c; c = list c; del c",
        "made list #2; made list #3; made list #4; made list #5; free #2; free #3; free #4; free #5; end",
    ),
    (
        "a list that holds itself stays",
        "a = list; append a a; del a",
        "made list #2; end",
    ),
];

pub fn lists() -> &'static [Worked] {
    &LISTS
}

/// Tuples, dictionaries and instances; refusals; frames of calls.
static OTHERS: [Worked; 12] = [
    (
        "a dictionary gives up the value, then the key, and then it goes",
        "class C; k = new C; l = list; d = dict; put d k l; del k; del l; del d",
        "made instance #2; made list #3; made dict #4; free #3; free #2; free #4; end",
    ),
    (
        "the items of a tuple are read, and none is appended",
        "a = list; t = tuple a 1; x = item t 0; refs x; x = item t 2; print x; append t 1",
        "made list #2; made tuple #3; refs 3; refused 3; value #2; refused 2; end",
    ),
    (
        "a key of a dictionary is replaced and dropped",
        "d = dict; put d 'k 1; put d 'k 2; x = get d 'k; print x; drop d 'k; x = get d 'k; print x; drop d 'k",
        "made dict #2; value 2; refused 4; value 2; refused 4; end",
    ),
    (
        "an attribute is set, replaced and deleted",
        "class C; o = new C; a = list; setattr o n a; del a; x = attr o n; refs x; setattr o n 1; refs x; delattr o n; delattr o n",
        "made instance #2; made list #3; refs 2; refs 1; refused 5; end",
    ),
    (
        "each refusal of a command",
        "class C; a = list 1; x = item a 1; append 3 a; put a 1 2; collect 7; x = deref a; call a; d = dict; put d a 1; x = get d 5; o = new C; x = attr o n; append garbage 1; del x",
        "made list #2; refused 3; refused 2; refused 2; refused 8; refused 6; refused 7; made dict #3; refused 9; refused 4; made instance #4; refused 5; refused 2; refused 1; end",
    ),
    (
        "values that are printed, and locals outside a frame",
        "print 'a; print -5; x = list 1; print garbage; print c0; print self; print ref",
        "value 'a; value -5; made list #2; value #1; refused 1; refused 1; refused 1; end",
    ),
    (
        "a list has no weak references, a callback is a function, and no place is negative",
        "class C; o = new C; a = list; w = ref a; w = ref o a; w = ref o none; refs o; x = item a -1; setitem a 0 none",
        "made instance #2; made list #3; refused 2; refused 7; made weakref #4; refs 1; refused 3; refused 3; end",
    ),
    (
        "quit ends the script at none alone",
        "quit 1; print 2; quit none; print 3",
        "value 2; end",
    ),
    (
        "a frame has its cell, and ends where it quits",
        "def p; print c0; quit none; print 2; end; a = list; f = func p a; del a; call f; del f",
        "made list #2; made function #3; enter call #3; value #2; leave; free #2; free #3; end",
    ),
    (
        "a frame holds the function that it runs",
        "def p; del f; refs c0; end; a = list; f = func p a; call f; refs a",
        "made list #2; made function #3; enter call #3; refs 2; leave; free #3; refs 1; end",
    ),
    (
        "a cell that is not there ends the frame",
        "def p; print c0; print c1; print 1; end; f = func p 7; call f; print 2",
        "made function #2; enter call #2; value 7; refused 1; leave; value 2; end",
    ),
    (
        "what a frame binds stays, and quit at a number goes on",
        "def p; x = list; quit 0; x = list; end; f = func p; call f; del x",
        "made function #2; enter call #2; made list #3; made list #4; free #3; leave; free #4; end",
    ),
];

pub fn others() -> &'static [Worked] {
    &OTHERS
}

/// Finalizers.
static FINALIZERS: [Worked; 9] = [
    (
        "brought back under a name; its finalizer runs once",
        "def d; x = self; end; class C del=d; a = new C; del a; finalized x; del x",
        "made instance #2; enter del #2; leave; alive #2; finalized yes; free #2; end",
    ),
    (
        "a finalizer calls",
        "def d; call g; end; def h; print 1; end; class C del=d; g = func h; a = new C; del a; finalized a",
        "made function #2; made instance #3; enter del #3; enter call #2; value 1; leave; leave; free #3; refused 1; end",
    ),
    (
        "a finalizer drops the last reference to another object with a finalizer",
        "def d; del b; end; def e; print self; end; class C del=d; class D del=e; a = new C; b = new D; del a",
        "made instance #2; made instance #3; enter del #2; enter del #3; value #3; leave; free #3; leave; free #2; end",
    ),
    (
        "a finalizer is refused",
        "def d; print 1; append q 1; print 2; end; class C del=d; a = new C; del a; print 3",
        "made instance #2; enter del #2; value 1; refused 1; leave; free #2; value 3; end",
    ),
    (
        "brought back through a list",
        "def d; append k self; end; class C del=d; k = list; a = new C; del a; del k",
        "made list #2; made instance #3; enter del #3; leave; alive #3; free #3; free #2; end",
    ),
    (
        "brought back as the key of a dictionary",
        "def d; put k self 1; end; class C del=d; k = dict; a = new C; del a; del k",
        "made dict #2; made instance #3; enter del #3; leave; alive #3; free #3; free #2; end",
    ),
    (
        "brought back as the cell of a function",
        "def h; print c0; end; def d; g = func h self; end; class C del=d; a = new C; del a; call g; del g",
        "made instance #2; enter del #2; made function #3; leave; alive #2; enter call #3; value #2; leave; free #2; free #3; end",
    ),
    (
        "brought back in an attribute of its own: nothing leads to it any more",
        "def d; setattr self me self; end; class C del=d; a = new C; del a",
        "made instance #2; enter del #2; leave; alive #2; end",
    ),
    (
        "its contents die after the finalizer",
        "def d; x = attr self n; print x; end; class C del=d; a = new C; l = list; setattr a n l; del l; del a; del x",
        "made instance #2; made list #3; enter del #2; value #3; leave; free #2; free #3; end",
    ),
];

pub fn finalizers() -> &'static [Worked] {
    &FINALIZERS
}

/// Weak references.
static WEAK_REFERENCES: [Worked; 6] = [
    (
        "the newest callback comes first",
        "def p; end; class C; f = func p; a = new C; u = ref a f; v = ref a f; del a",
        "made function #2; made instance #3; made weakref #4; made weakref #5; cleared #5; cleared #4; enter callback #5; leave; enter callback #4; leave; free #3; end",
    ),
    (
        "a weak reference that dies first is not called back",
        "def p; print 1; end; class C; f = func p; a = new C; w = ref a f; del w; del a",
        "made function #2; made instance #3; made weakref #4; free #4; free #3; end",
    ),
    (
        "a weak reference that the finalizer makes is called back",
        "def cb; print 2; end; def d; w = ref self f; end; class C del=d; f = func cb; a = new C; del a; x = deref w; print x",
        "made function #2; made instance #3; enter del #3; made weakref #4; leave; cleared #4; enter callback #4; value 2; leave; free #3; value none; end",
    ),
    (
        "an object that its finalizer brings back keeps its weak references",
        "def cb; print 1; end; def d; x = self; end; class C del=d; f = func cb; a = new C; w = ref a f; del a; y = deref w; print y; del y; del x",
        "made function #2; made instance #3; made weakref #4; enter del #3; leave; alive #3; value #3; cleared #4; enter callback #4; value 1; leave; free #3; end",
    ),
    (
        "a weak reference to a function",
        "def p; print ref; end; f = func p; g = func p; w = ref f g; del f",
        "made function #2; made function #3; made weakref #4; cleared #4; enter callback #4; value #4; leave; free #2; end",
    ),
    (
        "a weak reference without a callback",
        "class C; a = new C; w = ref a; del a; x = deref w; print x; del w",
        "made instance #2; made weakref #3; cleared #3; free #2; value none; free #3; end",
    ),
];

pub fn weak_references() -> &'static [Worked] {
    &WEAK_REFERENCES
}

/// Callbacks, legacy finalizers, and what takes nothing of the budget.
static CALLBACKS: [Worked; 12] = [
    (
        "a callback binds: what the name had dies",
        "def cb; x = none; end; class C; x = list; f = func cb; a = new C; w = ref a f; del a",
        "made list #2; made function #3; made instance #4; made weakref #5; cleared #5; enter callback #5; free #2; leave; free #4; end",
    ),
    (
        "a callback drops its own weak reference, which dies when the death gives it up",
        "def cb; del w; end; class C; f = func cb; a = new C; w = ref a f; del a",
        "made function #2; made instance #3; made weakref #4; cleared #4; enter callback #4; leave; free #4; free #3; end",
    ),
    (
        "a callback drops its weak reference and its function, which goes first",
        "def cb; del w; del f; end; class C; f = func cb; a = new C; w = ref a f; del a",
        "made function #2; made instance #3; made weakref #4; cleared #4; enter callback #4; leave; free #2; free #4; free #3; end",
    ),
    (
        "a callback drops an object that holds another one with a finalizer",
        "def d; print 3; end; def cb; del k; end; class C; class D del=d; f = func cb; o = new D; k = list o; del o; a = new C; w = ref a f; del a",
        "made function #2; made instance #3; made list #4; made instance #5; made weakref #6; cleared #6; enter callback #6; enter del #3; value 3; leave; free #3; free #4; leave; free #5; end",
    ),
    (
        "a callback calls, and has its cells and its weak reference",
        "def h; print c0; end; def cb; call g; print ref; print c0; end; class C; g = func h 7; f = func cb 8; a = new C; w = ref a f; del a",
        "made function #2; made function #3; made instance #4; made weakref #5; cleared #5; enter callback #5; enter call #2; value 7; leave; value #5; value 8; leave; free #4; end",
    ),
    (
        "a callback is refused",
        "def cb; append q 1; print 7; end; class C; f = func cb; a = new C; w = ref a f; del a; print 8",
        "made function #2; made instance #3; made weakref #4; cleared #4; enter callback #4; refused 1; leave; free #3; value 8; end",
    ),
    (
        "a callback has no `self`",
        "def cb; print self; end; class C; f = func cb; a = new C; w = ref a f; del a",
        "made function #2; made instance #3; made weakref #4; cleared #4; enter callback #4; refused 1; leave; free #3; end",
    ),
    (
        "a callback finds that its weak reference has given its referent up",
        "def cb; x = deref ref; print x; end; class C; f = func cb; a = new C; w = ref a f; del a",
        "made function #2; made instance #3; made weakref #4; cleared #4; enter callback #4; value none; leave; free #3; end",
    ),
    (
        "a callback begins another object's death, with a callback of its own",
        "def cb; del b; end; def ce; print 4; end; class C; f = func cb; g = func ce; a = new C; b = new C; v = ref a f; w = ref b g; del a",
        "made function #2; made function #3; made instance #4; made instance #5; made weakref #6; made weakref #7; cleared #6; enter callback #6; cleared #7; enter callback #7; value 4; leave; free #5; leave; free #4; end",
    ),
    (
        "a legacy finalizer runs at each death",
        "def p; x = self; end; class C legacy=p; a = new C; del a; del x",
        "made instance #2; enter legacy #2; leave; alive #2; enter legacy #2; leave; alive #2; end",
    ),
    (
        "a legacy finalizer comes after the finalizer and the callbacks; a weak reference that it makes is cleared without one",
        "def d; print 1; end; def p; w = ref self f; print 3; end; def cb; print 2; end; class C del=d legacy=p; f = func cb; a = new C; u = ref a f; del a; x = deref w; print x",
        "made function #2; made instance #3; made weakref #4; enter del #3; value 1; leave; cleared #4; enter callback #4; value 2; leave; enter legacy #3; made weakref #5; value 3; leave; cleared #5; free #3; value none; end",
    ),
    (
        "what is refused takes nothing of the budget",
        "budget 1; def p; end; f = func p; call 1; call f",
        "made function #2; refused 7; enter call #2; leave; end",
    ),
];

pub fn callbacks() -> &'static [Worked] {
    &CALLBACKS
}

/// Budgets that are spent.
static SPENT: [Worked; 5] = [
    (
        "the second finalizer finds the budget spent",
        "budget 1; def d; end; class C del=d; a = new C; del a; b = new C; del b",
        "made instance #2; enter del #2; leave; free #2; made instance #3; budget spent",
    ),
    (
        "a call without any budget",
        "budget 0; def p; end; f = func p; call f",
        "made function #2; budget spent",
    ),
    (
        "a callback spends the last of the budget",
        "budget 1; def p; end; class C; f = func p; a = new C; u = ref a f; v = ref a f; del a",
        "made function #2; made instance #3; made weakref #4; made weakref #5; cleared #5; cleared #4; enter callback #5; leave; budget spent",
    ),
    (
        "a finalizer spends the last of the budget",
        "budget 1; def d; call g; end; def h; end; class C del=d; g = func h; a = new C; del a",
        "made function #2; made instance #3; enter del #3; budget spent",
    ),
    (
        "three frames in each other",
        "budget 3; def p; call f; end; f = func p; call f",
        "made function #2; enter call #2; enter call #2; enter call #2; budget spent",
    ),
];

pub fn spent() -> &'static [Worked] {
    &SPENT
}

/// Budgets in the words.
static BUDGETS: [Case; 3] = [
    (
        "the budget of the words",
        RUN_ONE,
        "def d; end; class C del=d; a = new C; del a; b = new C; del b",
        Status::Budget,
        "made instance #2; enter del #2; leave; free #2; made instance #3; budget spent",
    ),
    (
        "the budget of the words comes before a smaller one of the script",
        RUN_ONE,
        "budget 0; def p; end; f = func p; call f",
        Status::Done,
        "made function #2; enter call #2; leave; end",
    ),
    (
        "the budget of the words comes before a greater one of the script",
        RUN_ONE,
        "budget 2; def p; end; f = func p; call f; call f",
        Status::Budget,
        "made function #2; enter call #2; leave; budget spent",
    ),
];

pub fn budgets() -> &'static [Case] {
    &BUDGETS
}
