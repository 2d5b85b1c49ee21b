//! Worked scripts with commands that look at the graph. The texts come from the rules of
//! docs/RULES.md, worked out by hand.
use crate::calls::Worked;

/// What refers to what, and why an object is alive.
static DONE: [Worked; 5] = [
    (
        "a list in a list, before and after that is dropped",
        "a = list; b = list a; referrers a; referents b; why a; del b; why a",
        "made list #2; made list #3; referrer #3; listed 1; referent #2; listed 1; held #3; via #2; free #3; unreachable; end",
    ),
    (
        "none is told while a collection runs",
        "def cb; why q; end; class C; f = func cb; q = list; a = new C; setattr a me a; w = ref a f; del a; collect 2",
        "made function #2; made list #3; made instance #4; made weakref #5; gc start 2; cleared #5; enter callback #5; refused 13; leave; free #4; gc stop 2 1 0; collected 1; end",
    ),
    (
        "each reference is told, each referrer once",
        "a = list; append a a; append a a; referents a; referrers a; refs a",
        "made list #2; referent #2; referent #2; listed 2; referrer #2; listed 1; refs 3; end",
    ),
    (
        "another name of the object holds it",
        "a = list; b = a; why a",
        "made list #2; held #2; end",
    ),
    (
        "a refusal ends a frame, the lines of a list do not",
        "def p; referents a; referents 1; print 5; end; a = list; f = func p; call f; referrers q; why q",
        "made list #2; made function #3; enter call #3; listed 0; refused 2; leave; refused 1; refused 1; end",
    ),
];

pub fn done() -> &'static [Worked] {
    &DONE
}
