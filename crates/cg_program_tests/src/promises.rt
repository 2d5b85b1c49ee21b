//! What every run promises, by scripts that would print something else if a promise were broken.
//! The texts come from the rules of docs/RULES.md, worked out by hand.
use crate::calls::Worked;

/// Finalizers begin once, the dead are not named, and a set that is half cleared is out of reach.
static DONE: [Worked; 9] = [
    (
        "brought back by count and then condemned: the finalizer has run",
        "def d; x = self; end; class C del=d; a = new C; del a; setattr x me x; del x; collect",
        "made instance #2; enter del #2; leave; alive #2; gc start 2; free #2; gc stop 2 1 0; collected 1; end",
    ),
    (
        "brought back from a collection and then dropped: the finalizer has run",
        "def d; x = self; end; class C del=d; a = new C; setattr a me a; del a; collect; delattr x me; finalized x; del x",
        "made instance #2; gc start 2; enter del #2; leave; alive #2; gc stop 2 0 0; collected 0; finalized yes; free #2; end",
    ),
    (
        "a weak reference to what is gone has no referent",
        "class C; a = new C; w = ref a; x = deref w; print x; del x; del a; x = deref w; print x",
        "made instance #2; made weakref #3; value #2; cleared #3; free #2; value none; end",
    ),
    (
        "what nothing holds is gone before the next command, also in a frame",
        "def d; setitem l 0 none; print 1; end; class C del=d; l = list 0; m = list; setitem l 0 m; del m; a = new C; del a; b = list 2; setitem l 0 b; del b; setitem l 0 3; print 4",
        "made list #2; made list #3; made instance #4; enter del #4; free #3; value 1; leave; free #4; made list #5; free #5; value 4; end",
    ),
    (
        "an older object that a member alone holds dies while the set is cleared; its finalizer looks for a member",
        "def d; x = deref w; print x; end; class C del=d; class D; o = new C; collect 0; b = new D; setattr b me b; setattr b old o; w = ref b; del o; del b; collect 0",
        "made instance #2; gc start 0; gc stop 0 0 0; collected 0; made instance #3; made weakref #4; gc start 0; cleared #4; enter del #2; value none; leave; free #2; free #3; gc stop 0 1 0; collected 1; end",
    ),
    (
        "a finalizer makes a weak reference to its doomed neighbour",
        "def cb; end; def d; n = attr self other; w = ref n f; del n; end; class C del=d; class D; f = func cb; a = new C; b = new D; setattr a other b; setattr a me a; del a; del b; collect 2",
        "made function #2; made instance #3; made instance #4; gc start 2; enter del #3; made weakref #5; leave; cleared #5; free #4; free #3; gc stop 2 2 0; collected 2; end",
    ),
    (
        "a finalizer asks the weak reference that was there before: the referent is lost already",
        "def cb; end; def d; x = deref w; n = attr self other; w = ref n f; del n; end; class C del=d; class D; f = func cb; a = new C; b = new D; setattr a other b; w = ref b; setattr a me a; del a; del b; collect 2",
        "made function #2; made instance #3; made instance #4; made weakref #5; gc start 2; cleared #5; enter del #3; made weakref #6; free #5; leave; cleared #6; free #4; free #3; gc stop 2 2 0; collected 2; end",
    ),
    (
        "a finalizer asks its new weak reference, and so brings the neighbour back",
        "def cb; end; def d; n = attr self other; w = ref n f; del n; x = deref w; end; class C del=d; class D; f = func cb; a = new C; b = new D; setattr a other b; w = ref b; setattr a me a; del a; del b; collect 2",
        "made function #2; made instance #3; made instance #4; made weakref #5; gc start 2; cleared #5; enter del #3; made weakref #6; free #5; leave; alive #4; free #3; gc stop 2 1 0; collected 1; end",
    ),
    (
        "a tuple is not emptied: it goes when the list that holds it is",
        "a = list; t = tuple a; u = tuple t; append a u; del a; del t; del u; collect; gens",
        "made list #2; made tuple #3; made tuple #4; gc start 2; free #3; free #4; free #2; gc stop 2 3 0; collected 3; gens 0 0 0 0; end",
    ),
];

pub fn done() -> &'static [Worked] {
    &DONE
}
