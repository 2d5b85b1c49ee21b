//! Questions about heaps drawn by hand. Each answer is worked out from the definitions in
//! `docs/HEAPS.md`.
use crate::asked::ask;
use cg_ask::AskStatus;
use std::alloc::{AllocError, Global};
use std::process::Abort;
use std::test::Fail;

/// A heap, its questions, and the text of the answers.
type Worked = (&'static [u8], &'static [u8]);

/// Member 0 is held from outside, and holds 1 and 2; 1 holds 2 too, and 3 holds itself.
static WHY: Worked = (
    b"heap\nm 1 8 1 0 1 2\nm 1 8 1 0 2\nm 2 8 1 0\nm 1 8 1 0 3\nend\nwhy 2\nwhy 0\nwhy 2 but 1\nwhy 2 but 0\nwhy 3\n",
    b"why 2\nheld 0 1\nvia 2\ndone\nwhy 0\nheld 0 1\ndone\nwhy 2 but 1\nheld 0 1\nvia 2\ndone\nwhy 2 but 0\nnone\ndone\nwhy 3\nnone\ndone\n",
);

/// Member 0 is held from outside, and holds 1 twice; 1 is also held from outside.
static REFERRERS: Worked = (
    b"heap\nm 1 8 1 0 1 1\nm 3 8 1 0\nend\nreferrers 1\nreferrers 0\n",
    b"referrers 1\nreferrer 0 2\noutside 1\ndone\nreferrers 0\noutside 1\ndone\n",
);

/// An untold word explains the only reference to member 0, and one of the two to member 1; only
/// member 2 itself holds member 2.
static HIDDEN: Worked = (
    b"heap\nm 1 8 1 0\nu 0\nm 2 8 1 0\nu 1\nm 1 8 1 0 2\nend\nhidden\nuntold\n",
    b"hidden\nhidden 0 1 0\nhidden 1 2 1\ndone\nuntold\nkept 0\ndone\n",
);

/// Two words of one member are the address of another: both are subtracted.
static TWO_WORDS: Worked = (
    b"heap\nm 1 8 1 0\nu 1 1\nm 3 8 1 0\nend\nhidden\n",
    b"hidden\nhidden 0 1 1\nhidden 1 3 1\ndone\n",
);

/// A ring of 0 and 1, which holds a legacy finalizer, 2; an untracked member that holds itself, 3;
/// and a ring of an untracked member and a tracked one, 4 and 5. The collection clears only the
/// first ring.
static LOST: Worked = (
    b"heap\nm 1 8 1 0 1\nm 1 8 1 0 0 2\nm 2 8 1 1 2\nm 1 8 0 0 3\nm 1 8 0 0 5\nm 1 8 1 0 4\nend\nlost\n",
    b"lost\nlost 0 0\nlost 1 0\nlost 2 1\nlost 3 1\nlost 4 1\nlost 5 1\ndone\n",
);

/// Member 0 is held from outside, and holds the ring of 1 and 2.
static DROPPED: Worked = (
    b"heap\nm 1 16 1 0 1\nm 2 32 1 0 2\nm 1 64 1 0 1\nend\ndrop 0\ndrop 1\ndrop 2 0\n",
    b"drop 0\ngone 0 1\ngone 1 0\ngone 2 0\ntotal 3 112 1 16\ndone\ndrop 1\ngone 1 1\ngone 2 1\ntotal 2 96 2 96\ndone\ndrop 2 0\ngone 0 1\ngone 1 1\ngone 2 1\ntotal 3 112 3 112\ndone\n",
);

/// The bytes of three members of the largest size, with other live members between them.
static BYTES: Worked = (
    b"heap\nm 1 68719476735 1 0 2 4\nm 1 5 1 0\nm 1 68719476735 1 0\nm 1 7 1 0\nm 1 68719476735 1 0\nend\ndrop 0\n",
    b"drop 0\ngone 0 1\ngone 2 1\ngone 4 1\ntotal 3 206158430205 3 206158430205\ndone\n",
);

/// No members and no questions.
static EMPTY: Worked = (b"heap\nend\n", b"");

/// No members, and each question that needs none.
static NOTHING: Worked = (
    b"heap\nend\nhidden\nlost\nuntold\n",
    b"hidden\ndone\nlost\ndone\nuntold\ndone\n",
);

/// Expects the answers of each.
fn answer_all(rt: &impl Abort, alloc: Global, all: &[&Worked]) -> Result<(), AllocError> {
    for worked in all {
        ask(rt, alloc, worked.0, AskStatus::Answered, worked.1)?;
    }
    Ok(())
}

#[test]
fn members_are_held_by_shortest_paths(rt: HostRuntime) -> Result<(), Fail> {
    answer_all(&rt, rt.alloc(), &[&WHY, &REFERRERS])?;
    Ok(())
}

#[test]
fn untold_words_are_subtracted(rt: HostRuntime) -> Result<(), Fail> {
    answer_all(&rt, rt.alloc(), &[&HIDDEN, &TWO_WORDS])?;
    Ok(())
}

#[test]
fn members_are_lost_and_go(rt: HostRuntime) -> Result<(), Fail> {
    answer_all(&rt, rt.alloc(), &[&LOST, &DROPPED, &BYTES])?;
    Ok(())
}

#[test]
fn empty_heaps_are_asked(rt: HostRuntime) -> Result<(), Fail> {
    answer_all(&rt, rt.alloc(), &[&EMPTY, &NOTHING])?;
    Ok(())
}
