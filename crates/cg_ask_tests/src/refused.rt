//! Heaps with faults, and invalid texts.
use crate::asked::ask;
use cg_ask::AskStatus;
use std::test::Fail;

#[test]
fn the_first_fault_is_reported(rt: HostRuntime) -> Result<(), Fail> {
    for (bytes, text) in [
        // A reference and an untold word that name no member.
        (
            b"heap\nm 0 8 1 0 1\nend\n".as_slice(),
            b"fault 2 0\n".as_slice(),
        ),
        (
            b"heap\nm 0 8 1 0\nm 0 8 1 0\nu 2\nend\n".as_slice(),
            b"fault 2 1\n".as_slice(),
        ),
        // An in-degree below its occurrences, and the same with a reference that names no member.
        (
            b"heap\nm 1 8 1 0 0 0\nend\nlost\n".as_slice(),
            b"fault 3 0\n".as_slice(),
        ),
        (
            b"heap\nm 0 8 1 0 0 9\nend\n".as_slice(),
            b"fault 2 0\n".as_slice(),
        ),
        // The first member counts, then the code.
        (
            b"heap\nm 0 8 1 0 0\nm 0 8 1 0 9\nend\n".as_slice(),
            b"fault 3 0\n".as_slice(),
        ),
        // Untold words count only where they are asked for.
        (
            b"heap\nm 1 8 1 0 0\nu 0\nend\nlost\nuntold\n".as_slice(),
            b"fault 4 0\n".as_slice(),
        ),
    ] {
        ask(&rt, rt.alloc(), bytes, AskStatus::Faulty, text)?;
    }
    Ok(())
}

#[test]
fn untold_words_count_only_where_asked_for(rt: HostRuntime) -> Result<(), Fail> {
    let bytes = b"heap\nm 1 8 1 0 0\nu 0\nend\nlost\nhidden\n";
    let text = b"lost\nlost 0 0\ndone\nhidden\ndone\n";
    ask(&rt, rt.alloc(), bytes, AskStatus::Answered, text)?;
    Ok(())
}

#[test]
fn the_first_bad_line_is_reported(rt: HostRuntime) -> Result<(), Fail> {
    for (bytes, text) in [
        (b"".as_slice(), b"bad line 1\n".as_slice()),
        (b"heap\n".as_slice(), b"bad line 2\n".as_slice()),
        (b"heap\nend".as_slice(), b"bad line 2\n".as_slice()),
        // A question about a position without a member, and one whose member comes after `but`.
        (
            b"heap\nm 0 8 1 0\nend\nwhy 1\n".as_slice(),
            b"bad line 4\n".as_slice(),
        ),
        (
            b"heap\nm 0 8 1 0\nend\nwhy 0 but 0\n".as_slice(),
            b"bad line 4\n".as_slice(),
        ),
        // A fault is not reported if a line is bad.
        (
            b"heap\nm 0 8 1 0 0\nend\nlost\nfound\n".as_slice(),
            b"bad line 5\n".as_slice(),
        ),
    ] {
        ask(&rt, rt.alloc(), bytes, AskStatus::Faulty, text)?;
    }
    Ok(())
}
