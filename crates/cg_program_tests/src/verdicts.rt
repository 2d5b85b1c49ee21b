//! Verdicts on small records, worked out by hand from the definitions.
use cg_cert::{Verdict, check_records};
use std::test::Fail;

/// Texts, and the verdicts on them.
static TEXTS: [(&str, &[u8], Verdict); 26] = [
    (
        "a list that holds itself is lost",
        b"record 2\ngraph 1\nm 2 1 0\nr 2\nlost 2\ngraph 2\nm 2 1 0\nr 2\nlost 2\nstop\nend\n",
        Verdict::Yes { records: 1 },
    ),
    (
        "without the first `lost`",
        b"record 2\ngraph 1\nm 2 1 0\nr 2\ngraph 2\nm 2 1 0\nr 2\nlost 2\nstop\nend\n",
        Verdict::No { graph: 1, code: 4 },
    ),
    (
        "without the second `lost`",
        b"record 2\ngraph 1\nm 2 1 0\nr 2\nlost 2\ngraph 2\nm 2 1 0\nr 2\nstop\nend\n",
        Verdict::No { graph: 2, code: 4 },
    ),
    (
        "without a reference",
        b"record 2\ngraph 1\nm 2 1 0\nr 2\nlost 2\ngraph 2\nm 2 1 0\nlost 2\nstop\nend\n",
        Verdict::No { graph: 2, code: 4 },
    ),
    (
        "without the end",
        b"record 2\ngraph 1\nm 2 1 0\nr 2\nlost 2\ngraph 2\nm 2 1 0\nr 2\nlost 2\nstop\n",
        Verdict::No { graph: 0, code: 1 },
    ),
    ("no records", b"end\n", Verdict::Yes { records: 0 }),
    (
        "an instance with a legacy finalizer is set aside, and is no candidate any more",
        b"record 2\ngraph 1\nm 2 1 1\nr 2\nlost 2\nlegacy 2\ngraph 2\nstop\nend\n",
        Verdict::Yes { records: 1 },
    ),
    (
        "without `legacy`",
        b"record 2\ngraph 1\nm 2 1 1\nr 2\nlost 2\ngraph 2\nstop\nend\n",
        Verdict::No { graph: 1, code: 5 },
    ),
    (
        "without the reference to itself",
        b"record 2\ngraph 1\nm 2 1 1\nlost 2\nlegacy 2\ngraph 2\nstop\nend\n",
        Verdict::No { graph: 1, code: 4 },
    ),
    (
        "without the mark",
        b"record 2\ngraph 1\nm 2 1 0\nr 2\nlost 2\nlegacy 2\ngraph 2\nstop\nend\n",
        Verdict::No { graph: 1, code: 5 },
    ),
    (
        "in a second graph nothing is set aside",
        b"record 2\ngraph 1\ngraph 2\nm 2 1 1\nr 2\nlost 2\nstop\nend\n",
        Verdict::Yes { records: 1 },
    ),
    (
        "paths go on: 5 is held from outside and holds 7, which holds 9; 4 and 6 hold each other, and 8 is held by 6",
        b"record 1\ngraph 1\nm 9 1 0\nm 4 1 1\nr 6\nm 7 1 0\nr 9\nm 5 1 0\nr 7\nm 6 1 0\nr 4\nr 8\nm 8 1 0\nlost 8\nlost 6\nlost 4\nlegacy 8\nlegacy 4\nlegacy 6\ncut\nend\n",
        Verdict::Yes { records: 1 },
    ),
    (
        "one too many is lost",
        b"record 1\ngraph 1\nm 9 1 0\nm 4 1 1\nr 6\nm 7 1 0\nr 9\nm 5 1 0\nr 7\nm 6 1 0\nr 4\nr 8\nm 8 1 0\nlost 8\nlost 6\nlost 4\nlost 9\nlegacy 8\nlegacy 4\nlegacy 6\ncut\nend\n",
        Verdict::No { graph: 1, code: 4 },
    ),
    (
        "one too few is lost",
        b"record 1\ngraph 1\nm 9 1 0\nm 4 1 1\nr 6\nm 7 1 0\nr 9\nm 5 1 0\nr 7\nm 6 1 0\nr 4\nr 8\nm 8 1 0\nlost 8\nlost 4\nlegacy 8\nlegacy 4\nlegacy 6\ncut\nend\n",
        Verdict::No { graph: 1, code: 4 },
    ),
    (
        "not all that a path leads to are set aside",
        b"record 1\ngraph 1\nm 9 1 0\nm 4 1 1\nr 6\nm 7 1 0\nr 9\nm 5 1 0\nr 7\nm 6 1 0\nr 4\nr 8\nm 8 1 0\nlost 8\nlost 6\nlost 4\nlegacy 4\nlegacy 6\ncut\nend\n",
        Verdict::No { graph: 1, code: 5 },
    ),
    (
        "a marked member that is reached sets nothing aside",
        b"record 1\ngraph 1\nm 9 1 1\nr 4\nm 4 2 0\nr 4\nm 5 1 0\nr 9\ncut\nend\n",
        Verdict::Yes { records: 1 },
    ),
    (
        "a member twice",
        b"record 0\ngraph 1\nm 3 0 0\nm 3 0 0\nlost 3\ncut\nend\n",
        Verdict::No { graph: 1, code: 2 },
    ),
    (
        "a reference to none",
        b"record 0\ngraph 1\nm 3 0 0\nr 4\nlost 3\ncut\nend\n",
        Verdict::No { graph: 1, code: 2 },
    ),
    (
        "`lost` twice",
        b"record 0\ngraph 1\nm 3 0 0\nlost 3\nlost 3\ncut\nend\n",
        Verdict::No { graph: 1, code: 2 },
    ),
    (
        "`lost` of none",
        b"record 0\ngraph 1\nm 3 0 0\nlost 3\nlost 4\ncut\nend\n",
        Verdict::No { graph: 1, code: 2 },
    ),
    (
        "`legacy` twice",
        b"record 0\ngraph 1\nm 3 0 1\nlost 3\nlegacy 3\nlegacy 3\ncut\nend\n",
        Verdict::No { graph: 1, code: 2 },
    ),
    (
        "`legacy` of none",
        b"record 0\ngraph 1\nm 3 0 0\nlost 3\nlegacy 4\ncut\nend\n",
        Verdict::No { graph: 1, code: 2 },
    ),
    (
        "an in-degree one too low",
        b"record 0\ngraph 1\nm 3 1 0\nr 3\nr 3\ncut\nend\n",
        Verdict::No { graph: 1, code: 3 },
    ),
    (
        "an in-degree one too high",
        b"record 0\ngraph 1\nm 3 3 0\nr 3\nr 3\nlost 3\ncut\nend\n",
        Verdict::No { graph: 1, code: 4 },
    ),
    (
        "the first faulty graph counts, over all records",
        b"record 0\ngraph 1\ncut\nrecord 1\ngraph 1\ngraph 2\nm 3 0 0\nstop\nrecord 0\ngraph 1\nm 3 0 0\nr 4\ncut\nend\n",
        Verdict::No { graph: 3, code: 4 },
    ),
    (
        "the largest numbers",
        b"record 0\ngraph 1\nm 18446744073709551615 18446744073709551615 0\nr 18446744073709551615\ncut\nend\n",
        Verdict::Yes { records: 1 },
    ),
];

fn texts() -> &'static [(&'static str, &'static [u8], Verdict)] {
    &TEXTS
}

#[test]
fn verdicts_on_small_records(rt: HostRuntime) -> Result<(), Fail> {
    for (name, text, wanted) in texts() {
        assert_eq!(&rt; check_records(rt.alloc(), text)?, *wanted, "at {name:?}");
    }
    Ok(())
}
