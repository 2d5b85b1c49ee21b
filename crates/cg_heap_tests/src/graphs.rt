//! The plain search of small graphs. The reachable members are worked out by hand.

use cg_graph::{Edge, reach_plain};
use std::process::Abort;
use std::test::Fail;

/// A name; edges, each from an object to one; members, those that are held, and what is found.
type Row = (
    &'static str,
    &'static [(u64, u64)],
    &'static [u64],
    &'static [u64],
    &'static [u64],
);

static ROWS: [Row; 4] = [
    (
        "a ring that is not held",
        &[(2, 3), (3, 2)],
        &[2, 3],
        &[],
        &[],
    ),
    (
        "a ring where one of it is held",
        &[(2, 3), (3, 2)],
        &[2, 3],
        &[2],
        &[2, 3],
    ),
    (
        "what is found rises and stands once",
        &[(9, 4), (9, 4), (4, 7), (7, 9)],
        &[9, 7, 9, 4],
        &[9, 9],
        &[4, 7, 9],
    ),
    // 5 is no member, so that 6 is not reached through it; nor is 2, which only leads to 3.
    (
        "paths go by members and forwards",
        &[(2, 3), (3, 5), (5, 6), (3, 4)],
        &[2, 3, 4, 6],
        &[3, 5],
        &[3, 4],
    ),
];

fn rows() -> &'static [Row] {
    &ROWS
}

#[test]
fn what_is_held_leads_to_what_is_found(rt: HostRuntime) -> Result<(), Fail> {
    let alloc = rt.alloc();
    for (name, pairs, members, held, expected) in rows() {
        let mut edges = Vec::new(alloc);
        for (from, to) in *pairs {
            edges.push(Edge {
                from: *from,
                to: *to,
            })?;
        }
        let found = reach_plain(alloc, &edges, members, held)?;
        assert_eq!(&rt; found.as_slice(), *expected, "at {name:?}");
    }
    Ok(())
}
