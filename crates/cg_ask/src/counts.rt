//! How often members occur among references and untold words.
ghost use Rattle.std.specs.Prelude.{◌≡◌, ◌+◌, ◌<◌, ◌^◌, ℕ, length, map, slice_index, slice_get, IfOk};
ghost use Rattle.cg_graph.specs.Holdings.{occurrences};
ghost use Rattle.cg_ask.specs.Asked.{references_of, all_words_of, outside_at};
ghost use Rattle.cg_ask.specs.Counted.{IsCounts, AreOutside, CountEach};

use cg_search::{add_row, count_targets};
use cg_snapshot::Member;
use std::alloc::{AllocError, Global};

/// How often each member occurs among references, and among untold words.
#[derive(Drop)]
pub(crate) struct Counts {
    pub(crate) told: Vec<u64>,
    pub(crate) words: Vec<u64>,
}

/// How often each member occurs among references.
fn count_told(alloc: Global, members: &[Member]) -> Result<Vec<u64>, AllocError>
    requires { length (references_of members.now) < 2 ^ 64 }
    ensures { IfOk result (λ counts. CountEach (length members.now) (references_of members.now)
        counts.items) }
{
    let all = Vec::from_elem(alloc, true, members.len())?;
    let counts = count_targets(alloc, &all, members)?;
    Ok(counts)
}

/// How often each member occurs among untold words.
fn count_words(alloc: Global, members: &[Member]) -> Result<Vec<u64>, AllocError>
    requires { length (all_words_of members.now) < 2 ^ 64 }
    ensures { IfOk result (λ counts. CountEach (length members.now) (all_words_of members.now)
        counts.items) }
{
    let mut counts = Vec::from_elem(alloc, 0, members.len())?;
    'members: for member in members {
        add_row(&mut counts, member.untold.as_slice());
    }
    Ok(counts)
}

/// How often each member occurs among references, and among untold words.
pub(crate) fn counts_of(alloc: Global, members: &[Member]) -> Result<Counts, AllocError>
    requires references { length (references_of members.now) < 2 ^ 64 }
    requires words { length (all_words_of members.now) < 2 ^ 64 }
    ensures { IfOk result (λ counts. IsCounts members.now counts) }
{
    let told = count_told(alloc, members)?;
    let words = count_words(alloc, members)?;
    Ok(Counts { told, words })
}

/// How often each member is held from outside.
pub(crate) fn outside_holds(
    alloc: Global,
    members: &[Member],
    counts: &Counts,
) -> Result<Vec<u64>, AllocError>
    requires { IsCounts members.now counts.now }
    ensures { IfOk result (λ outside. AreOutside members.now outside.items) }
{
    let mut outside = Vec::new(alloc);
    'members: for at in 0..members.len() {
        outside.push(members[at].degree.saturating_sub(counts.told[at]))?;
    }
    Ok(outside)
}
