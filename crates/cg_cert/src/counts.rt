//! How often members occur among the references, compared with their in-degrees.
ghost use Rattle.std.specs.Prelude.{◌≡◌, ◌<◌, ◌^◌, length, true, IfOk, ◌↔◌};
ghost use Rattle.std.specs.List.{concat};
ghost use Rattle.cg_cert.specs.Judged.{CoversReferences};
ghost use Rattle.cg_cert.specs.Positions.{rows_in, CountTargets, CountReferences, ExceedEach};

use cg_records::Member;
use cg_search::count_targets;
use std::alloc::{AllocError, Global};

/// Whether the rows have fewer than 2^64 positions in total.
fn are_few(rows: &[Vec<usize>]) -> bool
    ensures { result ≡ true → length (concat (rows_in rows.now)) < 2 ^ 64 }
{
    let mut total: u64 = 0;
    'rows: for row in rows {
        match total.checked_add(row.len() as u64) {
            Some(more) => total = more,
            None => return false,
        }
    }
    true
}

/// How often each position occurs in the rows. No memory holds rows of 2^64 positions.
pub(crate) fn counts_of(alloc: Global, rows: &[Vec<usize>]) -> Result<Vec<u64>, AllocError>
    ensures { IfOk result (λ counts. CountTargets (rows_in rows.now) counts.items) }
{
    if !are_few(rows) {
        return Err(AllocError);
    }
    let all = Vec::from_elem(alloc, true, rows.len())?;
    let counts = count_targets(alloc, &all, rows)?;
    Ok(counts)
}

/// Whether no in-degree is below the member's occurrences among the references.
pub(crate) fn cover(members: &[Member], counts: &[u64]) -> bool
    requires { CountReferences members.now counts.now }
    ensures { (result ≡ true) ↔ CoversReferences members.now }
{
    'members: for at in 0..members.len() {
        if members[at].degree < counts[at] {
            return false;
        }
    }
    true
}

/// Which in-degrees exceed the member's occurrences among the references.
pub(crate) fn exceeding(
    alloc: Global,
    members: &[Member],
    counts: &[u64],
) -> Result<Vec<bool>, AllocError>
    requires { CountReferences members.now counts.now }
    ensures { IfOk result (λ marks. ExceedEach members.now marks.items) }
{
    let mut marks = Vec::new(alloc);
    'members: for at in 0..members.len() {
        marks.push(counts[at] < members[at].degree)?;
    }
    Ok(marks)
}
