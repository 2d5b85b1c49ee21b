//! The fault of one recorded graph.
ghost use Rattle.std.specs.Prelude.{◌≡◌, map, not, true, IfOk, IfSome, IfNone, ◌↔◌};
ghost use Rattle.cg_cert.specs.Judged.{IsWellNamed, FindsLost, FindsSetAside, IsRight, HasFault, part};
ghost use Rattle.cg_cert.specs.Positions.{IsLocated, CountReferences};

use crate::counts::{counts_of, cover, exceeding};
use crate::table::{marks_of, places_of, rows_of};
use cg_records::{Graph, Member};
use cg_search::reached;
use std::alloc::{AllocError, Global};

/// A well-named graph, by the positions of its members.
#[derive(Drop)]
pub(crate) struct Located {
    /// The references of each member.
    pub(crate) rows: Vec<Vec<usize>>,
    /// Which members were found unreachable.
    pub(crate) lost: Vec<bool>,
    /// Which of them were set aside.
    pub(crate) legacy: Vec<bool>,
}

/// The graph by positions; `None` if a name is wrong.
fn locate(alloc: Global, graph: &Graph) -> Result<Option<Located>, AllocError>
    ensures found { IfOk result (λ named. IfSome named (λ located. IsLocated graph.now located)) }
    ensures none { IfOk result (λ named. IfNone named (IsWellNamed graph.now → ⊥)) }
{
    let members = graph.members.as_slice();
    let Some(places) = places_of(alloc, members)? else {
        return Ok(None);
    };
    let Some(rows) = rows_of(alloc, &places, members)? else {
        return Ok(None);
    };
    let Some(lost) = marks_of(alloc, &places, members, graph.lost.as_slice())? else {
        return Ok(None);
    };
    let Some(legacy) = marks_of(alloc, &places, members, graph.legacy.as_slice())? else {
        return Ok(None);
    };
    Ok(Some(Located { rows, lost, legacy }))
}

/// Which members have a legacy finalizer.
fn marked_of(alloc: Global, members: &[Member]) -> Result<Vec<bool>, AllocError>
    ensures { IfOk result (λ marks. marks.items ≡ map (λ m. m.legacy) members.now) }
{
    members.iter().map(|member| member.legacy).collect(alloc)
}

/// The marks inverted.
fn opposite(alloc: Global, marks: &[bool]) -> Result<Vec<bool>, AllocError>
    ensures { IfOk result (λ others. others.items ≡ map not marks.now) }
{
    marks.iter().map(|mark| !*mark).collect(alloc)
}

fn are_same(marks: &[bool], others: &[bool]) -> bool
    ensures { (result ≡ true) ↔ (marks.now ≡ others.now) }
{
    marks == others
}

/// Whether the set found unreachable is exactly the lost members.
fn finds_lost(
    alloc: Global,
    graph: &Graph,
    located: &Located,
    counts: &[u64],
) -> Result<bool, AllocError>
    requires located { IsLocated graph.now located.now }
    requires counts { CountReferences graph.now.members counts.now }
    ensures { IfOk result (λ right. (right ≡ true) ↔ FindsLost graph.now) }
{
    let members = graph.members.as_slice();
    let held = exceeding(alloc, members, counts)?;
    let all = Vec::from_elem(alloc, true, members.len())?;
    let found = reached(alloc, &held, &all, &located.rows)?;
    let unreachable = opposite(alloc, &found)?;
    Ok(are_same(&unreachable, &located.lost))
}

/// Whether the legacy set is exactly the members to set aside, if the set found unreachable is
/// right.
fn finds_set_aside(alloc: Global, graph: &Graph, located: &Located) -> Result<bool, AllocError>
    requires located { IsLocated graph.now located.now }
    requires lost { FindsLost graph.now }
    ensures { IfOk result (λ right. (right ≡ true) ↔ FindsSetAside graph.now) }
{
    let marked = marked_of(alloc, graph.members.as_slice())?;
    let found = reached(alloc, &marked, &located.lost, &located.rows)?;
    Ok(are_same(&found, &located.legacy))
}

/// The least fault code of the graph, if it has a fault. Only a first graph has a legacy set.
pub(crate) fn fault_of(
    alloc: Global,
    graph: &Graph,
    is_first: bool,
) -> Result<Option<u8>, AllocError>
    ensures right { IfOk result (λ fault. IfNone fault (IsRight (part is_first graph.now))) }
    ensures fault { IfOk result (λ fault. IfSome fault (λ code. HasFault (part is_first graph.now)
        code)) }
{
    let Some(located) = locate(alloc, graph)? else {
        return Ok(Some(2));
    };
    let counts = counts_of(alloc, &located.rows)?;
    if !cover(graph.members.as_slice(), &counts) {
        return Ok(Some(3));
    }
    if !finds_lost(alloc, graph, &located, &counts)? {
        return Ok(Some(4));
    }
    if is_first && !finds_set_aside(alloc, graph, &located)? {
        return Ok(Some(5));
    }
    Ok(None)
}
