//! Sets of members: what is lost, what would go, and what untold words keep.
ghost use Rattle.std.specs.Prelude.{false, ◌≡◌, ◌≤◌, ◌<◌, ◌+◌, ◌^◌, ℕ, length, map, codes, cond, IfOk, OnOk};
ghost use Rattle.std.specs.List.{AllByRecursion};
ghost use Rattle.cg_graph.specs.Member.{Includes};
ghost use Rattle.cg_snapshot.specs.Text.{AreMembers, IsSmallMember};
ghost use Rattle.cg_ask.specs.Asked.{references_of, rows_of, all_told, IsHeld, IsKeptByWords, IsGone};
ghost use Rattle.cg_ask.specs.Answers.{line, totals_of, TellsLost, TellsGone, TellsKept};
ghost use Rattle.cg_ask.specs.Counted.{IsCounts, AreOutside};
ghost use Rattle.cg_ask.specs.Dying.{Dies};
ghost use Rattle.cg_ask.specs.Faults.{AreRight};
ghost use Rattle.cg_ask.specs.Marked.{MarkJust, AppendsRows};
ghost use Rattle.cg_ask.specs.Told.{AppendsTold};
ghost use Rattle.cg_ask.specs.Totals.{AppendsGone, totals_from};

use crate::collection::stuck_of;
use crate::counts::Counts;
use crate::dying::dying;
use crate::lines::{flag, put_flagged, put_line, put_marked};
use crate::marks::{all_marked, below, joined, marked, without};
use crate::reach::{lost_of, reached_of, reached_without};
use cg_search::reached;
use cg_snapshot::{Member, Places};
use std::alloc::{AllocError, Global};

/// Appends the answer to `lost`.
pub(crate) fn put_lost(
    alloc: Global,
    out: &mut Vec<u8>,
    members: &[Member],
    outside: &[u64],
) -> Result<(), AllocError>
    requires outside { AreOutside members.now outside.now }
    requires right { AreRight members.now false }
    requires few { length (references_of members.now) < 2 ^ 64 }
    ensures { OnOk result (AppendsRows (TellsLost members.now) (codes "lost") out.old.items
        out.new.items) }
{
    let lost = lost_of(alloc, members, outside)?;
    let stuck = stuck_of(alloc, members, &lost)?;
    put_flagged(out, b"lost", &lost, &stuck)?;
    Ok(())
}

/// What would go.
#[derive(Drop)]
struct Gone {
    /// All of it.
    gone: Vec<bool>,
    /// The part that dies by count.
    dead: Vec<bool>,
}

/// What would go if all references to these members were dropped.
fn gone_of(
    alloc: Global,
    members: &[Member],
    outside: &[u64],
    places: &[usize],
) -> Result<Gone, AllocError>
    requires outside { AreOutside members.now outside.now }
    requires right { AreRight members.now false }
    requires places { AreMembers (length members.now) places.now }
    ensures gone { IfOk result (λ g. MarkJust (length members.now) (IsGone members.now places.now)
        g.gone.items) }
    ensures dead { IfOk result (λ g. MarkJust (length members.now)
        (Dies members.now (Includes places.now)) g.dead.items) }
{
    let given = marked(alloc, members.len(), places)?;
    let dead = dying(alloc, members, &given)?;
    let before = reached_of(alloc, members, outside)?;
    let after = reached_without(alloc, members, outside, places)?;
    let let_go = without(alloc, &before, &after)?;
    let gone = joined(alloc, &dead, &let_go)?;
    Ok(Gone { gone, dead })
}

/// The number of members that would go and their bytes, and the same of those that die by count.
#[derive(Clone, Copy, Drop)]
struct Totals {
    members: u64,
    bytes: u64,
    dead: u64,
    dead_bytes: u64,
}

/// The totals with one member more.
fn add_gone(totals: Totals, size: u64, by_count: bool) -> Totals
    requires members { totals.members < 2 ^ 32 }
    requires bytes { totals.bytes + size < 2 ^ 64 }
    requires dead { totals.dead < 2 ^ 32 }
    requires dead_bytes { totals.dead_bytes + size < 2 ^ 64 }
    ensures { result ≡ totals_from (totals.members + 1) (totals.bytes + size)
        (totals.dead + cond by_count 1 0) (totals.dead_bytes + cond by_count size 0) }
{
    Totals {
        members: totals.members + 1,
        bytes: totals.bytes + size,
        dead: totals.dead + flag(by_count),
        dead_bytes: totals.dead_bytes + if by_count { size } else { 0 },
    }
}

/// Appends a row for each member that would go, and counts them.
fn put_gone(out: &mut Vec<u8>, members: &[Member], gone: &Gone) -> Result<Totals, AllocError>
    requires gone { length gone.now.gone.items ≡ length members.now }
    requires dead { length gone.now.dead.items ≡ length members.now }
    requires small { AllByRecursion IsSmallMember members.now }
    requires few { length members.now < 2 ^ 28 }
    ensures { IfOk result (λ totals. AppendsGone members.now gone.now.gone.items gone.now.dead.items
        out.old.items out.new.items totals) }
{
    let mut totals = Totals {
        members: 0,
        bytes: 0,
        dead: 0,
        dead_bytes: 0,
    };
    'members: for at in 0..members.len() {
        if gone.gone[at] {
            let by_count = gone.dead[at];
            put_line(out, b"gone", &[at as u64, flag(by_count)])?;
            totals = add_gone(totals, members[at].size, by_count);
        }
    }
    Ok(totals)
}

/// Appends the answer to `drop`.
pub(crate) fn put_dropped(
    alloc: Global,
    out: &mut Vec<u8>,
    members: &[Member],
    outside: &[u64],
    places: &[usize],
) -> Result<(), AllocError>
    requires outside { AreOutside members.now outside.now }
    requires right { AreRight members.now false }
    requires places { AreMembers (length members.now) places.now }
    requires small { AllByRecursion IsSmallMember members.now }
    requires few { length members.now < 2 ^ 28 }
    ensures { OnOk result (AppendsTold (TellsGone members.now places.now) (codes "gone")
        (λ rows. line (codes "total") (totals_of members.now rows)) out.old.items out.new.items) }
{
    let gone = gone_of(alloc, members, outside, places)?;
    let t = put_gone(out, members, &gone)?;
    put_line(out, b"total", &[t.members, t.bytes, t.dead, t.dead_bytes])?;
    Ok(())
}

/// The references of each member, with its untold words.
fn rows_with_words(alloc: Global, members: &[Member]) -> Result<Vec<Places>, AllocError>
    ensures { IfOk result (λ rows. rows.items ≡ rows_of (all_told members.now)) }
{
    let mut rows = Vec::new(alloc);
    'members: for member in members {
        rows.push(member.with_words(alloc)?)?;
    }
    Ok(rows)
}

/// Which members would be held from outside if untold words were references.
fn held_with_words(
    alloc: Global,
    members: &[Member],
    counts: &Counts,
    outside: &[u64],
) -> Result<Vec<bool>, AllocError>
    requires counts { IsCounts members.now counts.now }
    requires outside { AreOutside members.now outside.now }
    ensures { IfOk result (λ held. MarkJust (length members.now) (IsHeld (all_told members.now))
        held.items) }
{
    let held = below(alloc, counts.words.as_slice(), outside)?;
    Ok(held)
}

/// Which members would be lost if untold words were references, and are not.
fn kept_of(
    alloc: Global,
    members: &[Member],
    counts: &Counts,
    outside: &[u64],
) -> Result<Vec<bool>, AllocError>
    requires counts { IsCounts members.now counts.now }
    requires outside { AreOutside members.now outside.now }
    requires right { AreRight members.now false }
    ensures { IfOk result (λ kept. MarkJust (length members.now) (IsKeptByWords members.now)
        kept.items) }
{
    let rows = rows_with_words(alloc, members)?;
    let held = held_with_words(alloc, members, counts, outside)?;
    let all = all_marked(alloc, members.len())?;
    let found = reached(alloc, &held, &all, &rows)?;
    let before = reached_of(alloc, members, outside)?;
    let kept = without(alloc, &before, &found)?;
    Ok(kept)
}

/// Appends the answer to `untold`.
pub(crate) fn put_kept(
    alloc: Global,
    out: &mut Vec<u8>,
    members: &[Member],
    counts: &Counts,
    outside: &[u64],
) -> Result<(), AllocError>
    requires counts { IsCounts members.now counts.now }
    requires outside { AreOutside members.now outside.now }
    requires right { AreRight members.now false }
    ensures { OnOk result (AppendsRows (TellsKept members.now) (codes "kept") out.old.items
        out.new.items) }
{
    let kept = kept_of(alloc, members, counts, outside)?;
    put_marked(out, b"kept", &kept)?;
    Ok(())
}
