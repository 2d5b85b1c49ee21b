//! Who holds members: referrers, and outside holds that no member explains.
ghost use Rattle.std.specs.Prelude.{◌≡◌, ◌<◌, ◌∷◌, [], codes, length, OnOk};
ghost use Rattle.cg_graph.specs.Holdings.{occurrences};
ghost use Rattle.cg_ask.specs.Asked.{outside_at};
ghost use Rattle.cg_ask.specs.Answers.{line, TellsReferrer, TellsHidden};
ghost use Rattle.cg_ask.specs.Marked.{AppendsRows};
ghost use Rattle.cg_ask.specs.Counted.{IsCounts, AreOutside};
ghost use Rattle.cg_ask.specs.Told.{AppendsTold};

use crate::counts::Counts;
use crate::lines::put_line;
use cg_snapshot::Member;
use std::alloc::AllocError;

/// How often a place occurs among others.
fn times(places: &[usize], place: usize) -> u64
    ensures { result ≡ occurrences place places.now }
{
    places.iter().filter(|other| **other == place).count() as u64
}

/// Appends a row for each member that refers to the object.
fn put_rows(out: &mut Vec<u8>, members: &[Member], object: usize) -> Result<(), AllocError>
    ensures { OnOk result (AppendsRows (TellsReferrer members.now object) (codes "referrer")
        out.old.items out.new.items) }
{
    'members: for at in 0..members.len() {
        let times = times(members[at].refs.as_slice(), object);
        if times > 0 {
            put_line(out, b"referrer", &[at as u64, times])?;
        }
    }
    Ok(())
}

/// Appends the answer to `referrers`.
pub(crate) fn put_referrers(
    out: &mut Vec<u8>,
    members: &[Member],
    outside: &[u64],
    object: usize,
) -> Result<(), AllocError>
    requires outside { AreOutside members.now outside.now }
    requires within { object < length members.now }
    ensures { OnOk result (AppendsTold (TellsReferrer members.now object) (codes "referrer")
        (λ rows. line (codes "outside") (outside_at members.now object ∷ [])) out.old.items
        out.new.items) }
{
    put_rows(out, members, object)?;
    put_line(out, b"outside", &[outside[object]])?;
    Ok(())
}

/// Appends the answer to `hidden`.
pub(crate) fn put_hidden(
    out: &mut Vec<u8>,
    members: &[Member],
    counts: &Counts,
    outside: &[u64],
) -> Result<(), AllocError>
    requires counts { IsCounts members.now counts.now }
    requires outside { AreOutside members.now outside.now }
    ensures { OnOk result (AppendsRows (TellsHidden members.now) (codes "hidden") out.old.items
        out.new.items) }
{
    'members: for at in 0..members.len() {
        let holds = outside[at];
        if holds > 0 {
            let left = holds.saturating_sub(counts.words[at]);
            put_line(out, b"hidden", &[at as u64, holds, left])?;
        }
    }
    Ok(())
}
