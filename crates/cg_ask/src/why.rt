//! Why a member is alive.
ghost use Rattle.std.specs.Prelude.{false, ◌≡◌, ◌++◌, ◌∷◌, [], ℕ, length, map, flat_map, codes, IfOk, IfSome, IfNone, OnOk};
ghost use Rattle.cg_snapshot.specs.Text.{AreMembers};
ghost use Rattle.cg_ask.specs.Asked.{IsShortest, HasNone};
ghost use Rattle.cg_ask.specs.Answers.{line, way_text};
ghost use Rattle.cg_ask.specs.Counted.{AreOutside};
ghost use Rattle.cg_ask.specs.Faults.{AreRight};
ghost use Rattle.cg_ask.specs.Told.{AppendsReason};

use crate::lines::put_line;
use crate::reach::{held_of, others_of};
use cg_search::shortest_way;
use cg_snapshot::Member;
use std::alloc::{AllocError, Global};

/// A shortest path, from a member held from outside, that avoids these members.
fn path_to(
    alloc: Global,
    members: &[Member],
    outside: &[u64],
    object: usize,
    but: &[usize],
) -> Result<Option<Vec<usize>>, AllocError>
    requires outside { AreOutside members.now outside.now }
    requires right { AreRight members.now false }
    requires but { AreMembers (length members.now) but.now }
    ensures found { IfOk result (λ path. IfSome path (λ p. IsShortest members.now but.now p.items
        object)) }
    ensures none { IfOk result (λ path. IfNone path (HasNone members.now but.now object)) }
{
    let held = held_of(alloc, members, outside)?;
    let others = others_of(alloc, members, but)?;
    let path = shortest_way(alloc, &held, &others, members, object)?;
    Ok(path)
}

/// Appends a line for each further member of a path.
fn put_rest(out: &mut Vec<u8>, path: &[usize]) -> Result<(), AllocError>
    ensures { OnOk result (out.new.items ≡ out.old.items
        ++ flat_map (λ o. line (codes "via") (o ∷ [])) path.now) }
{
    'places: for place in path {
        put_line(out, b"via", &[*place as u64])?;
    }
    Ok(())
}

fn put_path(
    out: &mut Vec<u8>,
    members: &[Member],
    outside: &[u64],
    path: &[usize],
) -> Result<(), AllocError>
    requires outside { AreOutside members.now outside.now }
    requires within { AreMembers (length members.now) path.now }
    ensures { OnOk result (out.new.items ≡ out.old.items ++ way_text members.now path.now) }
{
    if path.is_empty() {
        return Ok(());
    }
    let first = path[0];
    put_line(out, b"held", &[first as u64, outside[first]])?;
    put_rest(out, &path[1..])?;
    Ok(())
}

/// Appends the answer to `why`.
pub(crate) fn put_why(
    alloc: Global,
    members: &[Member],
    outside: &[u64],
    object: usize,
    but: &[usize],
    out: &mut Vec<u8>,
) -> Result<(), AllocError>
    requires outside { AreOutside members.now outside.now }
    requires right { AreRight members.now false }
    requires but { AreMembers (length members.now) but.now }
    ensures { OnOk result (AppendsReason members.now but.now object out.old.items out.new.items) }
{
    match path_to(alloc, members, outside, object, but)? {
        Some(path) => {
            put_path(out, members, outside, path.as_slice())?;
            Ok(())
        }
        None => {
            put_line(out, b"none", &[])?;
            Ok(())
        }
    }
}
