//! Serials as positions of members.
ghost use Rattle.std.specs.Prelude.{◌≡◌, true, Some, IfOk, IfSome, IfNone, slice_get};
ghost use Rattle.std.specs.List.Sorted.{IsStrictlyIncreasing};
ghost use Rattle.cg_cert.specs.Judged.{serials_of, references_of, IsOnceEach};
ghost use Rattle.cg_cert.specs.Positions.{Locates, Tells, IsPositionOf, AreNames, IsSetOf, IsRowOf, MarksAll, AreRowsOf, rows_in};

use cg_records::Member;
use std::alloc::{AllocError, Global};
use std::collections::BTreeMap;

/// How to find the positions of the members' serials.
#[derive(Drop)]
pub(crate) enum Places {
    /// They ascend, as when members are in order of age; a binary search finds them.
    Ascending,
    /// A table of them.
    Listed(BTreeMap<u64, usize>),
}

fn ascend(members: &[Member]) -> bool
    ensures { result ≡ true → IsStrictlyIncreasing (serials_of members.now) }
{
    'members: for at in 1..members.len() {
        if members[at].serial <= members[at - 1].serial {
            return false;
        }
    }
    true
}

/// The position of each member, by serial; `None` if two members share one.
fn positions_of(
    alloc: Global,
    members: &[Member],
) -> Result<Option<BTreeMap<u64, usize>>, AllocError>
    ensures found { IfOk result (λ located. IfSome located (λ table. Locates (serials_of members.now)
        table)) }
    ensures none { IfOk result (λ located. IfNone located (IsOnceEach (serials_of members.now)
        → ⊥)) }
{
    let mut table = BTreeMap::new(alloc);
    'members: for at in 0..members.len() {
        if table.insert(members[at].serial, at)?.is_some() {
            return Ok(None);
        }
    }
    Ok(Some(table))
}

/// How to find the positions of members; `None` if two members share a serial.
pub(crate) fn places_of(alloc: Global, members: &[Member]) -> Result<Option<Places>, AllocError>
    ensures found { IfOk result (λ told. IfSome told (λ places. Tells (serials_of members.now) places)) }
    ensures none { IfOk result (λ told. IfNone told (IsOnceEach (serials_of members.now) → ⊥)) }
{
    if ascend(members) {
        return Ok(Some(Places::Ascending));
    }
    match positions_of(alloc, members)? {
        Some(table) => Ok(Some(Places::Listed(table))),
        None => Ok(None),
    }
}

/// The position of a serial among ascending ones, by binary search.
fn position_by_halves(members: &[Member], serial: u64) -> Option<usize>
    requires { IsStrictlyIncreasing (serials_of members.now) }
    ensures { IsPositionOf (serials_of members.now) serial result }
{
    match members.binary_search_by_key(&serial, |member| member.serial) {
        Ok(at) => Some(at),
        Err(_) => None,
    }
}

/// Whether the member at a position has this serial.
fn is_at(members: &[Member], at: usize, serial: u64) -> bool
    ensures { result ≡ true → slice_get (serials_of members.now) at ≡ Some serial }
{
    at < members.len() && members[at].serial == serial
}

/// The position of a serial. A right guess saves the search.
fn position_at(places: &Places, members: &[Member], guess: usize, serial: u64) -> Option<usize>
    requires { Tells (serials_of members.now) places.now }
    ensures { IsPositionOf (serials_of members.now) serial result }
{
    if is_at(members, guess, serial) {
        return Some(guess);
    }
    match places {
        Places::Ascending => position_by_halves(members, serial),
        Places::Listed(table) => table.get(&serial).copied(),
    }
}

/// The position of a serial that the member at `at` refers to. Most references lead to a neighbour,
/// or to the member after the `last` one found.
fn position_near(
    places: &Places,
    members: &[Member],
    at: usize,
    last: usize,
    serial: u64,
) -> Option<usize>
    requires { Tells (serials_of members.now) places.now }
    ensures { IsPositionOf (serials_of members.now) serial result }
{
    let next = last.wrapping_add(1);
    if is_at(members, next, serial) {
        return Some(next);
    }
    let after = at.wrapping_add(1);
    if is_at(members, after, serial) {
        return Some(after);
    }
    position_at(places, members, at.wrapping_sub(1), serial)
}

/// The positions of the serials that the member at `at` refers to, in order; `None` if one names no
/// member.
pub(crate) fn row_of(
    alloc: Global,
    places: &Places,
    members: &[Member],
    at: usize,
    serials: &[u64],
) -> Result<Option<Vec<usize>>, AllocError>
    requires { Tells (serials_of members.now) places.now }
    ensures found { IfOk result (λ named. IfSome named (λ row. IsRowOf (serials_of members.now) serials.now
        row.items)) }
    ensures none { IfOk result (λ named. IfNone named (AreNames (serials_of members.now) serials.now
        → ⊥)) }
{
    let mut row = Vec::with_capacity(alloc, serials.len())?;
    let mut last = at;
    'serials: for serial in serials {
        match position_near(places, members, at, last, *serial) {
            Some(found) => {
                row.push(found)?;
                last = found;
            }
            None => return Ok(None),
        }
    }
    Ok(Some(row))
}

/// The row of each member: the positions of its references, in order; `None` if one names no
/// member.
pub(crate) fn rows_of(
    alloc: Global,
    places: &Places,
    members: &[Member],
) -> Result<Option<Vec<Vec<usize>>>, AllocError>
    requires { Tells (serials_of members.now) places.now }
    ensures found { IfOk result (λ named. IfSome named (λ rows. AreRowsOf (serials_of members.now)
        members.now (rows_in rows.items))) }
    ensures none { IfOk result (λ named. IfNone named (AreNames (serials_of members.now)
        (references_of members.now) → ⊥)) }
{
    let mut rows = Vec::with_capacity(alloc, members.len())?;
    'members: for at in 0..members.len() {
        match row_of(alloc, places, members, at, members[at].refs.as_slice())? {
            Some(row) => rows.push(row)?,
            None => return Ok(None),
        }
    }
    Ok(Some(rows))
}

/// Marks the positions of serials; `None` if one names no member or occurs twice.
pub(crate) fn marks_of(
    alloc: Global,
    places: &Places,
    members: &[Member],
    serials: &[u64],
) -> Result<Option<Vec<bool>>, AllocError>
    requires { Tells (serials_of members.now) places.now }
    ensures found { IfOk result (λ named. IfSome named (λ marks. MarksAll (serials_of members.now)
        serials.now marks.items)) }
    ensures sets { IfOk result (λ named. IfSome named (λ marks. IsSetOf (serials_of members.now)
        serials.now)) }
    ensures none { IfOk result (λ named. IfNone named (IsSetOf (serials_of members.now) serials.now
        → ⊥)) }
{
    let mut marks = Vec::from_elem(alloc, false, members.len())?;
    let mut guess = 0;
    'serials: for serial in serials {
        let Some(at) = position_at(places, members, guess, *serial) else {
            return Ok(None);
        };
        if marks[at] {
            return Ok(None);
        }
        marks[at] = true;
        guess = at.wrapping_add(1);
    }
    Ok(Some(marks))
}
