//! Marks that represent sets of members.
ghost use Rattle.std.specs.Prelude.{◌≡◌, ◌<◌, ◌⊎◌, ◌&&◌, ◌||◌, not, ℕ, length, slice_index, IfOk};
ghost use Rattle.cg_graph.specs.Member.{Includes};
ghost use Rattle.cg_search.specs.Places.{Marks};
ghost use Rattle.cg_snapshot.specs.Text.{AreMembers};
ghost use Rattle.cg_ask.specs.Marked.{MarkJust};

use std::alloc::{AllocError, Global};

/// Marked here and not there.
fn is_only(mark: bool, other: bool) -> bool
    ensures { result ≡ (mark && not other) }
{
    mark && !other
}

/// Marked here or there.
fn is_any(mark: bool, other: bool) -> bool
    ensures { result ≡ (mark || other) }
{
    mark || other
}

/// What is marked here and not there.
pub(crate) fn without(
    alloc: Global,
    marks: &[bool],
    others: &[bool],
) -> Result<Vec<bool>, AllocError>
    requires { length marks.now ≡ length others.now }
    ensures { IfOk result (λ left. MarkJust (length marks.now) (λ i. Marks marks.now i
        × ¬ Marks others.now i) left.items) }
{
    let mut left = Vec::new(alloc);
    'places: for at in 0..marks.len() {
        left.push(is_only(marks[at], others[at]))?;
    }
    Ok(left)
}

/// What is marked here or there.
pub(crate) fn joined(
    alloc: Global,
    marks: &[bool],
    others: &[bool],
) -> Result<Vec<bool>, AllocError>
    requires { length marks.now ≡ length others.now }
    ensures { IfOk result (λ all. MarkJust (length marks.now) (λ i. Marks marks.now i
        ⊎ Marks others.now i) all.items) }
{
    let mut all = Vec::new(alloc);
    'places: for at in 0..marks.len() {
        all.push(is_any(marks[at], others[at]))?;
    }
    Ok(all)
}

/// Marks the places where a number is below the other.
pub(crate) fn below(alloc: Global, numbers: &[u64], others: &[u64]) -> Result<Vec<bool>, AllocError>
    requires { length numbers.now ≡ length others.now }
    ensures { IfOk result (λ marks. MarkJust (length numbers.now) (λ i. slice_index numbers.now i <
        slice_index others.now i) marks.items) }
{
    let mut marks = Vec::new(alloc);
    'places: for at in 0..numbers.len() {
        marks.push(numbers[at] < others[at])?;
    }
    Ok(marks)
}

/// Marks these places, given how many there are.
pub(crate) fn marked(alloc: Global, count: usize, places: &[usize]) -> Result<Vec<bool>, AllocError>
    requires { AreMembers count places.now }
    ensures { IfOk result (λ marks. MarkJust count (Includes places.now) marks.items) }
{
    let mut marks = Vec::from_elem(alloc, false, count)?;
    'places: for place in places {
        marks[*place] = true;
    }
    Ok(marks)
}

/// Marks all places, given how many there are.
pub(crate) fn all_marked(alloc: Global, count: usize) -> Result<Vec<bool>, AllocError>
    ensures { IfOk result (λ marks. MarkJust count (λ i. i < count) marks.items) }
{
    let marks = Vec::from_elem(alloc, true, count)?;
    Ok(marks)
}
