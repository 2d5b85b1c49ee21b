//! The lines of an answer.
ghost use Rattle.std.specs.Prelude.{◌≡◌, ◌++◌, ◌∷◌, [], ℕ, List, length, cond, OnOk};
ghost use Rattle.cg_search.specs.Places.{Marks, is_marked};
ghost use Rattle.cg_ask.specs.Answers.{line, rows_text, Tells};
ghost use Rattle.cg_ask.specs.Marked.{AppendsRows, flags_of};

use cg_snapshot::put_spaced;
use std::alloc::AllocError;

/// Appends a line of a word and numbers.
pub(crate) fn put_line(out: &mut Vec<u8>, word: &[u8], numbers: &[u64]) -> Result<(), AllocError>
    ensures { OnOk result (out.new.items ≡ out.old.items ++ line word.now numbers.now) }
{
    out.extend_from_slice(word)?;
    'numbers: for number in numbers {
        put_spaced(out, *number)?;
    }
    out.push(b'\n')?;
    Ok(())
}

/// Appends a row for each marked place.
pub(crate) fn put_marked(out: &mut Vec<u8>, word: &[u8], marks: &[bool]) -> Result<(), AllocError>
    ensures { OnOk result (AppendsRows (λ m ns. Marks marks.now m × (ns ≡ [])) word.now
        out.old.items out.new.items) }
{
    'places: for at in 0..marks.len() {
        if marks[at] {
            put_line(out, word, &[at as u64])?;
        }
    }
    Ok(())
}

/// The number of a mark.
pub(crate) fn flag(mark: bool) -> u64
    ensures { result ≡ cond mark 1 0 }
{
    if mark { 1 } else { 0 }
}

/// Appends a row for each marked place, with the number 1 if it is also marked there, else 0.
pub(crate) fn put_flagged(
    out: &mut Vec<u8>,
    word: &[u8],
    marks: &[bool],
    others: &[bool],
) -> Result<(), AllocError>
    requires { length marks.now ≡ length others.now }
    ensures { OnOk result (AppendsRows (λ m ns. Marks marks.now m × (ns ≡ flags_of others.now m))
        word.now out.old.items out.new.items) }
{
    'places: for at in 0..marks.len() {
        if marks[at] {
            put_line(out, word, &[at as u64, flag(others[at])])?;
        }
    }
    Ok(())
}
