//! The words of a line: the first word, and the numbers.
ghost use Rattle.std.specs.Prelude.{◌≡◌, ◌≢◌, ◌<◌, ◌^◌, ◌++◌, ◌∷◌, [], ℕ, List, IfOk, IfSome, IfNone};
ghost use Rattle.std.specs.List.{AllByRecursion};
ghost use Rattle.cg_snapshot.specs.Rows.{kind_text, all_spaced, but_text, raw_of, IsRow, IsTail, AreSmall, spaced};

use crate::number::{after, cut_word, read_spaced};
use crate::places::Places;
use std::alloc::{AllocError, Global};

/// The first word of a line.
#[derive(Clone, Copy, Debug, PartialEq, Eq, Drop)]
pub(crate) enum Kind {
    Heap,
    Member,
    Words,
    End,
    Why,
    Referrers,
    Hidden,
    Lost,
    Dropped,
    Untold,
}

/// The words of a line.
#[derive(Drop)]
pub(crate) struct Row {
    pub kind: Kind,
    /// The numbers after the first word.
    pub numbers: Places,
    /// The numbers after a word `but`, if it is there.
    pub but: Places,
}

/// The kind of a word that may begin a line.
fn read_kind(word: &[u8]) -> Option<Kind>
    ensures found { IfSome result (λ kind. word.now ≡ kind_text kind) }
    ensures none { IfNone result ((kind : Kind) → word.now ≢ kind_text kind) }
{
    if word == b"m".as_slice() {
        return Some(Kind::Member);
    }
    if word == b"u".as_slice() {
        return Some(Kind::Words);
    }
    if word == b"heap".as_slice() {
        return Some(Kind::Heap);
    }
    if word == b"end".as_slice() {
        return Some(Kind::End);
    }
    if word == b"why".as_slice() {
        return Some(Kind::Why);
    }
    if word == b"referrers".as_slice() {
        return Some(Kind::Referrers);
    }
    if word == b"hidden".as_slice() {
        return Some(Kind::Hidden);
    }
    if word == b"lost".as_slice() {
        return Some(Kind::Lost);
    }
    if word == b"drop".as_slice() {
        return Some(Kind::Dropped);
    }
    if word == b"untold".as_slice() {
        return Some(Kind::Untold);
    }
    None
}

/// As many numbers at the front as there are, each after a space, and the bytes after them.
fn read_numbers(alloc: Global, bytes: &[u8]) -> Result<(Places, &[u8]), AllocError>
    requires { IsTail bytes.now }
    ensures found { IfOk result (λ read. bytes.now ≡ all_spaced read.0 ++ read.1.now) }
    ensures small { IfOk result (λ read. AreSmall read.0) }
    ensures tail { IfOk result (λ read. IsTail read.1.now) }
    ensures stops { IfOk result (λ read. (number : ℕ) (rest : List ℕ) → number < 2 ^ 64
        → IsTail rest → read.1.now ≢ spaced number ++ rest) }
{
    let mut numbers = Places::new(Vec::new(alloc));
    let mut rest = bytes;
    'numbers: while let Some((number, after)) = read_spaced(rest) {
        numbers.push(number as usize)?;
        rest = after;
    }
    Ok((numbers, rest))
}

/// The numbers after a word `but`, if that is all; no numbers for an empty input.
fn read_but(alloc: Global, bytes: &[u8]) -> Result<Option<Places>, AllocError>
    ensures found { IfOk result (λ read. IfSome read (λ but. bytes.now ≡ but_text but)) }
    ensures small { IfOk result (λ read. IfSome read (λ but. AreSmall but)) }
    ensures none { IfOk result (λ read. IfNone read ((but : List ℕ) → AreSmall but
        → bytes.now ≢ but_text but)) }
{
    if bytes.is_empty() {
        return Ok(Some(Places::new(Vec::new(alloc))));
    }
    let Some(rest) = after(b" but", bytes) else {
        return Ok(None);
    };
    let (word, tail) = cut_word(rest);
    if !word.is_empty() {
        return Ok(None);
    }
    let (but, left) = read_numbers(alloc, tail)?;
    if left.is_empty() && !but.is_empty() {
        Ok(Some(but))
    } else {
        Ok(None)
    }
}

/// The words of a line without its line feed.
pub(crate) fn read_row(alloc: Global, raw: &[u8]) -> Result<Option<Row>, AllocError>
    ensures found { IfOk result (λ read. IfSome read (λ row. raw.now ≡ raw_of row)) }
    ensures fits { IfOk result (λ read. IfSome read (λ row. IsRow row)) }
    ensures none { IfOk result (λ read. IfNone read ((row : Row) → IsRow row
        → raw.now ≢ raw_of row)) }
{
    let (word, tail) = cut_word(raw);
    let Some(kind) = read_kind(word) else {
        return Ok(None);
    };
    let (numbers, rest) = read_numbers(alloc, tail)?;
    let Some(but) = read_but(alloc, rest)? else {
        return Ok(None);
    };
    Ok(Some(Row { kind, numbers, but }))
}
