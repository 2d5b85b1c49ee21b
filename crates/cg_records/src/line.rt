//! The lines of records, read one by one.
ghost use Rattle.std.specs.Prelude.{◌≡◌, ◌≢◌, ◌<◌, ◌≤◌, ◌^◌, ◌++◌, ◌∷◌, ℕ, List, decimal, IfSome, IfNone, MatchOption};
ghost use Rattle.cg_records.specs.Lines.{word_text, line_text, IsLine};

use crate::number::read_number;

/// The start of a line up to its first number, or the whole line if it has none.
#[derive(Clone, Copy)]
pub(crate) enum Word {
    Record,
    First,
    Second,
    Member,
    Reference,
    Lost,
    Legacy,
    Cut,
    Stop,
    End,
}

/// A line of records.
#[derive(Clone, Copy)]
pub(crate) enum Line {
    /// The record of a collection of this generation begins.
    Record(u8),
    /// Its first graph begins.
    First,
    /// Its second graph begins.
    Second,
    Member {
        serial: u64,
        degree: u64,
        legacy: bool,
    },
    /// The previous member refers to this member.
    Reference(u64),
    Lost(u64),
    Legacy(u64),
    /// The record ends without a second graph.
    Cut,
    /// The record ends with its second graph.
    Stop,
    /// The records end.
    End,
}

/// The bytes after a prefix.
fn after<'a>(prefix: &[u8], bytes: &'a [u8]) -> Option<&'a [u8]>
    ensures { MatchOption result ((rest : List ℕ) → bytes.now ≢ prefix.now ++ rest)
        (λ rest. bytes.now ≡ prefix.now ++ rest.now) }
{
    bytes.strip_prefix(prefix)
}

/// The word at the front, and the bytes after it.
fn read_word(bytes: &[u8]) -> Option<(Word, &[u8])>
    ensures found { IfSome result (λ read. bytes.now ≡ word_text read.0 ++ read.1.now) }
    ensures none { IfNone result ((word : Word) (rest : List ℕ) → bytes.now ≢ word_text word
        ++ rest) }
{
    if let Some(rest) = after(b"r ", bytes) {
        return Some((Word::Reference, rest));
    }
    if let Some(rest) = after(b"m ", bytes) {
        return Some((Word::Member, rest));
    }
    if let Some(rest) = after(b"lost ", bytes) {
        return Some((Word::Lost, rest));
    }
    if let Some(rest) = after(b"legacy ", bytes) {
        return Some((Word::Legacy, rest));
    }
    if let Some(rest) = after(b"record ", bytes) {
        return Some((Word::Record, rest));
    }
    if let Some(rest) = after(b"graph 1\n", bytes) {
        return Some((Word::First, rest));
    }
    if let Some(rest) = after(b"graph 2\n", bytes) {
        return Some((Word::Second, rest));
    }
    if let Some(rest) = after(b"cut\n", bytes) {
        return Some((Word::Cut, rest));
    }
    if let Some(rest) = after(b"stop\n", bytes) {
        return Some((Word::Stop, rest));
    }
    if let Some(rest) = after(b"end\n", bytes) {
        return Some((Word::End, rest));
    }
    None
}

/// The number that ends a line, at most `most`, and the bytes after the line.
fn read_last(bytes: &[u8], most: u64) -> Option<(u64, &[u8])>
    ensures found { IfSome result (λ read. bytes.now ≡ decimal read.0 ++ 10 ∷ read.1.now) }
    ensures few { IfSome result (λ read. read.0 ≤ most) }
    ensures none { IfNone result ((number : ℕ) (rest : List ℕ) → number ≤ most
        → bytes.now ≢ decimal number ++ 10 ∷ rest) }
{
    let (number, rest) = read_number(bytes, b'\n')?;
    if most < number {
        return None;
    }
    Some((number, rest))
}

/// A member's serial, degree and mark, and the bytes after the line.
fn read_member(bytes: &[u8]) -> Option<(u64, u64, u64, &[u8])>
    ensures found { IfSome result (λ read. bytes.now ≡ decimal read.0 ++ 32 ∷ decimal read.1 ++ 32
        ∷ decimal read.2 ++ 10 ∷ read.3.now) }
    ensures few { IfSome result (λ read. (read.0 < 2 ^ 64) × (read.1 < 2 ^ 64) × (read.2 ≤ 1)) }
    ensures none { IfNone result ((serial degree mark : ℕ) (rest : List ℕ) → serial < 2 ^ 64
        → degree < 2 ^ 64 → mark ≤ 1
        → bytes.now ≢ decimal serial ++ 32 ∷ decimal degree ++ 32 ∷ decimal mark ++ 10 ∷ rest) }
{
    let (serial, rest) = read_number(bytes, b' ')?;
    let (degree, rest) = read_number(rest, b' ')?;
    let (mark, rest) = read_last(rest, 1)?;
    Some((serial, degree, mark, rest))
}

/// The line at the front, and the bytes after it.
pub(crate) fn read_line(bytes: &[u8]) -> Option<(Line, &[u8])>
    ensures found { IfSome result (λ read. bytes.now ≡ line_text read.0 ++ read.1.now) }
    ensures fits { IfSome result (λ read. IsLine read.0) }
    ensures none { IfNone result ((line : Line) (rest : List ℕ) → IsLine line
        → bytes.now ≢ line_text line ++ rest) }
{
    let (word, rest) = read_word(bytes)?;
    match word {
        Word::Reference => {
            let (serial, rest) = read_last(rest, u64::MAX)?;
            Some((Line::Reference(serial), rest))
        }
        Word::Member => {
            let (serial, degree, mark, rest) = read_member(rest)?;
            let legacy = mark == 1;
            Some((
                Line::Member {
                    serial,
                    degree,
                    legacy,
                },
                rest,
            ))
        }
        Word::Lost => {
            let (serial, rest) = read_last(rest, u64::MAX)?;
            Some((Line::Lost(serial), rest))
        }
        Word::Legacy => {
            let (serial, rest) = read_last(rest, u64::MAX)?;
            Some((Line::Legacy(serial), rest))
        }
        Word::Record => {
            let (generation, rest) = read_last(rest, 2)?;
            Some((Line::Record(generation as u8), rest))
        }
        Word::First => Some((Line::First, rest)),
        Word::Second => Some((Line::Second, rest)),
        Word::Cut => Some((Line::Cut, rest)),
        Word::Stop => Some((Line::Stop, rest)),
        Word::End => Some((Line::End, rest)),
    }
}
