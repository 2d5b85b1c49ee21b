//! What a line says.
ghost use Rattle.std.specs.Prelude.{◌≡◌, ◌≢◌, ℕ, List, IfOk, IfSome, IfNone};
ghost use Rattle.cg_snapshot.specs.Rows.{IsRow};
ghost use Rattle.cg_snapshot.specs.Lines.{raw_line, IsLine};
ghost use Rattle.cg_snapshot.specs.Meant.{mark_in, only, bare_line, meant_member, meant_plain, meant_but, meant};

use crate::places::Places;
use crate::question::Question;
use crate::row::{Kind, Row, read_row};
use std::alloc::{AllocError, Global};

/// Every member has fewer bytes than this.
const TOO_MANY_BYTES: u64 = 68_719_476_736;

/// A line of a snapshot.
#[derive(Drop)]
pub(crate) enum Line {
    /// The heap begins.
    Opens,
    /// A member: in-degree, bytes, whether it is tracked, whether its class has a legacy finalizer,
    /// references.
    Tells(u64, u64, bool, bool, Places),
    /// The untold words of the last member.
    Adds(Places),
    /// The heap ends.
    Closes,
    /// A question.
    Asks(Question),
}

/// The mark that a number denotes.
fn mark_of(number: usize) -> Option<bool>
    ensures { result ≡ mark_in number }
{
    if number == 0 {
        return Some(false);
    }
    if number == 1 {
        return Some(true);
    }
    None
}

/// The single element of a slice.
fn only_of(numbers: &[usize]) -> Option<usize>
    ensures { result ≡ only numbers.now }
{
    if numbers.len() == 1 {
        Some(numbers[0])
    } else {
        None
    }
}

/// A line without numbers.
fn bare(numbers: &Places, line: Line) -> Option<Line>
    ensures { result ≡ bare_line line numbers.now }
{
    if numbers.is_empty() { Some(line) } else { None }
}

fn member_line(alloc: Global, numbers: &[usize]) -> Result<Option<Line>, AllocError>
    ensures { IfOk result (λ read. read ≡ meant_member numbers.now) }
{
    if numbers.len() < 4 {
        return Ok(None);
    }
    let size = numbers[1] as u64;
    if size >= TOO_MANY_BYTES {
        return Ok(None);
    }
    let Some(tracked) = mark_of(numbers[2]) else {
        return Ok(None);
    };
    let Some(legacy) = mark_of(numbers[3]) else {
        return Ok(None);
    };
    let refs = Places::from_slice(alloc, &numbers[4..])?;
    let degree = numbers[0] as u64;
    Ok(Some(Line::Tells(degree, size, tracked, legacy, refs)))
}

/// The line of a word and numbers.
fn plain_line(alloc: Global, kind: Kind, numbers: Places) -> Result<Option<Line>, AllocError>
    ensures { IfOk result (λ read. read ≡ meant_plain kind numbers) }
{
    match kind {
        Kind::Member => member_line(alloc, numbers.as_slice()),
        Kind::Words => {
            if numbers.is_empty() {
                return Ok(None);
            }
            Ok(Some(Line::Adds(numbers)))
        }
        Kind::Dropped => {
            if numbers.is_empty() {
                return Ok(None);
            }
            Ok(Some(Line::Asks(Question::Dropped(numbers))))
        }
        Kind::Why => match only_of(numbers.as_slice()) {
            Some(place) => Ok(Some(Line::Asks(Question::Why(place, Places::new(Vec::new(alloc)))))),
            None => Ok(None),
        },
        Kind::Referrers => match only_of(numbers.as_slice()) {
            Some(place) => Ok(Some(Line::Asks(Question::Referrers(place)))),
            None => Ok(None),
        },
        Kind::Heap => Ok(bare(&numbers, Line::Opens)),
        Kind::End => Ok(bare(&numbers, Line::Closes)),
        Kind::Hidden => Ok(bare(&numbers, Line::Asks(Question::Hidden))),
        Kind::Lost => Ok(bare(&numbers, Line::Asks(Question::Lost))),
        Kind::Untold => Ok(bare(&numbers, Line::Asks(Question::Untold))),
    }
}

/// The line of a word, numbers, and numbers after a word `but`.
fn but_line(kind: Kind, numbers: &[usize], but: Places) -> Option<Line>
    ensures { result ≡ meant_but kind numbers.now but }
{
    match kind {
        Kind::Why => match only_of(numbers) {
            Some(place) => Some(Line::Asks(Question::Why(place, but))),
            None => None,
        },
        _ => None,
    }
}

fn line_of(alloc: Global, row: Row) -> Result<Option<Line>, AllocError>
    ensures { IfOk result (λ read. read ≡ meant row) }
{
    let Row { kind, numbers, but } = row;
    if but.is_empty() {
        return plain_line(alloc, kind, numbers);
    }
    Ok(but_line(kind, numbers.as_slice(), but))
}

/// What a line says, without its line feed.
pub(crate) fn read_line(alloc: Global, raw: &[u8]) -> Result<Option<Line>, AllocError>
    ensures found { IfOk result (λ read. IfSome read (λ line. raw.now ≡ raw_line line)) }
    ensures fits { IfOk result (λ read. IfSome read (λ line. IsLine line)) }
    ensures none { IfOk result (λ read. IfNone read ((line : Line) → IsLine line
        → raw.now ≢ raw_line line)) }
{
    match read_row(alloc, raw)? {
        Some(row) => line_of(alloc, row),
        None => Ok(None),
    }
}
