//! Reads a snapshot from its text.
ghost use Rattle.std.specs.Prelude.{◌≡◌, ◌+◌, ◌<◌, [], ◌++◌, length, Some, None, ℕ, List, IfOk, IfSome, IfNone};
ghost use Rattle.cg_snapshot.specs.Text.{Reads};
ghost use Rattle.cg_snapshot.specs.Reading.{draft as draft_of};
ghost use Rattle.cg_snapshot.specs.declared.draft.Stage.TheVariants.{Behind};

use crate::draft::{Draft, Stage, take_line};
use crate::heap::Members;
use crate::line::read_line;
use crate::question::Questions;
use cg_records::place_of;
use std::alloc::{AllocError, Global};

/// A recorded heap, and the questions about it.
#[derive(Drop)]
pub struct Snapshot {
    pub members: Members,
    pub questions: Questions,
}

/// The result of reading bytes.
#[derive(Drop)]
pub enum Reading {
    /// They are the text of a snapshot.
    Read(Snapshot),
    /// They are not such a text; the number of the first bad line, from 1.
    BadLine(u64),
}

/// The snapshot of a draft whose text may end here.
fn snapshot_of(draft: Draft) -> Option<Snapshot>
    ensures found { IfSome result (λ s. draft ≡ draft_of s.members s.questions Behind) }
    ensures none { IfNone result (draft.stage ≡ Behind → ⊥) }
{
    let Draft {
        members,
        questions,
        stage,
    } = draft;
    match stage {
        Stage::Behind => Some(Snapshot { members, questions }),
        _ => None,
    }
}

/// Reads the snapshot whose text the bytes are, or reports the first line with which no text
/// continues.
///
/// Takes time and memory linear in the bytes. `AllocError` means memory ran out.
pub fn read_snapshot(alloc: Global, bytes: &[u8]) -> Result<Reading, AllocError>
    ensures { IfOk result (λ reading. Reads bytes.now reading) }
{
    let mut draft = Draft {
        members: Members::new(Vec::new(alloc)),
        questions: Questions::new(Vec::new(alloc)),
        stage: Stage::Before,
    };
    let mut rest = bytes;
    let mut number: u64 = 1;
    'lines: while !rest.is_empty() {
        let end = place_of(rest, b'\n');
        if end == rest.len() {
            return Ok(Reading::BadLine(number));
        }
        let Some(line) = read_line(alloc, &rest[..end])? else {
            return Ok(Reading::BadLine(number));
        };
        let Some(next) = take_line(alloc, draft, line)? else {
            return Ok(Reading::BadLine(number));
        };
        draft = next;
        rest = &rest[end + 1..];
        number += 1;
    }
    match snapshot_of(draft) {
        Some(snapshot) => Ok(Reading::Read(snapshot)),
        None => Ok(Reading::BadLine(number)),
    }
}
