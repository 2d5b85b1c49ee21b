//! Reads records from their text.
ghost use Rattle.std.specs.Prelude.{◌≡◌, Ok, Some, List, IfOk, IfSome, IfNone};
ghost use Rattle.std.specs.List.{All};
ghost use Rattle.cg_records.specs.Reading.{draft as draft_of};
ghost use Rattle.cg_records.specs.Text.{Spells, IsSmall};
ghost use Rattle.cg_records.specs.declared.graph.Rec.{Rec};
ghost use Rattle.cg_records.specs.declared.draft.Stage.TheVariants.{Ended};

use crate::draft::{Draft, Stage, take_line};
use crate::graph::Records;
use crate::line::read_line;
use std::alloc::{AllocError, Global};

/// The records of a draft after the end line.
fn records_of(draft: Draft) -> Option<Records>
    ensures found { IfSome result (λ records. draft ≡ draft_of records Ended) }
    ensures none { IfNone result (draft.stage ≡ Ended → ⊥) }
{
    let Draft { records, stage } = draft;
    match stage {
        Stage::Ended => Some(records),
        _ => None,
    }
}

/// The records whose text the bytes are, line by line.
fn read_lines(alloc: Global, bytes: &[u8]) -> Result<Option<Records>, AllocError>
    ensures found { IfOk result (λ read. IfSome read (λ records. Spells bytes.now records
        × All IsSmall records)) }
    ensures none { IfOk result (λ read. IfNone read ((records : List Rec) → All IsSmall records
        → Spells bytes.now records → ⊥)) }
{
    let mut draft = Draft {
        records: Records::new(Vec::new(alloc)),
        stage: Stage::Between,
    };
    let mut rest = bytes;
    'lines: while !rest.is_empty() {
        let Some((line, after)) = read_line(rest) else {
            return Ok(None);
        };
        let Some(next) = take_line(alloc, draft, line)? else {
            return Ok(None);
        };
        draft = next;
        rest = after;
    }
    Ok(records_of(draft))
}

/// The records whose text the bytes are, or `None` if there are none.
///
/// Takes time and memory linear in the bytes. Returns `AllocError` only if memory runs out.
pub fn read_records(alloc: Global, bytes: &[u8]) -> Result<Option<Records>, AllocError>
    // The bytes are the text of the records read.
    ensures found { IfOk result (λ read. IfSome read (λ records. Spells bytes.now records
        × All IsSmall records)) }
    // If the bytes are the text of some records, those are read.
    ensures only { (records : List Rec) → Spells bytes.now records → All IsSmall records
        → IfOk result (λ read. read ≡ Some records) }
    // `None` is returned only if the bytes are the text of no records.
    ensures none { IfOk result (λ read. IfNone read ((records : List Rec) → All IsSmall records
        → Spells bytes.now records → ⊥)) }
{
    read_lines(alloc, bytes)
}
