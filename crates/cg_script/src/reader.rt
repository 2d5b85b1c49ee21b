//! A whole script, line by line.
ghost use Rattle.std.specs.Prelude.{◌≡◌, ◌+◌, ◌<◌, ◌≤◌, [], ◌∷◌, ℕ, List, length, map, take, true, IfOk, IfErr, OnOk};
ghost use Rattle.std.specs.List.{list_all};
ghost use Rattle.cg_script.specs.Texts.{TextsAreKnown};
ghost use Rattle.cg_script.specs.Words.{is_printable};
ghost use Rattle.cg_script.specs.Pieces.{lines_of, words_of};
ghost use Rattle.cg_script.specs.Reading.{reading, spells};
ghost use Rattle.cg_script.specs.Views.{reading_after, IsSmall};
ghost use Rattle.cg_script.specs.Faults.{IsFault};
ghost use Rattle.cg_script.specs.Spelled.{IsSpelled};

use crate::draft::{Draft, empty, take_words};
use crate::fault::ScriptFault;
use crate::item::Script;
use crate::limits::{MOST_FOUND, MOST_LINES, MOST_TEXTS};
use crate::line::{Line, read_line};
use crate::part::Parts;
use crate::pieces::cut_line;
use std::alloc::Global;

/// A procedure without its `end`.
const NO_END: u8 = 7;

/// Takes the line with this number by its words; its bytes are all printable or not. All lines
/// share one list for their parts.
fn take_line(
    draft: &mut Draft,
    number: u32,
    line: &[u8],
    printable: bool,
    words: &[&[u8]],
    parts: &mut Parts,
) -> Result<(), ScriptFault>
    requires printable { printable ≡ list_all is_printable line.now }
    requires words { printable ≡ true → map (λ w. w.now) words.now
        ≡ take MOST_FOUND (words_of line.now) }
    requires small { IsSmall draft.old number }
    ensures ok { OnOk result ((lines : List (List ℕ)) → reading_after draft.new (number + 1) lines
        ≡ reading_after draft.old number (line.now ∷ lines)) }
    ensures small { OnOk result (IsSmall draft.new (number + 1)) }
    ensures fault { IfErr result (λ fault. (lines : List (List ℕ))
        → IsFault fault (reading_after draft.old number (line.now ∷ lines))) }
{
    parts.clear();
    match read_line(number, line, printable, words) {
        Line::Passed => Ok(()),
        Line::Bad(code) => Err(ScriptFault::Bad { line: number, code }),
        Line::Of(form) => match take_words(draft, form, words, parts) {
            Ok(None) => Ok(()),
            Ok(Some(code)) => Err(ScriptFault::Bad { line: number, code }),
            Err(_) => Err(ScriptFault::OutOfMemory),
        },
    }
}

/// Takes all lines, and answers the number of the line after them.
fn take_lines(draft: &mut Draft, bytes: &[u8]) -> Result<u32, ScriptFault>
    requires { IsSmall draft.old 1 }
    ensures ok { IfOk result (λ number. reading_after draft.new number [] ≡ reading_after draft.old
        1 (lines_of bytes.now)) }
    ensures small { IfOk result (λ number. IsSmall draft.new number) }
    ensures fault { IfErr result (λ fault. IsFault fault (reading_after draft.old 1 (lines_of bytes.now))) }
{
    let mut number: u32 = 1;
    let mut rest = bytes;
    // One list serves all lines: cleared, it keeps its room, which is enough for any line.
    let Ok(mut words) = Vec::with_capacity(draft.alloc, MOST_FOUND) else {
        return Err(ScriptFault::OutOfMemory);
    };
    let mut parts = Vec::new(draft.alloc);
    'lines: while !rest.is_empty() {
        words.clear();
        let (line, after, printable) = cut_line(rest, &mut words);
        match take_line(draft, number, line, printable, words.as_slice(), &mut parts) {
            Ok(()) => {
                number += 1;
                rest = after;
            }
            Err(fault) => return Err(fault),
        }
    }
    Ok(number)
}

/// The script, unless a procedure is still open.
fn finish(draft: Draft, number: u32) -> Result<Script, ScriptFault>
    requires { IsSmall draft number }
    ensures ok { IfOk result (λ script. reading_after draft number []
        ≡ spells script.names script.items) }
    ensures fault { IfErr result (λ fault. IsFault fault (reading_after draft number [])) }
    ensures few_texts { IfOk result (λ script. length script.names ≤ MOST_TEXTS) }
    ensures few_items { IfOk result (λ script. length script.items ≤ MOST_LINES) }
{
    if draft.begun.is_some() {
        return Err(ScriptFault::Bad {
            line: number,
            code: NO_END,
        });
    }
    Ok(Script {
        names: draft.names.into_names(),
        items: draft.items,
    })
}

/// The script that the bytes spell. Lines end with line feeds, and count from 1.
///
/// `Bad` has the first bad line and its code: 1 if the line has a byte that is not printable ASCII,
/// 5 if it is longer than 1,024 bytes, has more than 64 words or the number 400,001, 2 if its form
/// is unknown, 3 if it has the wrong number of words, 4 if a word has the wrong form for its place,
/// 7 if a declaration is in the wrong place, a profile follows another line, or a procedure is open
/// at the end, 8 if a procedure, a class, the budget or the shutdown exists already, 6 if no
/// earlier line defines a procedure or class. `OutOfMemory` may come for any bytes. (Ours.)
pub fn parse(alloc: Global, bytes: &[u8]) -> Result<Script, ScriptFault>
    // The script is exactly what the bytes spell, and the fault is that of their first bad line.
    ensures ok { IfOk result (λ script. reading bytes.now ≡ spells script.names script.items) }
    ensures fault { IfErr result (λ fault. IsFault fault (reading bytes.now)) }

    // What the layers above rely on.
    ensures known { IfOk result TextsAreKnown }
    ensures few_texts { IfOk result (λ script. length script.names ≤ MOST_TEXTS) }
    ensures few_items { IfOk result (λ script. length script.items ≤ MOST_LINES) }
    ensures spelled { IfOk result IsSpelled }
{
    let mut draft = empty(alloc);
    match take_lines(&mut draft, bytes) {
        Ok(number) => finish(draft, number),
        Err(fault) => Err(fault),
    }
}
