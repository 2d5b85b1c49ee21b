//! A whole extended script, line by line.
ghost use Rattle.std.specs.Prelude.{◌≡◌, ◌<◌, ◌++◌, length, IfOk, IfErr, OnOk, OnErr, Ok, Err, None};
ghost use Rattle.cg_script.specs.Pieces.{words_of, lines_of};
ghost use Rattle.cg_weakcoll.specs.Expansion.{with_feeds, written, written_from, finalize_number, finalize_numbers_from, inside_after, fault_of, first_bad_from, first_bad, call_lines, expansion, IsFirstBad};

use crate::fault::{fault_by, inside_after, is_finalize};
use crate::form::form_of;
use crate::pieces::{cut, find_words};
use crate::write::{write_calls, write_line};
use cg_script::ScriptFault;
use std::alloc::{AllocError, Global};

/// The output so far, the numbers of the `finalize` lines, and whether a procedure is open.
#[derive(Drop)]
struct Draft {
    text: Vec<u8>,
    finalizes: Vec<u32>,
    inside: bool,
}

/// Takes the line with this number, or answers what is wrong with it. All lines share one list for
/// their words.
fn take_line<'a>(
    draft: &mut Draft,
    number: u32,
    line: &'a [u8],
    words: &mut Vec<&'a [u8]>,
) -> Result<Option<u8>, AllocError>
    ensures fault { IfOk result (λ code. code ≡ fault_of draft.old.inside number line.now) }
    ensures text { result ≡ Ok None → draft.new.text.items ≡ draft.old.text.items
        ++ with_feeds (written number line.now) }
    ensures finalizes { result ≡ Ok None → draft.new.finalizes.items ≡ draft.old.finalizes.items
        ++ finalize_number number line.now }
    ensures inside { result ≡ Ok None → draft.new.inside ≡ inside_after draft.old.inside
        (words_of line.now) }
{
    find_words(line, words)?;
    let words = words.as_slice();
    let form = form_of(words);
    if let Some(code) = fault_by(form, draft.inside, number, line, words) {
        return Ok(Some(code));
    }
    write_line(&mut draft.text, form, number, line, words)?;
    if is_finalize(form) {
        draft.finalizes.push(number)?;
    }
    draft.inside = inside_after(draft.inside, words);
    Ok(None)
}

/// Takes all lines.
fn take_lines(draft: &mut Draft, alloc: Global, bytes: &[u8]) -> Result<(), ScriptFault>
    requires few { length bytes.now < 4294967295 }
    ensures good { OnOk result (first_bad_from draft.old.inside 1 (lines_of bytes.now) ≡ None) }
    ensures fault { IfErr result (λ fault. IsFirstBad fault (first_bad_from draft.old.inside 1
        (lines_of bytes.now))) }
    ensures text { OnOk result (draft.new.text.items ≡ draft.old.text.items
        ++ with_feeds (written_from 1 (lines_of bytes.now))) }
    ensures finalizes { OnOk result (draft.new.finalizes.items ≡ draft.old.finalizes.items
        ++ finalize_numbers_from 1 (lines_of bytes.now)) }
{
    let mut number: u32 = 1;
    let mut rest = bytes;
    let mut words = Vec::new(alloc);
    'lines: while !rest.is_empty() {
        let (line, after) = cut(rest, b'\n');
        match take_line(draft, number, line, &mut words) {
            Ok(None) => {
                number += 1;
                rest = after;
            }
            Ok(Some(code)) => return Err(ScriptFault::Bad { line: number, code }),
            Err(AllocError) => return Err(ScriptFault::OutOfMemory),
        }
    }
    Ok(())
}

/// The text, with the final calls appended.
fn finish(draft: Draft) -> Result<Vec<u8>, ScriptFault>
    ensures text { IfOk result (λ text. text.items ≡ draft.text.items
        ++ with_feeds (call_lines draft.finalizes.items)) }
    ensures memory { OnErr result (result ≡ Err ScriptFault.OutOfMemory) }
{
    let mut text = draft.text;
    match write_calls(&mut text, draft.finalizes) {
        Ok(()) => Ok(text),
        Err(AllocError) => Err(ScriptFault::OutOfMemory),
    }
}

/// The expansion of an extended script. Lines with weak value maps and exit finalizers become lines
/// of the base language, all others are copied, and at the end comes a call for each exit
/// finalizer, last one first. Lines end with line feeds and count from 1.
///
/// `Bad` has the first bad line and its code. For a line with `wmap`, `wset`, `wget`, `wdrop` or
/// `finalize`: 1 if it has a byte that is not printable ASCII, 5 if it is longer than 1,000 bytes
/// or comes after the first 400,000 lines, 3 if it has the wrong number of words, 4 if a word has
/// the wrong form for its place or a look-up names its own variable, 7 if a `finalize` is inside a
/// procedure. For any line: 4 if a word begins with `wv_`, `del=wv_` or `legacy=wv_`. `OutOfMemory`
/// may come for any bytes. (Ours.)
#[tactic(auto, unfolding(crate::specs::Expansion::first_bad))]
pub fn expand(alloc: Global, bytes: &[u8]) -> Result<Vec<u8>, ScriptFault>
    requires few { length bytes.now < 4294967295 }
    ensures ok { IfOk result (λ text. text.items ≡ expansion bytes.now) }
    ensures good { OnOk result (first_bad bytes.now ≡ None) }
    ensures fault { IfErr result (λ fault. IsFirstBad fault (first_bad bytes.now)) }
{
    let mut draft = Draft {
        text: Vec::new(alloc),
        finalizes: Vec::new(alloc),
        inside: false,
    };
    match take_lines(&mut draft, alloc, bytes) {
        Ok(()) => finish(draft),
        Err(fault) => Err(fault),
    }
}
