//! Writing the lines of an expansion.
ghost use Rattle.std.specs.Prelude.{◌≡◌, ◌++◌, map, flat_map, OnOk};
ghost use Rattle.cg_script.specs.Canonical.{behind_space, joined};
ghost use Rattle.cg_weakcoll.specs.Words.{word_bytes, line_of};
ghost use Rattle.cg_weakcoll.specs.Expansion.{wmap_lines, wset_lines, wget_lines, wdrop_lines, exit_lines, watch_lines, finalize_lines, call_line, call_lines, form_lines, written_by, with_feed, with_feeds};

use crate::form::{Form, word_in};
use itoa::Buffer;
use std::alloc::AllocError;

/// A word of a written line.
#[derive(Clone, Copy)]
pub(crate) enum Word<'a> {
    /// These bytes.
    Text(&'a [u8]),
    /// A name generated from the line's number; this is what precedes the number.
    Own(&'a [u8], u32),
}

fn write_word(out: &mut Vec<u8>, word: Word<'_>) -> Result<(), AllocError>
    ensures { OnOk result (out.new.items ≡ out.old.items ++ word_bytes word.entry) }
{
    match word {
        Word::Text(text) => out.extend_from_slice(text),
        Word::Own(front, number) => {
            out.extend_from_slice(front)?;
            out.extend_from_slice(Buffer::new().format(number).as_bytes())
        }
    }
}

fn write_behind(out: &mut Vec<u8>, words: &[Word<'_>]) -> Result<(), AllocError>
    ensures { OnOk result (out.new.items ≡ out.old.items ++ flat_map behind_space
        (map word_bytes words.now)) }
{
    'words: for word in words {
        out.push(b' ')?;
        write_word(out, *word)?;
    }
    Ok(())
}

/// Writes a line of these words, with one space between them.
fn write_words(out: &mut Vec<u8>, words: &[Word<'_>]) -> Result<(), AllocError>
    ensures { OnOk result (out.new.items ≡ out.old.items
        ++ with_feed (joined (map word_bytes words.now))) }
{
    if let Some((first, others)) = words.split_first() {
        write_word(out, *first)?;
        write_behind(out, others)?;
    }
    out.push(b'\n')?;
    Ok(())
}

/// Writes these lines.
fn write_lines(out: &mut Vec<u8>, lines: &[&[Word<'_>]]) -> Result<(), AllocError>
    ensures { OnOk result (out.new.items ≡ out.old.items ++ with_feeds (map line_of lines.now)) }
{
    'lines: for line in lines {
        write_words(out, line)?;
    }
    Ok(())
}

/// Writes `x = wmap`.
fn write_wmap(out: &mut Vec<u8>, x: &[u8]) -> Result<(), AllocError>
    ensures { OnOk result (out.new.items ≡ out.old.items
        ++ with_feeds (map joined (wmap_lines x.now))) }
{
    write_lines(
        out,
        &[&[Word::Text(x), Word::Text(b"="), Word::Text(b"dict")]],
    )
}

/// Writes `wset M k v`.
fn write_wset<'a>(
    out: &mut Vec<u8>,
    number: u32,
    dict: &'a [u8],
    key: &'a [u8],
    value: &'a [u8],
) -> Result<(), AllocError>
    ensures { OnOk result (out.new.items ≡ out.old.items
        ++ with_feeds (map joined (wset_lines number dict.now key.now value.now))) }
{
    let weak = Word::Own(b"wv_", number);
    write_lines(
        out,
        &[
            &[
                weak,
                Word::Text(b"="),
                Word::Text(b"ref"),
                Word::Text(value),
            ],
            &[Word::Text(b"put"), Word::Text(dict), Word::Text(key), weak],
            &[Word::Text(b"del"), weak],
        ],
    )
}

/// Writes `x = wget M k`.
fn write_wget<'a>(
    out: &mut Vec<u8>,
    x: &'a [u8],
    dict: &'a [u8],
    key: &'a [u8],
) -> Result<(), AllocError>
    ensures { OnOk result (out.new.items ≡ out.old.items
        ++ with_feeds (map joined (wget_lines x.now dict.now key.now))) }
{
    write_lines(
        out,
        &[
            &[Word::Text(x), Word::Text(b"="), Word::Text(b"none")],
            &[
                Word::Text(x),
                Word::Text(b"="),
                Word::Text(b"get"),
                Word::Text(dict),
                Word::Text(key),
            ],
            &[
                Word::Text(x),
                Word::Text(b"="),
                Word::Text(b"deref"),
                Word::Text(x),
            ],
        ],
    )
}

/// Writes `wdrop M k`.
fn write_wdrop<'a>(out: &mut Vec<u8>, dict: &'a [u8], key: &'a [u8]) -> Result<(), AllocError>
    ensures { OnOk result (out.new.items ≡ out.old.items
        ++ with_feeds (map joined (wdrop_lines dict.now key.now))) }
{
    write_lines(
        out,
        &[&[Word::Text(b"drop"), Word::Text(dict), Word::Text(key)]],
    )
}

/// Writes the procedure of a `finalize` line.
fn write_exit(out: &mut Vec<u8>, number: u32) -> Result<(), AllocError>
    ensures { OnOk result (out.new.items ≡ out.old.items
        ++ with_feeds (map joined (exit_lines number))) }
{
    let object = Word::Own(b"wv_o_", number);
    let watch = Word::Own(b"wv_w_", number);
    write_lines(
        out,
        &[
            &[Word::Text(b"def"), Word::Own(b"wv_p_", number)],
            &[object, Word::Text(b"="), Word::Text(b"deref"), watch],
            &[Word::Text(b"quit"), object],
            &[Word::Text(b"del"), watch],
            &[Word::Text(b"del"), object],
            &[Word::Text(b"call"), Word::Own(b"wv_f_", number)],
            &[Word::Text(b"end")],
        ],
    )
}

/// Writes what follows the procedure: its function, the function to call, and the weak reference
/// with the callback.
fn write_watch<'a>(
    out: &mut Vec<u8>,
    number: u32,
    object: &'a [u8],
    function: &'a [u8],
) -> Result<(), AllocError>
    ensures { OnOk result (out.new.items ≡ out.old.items
        ++ with_feeds (map joined (watch_lines number object.now function.now))) }
{
    let own = Word::Own(b"wv_f_", number);
    write_lines(
        out,
        &[
            &[
                Word::Own(b"wv_g_", number),
                Word::Text(b"="),
                Word::Text(b"func"),
                Word::Own(b"wv_p_", number),
            ],
            &[own, Word::Text(b"="), Word::Text(function)],
            &[
                Word::Own(b"wv_w_", number),
                Word::Text(b"="),
                Word::Text(b"ref"),
                Word::Text(object),
                own,
            ],
        ],
    )
}

/// Writes `finalize y f`.
fn write_finalize(
    out: &mut Vec<u8>,
    number: u32,
    object: &[u8],
    function: &[u8],
) -> Result<(), AllocError>
    ensures { OnOk result (out.new.items ≡ out.old.items
        ++ with_feeds (map joined (finalize_lines number object.now function.now))) }
{
    write_exit(out, number)?;
    write_watch(out, number, object, function)?;
    Ok(())
}

/// Writes the expansion of the line with this number, this form and these words.
fn write_form(out: &mut Vec<u8>, form: Form, number: u32, words: &[&[u8]]) -> Result<(), AllocError>
    ensures { OnOk result (out.new.items ≡ out.old.items
        ++ with_feeds (map joined (form_lines form number (map (λ w. w.now) words.now)))) }
{
    match form {
        Form::MakeMap => write_wmap(out, word_in(words, 0)),
        Form::Set => write_wset(
            out,
            number,
            word_in(words, 1),
            word_in(words, 2),
            word_in(words, 3),
        ),
        Form::Get => write_wget(out, word_in(words, 0), word_in(words, 3), word_in(words, 4)),
        Form::Remove => write_wdrop(out, word_in(words, 1), word_in(words, 2)),
        Form::Finalize => write_finalize(out, number, word_in(words, 1), word_in(words, 2)),
    }
}

/// Copies a line.
fn write_copy(out: &mut Vec<u8>, line: &[u8]) -> Result<(), AllocError>
    ensures { OnOk result (out.new.items ≡ out.old.items ++ with_feed line.now) }
{
    out.extend_from_slice(line)?;
    out.push(b'\n')?;
    Ok(())
}

/// Writes the expansion of the line with this number.
pub(crate) fn write_line(
    out: &mut Vec<u8>,
    form: Option<Form>,
    number: u32,
    line: &[u8],
    words: &[&[u8]],
) -> Result<(), AllocError>
    ensures { OnOk result (out.new.items ≡ out.old.items
        ++ with_feeds (written_by form number line.now (map (λ w. w.now) words.now))) }
{
    match form {
        Some(form) => write_form(out, form, number, words),
        None => write_copy(out, line),
    }
}

/// Writes the final call for the `finalize` line with this number.
fn write_call(out: &mut Vec<u8>, number: u32) -> Result<(), AllocError>
    ensures { OnOk result (out.new.items ≡ out.old.items ++ with_feed (joined (call_line number))) }
{
    write_words(out, &[Word::Text(b"call"), Word::Own(b"wv_g_", number)])
}

/// Writes the final calls for the `finalize` lines with these numbers, last one first.
pub(crate) fn write_calls(out: &mut Vec<u8>, mut numbers: Vec<u32>) -> Result<(), AllocError>
    ensures { OnOk result (out.new.items ≡ out.old.items ++ with_feeds (call_lines numbers.items)) }
{
    'calls: while let Some(number) = numbers.pop() {
        write_call(out, number)?;
    }
    Ok(())
}
