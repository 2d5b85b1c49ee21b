//! Printing a script: its canonical bytes, which are read as the same script again.
ghost use Rattle.std.specs.Prelude.{◌≡◌, ◌+◌, ◌<◌, ◌≤◌, ◌^◌, ◌++◌, ◌∷◌, [], length, map, flat_map, decimal, ◌==◌, IfOk, OnOk};
ghost use Rattle.std.specs.Fmt.{signed_decimal};
ghost use Rattle.arrayvec.specs.ArrayVec.{array_vec_len};
ghost use Rattle.cg_script.specs.declared.part.Part.TheVariants.{Value as ValueOf};
ghost use Rattle.cg_script.specs.declared.part.Said.TheVariants.{Declares, Begins, Ends};
ghost use Rattle.cg_script.specs.declared.item.Item.TheVariants.{Class as ClassItem};
ghost use Rattle.cg_script.specs.Words.{flags};
ghost use Rattle.cg_script.specs.Commands.{filled, opening as opening_of, binding as binding_of, flag_filling};
ghost use Rattle.cg_script.specs.Canonical.{text_of, name_of, value_word, count_word, part_word, key_word, words_from, filled_words, said_words, command_words, item_lines, procs_in, classes_in, names_by, behind_space, line_of_words, canonical};
ghost use Rattle.cg_script.specs.Forms.{sort_at};

use crate::command::{Command, Operand};
use crate::form::{Form, Sort, row_for, sort_in};
use crate::item::{ClassDef, Item, Script};
use crate::members::Items;
use crate::part::Part;
use crate::word::flag_word;
use arrayvec::ArrayVec;
use cg_value::Names;
use itoa::Buffer;
use std::alloc::{AllocError, Global};

/// What the numbers in a script stand for: its texts, and its lines, which have the procedures and
/// classes.
#[derive(Drop)]
pub(crate) struct Named<'a> {
    pub names: &'a Names,
    pub items: &'a Items,
}

/// The text of a number, or no bytes if it has none.
fn text<'a>(names: &'a Names, number: u32) -> &'a [u8]
    ensures { result.now ≡ text_of names.now number }
{
    if number < names.len() {
        names.text(number).as_bytes()
    } else {
        b""
    }
}

/// The name of a procedure, or no bytes if there is none with this number.
fn proc_name<'a>(naming: &Named<'a>, number: u32) -> &'a [u8]
    ensures { result.now ≡ name_of naming.now.names.now (procs_in naming.now.items.now) number }
{
    match naming.items.procedure(number) {
        Some(procedure) => text(naming.names, procedure.name),
        None => b"",
    }
}

/// The name of a class, or no bytes if there is none with this number.
fn class_name<'a>(naming: &Named<'a>, number: u32) -> &'a [u8]
    ensures { result.now ≡ name_of naming.now.names.now (classes_in naming.now.items.now) number }
{
    match naming.items.class(number) {
        Some(class) => text(naming.names, class.name),
        None => b"",
    }
}

fn write_number(out: &mut Vec<u8>, number: i64) -> Result<(), AllocError>
    ensures { OnOk result (out.new.items ≡ out.old.items ++ signed_decimal number) }
{
    out.extend_from_slice(Buffer::new().format(number).as_bytes())
}

fn write_count(out: &mut Vec<u8>, count: u32) -> Result<(), AllocError>
    ensures { OnOk result (out.new.items ≡ out.old.items ++ decimal count) }
{
    out.extend_from_slice(Buffer::new().format(count).as_bytes())
}

/// Writes some bytes and then others.
fn write_both(out: &mut Vec<u8>, front: &[u8], back: &[u8]) -> Result<(), AllocError>
    ensures { OnOk result (out.new.items ≡ out.old.items ++ front.now ++ back.now) }
{
    out.extend_from_slice(front)?;
    out.extend_from_slice(back)
}

fn write_cell(out: &mut Vec<u8>, cell: u8) -> Result<(), AllocError>
    ensures { OnOk result (out.new.items ≡ out.old.items ++ 99 ∷ decimal cell) }
{
    out.push(b'c')?;
    write_count(out, u32::from(cell))
}

fn write_value(out: &mut Vec<u8>, names: &Names, value: Operand) -> Result<(), AllocError>
    ensures { OnOk result (out.new.items ≡ out.old.items ++ value_word names.now value) }
{
    match value {
        Operand::None => out.extend_from_slice(b"none"),
        Operand::Int(number) => write_number(out, number),
        Operand::Str(number) => write_both(out, b"'", text(names, number)),
        Operand::Name(number) => out.extend_from_slice(text(names, number)),
        Operand::SelfLocal => out.extend_from_slice(b"self"),
        Operand::WeakLocal => out.extend_from_slice(b"ref"),
        Operand::Cell(cell) => write_cell(out, cell),
        Operand::Garbage => out.extend_from_slice(b"garbage"),
    }
}

/// Writes the word of a count, or of the number of a procedure or class, at such a place.
fn write_counted(
    out: &mut Vec<u8>,
    naming: &Named<'_>,
    sort: Sort,
    count: u32,
) -> Result<(), AllocError>
    ensures { OnOk result (out.new.items ≡ out.old.items ++ count_word (names_by naming.now) sort
        count) }
{
    match sort {
        Sort::Class => out.extend_from_slice(class_name(naming, count)),
        Sort::Proc => out.extend_from_slice(proc_name(naming, count)),
        Sort::Flag => out.extend_from_slice(flag_word(count)),
        _ => write_count(out, count),
    }
}

/// Writes the word of a part at such a place, where the form has this word.
fn write_part(
    out: &mut Vec<u8>,
    naming: &Named<'_>,
    key: &[u8],
    sort: Sort,
    part: Part,
) -> Result<(), AllocError>
    ensures { OnOk result (out.new.items ≡ out.old.items ++ part_word (names_by naming.now) key.now
        sort part) }
{
    let names = naming.names;
    match part {
        Part::Bare => out.extend_from_slice(key),
        Part::Text(number) => out.extend_from_slice(text(names, number)),
        Part::Value(value) => write_value(out, names, value),
        Part::Number(number) => write_number(out, number),
        Part::Count(count) => write_counted(out, naming, sort, count),
        Part::Finalizer(number) => write_both(out, b"del=", proc_name(naming, number)),
        Part::Legacy(number) => write_both(out, b"legacy=", proc_name(naming, number)),
        Part::Unknown => Ok(()),
    }
}

/// The word of the form at a place, where it has one there.
fn key_at(form: Form, place: usize) -> &'static [u8]
    ensures { result.now ≡ key_word form place }
{
    if place == 1 { b"=" } else { row_for(form).word }
}

/// Writes the word of a part at a place of a form.
fn write_place(
    out: &mut Vec<u8>,
    naming: &Named<'_>,
    form: Form,
    place: usize,
    part: Part,
) -> Result<(), AllocError>
    ensures { OnOk result (out.new.items ≡ out.old.items ++ part_word (names_by naming.now)
        (key_word form place) (sort_at form place) part) }
{
    let sort = sort_in(row_for(form).places, place);
    write_part(out, naming, key_at(form, place), sort, part)
}

/// Writes the words of the parts from a place on, a space before each.
fn write_places(
    out: &mut Vec<u8>,
    naming: &Named<'_>,
    form: Form,
    place: usize,
    parts: &[Part],
) -> Result<(), AllocError>
    requires { place + length parts.now < 2 ^ 64 }
    ensures { OnOk result (out.new.items ≡ out.old.items ++ flat_map behind_space
        (words_from (names_by naming.now) form place parts.now)) }
{
    'parts: for at in 0..parts.len() {
        out.push(b' ')?;
        write_place(out, naming, form, place + at, parts[at])?;
    }
    Ok(())
}

/// Writes values, a space before each.
fn write_values(out: &mut Vec<u8>, names: &Names, values: &[Operand]) -> Result<(), AllocError>
    ensures { OnOk result (out.new.items ≡ out.old.items
        ++ flat_map (λ value. behind_space (value_word names.now value)) values.now) }
{
    'values: for value in values {
        out.push(b' ')?;
        write_value(out, names, *value)?;
    }
    Ok(())
}

/// Writes a line of a form: the word of its first part, those of other parts, and values behind
/// them.
fn write_line(
    out: &mut Vec<u8>,
    naming: &Named<'_>,
    form: Form,
    first: Part,
    keys: &[Part],
    parts: &[Part],
    values: &[Operand],
) -> Result<(), AllocError>
    requires { length keys.now + length parts.now ≤ 8 }
    ensures { OnOk result (out.new.items ≡ out.old.items
        ++ line_of_words (filled_words (names_by naming.now)
        (filled form (first ∷ (keys.now ++ (parts.now ++ map ValueOf values.now)))))) }
{
    write_place(out, naming, form, 0, first)?;
    write_places(out, naming, form, 1, keys)?;
    write_places(out, naming, form, 1 + keys.len(), parts)?;
    write_values(out, naming.names, values)?;
    out.push(b'\n')?;
    Ok(())
}

/// Writes a line that begins with the word of its form.
fn opening(
    out: &mut Vec<u8>,
    naming: &Named<'_>,
    form: Form,
    parts: &[Part],
) -> Result<(), AllocError>
    requires { length parts.now ≤ 8 }
    ensures { OnOk result (out.new.items ≡ out.old.items
        ++ line_of_words (filled_words (names_by naming.now) (opening_of form parts.now))) }
{
    write_line(out, naming, form, Part::Bare, &[], parts, &[])
}

/// Writes a line `x = ..` with the word of its form.
fn binding(
    out: &mut Vec<u8>,
    naming: &Named<'_>,
    form: Form,
    name: u32,
    parts: &[Part],
) -> Result<(), AllocError>
    requires { length parts.now ≤ 6 }
    ensures { OnOk result (out.new.items ≡ out.old.items
        ++ line_of_words (filled_words (names_by naming.now) (binding_of form name parts.now))) }
{
    listing(out, naming, form, name, parts, &[])
}

/// Writes a line `x = ..` with the word of its form, and values last.
fn listing(
    out: &mut Vec<u8>,
    naming: &Named<'_>,
    form: Form,
    name: u32,
    parts: &[Part],
    values: &[Operand],
) -> Result<(), AllocError>
    requires { length parts.now ≤ 6 }
    ensures { OnOk result (out.new.items ≡ out.old.items
        ++ line_of_words (filled_words (names_by naming.now) (binding_of form name (parts.now
        ++ map ValueOf values.now)))) }
{
    let first = Part::Text(name);
    write_line(
        out,
        naming,
        form,
        first,
        &[Part::Bare, Part::Bare],
        parts,
        values,
    )
}

/// Writes the line of a command.
fn write_command(out: &mut Vec<u8>, naming: &Named<'_>, command: &Command) -> Result<(), AllocError>
    ensures { OnOk result (out.new.items ≡ out.old.items
        ++ line_of_words (command_words (names_by naming.now) command.now)) }
{
    use Part::{Bare, Count, Number, Text, Value};
    match command {
        Command::MakeList { name, items } => {
            listing(out, naming, Form::MakeList, *name, &[], items.as_slice())
        }
        Command::MakeTuple { name, items } => {
            listing(out, naming, Form::MakeTuple, *name, &[], items.as_slice())
        }
        Command::MakeDict { name } => binding(out, naming, Form::MakeDict, *name, &[]),
        Command::MakeInst { name, class } => {
            binding(out, naming, Form::MakeInst, *name, &[Count(*class)])
        }
        Command::MakeFunc { name, proc, cells } => listing(
            out,
            naming,
            Form::MakeFunc,
            *name,
            &[Count(*proc)],
            cells.as_slice(),
        ),
        Command::MakeRef {
            name,
            target,
            callback,
        } => { write_reference(out, naming, *name, *target, *callback) }
        Command::Bind { name, value } => write_line(
            out,
            naming,
            Form::Bind,
            Text(*name),
            &[Bare],
            &[Value(*value)],
            &[],
        ),
        Command::Del { name } => opening(out, naming, Form::Del, &[Text(*name)]),
        Command::Append { list, value } => {
            opening(out, naming, Form::Append, &[Value(*list), Value(*value)])
        }
        Command::SetItem { list, index, value } => opening(
            out,
            naming,
            Form::SetItem,
            &[Value(*list), Number(*index), Value(*value)],
        ),
        Command::DelItem { list, index } => {
            opening(out, naming, Form::DelItem, &[Value(*list), Number(*index)])
        }
        Command::Put { dict, key, value } => opening(
            out,
            naming,
            Form::Put,
            &[Value(*dict), Value(*key), Value(*value)],
        ),
        Command::Remove { dict, key } => {
            opening(out, naming, Form::Remove, &[Value(*dict), Value(*key)])
        }
        Command::SetAttr {
            object,
            attr,
            value,
        } => opening(
            out,
            naming,
            Form::SetAttr,
            &[Value(*object), Text(*attr), Value(*value)],
        ),
        Command::DelAttr { object, attr } => {
            opening(out, naming, Form::DelAttr, &[Value(*object), Text(*attr)])
        }
        Command::Item { name, list, index } => binding(
            out,
            naming,
            Form::Item,
            *name,
            &[Value(*list), Number(*index)],
        ),
        Command::Get { name, dict, key } => {
            binding(out, naming, Form::Get, *name, &[Value(*dict), Value(*key)])
        }
        Command::Attr { name, object, attr } => binding(
            out,
            naming,
            Form::Attr,
            *name,
            &[Value(*object), Text(*attr)],
        ),
        Command::Deref { name, weak } => {
            binding(out, naming, Form::Deref, *name, &[Value(*weak)])
        }
        Command::Call { func } => opening(out, naming, Form::Call, &[Value(*func)]),
        Command::Quit { value } => opening(out, naming, Form::Quit, &[Value(*value)]),
        Command::Collect { generation } => {
            opening(out, naming, Form::Collect, &[Number(*generation)])
        }
        Command::Enable => opening(out, naming, Form::Enable, &[]),
        Command::Disable => opening(out, naming, Form::Disable, &[]),
        Command::Threshold {
            first,
            second,
            third,
        } => { write_threshold(out, naming, *first, *second, *third) }
        Command::Flags { bits } => opening(out, naming, Form::Flags, flag_parts(*bits).as_slice()),
        Command::Freeze => opening(out, naming, Form::Freeze, &[]),
        Command::Unfreeze => opening(out, naming, Form::Unfreeze, &[]),
        Command::Print { value } => opening(out, naming, Form::Print, &[Value(*value)]),
        Command::Refs { value } => opening(out, naming, Form::Refs, &[Value(*value)]),
        Command::Tracked { value } => opening(out, naming, Form::Tracked, &[Value(*value)]),
        Command::Finalized { value } => opening(out, naming, Form::Finalized, &[Value(*value)]),
        Command::Referents { value } => opening(out, naming, Form::Referents, &[Value(*value)]),
        Command::Referrers { value } => opening(out, naming, Form::Referrers, &[Value(*value)]),
        Command::Why { name } => opening(out, naming, Form::Why, &[Text(*name)]),
        Command::Count => opening(out, naming, Form::Count, &[]),
        Command::Gens => opening(out, naming, Form::Gens, &[]),
    }
}

/// Writes a line `x = ref y`, or one with a callback that is not none.
fn write_reference(
    out: &mut Vec<u8>,
    naming: &Named<'_>,
    name: u32,
    target: Operand,
    callback: Operand,
) -> Result<(), AllocError>
    ensures { OnOk result (out.new.items ≡ out.old.items
        ++ line_of_words (command_words (names_by naming.now) (Command.MakeRef name target
        callback))) }
{
    use Part::Value;
    match callback {
        Operand::None => binding(out, naming, Form::MakeRef, name, &[Value(target)]),
        _ => binding(
            out,
            naming,
            Form::MakeRef,
            name,
            &[Value(target), Value(callback)],
        ),
    }
}

fn write_threshold(
    out: &mut Vec<u8>,
    naming: &Named<'_>,
    first: u32,
    second: Option<u32>,
    third: Option<u32>,
) -> Result<(), AllocError>
    ensures { OnOk result (out.new.items ≡ out.old.items
        ++ line_of_words (command_words (names_by naming.now) (Command.Threshold first second
        third))) }
{
    use Part::Count;
    let form = Form::Threshold;
    match (second, third) {
        (None, None) => opening(out, naming, form, &[Count(first)]),
        (Some(second), None) => opening(out, naming, form, &[Count(first), Count(second)]),
        (None, Some(third)) => opening(out, naming, form, &[Count(first), Count(third)]),
        (Some(second), Some(third)) => {
            opening(
                out,
                naming,
                form,
                &[Count(first), Count(second), Count(third)],
            )
        }
    }
}

/// Adds a debug flag, where its bit is set.
fn push_flag(parts: &mut ArrayVec<Part, 4>, bits: u32, bit: u32)
    requires { array_vec_len parts.old < 4 }
    ensures parts { parts.new.items ≡ parts.old.items ++ flag_filling bits bit }
    ensures few { array_vec_len parts.new ≤ array_vec_len parts.old + 1 }
{
    if bits & bit != 0 {
        parts.push(Part::Count(bit));
    }
}

/// The debug flags whose bits are set.
fn flag_parts(bits: u32) -> ArrayVec<Part, 4>
    ensures { result.items ≡ flag_filling bits 1 ++ flag_filling bits 2 ++ flag_filling bits 4
        ++ flag_filling bits 32 }
{
    let mut parts = ArrayVec::new();
    push_flag(&mut parts, bits, 1);
    push_flag(&mut parts, bits, 2);
    push_flag(&mut parts, bits, 4);
    push_flag(&mut parts, bits, 32);
    parts
}

fn write_class(out: &mut Vec<u8>, naming: &Named<'_>, class: &ClassDef) -> Result<(), AllocError>
    ensures { OnOk result (out.new.items ≡ out.old.items
        ++ line_of_words (said_words (names_by naming.now) (Declares (ClassItem class.now)))) }
{
    use Part::{Finalizer, Legacy, Text};
    let form = Form::Class;
    let name = Text(class.name);
    match (class.del, class.legacy) {
        (None, None) => opening(out, naming, form, &[name]),
        (Some(del), None) => opening(out, naming, form, &[name, Finalizer(del)]),
        (None, Some(legacy)) => opening(out, naming, form, &[name, Legacy(legacy)]),
        (Some(del), Some(legacy)) => {
            opening(out, naming, form, &[name, Finalizer(del), Legacy(legacy)])
        }
    }
}

/// Writes the lines of a procedure's commands.
fn write_body(out: &mut Vec<u8>, naming: &Named<'_>, body: &[Command]) -> Result<(), AllocError>
    ensures { OnOk result (out.new.items ≡ out.old.items
        ++ flat_map (λ command. line_of_words (command_words (names_by naming.now) command))
        body.now) }
{
    'commands: for command in body {
        write_command(out, naming, command)?;
    }
    Ok(())
}

/// Writes the lines of a procedure.
fn write_proc(
    out: &mut Vec<u8>,
    naming: &Named<'_>,
    name: u32,
    body: &[Command],
) -> Result<(), AllocError>
    ensures { OnOk result (out.new.items ≡ out.old.items
        ++ flat_map line_of_words (said_words (names_by naming.now) (Begins name)
        ∷ (map (command_words (names_by naming.now)) body.now
        ++ said_words (names_by naming.now) Ends ∷ []))) }
{
    opening(out, naming, Form::Def, &[Part::Text(name)])?;
    write_body(out, naming, body)?;
    opening(out, naming, Form::End, &[])?;
    Ok(())
}

/// Writes the lines of an item.
fn write_item(out: &mut Vec<u8>, naming: &Named<'_>, item: &Item) -> Result<(), AllocError>
    ensures { OnOk result (out.new.items ≡ out.old.items ++ flat_map line_of_words
        (item_lines (names_by naming.now) item.now)) }
{
    use Part::Count;
    match item {
        Item::Profile(profile) => {
            opening(out, naming, Form::Profile, &[Count(u32::from(*profile))])
        }
        Item::Shutdown => opening(out, naming, Form::Shutdown, &[]),
        Item::Budget(count) => opening(out, naming, Form::Budget, &[Count(*count)]),
        Item::Class(class) => write_class(out, naming, class),
        Item::Def(proc) => write_proc(out, naming, proc.name, proc.body.as_slice()),
        Item::Run(command) => write_command(out, naming, command),
    }
}

/// Writes the lines of all items.
fn write_items(out: &mut Vec<u8>, naming: &Named<'_>, items: &[Item]) -> Result<(), AllocError>
    ensures { OnOk result (out.new.items ≡ out.old.items
        ++ flat_map (λ item. flat_map line_of_words (item_lines (names_by naming.now) item))
        items.now) }
{
    'items: for item in items {
        write_item(out, naming, item)?;
    }
    Ok(())
}

/// The canonical bytes of a script: its lines in order, each with a line feed, the words separated
/// by one space.
///
/// Numbers have no leading zeros, a callback none is left out, `del=` comes before `legacy=`,
/// `collect` has its generation, and the flags of `debug` are in the order stats, collectable,
/// uncollectable, saveall. The number of a text, procedure or class that the script lacks is
/// printed as no bytes; a parsed script has no such number. Answers `AllocError` only if memory
/// runs out.
pub fn print(alloc: Global, script: &Script) -> Result<Vec<u8>, AllocError>
    ensures { IfOk result (λ bytes. bytes.items ≡ canonical script.now.names script.now.items) }
{
    let naming = Named {
        names: &script.names,
        items: &script.items,
    };
    let mut out = Vec::new(alloc);
    write_items(&mut out, &naming, script.items.as_slice())?;
    Ok(out)
}
