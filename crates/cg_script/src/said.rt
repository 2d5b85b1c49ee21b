//! How the parts of each form become a command or a declaration.
ghost use Rattle.std.specs.Prelude.{◌≡◌, ◌≤◌, IfOk, Ok, Some};
ghost use Rattle.std.specs.Option.{option_or};
ghost use Rattle.cg_script.specs.declared.part.Said.TheVariants.{Does as DoesIt};
ghost use Rattle.cg_script.specs.Commands.{text_at as text_in, value_at as value_in, number_or, count_at as count_in, count_if, del_if, legacy_if, part_at, value_or, values_from as values_in, flags_in, said};

use crate::command::{Command, Operand};
use crate::form::Form;
use crate::item::{ClassDef, Item};
use crate::limits::MOST_PROFILE;
use crate::members::Operands;
use crate::part::{Part, Said};
use smallvec::SmallVec;
use std::alloc::{AllocError, Global};

fn text_at(parts: &[Part], place: usize) -> u32
    ensures { result ≡ text_in parts.now place }
{
    match parts.get(place) {
        Some(Part::Text(number)) => *number,
        _ => 0,
    }
}

fn value_of(part: &Part) -> Operand
    ensures { result ≡ value_or (Some part.now) }
{
    match part {
        Part::Value(operand) => *operand,
        _ => Operand::None,
    }
}

fn value_at(parts: &[Part], place: usize) -> Operand
    ensures { result ≡ value_in parts.now place }
{
    match parts.get(place) {
        Some(part) => value_of(part),
        None => Operand::None,
    }
}

/// The number at a place, or a default without a word.
fn number_at(parts: &[Part], place: usize, other: i64) -> i64
    ensures { result ≡ number_or other (part_at parts.now place) }
{
    match parts.get(place) {
        Some(Part::Number(number)) => *number,
        _ => other,
    }
}

fn count_if_there(parts: &[Part], place: usize) -> Option<u32>
    ensures { result ≡ count_if (part_at parts.now place) }
{
    match parts.get(place) {
        Some(Part::Count(count)) => Some(*count),
        _ => None,
    }
}

fn count_at(parts: &[Part], place: usize) -> u32
    ensures { result ≡ count_in parts.now place }
{
    match parts.get(place) {
        Some(Part::Count(count)) => *count,
        _ => 0,
    }
}

/// The profile that a line declares.
fn profile_at(parts: &[Part]) -> u8
    requires { count_in parts.now 1 ≤ MOST_PROFILE }
    ensures { result ≡ count_in parts.now 1 }
{
    count_at(parts, 1) as u8
}

fn del_at(parts: &[Part], place: usize) -> Option<u32>
    ensures { result ≡ del_if (part_at parts.now place) }
{
    match parts.get(place) {
        Some(Part::Finalizer(proc)) => Some(*proc),
        _ => None,
    }
}

fn legacy_at(parts: &[Part], place: usize) -> Option<u32>
    ensures { result ≡ legacy_if (part_at parts.now place) }
{
    match parts.get(place) {
        Some(Part::Legacy(proc)) => Some(*proc),
        _ => None,
    }
}

/// The values from a place on.
fn values_from(alloc: Global, parts: &[Part], place: usize) -> Result<Operands, AllocError>
    ensures { IfOk result (λ values. values ≡ values_in parts.now place) }
{
    let mut values = SmallVec::with_capacity(alloc, parts.len().saturating_sub(place))?;
    'places: for at in place..parts.len() {
        values.push_reserved(value_of(&parts[at]));
    }
    Ok(Operands::of_few(values))
}

/// The union of the flags.
fn flags_of(parts: &[Part]) -> u32
    ensures { result ≡ flags_in parts.now }
{
    count_at(parts, 1)
        | count_at(parts, 2)
        | count_at(parts, 3)
        | count_at(parts, 4)
        | count_at(parts, 5)
}

fn does(command: Command) -> Result<Said, AllocError>
    ensures { result ≡ Ok (DoesIt command) }
{
    Ok(Said::Does(command))
}

/// What a line of a form says.
#[inline(always)]
pub(crate) fn said_of(alloc: Global, form: Form, parts: &[Part]) -> Result<Said, AllocError>
    requires { form ≡ Form.Profile → count_in parts.now 1 ≤ MOST_PROFILE }
    ensures { IfOk result (λ what. what ≡ said form parts.now) }
{
    match form {
        Form::MakeList => does(Command::MakeList {
            name: text_at(parts, 0),
            items: values_from(alloc, parts, 3)?,
        }),
        Form::MakeTuple => does(Command::MakeTuple {
            name: text_at(parts, 0),
            items: values_from(alloc, parts, 3)?,
        }),
        Form::MakeDict => does(Command::MakeDict {
            name: text_at(parts, 0),
        }),
        Form::MakeInst => does(Command::MakeInst {
            name: text_at(parts, 0),
            class: count_at(parts, 3),
        }),
        Form::MakeFunc => does(Command::MakeFunc {
            name: text_at(parts, 0),
            proc: count_at(parts, 3),
            cells: values_from(alloc, parts, 4)?,
        }),
        Form::MakeRef => does(Command::MakeRef {
            name: text_at(parts, 0),
            target: value_at(parts, 3),
            callback: value_at(parts, 4),
        }),
        Form::Bind => does(Command::Bind {
            name: text_at(parts, 0),
            value: value_at(parts, 2),
        }),
        Form::Del => does(Command::Del {
            name: text_at(parts, 1),
        }),
        Form::Append => does(Command::Append {
            list: value_at(parts, 1),
            value: value_at(parts, 2),
        }),
        Form::SetItem => does(Command::SetItem {
            list: value_at(parts, 1),
            index: number_at(parts, 2, 0),
            value: value_at(parts, 3),
        }),
        Form::DelItem => does(Command::DelItem {
            list: value_at(parts, 1),
            index: number_at(parts, 2, 0),
        }),
        Form::Put => does(Command::Put {
            dict: value_at(parts, 1),
            key: value_at(parts, 2),
            value: value_at(parts, 3),
        }),
        Form::Remove => does(Command::Remove {
            dict: value_at(parts, 1),
            key: value_at(parts, 2),
        }),
        Form::SetAttr => does(Command::SetAttr {
            object: value_at(parts, 1),
            attr: text_at(parts, 2),
            value: value_at(parts, 3),
        }),
        Form::DelAttr => does(Command::DelAttr {
            object: value_at(parts, 1),
            attr: text_at(parts, 2),
        }),
        Form::Item => does(Command::Item {
            name: text_at(parts, 0),
            list: value_at(parts, 3),
            index: number_at(parts, 4, 0),
        }),
        Form::Get => does(Command::Get {
            name: text_at(parts, 0),
            dict: value_at(parts, 3),
            key: value_at(parts, 4),
        }),
        Form::Attr => does(Command::Attr {
            name: text_at(parts, 0),
            object: value_at(parts, 3),
            attr: text_at(parts, 4),
        }),
        Form::Deref => does(Command::Deref {
            name: text_at(parts, 0),
            weak: value_at(parts, 3),
        }),
        Form::Call => does(Command::Call {
            func: value_at(parts, 1),
        }),
        Form::Quit => does(Command::Quit {
            value: value_at(parts, 1),
        }),
        Form::Collect => does(Command::Collect {
            generation: number_at(parts, 1, 2),
        }),
        Form::Enable => does(Command::Enable),
        Form::Disable => does(Command::Disable),
        Form::Threshold => does(Command::Threshold {
            first: count_at(parts, 1),
            second: count_if_there(parts, 2),
            third: count_if_there(parts, 3),
        }),
        Form::Flags => does(Command::Flags {
            bits: flags_of(parts),
        }),
        Form::Freeze => does(Command::Freeze),
        Form::Unfreeze => does(Command::Unfreeze),
        Form::Print => does(Command::Print {
            value: value_at(parts, 1),
        }),
        Form::Refs => does(Command::Refs {
            value: value_at(parts, 1),
        }),
        Form::Tracked => does(Command::Tracked {
            value: value_at(parts, 1),
        }),
        Form::Finalized => does(Command::Finalized {
            value: value_at(parts, 1),
        }),
        Form::Referents => does(Command::Referents {
            value: value_at(parts, 1),
        }),
        Form::Referrers => does(Command::Referrers {
            value: value_at(parts, 1),
        }),
        Form::Why => does(Command::Why {
            name: text_at(parts, 1),
        }),
        Form::Count => does(Command::Count),
        Form::Gens => does(Command::Gens),
        Form::Profile => Ok(Said::Declares(Item::Profile(profile_at(parts)))),
        Form::Shutdown => Ok(Said::Declares(Item::Shutdown)),
        Form::Budget => Ok(Said::Declares(Item::Budget(count_at(parts, 1)))),
        Form::Class => Ok(Said::Declares(Item::Class(class_of(parts)))),
        Form::Def => Ok(Said::Begins(text_at(parts, 1))),
        Form::End => Ok(Said::Ends),
    }
}

/// A class with its finalizers.
fn class_of(parts: &[Part]) -> ClassDef
    ensures name { result.name ≡ text_in parts.now 1 }
    ensures del { result.del ≡ option_or (del_if (part_at parts.now 2))
        (del_if (part_at parts.now 3)) }
    ensures legacy { result.legacy ≡ option_or (legacy_if (part_at parts.now 2))
        (legacy_if (part_at parts.now 3)) }
{
    ClassDef {
        name: text_at(parts, 1),
        del: del_at(parts, 2).or(del_at(parts, 3)),
        legacy: legacy_at(parts, 2).or(legacy_at(parts, 3)),
    }
}
