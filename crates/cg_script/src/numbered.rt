//! Look-ups by number in lines without an index.
ghost use Rattle.std.specs.Prelude.{◌≡◌, ◌+◌, ◌<◌, ◌^◌, ◌∷◌, [], OnSome, slice_get, option_copied, option_to_list};
ghost use Rattle.cg_script.specs.Items.{classes, procedures, commands_of};

use crate::command::Command;
use crate::item::{ClassDef, Item, Proc};

/// The class in a line, if it has one.
fn class_in(item: &Item) -> Option<ClassDef>
    ensures { option_to_list result ≡ classes (item.now ∷ []) }
{
    match item {
        Item::Class(class) => Some(*class),
        _ => None,
    }
}

/// The procedure in a line, if it has one.
fn procedure_in(item: &Item) -> Option<&Proc>
    ensures { option_to_list (option_copied result) ≡ procedures (item.now ∷ []) }
{
    match item {
        Item::Def(procedure) => Some(procedure),
        _ => None,
    }
}

/// The command in a line, if it has one.
fn command_in(item: &Item) -> Option<&Command>
    ensures { option_to_list (option_copied result) ≡ commands_of (item.now ∷ []) }
{
    match item {
        Item::Run(command) => Some(command),
        _ => None,
    }
}

/// The class with a number.
pub(crate) fn nth_class(items: &[Item], number: usize) -> Option<ClassDef>
    ensures { result ≡ slice_get (classes items.now) number }
{
    let mut left = number;
    'items: for at in 0..items.len() {
        if let Some(class) = class_in(&items[at]) {
            if left == 0 {
                return Some(class);
            }
            left -= 1;
        }
    }
    None
}

/// The procedure with a number.
pub(crate) fn nth_procedure(items: &[Item], number: usize) -> Option<&Proc>
    ensures { option_copied result ≡ slice_get (procedures items.now) number }
{
    let mut left = number;
    'items: for at in 0..items.len() {
        if let Some(procedure) = procedure_in(&items[at]) {
            if left == 0 {
                return Some(procedure);
            }
            left -= 1;
        }
    }
    None
}

/// The command outside procedures with a number.
pub(crate) fn nth_command(items: &[Item], number: usize) -> Option<&Command>
    ensures found { option_copied result ≡ slice_get (commands_of items.now) number }
    ensures few { OnSome result (number + 1 < 2 ^ 64) }
{
    let mut left = number;
    'items: for at in 0..items.len() {
        if let Some(command) = command_in(&items[at]) {
            if left == 0 {
                return Some(command);
            }
            left -= 1;
        }
    }
    None
}
