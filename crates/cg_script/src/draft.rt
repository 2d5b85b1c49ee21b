//! A partly read script.
ghost use Rattle.std.specs.Prelude.{◌≡◌, ◌+◌, ◌-◌, ◌^◌, ◌<◌, ◌≤◌, List, [], ◌∷◌, true, false, length, map, IfOk, OnOk, is_some, Ok, None};
ghost use Rattle.cg_script.specs.declared.part.Said.{Said as AnySaid};
ghost use Rattle.cg_script.specs.declared.part.Said.TheVariants.{Does, Ends};
ghost use Rattle.cg_script.specs.Forms.{row};
ghost use Rattle.cg_script.specs.Meanings.{all_fit, formed, code_of};
ghost use Rattle.cg_script.specs.Reading.{nothing_known, is_misplaced, is_repeated, checked, procs_after, classes_after, budget_after, shutdown_after};
ghost use Rattle.cg_script.specs.Views.{known_of, grouped, is_placed, inside_behind, Takes};

use crate::command::Command;
use crate::form::Form;
use crate::item::{Item, Proc};
use crate::lexicon::Lexicon;
use crate::limits::MOST_WORDS;
use crate::members::{Commands, Items};
use crate::part::{Parts, Said, names_unknown, read_parts};
use crate::said::said_of;
use crate::word::text_of_identifier;
use cg_value::Names;
use std::alloc::{AllocError, Global};

/// An open procedure.
#[derive(Drop)]
pub(crate) struct Begun {
    pub name: u32,
    pub body: Vec<Command>,
}

/// What the lines so far say.
#[derive(Drop)]
pub(crate) struct Draft {
    pub alloc: Global,
    pub names: Lexicon,
    pub procs: Names,
    pub classes: Names,
    pub budget: bool,
    pub shutdown: bool,
    /// Whether some line was not ignored.
    pub started: bool,
    pub items: Items,
    pub begun: Option<Begun>,
}

/// The draft before the first line.
pub(crate) fn empty(alloc: Global) -> Draft
    ensures known { known_of result ≡ nothing_known }
    ensures items { result.items ≡ [] }
    ensures begun { result.begun ≡ None }
{
    Draft {
        alloc,
        names: Lexicon::new(alloc),
        procs: Names::new(alloc),
        classes: Names::new(alloc),
        budget: false,
        shutdown: false,
        started: false,
        items: Items::empty(alloc),
        begun: None,
    }
}

/// Whether a declaration is inside a procedure, `end` is outside one, or a profile follows another
/// line.
fn stands_wrong(draft: &Draft, form: Form) -> bool
    ensures { result ≡ is_misplaced (known_of draft.now) form }
{
    let inside = draft.begun.is_some();
    match form {
        Form::End => !inside,
        Form::Def | Form::Class | Form::Budget | Form::Shutdown => inside,
        Form::Profile => inside || draft.started,
        _ => false,
    }
}

/// Whether it defines an existing procedure or class, or a second budget or shutdown.
fn defines_again(draft: &Draft, form: Form, words: &[&[u8]]) -> bool
    requires fit { all_fit form 0 (map (λ w. w.now) words.now) ≡ true }
    requires enough { (row form).fewest ≤ length words.now }
    ensures { result ≡ is_repeated (known_of draft.now) form (map (λ w. w.now) words.now) }
{
    match form {
        Form::Def => draft.procs.has(text_of_identifier(words[1])),
        Form::Class => draft.classes.has(text_of_identifier(words[1])),
        Form::Budget => draft.budget,
        Form::Shutdown => draft.shutdown,
        _ => false,
    }
}

/// Records what the line defines.
fn define(draft: &mut Draft, form: Form, words: &[&[u8]]) -> Result<(), AllocError>
    requires fit { all_fit form 0 (map (λ w. w.now) words.now) ≡ true }
    requires enough { (row form).fewest ≤ length words.now }
    requires procs { length draft.old.procs < 2 ^ 32 - 1 }
    requires classes { length draft.old.classes < 2 ^ 32 - 1 }
    ensures procs { OnOk result (draft.new.procs ≡ procs_after draft.old.procs form
        (map (λ w. w.now) words.now)) }
    ensures classes { OnOk result (draft.new.classes ≡ classes_after draft.old.classes form
        (map (λ w. w.now) words.now)) }
    ensures budget { OnOk result (draft.new.budget ≡ budget_after draft.old.budget form) }
    ensures shutdown { OnOk result (draft.new.shutdown ≡ shutdown_after draft.old.shutdown form) }
    ensures started { OnOk result (draft.new.started ≡ true) }
    ensures names { OnOk result (draft.new.names ≡ draft.old.names) }
    ensures items { OnOk result (draft.new.items ≡ draft.old.items) }
    ensures begun { OnOk result (draft.new.begun ≡ draft.old.begun) }
{
    draft.started = true;
    match form {
        Form::Def => {
            let _ = draft.procs.intern(text_of_identifier(words[1]))?;
            Ok(())
        }
        Form::Class => {
            let _ = draft.classes.intern(text_of_identifier(words[1]))?;
            Ok(())
        }
        Form::Budget => {
            draft.budget = true;
            Ok(())
        }
        Form::Shutdown => {
            draft.shutdown = true;
            Ok(())
        }
        _ => Ok(()),
    }
}

/// Adds a command to the open procedure, or else to the items.
#[inline(always)]
fn push_command(
    items: &mut Items,
    begun: &mut Option<Begun>,
    command: Command,
) -> Result<(), AllocError>
    ensures grouped { OnOk result ((later : List AnySaid) → grouped items.new begun.new later
        ≡ grouped items.old begun.old (Does command ∷ later)) }
    ensures inside { is_some begun.new ≡ is_some begun.old }
    ensures few { length items.new ≤ length items.old + 1 }
{
    match begun {
        Some(procedure) => {
            procedure.body.reserve(1)?;
            procedure.body.push_reserved(command);
        }
        None => items.push(Item::Run(command))?,
    }
    Ok(())
}

/// Adds the open procedure to the items.
fn close(items: &mut Items, begun: &mut Option<Begun>) -> Result<(), AllocError>
    requires { is_some begun.old ≡ true }
    ensures grouped { OnOk result ((later : List AnySaid) → grouped items.new begun.new later
        ≡ grouped items.old begun.old (Ends ∷ later)) }
    ensures outside { OnOk result (begun.new ≡ None) }
    ensures few { length items.new ≤ length items.old + 1 }
{
    match begun.take() {
        Some(procedure) => {
            items.push(Item::Def(Proc {
                name: procedure.name,
                body: Commands::new(procedure.body),
            }))
        }
        None => unreachable!(),
    }
}

/// Adds what a line says to the items, or to the open procedure.
#[inline(always)]
fn push(
    alloc: Global,
    items: &mut Items,
    begun: &mut Option<Begun>,
    what: Said,
) -> Result<(), AllocError>
    requires { is_placed what (is_some begun.old) ≡ true }
    ensures grouped { OnOk result ((later : List AnySaid) → grouped items.new begun.new later
        ≡ grouped items.old begun.old (what ∷ later)) }
    ensures inside { OnOk result (is_some begun.new ≡ inside_behind what (is_some begun.old)) }
    ensures few { length items.new ≤ length items.old + 1 }
{
    match what {
        Said::Declares(item) => items.push(item),
        Said::Begins(name) => {
            *begun = Some(Begun {
                name,
                body: Vec::new(alloc),
            });
            Ok(())
        }
        Said::Ends => close(items, begun),
        Said::Does(command) => push_command(items, begun, command),
    }
}

/// A declaration in the wrong place.
const WRONG_PLACE: u8 = 7;

/// A second definition.
const DEFINED_TWICE: u8 = 8;

/// A procedure or class that no earlier line defines.
const NOT_DEFINED: u8 = 6;

/// Takes words as a line of a form, or answers the code of what is wrong with them. `parts` is a
/// buffer for their parts, empty before.
pub(crate) fn take_words(
    draft: &mut Draft,
    form: Form,
    words: &[&[u8]],
    parts: &mut Parts,
) -> Result<Option<u8>, AllocError>
    requires empty { parts.old.items ≡ [] }
    requires names { length draft.old.names + MOST_WORDS < 2 ^ 32 - 1 }
    requires procs { length draft.old.procs < 2 ^ 32 - 1 }
    requires classes { length draft.old.classes < 2 ^ 32 - 1 }
    ensures fault { IfOk result (λ code. code
        ≡ code_of (checked (known_of draft.old) (formed form (map (λ w. w.now) words.now)))) }
    ensures takes { result ≡ Ok None → Takes draft.old form (map (λ w. w.now) words.now) draft.new }
    ensures few_names { result ≡ Ok None → length draft.new.names ≤ length draft.old.names +
        MOST_WORDS }
    ensures few_items { result ≡ Ok None → length draft.new.items ≤ length draft.old.items + 1 }
{
    // The texts of a bad line may stay: no later line is read.
    if let Some(code) = read_parts(
        parts,
        form,
        words,
        &mut draft.names,
        &draft.procs,
        &draft.classes,
    )? {
        return Ok(Some(code));
    }
    if stands_wrong(draft, form) {
        return Ok(Some(WRONG_PLACE));
    }
    if defines_again(draft, form, words) {
        return Ok(Some(DEFINED_TWICE));
    }
    if names_unknown(form, parts.as_slice()) {
        return Ok(Some(NOT_DEFINED));
    }
    define(draft, form, words)?;
    // `?` would move the result twice more for each line.
    match said_of(draft.alloc, form, parts.as_slice()) {
        Ok(what) => push(draft.alloc, &mut draft.items, &mut draft.begun, what)?,
        Err(fault) => return Err(fault),
    }
    Ok(None)
}
