//! Lists of operands, commands and items, which contracts see as lists.
ghost use Rattle.std.specs.Prelude.{◌≡◌, ◌<◌, ◌+◌, ◌^◌, ◌++◌, ◌∷◌, [], List, length, IfOk, OnOk, OnErr, OnSome, Some, slice_get, option_copied};
ghost use Rattle.cg_script.specs.Items.{classes, procedures, commands_of, profile_of, declared_budget, declares_shutdown, IsIndexOf, IsIndexIfAny};
ghost use Rattle.cg_script.specs.declared.command.Command.{Command as AnyCommand};
ghost use Rattle.cg_script.specs.declared.item.Proc.{Proc as AnyProc};
ghost use Rattle.cg_script.specs.declared.item.Item.{Item as AnyItem};
ghost use Rattle.cg_script.specs.declared.item.Item.TheVariants.{Run, Def};

use crate::command::{Command, Operand};
use crate::index::{Declared, Index};
use crate::item::{ClassDef, Item, Proc};
use crate::numbered::{nth_class, nth_command, nth_procedure};
use smallvec::SmallVec;
use std::alloc::{AllocError, Global};
use std::marker::Model;

/// The operands of a command, in order. One operand is stored inline, so most lines allocate
/// nothing.
#[derive(Drop)]
pub struct Operands {
    members: SmallVec<Operand, 1>,
}

impl Model for Operands {
    ghost use Rattle.std.specs.Prelude.{List};
    ghost use Rattle.cg_script.specs.declared.command.Operand.{Operand};

    ghost Value = { List Operand };

    ghost view = { λ m. m.members.items };
}

impl Operands {
    /// These members in order. Allocates nothing.
    pub fn new(members: Vec<Operand>) -> Operands
        ensures { result ≡ members.items }
    {
        Operands {
            members: SmallVec::from_vec(members),
        }
    }

    /// These members in order. Allocates nothing.
    pub(crate) fn of_few(members: SmallVec<Operand, 1>) -> Operands
        ensures { result ≡ members.items }
    {
        Operands { members }
    }

    /// The members in order.
    pub fn as_slice(&self) -> &[Operand]
        ensures { result.now ≡ self.now }
    {
        self.members.as_slice()
    }
}

/// The commands of a procedure, in order.
#[derive(Drop)]
pub struct Commands {
    members: Vec<Command>,
}

impl Model for Commands {
    ghost use Rattle.std.specs.Prelude.{List};
    ghost use Rattle.cg_script.specs.declared.command.Command.{Command};

    ghost Value = { List Command };

    ghost view = { λ m. m.members.items };
}

impl Commands {
    /// These members in order. Allocates nothing.
    pub fn new(members: Vec<Command>) -> Commands
        ensures { result ≡ members.items }
    {
        Commands { members }
    }

    /// The members in order.
    pub fn as_slice(&self) -> &[Command]
        ensures { result.now ≡ self.now }
    {
        self.members.as_slice()
    }
}

/// The lines of a script, in order, with what they declare for the whole script.
///
/// With an index, as a parsed script has one, a class, a procedure or a command outside procedures
/// is found by number in constant time; without one, by a search through the lines.
#[derive(Drop)]
pub struct Items {
    members: Vec<Item>,
    declared: Declared,
    index: Option<Index>,
}

impl Model for Items {
    ghost use Rattle.std.specs.Prelude.{List};
    ghost use Rattle.cg_script.specs.declared.item.Item.{Item};
    ghost use Rattle.cg_script.specs.Items.{AreDeclared, IsIndexIfAny};

    ghost Value = { List Item };

    ghost view = { λ m. m.members.items };

    ghost invariant = { λ m. AreDeclared m.members.items m.declared × IsIndexIfAny m.members.items
        m.index };
}

/// The position at a number, if any.
fn position_in(positions: &Vec<usize>, number: usize) -> Option<usize>
    ensures found { result ≡ slice_get positions.now.items number }
    ensures few { OnSome result (number + 1 < 2 ^ 64) }
{
    positions.get(number).copied()
}

/// The procedure in the line at a position, if it has one.
fn procedure_at(items: &[Item], at: usize) -> Option<&Proc>
    ensures { (p : AnyProc) → slice_get items.now at ≡ Some (Def p) → option_copied result
        ≡ Some p }
{
    match items.get(at) {
        Some(Item::Def(procedure)) => Some(procedure),
        _ => None,
    }
}

/// The command in the line at a position, if it has one.
fn command_at(items: &[Item], at: usize) -> Option<&Command>
    ensures { (c : AnyCommand) → slice_get items.now at ≡ Some (Run c) → option_copied result
        ≡ Some c }
{
    match items.get(at) {
        Some(Item::Run(command)) => Some(command),
        _ => None,
    }
}

/// The procedure with a number, by the index.
fn indexed_procedure<'a>(items: &'a [Item], index: &Index, number: usize) -> Option<&'a Proc>
    requires { IsIndexOf items.now index.now }
    ensures { option_copied result ≡ slice_get (procedures items.now) number }
{
    match position_in(&index.procedures, number) {
        Some(at) => procedure_at(items, at),
        None => None,
    }
}

/// The command outside procedures with a number, by the index.
fn indexed_command<'a>(items: &'a [Item], index: &Index, number: usize) -> Option<&'a Command>
    requires { IsIndexOf items.now index.now }
    ensures found { option_copied result ≡ slice_get (commands_of items.now) number }
    ensures few { OnSome result (number + 1 < 2 ^ 64) }
{
    match position_in(&index.commands, number) {
        Some(at) => command_at(items, at),
        None => None,
    }
}

/// Adds the line at a position to an index, if there is one.
#[inline(always)]
fn index_line(index: &mut Option<Index>, at: usize, item: &Item) -> Result<(), AllocError>
    ensures ok { OnOk result ((items : List AnyItem) → at ≡ length items
        → IsIndexIfAny items index.old
        → IsIndexIfAny (items ++ item.now ∷ []) index.new) }
    ensures err { OnErr result ((items : List AnyItem) → IsIndexIfAny items index.old
        → IsIndexIfAny items index.new) }
{
    if let Some(index) = index {
        index.add(at, item)?;
    }
    Ok(())
}

impl Items {
    /// These members in order, without an index. Allocates nothing.
    pub fn new(members: Vec<Item>) -> Items
        ensures { result ≡ members.items }
    {
        let declared = Declared::of(members.as_slice());
        Items {
            members,
            declared,
            index: None,
        }
    }

    /// These members in order, with an index. Answers `AllocError` only if memory runs out.
    pub fn indexed(alloc: Global, members: Vec<Item>) -> Result<Items, AllocError>
        ensures { IfOk result (λ items. items ≡ members.items) }
    {
        let index = Index::of(alloc, members.as_slice())?;
        let declared = Declared::of(members.as_slice());
        Ok(Items {
            members,
            declared,
            index: Some(index),
        })
    }

    /// No member, with an index. Allocates nothing yet.
    pub(crate) fn empty(alloc: Global) -> Items
        ensures { result ≡ [] }
    {
        Items {
            members: Vec::new(alloc),
            declared: Declared::new(),
            index: Some(Index::new(alloc)),
        }
    }

    /// Appends a member, and adds it to the index while it is at hand. Answers `AllocError` only if
    /// memory runs out; then nothing has changed.
    #[inline(always)]
    pub(crate) fn push(&mut self, item: Item) -> Result<(), AllocError>
        ensures ok { OnOk result (self.new ≡ self.old ++ item ∷ []) }
        ensures err { OnErr result (self.new ≡ self.old) }
    {
        self.members.reserve(1)?;
        index_line(&mut self.index, self.members.len(), &item)?;
        self.declared.add(&item);
        self.members.push_reserved(item);
        Ok(())
    }

    /// The members in order.
    pub fn as_slice(&self) -> &[Item]
        ensures { result.now ≡ self.now }
    {
        self.members.as_slice()
    }

    /// The declared profile, or 1. Constant time.
    pub fn profile(&self) -> u8
        ensures { result ≡ profile_of self.now }
    {
        self.declared.profile.unwrap_or(1)
    }

    /// The declared budget, if any. Constant time.
    pub fn budget(&self) -> Option<u32>
        ensures { result ≡ declared_budget self.now }
    {
        self.declared.budget
    }

    /// Whether they declare a shutdown. Constant time.
    pub fn shutdown(&self) -> bool
        ensures { result ≡ declares_shutdown self.now }
    {
        self.declared.shutdown
    }

    /// The class with a number, if any. Classes are numbered from 0, in order. Constant time with
    /// an index.
    pub fn class(&self, number: u32) -> Option<ClassDef>
        ensures { result ≡ slice_get (classes self.now) number }
    {
        match &self.index {
            Some(index) => index.classes.get(number as usize).copied(),
            None => nth_class(self.members.as_slice(), number as usize),
        }
    }

    /// The procedure with a number, if any. Procedures are numbered from 0, in order. Constant time
    /// with an index.
    pub fn procedure(&self, number: u32) -> Option<&Proc>
        ensures { option_copied result ≡ slice_get (procedures self.now) number }
    {
        match &self.index {
            Some(index) => indexed_procedure(self.members.as_slice(), index, number as usize),
            None => nth_procedure(self.members.as_slice(), number as usize),
        }
    }

    /// The command outside procedures with a number, if any. They are numbered from 0, in order.
    /// Constant time with an index.
    pub fn command(&self, number: usize) -> Option<&Command>
        ensures found { option_copied result ≡ slice_get (commands_of self.now) number }
        // The number after it also fits.
        ensures few { OnSome result (number + 1 < 2 ^ 64) }
    {
        match &self.index {
            Some(index) => indexed_command(self.members.as_slice(), index, number),
            None => nth_command(self.members.as_slice(), number),
        }
    }
}
