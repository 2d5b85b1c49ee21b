//! What lines declare for the whole script, and the positions of its procedures and of its commands
//! outside procedures, to find each by number.
ghost use Rattle.std.specs.Prelude.{◌≡◌, ◌||◌, ◌++◌, ◌∷◌, [], List, map, IfOk, OnOk, OnErr};
ghost use Rattle.std.specs.Option.{option_or};
ghost use Rattle.cg_script.specs.declared.item.Item.{Item as AnyItem};
ghost use Rattle.cg_script.specs.Items.{classes, procedures, commands_of, declared_profile, declared_budget, declares_shutdown, IsIndexOf, AreDeclared};

use crate::item::{ClassDef, Item};
use std::alloc::{AllocError, Global};

/// The profile and the budget that lines declare, and whether they declare a shutdown.
#[derive(Clone, Copy)]
pub(crate) struct Declared {
    pub profile: Option<u8>,
    pub budget: Option<u32>,
    pub shutdown: bool,
}

impl Declared {
    /// No declarations.
    pub fn new() -> Declared
        ensures { AreDeclared [] result }
    {
        Declared {
            profile: None,
            budget: None,
            shutdown: false,
        }
    }

    /// What these lines declare.
    pub fn of(items: &[Item]) -> Declared
        ensures { AreDeclared items.now result }
    {
        let mut declared = Declared::new();
        'items: for at in 0..items.len() {
            declared.add(&items[at]);
        }
        declared
    }

    /// Adds one more line.
    #[inline(always)]
    pub fn add(&mut self, item: &Item)
        ensures profile { self.new.profile ≡ option_or self.old.profile
            (declared_profile (item.now ∷ [])) }
        ensures budget { self.new.budget ≡ option_or self.old.budget
            (declared_budget (item.now ∷ [])) }
        ensures shutdown { self.new.shutdown
            ≡ (self.old.shutdown || declares_shutdown (item.now ∷ [])) }
    {
        match item {
            Item::Profile(profile) => self.profile = self.profile.or(Some(*profile)),
            Item::Budget(budget) => self.budget = self.budget.or(Some(*budget)),
            Item::Shutdown => self.shutdown = true,
            Item::Class(_) | Item::Def(_) | Item::Run(_) => {}
        }
    }
}

/// The classes among some lines, and the positions of their procedures and of their commands
/// outside procedures.
#[derive(Drop)]
pub(crate) struct Index {
    pub classes: Vec<ClassDef>,
    pub procedures: Vec<usize>,
    pub commands: Vec<usize>,
}

impl Index {
    /// The index of no lines. Allocates nothing yet.
    pub fn new(alloc: Global) -> Index
        ensures { IsIndexOf [] result }
    {
        Index {
            classes: Vec::new(alloc),
            procedures: Vec::new(alloc),
            commands: Vec::new(alloc),
        }
    }

    /// The index of these lines. Answers `AllocError` only if memory runs out.
    pub fn of(alloc: Global, items: &[Item]) -> Result<Index, AllocError>
        ensures { IfOk result (λ index. IsIndexOf items.now index) }
    {
        let mut index = Index::new(alloc);
        'items: for at in 0..items.len() {
            index.add(at, &items[at])?;
        }
        Ok(index)
    }

    /// Adds the line at a position, after those before it. Answers `AllocError` only if memory runs
    /// out; then the index is unchanged.
    #[inline(always)]
    pub fn add(&mut self, at: usize, item: &Item) -> Result<(), AllocError>
        ensures classes { OnOk result (self.new.classes.items ≡ self.old.classes.items
            ++ classes (item.now ∷ [])) }
        ensures procedures { OnOk result (self.new.procedures.items
            ≡ self.old.procedures.items ++ map (λ p. at) (procedures (item.now ∷ []))) }
        ensures commands { OnOk result (self.new.commands.items
            ≡ self.old.commands.items ++ map (λ c. at) (commands_of (item.now ∷ []))) }
        ensures err { OnErr result ((items : List AnyItem) → IsIndexOf items self.old
            → IsIndexOf items self.new) }
    {
        match item {
            Item::Profile(_) | Item::Budget(_) | Item::Shutdown => {}
            Item::Class(class) => self.classes.push(*class)?,
            Item::Def(_) => self.procedures.push(at)?,
            Item::Run(_) => {
                // Most lines are commands. In this form, the call that grows the list is made only
                // when it is full.
                self.commands.reserve(1)?;
                self.commands.push_reserved(at);
            }
        }
        Ok(())
    }
}
