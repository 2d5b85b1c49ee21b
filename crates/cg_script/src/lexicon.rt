//! The texts of a script while it is read.
ghost use Rattle.std.specs.Prelude.{◌≡◌, ◌-◌, ◌^◌, ◌<◌, [], true, length, IfOk, IfSome, OnOk};
ghost use Rattle.cg_value.specs.Texts.{text_number, with_text};
ghost use Rattle.cg_script.specs.Words.{is_variable};

use crate::word::text_of_identifier;
use cg_value::Names;
use std::alloc::{AllocError, Global};
use std::marker::Model;

/// How many slots there are for variables.
const PLACES: usize = 1024;

/// The slot of a variable that is this word. Words may share one; the last one read keeps it.
///
/// Most names in a long script end in numbers: names that differ only in their last three digits,
/// at most, never share a slot.
#[inline(always)]
fn place_of(word: &[u8]) -> usize
    ensures { result < PLACES }
{
    let mixed = match word {
        [.., a, b, c] => usize::from(*a) * 100 + usize::from(*b) * 10 + usize::from(*c),
        [b, c] => usize::from(*b) * 10 + usize::from(*c),
        [c] => usize::from(*c),
        [] => 0,
    };
    mixed % PLACES
}

/// The texts of a script while it is read. Contracts see the list of their bytes, in the order of
/// their numbers.
#[derive(Drop)]
pub(crate) struct Lexicon {
    names: Names,
    // Numbers of texts known to be variables, each in its slot. A word equal to such a text is a
    // variable, without further checks.
    variables: [Option<u32>; PLACES],
}

impl Model for Lexicon {
    ghost use Rattle.std.specs.Prelude.{List, ℕ};
    ghost use Rattle.std.specs.List.{All};
    ghost use Rattle.cg_script.specs.Lexicons.{IsRemembered};

    ghost Value = { List (List ℕ) };

    ghost view = { λ s. s.names };

    ghost invariant = { λ s. All (IsRemembered s.names) s.variables };
}

impl Lexicon {
    /// No text. Allocates nothing yet.
    pub fn new(alloc: Global) -> Lexicon
        ensures { result ≡ [] }
    {
        Lexicon {
            names: Names::new(alloc),
            variables: [None; PLACES],
        }
    }

    /// The number of this word, if it is a remembered variable. This compares it with one text
    /// only.
    #[inline(always)]
    pub fn remembered(&self, word: &[u8]) -> Option<u32>
        ensures variable { IfSome result (λ number. is_variable word.now ≡ true) }
        ensures number { IfSome result (λ number. number ≡ text_number self.now word.now) }
        ensures texts { IfSome result (λ number. self.now ≡ with_text self.now word.now) }
    {
        let number = self.variables[place_of(word)]?;
        if self.names.text(number).as_bytes() == word {
            Some(number)
        } else {
            None
        }
    }

    /// The number of a variable, which is then remembered. Answers `AllocError` only if memory runs
    /// out.
    pub fn learn(&mut self, word: &[u8]) -> Result<u32, AllocError>
        requires variable { is_variable word.now ≡ true }
        requires room { length self.old < 2 ^ 32 - 1 }
        ensures number { IfOk result (λ number. number ≡ text_number self.old word.now) }
        ensures texts { OnOk result (self.new ≡ with_text self.old word.now) }
    {
        let number = self.names.intern(text_of_identifier(word))?;
        self.variables[place_of(word)] = Some(number);
        Ok(number)
    }

    /// The number of a text. Answers `AllocError` only if memory runs out.
    pub fn intern(&mut self, text: &str) -> Result<u32, AllocError>
        requires { length self.old < 2 ^ 32 - 1 }
        ensures number { IfOk result (λ number. number ≡ text_number self.old text.now) }
        ensures texts { OnOk result (self.new ≡ with_text self.old text.now) }
    {
        self.names.intern(text)
    }

    /// The texts.
    pub fn into_names(self) -> Names
        ensures { result ≡ self }
    {
        self.names
    }
}
