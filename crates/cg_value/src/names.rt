//! Interned texts. (Interning is ours; CPython interns identifiers in the same way.)
ghost use Rattle.std.specs.Prelude.{◌≡◌, ◌↔◌, is_some, ◌-◌, ◌^◌, ◌<◌, List, [], length, map, position, IsTrue, IfOk, OnOk, OnErr, slice_get, Some};
ghost use Rattle.std.specs.String.{string_bytes};
ghost use Rattle.std.specs.Str.{bytes_eq};
ghost use Rattle.cg_value.specs.Texts.{has_text, text_number, with_text};

use indexmap::IndexSet;
use std::alloc::{AllocError, Global};
use std::marker::Model;

/// The number of guesses.
const GUESSES: usize = 64;

/// The index of a text's guess. Texts may share a guess; it then holds the number of the last one
/// interned.
///
/// Most names differ in their last byte, as numbered names do, so all its bits count.
#[inline(always)]
fn guess_place(text: &str) -> usize
    ensures { result < GUESSES }
{
    let bytes = text.as_bytes();
    let (first, last) = match (bytes.first(), bytes.last()) {
        (Some(first), Some(last)) => (*first as usize, *last as usize),
        _ => (0, 0),
    };
    (last ^ (first << 2) ^ (bytes.len() << 4)) % GUESSES
}

/// Texts by number, each once. Contracts see the list of their bytes in the order of their numbers.
///
/// There are at most 2^32 - 1 texts, so each number is a `u32`.
#[derive(Drop)]
pub struct Names {
    alloc: Global,
    texts: IndexSet<String>,
    // A text's likely number, by its `guess_place`. A wrong guess is harmless: the text is looked
    // up. It saves time, since most texts were read a moment ago.
    guesses: [u32; GUESSES],
}

impl Model for Names {
    ghost use Rattle.std.specs.Prelude.{List, ℕ, map, length, ◌<◌, ◌^◌};
    ghost use Rattle.std.specs.String.{string_bytes};

    ghost Value = { List (List ℕ) };

    ghost view = { λ s. map string_bytes s.texts.keys };

    ghost invariant = { λ s. length s.texts.keys < 2 ^ 32 };
}

impl Names {
    /// The empty list of texts. It allocates nothing yet.
    pub fn new(alloc: Global) -> Names
        ensures { result ≡ [] }
    {
        Names {
            alloc,
            texts: IndexSet::new(alloc),
            guesses: [0; GUESSES],
        }
    }

    /// Whether this is the number of a text. Compares the text; hashes nothing.
    #[inline(always)]
    fn is_number_of(&self, number: u32, text: &str) -> bool
        ensures { IsTrue result ↔ (position (bytes_eq text.now) self.now ≡ Some number) }
    {
        match self.texts.as_slice().get(number as usize) {
            Some(there) => there.as_str() == text,
            None => false,
        }
    }

    /// `find`, by the text's hash.
    fn find_by_hash(&self, text: &str) -> Option<u32>
        ensures index { result ≡ position (bytes_eq text.now) self.now }
        ensures found { is_some result ≡ has_text self.now text.now }
    {
        match self.texts.get_index_of(text) {
            Some(number) => Some(number as u32),
            None => None,
        }
    }

    /// `intern`, by the text's hash.
    #[inline(never)]
    fn intern_by_hash(&mut self, text: &str) -> Result<u32, AllocError>
        requires { length self.old < 2 ^ 32 - 1 }
        ensures number { IfOk result (λ number. number ≡ text_number self.old text.now) }
        ensures ok { OnOk result (self.new ≡ with_text self.old text.now) }
        ensures err { OnErr result (self.new ≡ self.old) }
    {
        if let Some(number) = self.find_by_hash(text) {
            return Ok(number);
        }
        let number = self.len();
        self.texts.insert(String::from_str(self.alloc, text)?)?;
        Ok(number)
    }

    /// The number of a text: its position, after appending it if it is new.
    ///
    /// Returns `AllocError` only if memory runs out; then nothing has changed.
    pub fn intern(&mut self, text: &str) -> Result<u32, AllocError>
        requires { length self.old < 2 ^ 32 - 1 }
        ensures number { IfOk result (λ number. number ≡ text_number self.old text.now) }
        ensures ok { OnOk result (self.new ≡ with_text self.old text.now) }
        ensures err { OnErr result (self.new ≡ self.old) }
    {
        let place = guess_place(text);
        let guess = self.guesses[place];
        if self.is_number_of(guess, text) {
            return Ok(guess);
        }
        let number = self.intern_by_hash(text)?;
        self.guesses[place] = number;
        Ok(number)
    }

    /// The number of a text, `None` exactly if it is not there.
    pub fn find(&self, text: &str) -> Option<u32>
        ensures { result ≡ position (bytes_eq text.now) self.now }
    {
        let guess = self.guesses[guess_place(text)];
        if self.is_number_of(guess, text) {
            return Some(guess);
        }
        self.find_by_hash(text)
    }

    /// Whether a text is there.
    pub fn has(&self, text: &str) -> bool
        ensures { result ≡ has_text self.now text.now }
    {
        self.texts.contains(text)
    }

    /// The text with a number below `len`.
    pub fn text(&self, id: u32) -> &str
        requires { id < length self.now }
        ensures { slice_get self.now id ≡ Some result.now }
    {
        match self.texts.get_index(id as usize) {
            Some(text) => text.as_str(),
            None => unreachable!(),
        }
    }

    /// The number of texts.
    pub fn len(&self) -> u32
        ensures { result ≡ length self.now }
    {
        self.texts.len() as u32
    }
}
