//! What is known of a text whose bytes arrive one by one and are not stored.
ghost use Rattle.std.specs.Prelude.{◌≡◌, ◌+◌, ◌<◌, ◌≤◌, ◌++◌, ◌∷◌, ℕ, List, [], OnOk, OnErr};
ghost use Rattle.cg_generator.specs.Tallies.{tally_of, has_refusal as some_refusal, largest};
ghost use Rattle.cg_generator.specs.Counting.{HasSeen};

use crate::counts::{NONE, Tally, with_one_line};
use crate::line::is_refusal;
use std::alloc::{AllocError, Global};

/// The tally of the finished lines, whether one of them reports a refusal, and the unfinished line.
#[derive(Drop)]
pub(crate) struct Seen {
    pub counts: Tally,
    pub refused: bool,
    pub line: Vec<u8>,
    ghost made: { counts.made ≤ counts.lines },
    ghost freed: { counts.freed ≤ counts.lines },
    ghost stops: { counts.stops ≤ counts.lines },
    ghost few: { counts.lines < largest },
}

impl Seen {
    /// After no bytes.
    pub(crate) fn new(alloc: Global) -> Seen
        ensures { HasSeen [] result.counts result.refused result.line.items }
    {
        Seen {
            counts: NONE,
            refused: false,
            line: Vec::new(alloc),
        }
    }

    /// Ends the line.
    fn end_line(&mut self)
        requires { self.old.counts.lines + 1 < largest }
        ensures { (text : List ℕ) → HasSeen text self.old.counts self.old.refused
            self.old.line.items
            → HasSeen (text ++ 10 ∷ []) self.new.counts self.new.refused self.new.line.items }
    {
        self.counts = with_one_line(self.counts, self.line.as_slice());
        self.refused = self.refused || is_refusal(self.line.as_slice());
        self.line.clear();
    }

    /// Takes one more byte. Answers `AllocError` if memory for the line runs out, or after 2^64 - 2
    /// lines; then nothing has changed.
    pub(crate) fn take(&mut self, byte: u8) -> Result<(), AllocError>
        ensures ok { OnOk result ((text : List ℕ) → HasSeen text self.old.counts self.old.refused
            self.old.line.items
            → HasSeen (text ++ byte ∷ []) self.new.counts self.new.refused self.new.line.items) }
        ensures err { OnErr result ((text : List ℕ) → HasSeen text self.old.counts self.old.refused
            self.old.line.items
            → HasSeen text self.new.counts self.new.refused self.new.line.items) }
    {
        if byte != b'\n' {
            self.line.push(byte)?;
            return Ok(());
        }
        if self.counts.lines >= MOST_LINES {
            return Err(AllocError);
        }
        self.end_line();
        Ok(())
    }

    /// The tally, with the unfinished line if it is not empty.
    pub(crate) fn tally(&self) -> Tally
        ensures { (text : List ℕ) → HasSeen text self.now.counts self.now.refused
            self.now.line.items → result ≡ tally_of text }
    {
        match self.line.as_slice() {
            [] => self.counts,
            line => with_one_line(self.counts, line),
        }
    }

    /// Whether a line reports a refusal.
    pub(crate) fn has_refusal(&self) -> bool
        ensures { (text : List ℕ) → HasSeen text self.now.counts self.now.refused
            self.now.line.items → result ≡ some_refusal text }
    {
        self.refused || is_refusal(self.line.as_slice())
    }
}

/// The most finished lines, so that one more can be counted.
const MOST_LINES: u64 = u64::MAX - 2;
