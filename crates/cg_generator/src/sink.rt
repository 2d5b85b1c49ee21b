//! A sink that tallies the lines written to it, and stores none.
ghost use Rattle.std.specs.Prelude.{◌≡◌, ◌++◌, ◌∷◌, [], Some, OnOk, OnErr};
ghost use Rattle.std.specs.Io.KnownBytes.{Appends};
ghost use Rattle.cg_io.specs.Causes.{HasCause, AppendsFront};
ghost use Rattle.cg_generator.specs.Tallies.{tally_of, has_refusal as some_refusal};

use crate::counts::Tally;
use crate::seen::Seen;
use crate::told::Told;
use cg_io::{Sink, WriteFailed};
use std::alloc::Global;
use std::marker::Model;

/// Counts the lines of what is written, and stores only the unfinished line. Contracts see the
/// whole text, which takes no memory.
///
/// A contract sees a `Tallied`: the text that was written, and the faults so far.
#[derive(Drop)]
pub struct TallySink {
    seen: Seen,
    told: Told,
    faults: u64,
}

impl Model for TallySink {
    ghost use Rattle.cg_generator.specs.Tallies.{Tallied};
    ghost use Rattle.cg_generator.specs.Counting.{HasSeen};

    ghost Value = { Tallied };

    ghost view = { λ s. record { text = s.told.bytes; faults = s.faults } };

    ghost invariant = { λ s. HasSeen s.told.bytes s.seen.counts s.seen.refused s.seen.line.items };
}

impl TallySink {
    /// A sink to which nothing was written.
    pub fn new(alloc: Global) -> TallySink
        ensures { result ≡ record { text = []; faults = 0 } }
    {
        TallySink {
            seen: Seen::new(alloc),
            told: Told::nothing(),
            faults: 0,
        }
    }

    /// The tally of what was written.
    pub fn tally(&self) -> Tally
        ensures { result ≡ tally_of self.now.text }
    {
        self.seen.tally()
    }

    /// Whether a written line reports a refused command.
    pub fn has_refusal(&self) -> bool
        ensures { result ≡ some_refusal self.now.text }
    {
        self.seen.has_refusal()
    }

    /// Takes one more byte, if there is memory for its line.
    fn take(&mut self, byte: u8) -> Result<(), WriteFailed>
        ensures ok { OnOk result (self.new ≡ record {
          text = self.old.text ++ byte ∷ [];
          faults = self.old.faults;
        }) }
        ensures err { OnErr result (self.new ≡ self.old) }
    {
        if self.seen.take(byte).is_err() {
            return Err(WriteFailed);
        }
        self.told = self.told.and(&byte);
        Ok(())
    }
}

impl Sink for TallySink {
    ghost written = { λ s. Some s.text };

    ghost faults = { λ s. s.faults };

    /// Counts the bytes. Fails if memory for a line runs out, after a prefix of the bytes, or after
    /// 2^64 - 2 lines.
    fn write(&mut self, bytes: &[u8]) -> Result<(), WriteFailed>
        ensures ok { OnOk result (Appends (Some self.old.text) (Some self.new.text) bytes.now) }
        ensures err { OnErr result (AppendsFront (Some self.old.text) (Some self.new.text)
            bytes.now) }
        ensures cause { HasCause self.old.faults self.new.faults result }
    {
        'bytes: for byte in bytes {
            if let Err(WriteFailed) = self.take(*byte) {
                self.faults = self.faults.saturating_add(1);
                return Err(WriteFailed);
            }
        }
        Ok(())
    }
}
