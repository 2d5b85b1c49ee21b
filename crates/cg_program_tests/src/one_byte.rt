//! A source that gives one byte a call, and counts its calls.
ghost use Rattle.std.specs.Prelude.{◌≡◌};

use cg_io::{MemSource, ReadFailed, Source};

/// A source in memory that gives at most one byte a call.
#[derive(Drop)]
pub struct OneByte {
    source: MemSource,
    calls: u64,
}

impl OneByte {
    /// A source with the bytes of this one, before its first call.
    pub fn new(source: MemSource) -> OneByte
        ensures source { result.source ≡ source }
        ensures calls { result.calls ≡ 0 }
    {
        OneByte { source, calls: 0 }
    }

    /// How often it was read. The count is capped at the largest number of 64 bits.
    pub fn calls(&self) -> u64
        ensures { result ≡ self.now.calls }
    {
        self.calls
    }
}

impl Source for OneByte {
    ghost left = { λ s. ⟦<MemSource as Source>⟧.left s.source };

    ghost faults = { λ s. ⟦<MemSource as Source>⟧.faults s.source };

    fn read(&mut self, buf: &mut [u8]) -> Result<usize, ReadFailed> {
        self.calls = self.calls.saturating_add(1);
        self.source.read(&mut buf[..1])
    }
}
