//! A sink in memory that fails on listed calls.
ghost use Rattle.std.specs.Prelude.{◌≡◌, ◌<◌, ◌⊎◌, [], take, Some, IsTrue, IsErr, OnOk, OnErr};
ghost use Rattle.std.specs.Io.KnownBytes.{Appends};
ghost use Rattle.cg_io.specs.Causes.{HasCause, AppendsFront};
ghost use Rattle.cg_io.specs.Memory.{MemoryOutput, next_write_fails, after_write, kept_at_fault, after_failed_write};

use crate::memory::is_next_listed;
use crate::{Sink, WriteFailed};
use std::alloc::Global;
use std::marker::Model;

/// A growing list of the bytes written, visible to contracts. Calls are numbered from 1; the listed
/// calls fail and keep the first few bytes.
///
/// A contract sees a `MemoryOutput`: the bytes, the calls so far, that list, how many bytes a
/// listed call keeps, and the faults so far.
#[derive(Drop)]
pub struct MemSink {
    bytes: Vec<u8>,
    fails: Vec<u64>,
    keep: usize,
    calls: u64,
    faults: u64,
}

impl Model for MemSink {
    ghost Value = { MemoryOutput };

    ghost view = { λ s. record {
      bytes = s.bytes.items;
      calls = s.calls;
      fails = s.fails.items;
      keep = s.keep;
      faults = s.faults;
    } };
}

impl MemSink {
    /// An empty sink, before its first call. Calls whose numbers (from 1) are in `fails` will fail
    /// and keep the first `keep` bytes given. With an empty list every fault is an allocation
    /// failure.
    pub fn new(alloc: Global, fails: Vec<u64>, keep: usize) -> MemSink
        ensures { result ≡ record {
          bytes = [];
          calls = 0;
          fails = fails.items;
          keep = keep;
          faults = 0;
        } }
    {
        MemSink {
            bytes: Vec::new(alloc),
            fails,
            keep,
            calls: 0,
            faults: 0,
        }
    }

    /// All that was written so far.
    pub fn bytes(&self) -> &[u8]
        ensures { result.now ≡ self.now.bytes }
    {
        self.bytes.as_slice()
    }
}

/// The prefix that a listed call keeps.
fn kept(bytes: &[u8], keep: usize) -> &[u8]
    ensures { result.now ≡ take keep bytes.now }
{
    &bytes[..keep.min(bytes.len())]
}

impl Sink for MemSink {
    ghost written = { λ s. Some s.bytes };

    ghost faults = { λ s. s.faults };

    /// Appends the bytes. A listed call appends the first few and fails. If the allocation fails,
    /// the call, listed or not, appends nothing and fails. Each failure counts as a fault.
    fn write(&mut self, bytes: &[u8]) -> Result<(), WriteFailed>
        ensures ok { OnOk result (Appends (Some self.old.bytes) (Some self.new.bytes) bytes.now) }
        ensures err { OnErr result (AppendsFront (Some self.old.bytes) (Some self.new.bytes)
            bytes.now) }
        ensures cause { HasCause self.old.faults self.new.faults result }

        // The listed calls fail.
        ensures listed { IsTrue (next_write_fails self.old) → IsErr result }

        // The sink after a call. If the allocation fails, nothing is kept.
        ensures wrote { OnOk result (self.new ≡ after_write self.old bytes.now) }
        ensures failed { OnErr result
            ((self.new ≡ after_failed_write self.old (kept_at_fault self.old bytes.now))
            ⊎ (self.new ≡ after_failed_write self.old [])) }
    {
        let fails = is_next_listed(&self.fails, self.calls);
        let wanted = if fails { kept(bytes, self.keep) } else { bytes };
        self.calls = self.calls.saturating_add(1);
        if self.bytes.extend_from_slice(wanted).is_err() || fails {
            self.faults = self.faults.saturating_add(1);
            return Err(WriteFailed);
        }
        Ok(())
    }
}
