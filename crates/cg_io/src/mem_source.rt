//! A source in memory that fails on listed calls.
ghost use Rattle.std.specs.Prelude.{◌≡◌, ◌+◌, ◌<◌, ◌≤◌, ◌↔◌, ◌++◌, length, take, drop, min, Some, Ok, IsTrue, IfOk, IsErr, OnErr};
ghost use Rattle.std.specs.Io.{ReadsAtMost};
ghost use Rattle.std.specs.Io.KnownBytes.{ReadConsumes};
ghost use Rattle.cg_io.specs.Causes.{HasCause};
ghost use Rattle.cg_io.specs.Memory.{MemoryInput, next_read_fails, after_read, after_failed_read};

use crate::memory::{copy_front, is_next_listed};
use crate::{ReadFailed, Source};
use std::marker::Model;

/// Bytes in memory, visible to contracts. Calls are numbered from 1; exactly the listed ones fail.
///
/// A contract sees a `MemoryInput`: the remaining bytes, the calls so far, that list, and the
/// faults so far.
#[derive(Drop)]
pub struct MemSource {
    bytes: Vec<u8>,
    at: usize,
    fails: Vec<u64>,
    calls: u64,
    faults: u64,
}

impl Model for MemSource {
    ghost Value = { MemoryInput };

    ghost view = { λ s. record {
      left = drop s.at s.bytes.items;
      calls = s.calls;
      fails = s.fails.items;
      faults = s.faults;
    } };

    ghost invariant = { λ s. s.at ≤ length s.bytes.items };
}

impl MemSource {
    /// A source of these bytes, before its first call. Calls whose numbers (from 1) are in `fails`
    /// will fail.
    pub fn new(bytes: Vec<u8>, fails: Vec<u64>) -> MemSource
        ensures { result ≡ record {
          left = bytes.items;
          calls = 0;
          fails = fails.items;
          faults = 0;
        } }
    {
        MemSource {
            bytes,
            at: 0,
            fails,
            calls: 0,
            faults: 0,
        }
    }
}

impl Source for MemSource {
    ghost left = { λ s. Some s.left };

    ghost faults = { λ s. s.faults };

    /// Reads as many bytes as remain and fit into `buf`. `ReadFailed` comes exactly if this call is
    /// listed; then the bytes and `buf` are unchanged, and the fault is counted.
    fn read(&mut self, buf: &mut [u8]) -> Result<usize, ReadFailed>
        requires { 0 < length buf.old }
        ensures bound { ReadsAtMost result buf.new }
        ensures bytes { ReadConsumes (Some self.old.left) (Some self.new.left) result buf.new }
        ensures cause { HasCause self.old.faults self.new.faults result }

        // Which calls fail, and how many bytes the others read.
        ensures failed { IsErr result ↔ IsTrue (next_read_fails self.old) }
        ensures count { IfOk result (λ n. n ≡ min (length self.old.left) (length buf.old)) }

        // The source and the buffer in both cases.
        ensures ok { IfOk result (λ n. self.new ≡ after_read self.old n) }
        ensures copied { IfOk result (λ n. buf.new ≡ take n self.old.left ++ drop n buf.old) }
        ensures err { OnErr result (self.new ≡ after_failed_read self.old) }
        ensures untouched { OnErr result (buf.new ≡ buf.old) }
    {
        let fails = is_next_listed(&self.fails, self.calls);
        self.calls = self.calls.saturating_add(1);
        if fails {
            self.faults = self.faults.saturating_add(1);
            return Err(ReadFailed);
        }
        let n = copy_front(&self.bytes[self.at..], buf);
        self.at += n;
        Ok(n)
    }
}
