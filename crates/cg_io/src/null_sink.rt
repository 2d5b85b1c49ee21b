//! A sink that keeps nothing.
ghost use Rattle.std.specs.Prelude.{◌≡◌, None, Ok, OnErr, OnOk};
ghost use Rattle.std.specs.Io.KnownBytes.{Appends};
ghost use Rattle.cg_io.specs.Causes.{HasCause, AppendsFront};

use crate::{Sink, WriteFailed};

/// Discards what it is given. It never fails.
#[derive(Clone, Copy, Debug, Drop)]
pub struct NullSink;

impl NullSink {
    /// A sink that keeps nothing.
    pub fn new() -> NullSink
        ensures tells_nothing { ⟦<NullSink as Sink>⟧.written result ≡ None }
        ensures no_faults { ⟦<NullSink as Sink>⟧.faults result ≡ 0 }
    {
        NullSink
    }
}

impl Sink for NullSink {
    ghost written = { λ _. None };

    ghost faults = { λ _. 0 };

    /// Discards the bytes. It never fails.
    fn write(&mut self, bytes: &[u8]) -> Result<(), WriteFailed>
        ensures ok { OnOk result (Appends None None bytes.now) }
        ensures err { OnErr result (AppendsFront None None bytes.now) }
        ensures cause { HasCause 0 0 result }
        ensures never_fails { result ≡ Ok tt }
    {
        let _ = bytes;
        Ok(())
    }
}
