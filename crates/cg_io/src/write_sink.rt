//! A sink over a writer of the standard library.
ghost use Rattle.std.specs.Prelude.{◌≡◌, ◌<◌, None, OnOk, OnErr};
ghost use Rattle.std.specs.Io.{WritesAtMost};
ghost use Rattle.std.specs.Io.KnownBytes.{Appends, WriteAppends};
ghost use Rattle.cg_io.specs.Causes.{HasCause, AppendsFront, counted};
ghost use Rattle.cg_io.specs.Adapters.{WriterInUse};

use crate::read_source::TRIES;
use crate::{Sink, WriteFailed};
use std::io::{Error, ErrorKind, Write};
use std::marker::Model;

/// Any writer, with a count of its faults. Over `std::io::Write`.
///
/// A contract sees a `WriterInUse`: what the writer holds, if known, and the faults so far. As a
/// sink it reveals nothing about its bytes.
#[derive(Drop)]
pub struct WriteSink<W: Write + Drop> {
    inner: W,
    faults: u64,
}

impl<W: Write + Drop> Model for WriteSink<W> {
    ghost Value = { WriterInUse };

    ghost view = { λ s. record { contents = W.contents s.inner; faults = s.faults } };
}

impl<W: Write + Drop> WriteSink<W> {
    /// A sink over this writer, with no faults yet.
    pub fn new(inner: W) -> WriteSink<W>
        ensures { result ≡ record { contents = W.contents inner; faults = 0 } }
    {
        WriteSink { inner, faults: 0 }
    }
}

/// Writes a prefix of the bytes, after a first try that failed. Retries while the writer is
/// interrupted.
#[inline(never)]
fn write_again<W: Write>(inner: &mut W, bytes: &[u8], first: Error) -> Result<usize, WriteFailed>
    ensures bound { WritesAtMost result bytes.now }
    ensures bytes { WriteAppends (W.contents inner.old) (W.contents inner.new) result bytes.now }
{
    let mut error = first;
    'tries: for _attempt in 1..TRIES {
        if error.kind() != ErrorKind::Interrupted {
            break;
        }
        match inner.write(bytes) {
            Ok(n) => return Ok(n),
            Err(e) => error = e,
        }
    }
    Err(WriteFailed)
}

/// Writes a prefix of the bytes, and retries if the writer was interrupted.
#[inline(always)]
fn write_patiently<W: Write>(inner: &mut W, bytes: &[u8]) -> Result<usize, WriteFailed>
    ensures bound { WritesAtMost result bytes.now }
    ensures bytes { WriteAppends (W.contents inner.old) (W.contents inner.new) result bytes.now }
{
    match inner.write(bytes) {
        Ok(n) => Ok(n),
        Err(e) => write_again(inner, bytes, e),
    }
}

/// Writes all of the bytes, prefix by prefix.
#[inline(always)]
fn write_fronts<W: Write>(inner: &mut W, bytes: &[u8]) -> Result<(), WriteFailed>
    ensures ok { OnOk result (Appends (W.contents inner.old) (W.contents inner.new) bytes.now) }
    ensures err { OnErr result (AppendsFront (W.contents inner.old) (W.contents inner.new)
        bytes.now) }
{
    let mut rest = bytes;
    'fronts: while !rest.is_empty() {
        let n = write_patiently(inner, rest)?;
        if n == rest.len() {
            break;
        }
        if n == 0 {
            return Err(WriteFailed);
        }
        rest = &rest[n..];
    }
    Ok(())
}

impl<W: Write + Drop> Sink for WriteSink<W> {
    ghost written = { λ _. None };

    ghost faults = { λ s. s.faults };

    /// Writes the bytes to the writer, in as many calls as it takes. A write that returns
    /// `Interrupted` is retried, at most 100 times (`Write::write_all` retries without limit). Any
    /// other error, one more `Interrupted`, or a write of zero bytes is a fault.
    #[inline(always)]
    fn write(&mut self, bytes: &[u8]) -> Result<(), WriteFailed>
        ensures ok { OnOk result (Appends None None bytes.now) }
        ensures err { OnErr result (AppendsFront None None bytes.now) }
        ensures cause { HasCause self.old.faults self.new.faults result }

        // The writer received all of the bytes, or a prefix of them if the call fails; each failure
        // is counted.
        ensures to_writer { OnOk result (Appends self.old.contents self.new.contents bytes.now) }
        ensures front { OnErr result (AppendsFront self.old.contents self.new.contents bytes.now) }
        ensures unfailed { OnOk result (self.new.faults ≡ self.old.faults) }
        ensures faulted { OnErr result (self.new.faults ≡ counted self.old.faults) }
    {
        let answer = write_fronts(&mut self.inner, bytes);
        if answer.is_err() {
            self.faults = self.faults.saturating_add(1);
        }
        answer
    }
}
