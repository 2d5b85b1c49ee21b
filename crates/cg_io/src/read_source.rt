//! A source over a reader of the standard library.
ghost use Rattle.std.specs.Prelude.{◌≡◌, ◌<◌, length, None, OnOk, OnErr};
ghost use Rattle.std.specs.Io.{ReadsAtMost};
ghost use Rattle.std.specs.Io.KnownBytes.{ReadConsumes};
ghost use Rattle.cg_io.specs.Causes.{HasCause, counted};
ghost use Rattle.cg_io.specs.Adapters.{ReaderInUse};

use crate::{ReadFailed, Source};
use std::io::{ErrorKind, Read};
use std::marker::Model;

/// How often a read or write is attempted before `Interrupted` counts as a fault: once, and 100
/// retries.
pub(crate) const TRIES: usize = 101;

/// Any reader, with a count of its faults. Over `std::io::Read`.
///
/// A contract sees a `ReaderInUse`: the bytes the reader has left, if known, and the faults so far.
/// As a source it reveals nothing about its bytes.
#[derive(Drop)]
pub struct ReadSource<R: Read + Drop> {
    inner: R,
    faults: u64,
}

impl<R: Read + Drop> Model for ReadSource<R> {
    ghost Value = { ReaderInUse };

    ghost view = { λ s. record { remaining = R.remaining s.inner; faults = s.faults } };
}

impl<R: Read + Drop> ReadSource<R> {
    /// A source over this reader, with no faults yet.
    pub fn new(inner: R) -> ReadSource<R>
        ensures { result ≡ record { remaining = R.remaining inner; faults = 0 } }
    {
        ReadSource { inner, faults: 0 }
    }
}

/// Reads, and retries if the reader was interrupted.
fn read_patiently<R: Read>(inner: &mut R, buf: &mut [u8]) -> Result<usize, ReadFailed>
    ensures bound { ReadsAtMost result buf.new }
    ensures bytes { ReadConsumes (R.remaining inner.old) (R.remaining inner.new) result buf.new }
{
    'tries: for _attempt in 0..TRIES {
        match inner.read(buf) {
            Ok(n) => return Ok(n),
            Err(e) => {
                if e.kind() != ErrorKind::Interrupted {
                    break;
                }
            }
        }
    }
    Err(ReadFailed)
}

impl<R: Read + Drop> Source for ReadSource<R> {
    ghost left = { λ _. None };

    ghost faults = { λ s. s.faults };

    /// Reads once from the reader. A read that returns `Interrupted` is retried, at most 100 times;
    /// any other error, or one more `Interrupted`, is a fault.
    fn read(&mut self, buf: &mut [u8]) -> Result<usize, ReadFailed>
        requires { 0 < length buf.old }
        ensures bound { ReadsAtMost result buf.new }
        ensures bytes { ReadConsumes None None result buf.new }
        ensures cause { HasCause self.old.faults self.new.faults result }

        // The bytes are the reader's, and each failure is counted.
        ensures from_reader { ReadConsumes self.old.remaining self.new.remaining result buf.new }
        ensures ok { OnOk result (self.new.faults ≡ self.old.faults) }
        ensures err { OnErr result (self.new.faults ≡ counted self.old.faults) }
    {
        let answer = read_patiently(&mut self.inner, buf);
        if answer.is_err() {
            self.faults = self.faults.saturating_add(1);
        }
        answer
    }
}
