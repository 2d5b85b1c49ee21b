//! The traits of sources and sinks, and the errors of their calls.
ghost use Rattle.std.specs.Prelude.{ℕ, ◌<◌, List, length, OnOk, OnErr};
ghost use Rattle.std.specs.declared.option.Option.{Option};
ghost use Rattle.std.specs.Io.{ReadsAtMost};
ghost use Rattle.std.specs.Io.KnownBytes.{ReadConsumes, Appends};
ghost use Rattle.cg_io.specs.Causes.{HasCause, AppendsFront};

/// A source could not read.
#[derive(Clone, Copy, Debug, PartialEq, Eq)]
pub struct ReadFailed;

/// A sink could not write all that it was given.
#[derive(Clone, Copy, Debug, PartialEq, Eq)]
pub struct WriteFailed;

/// A source of bytes that counts its faults. Ours, after `std::io::Read`.
pub trait Source {
    // The remaining bytes, if the source reveals them.
    ghost left: { Self → Option (List ℕ) };

    // How often the source has failed. The count stops at the largest 64-bit number.
    ghost faults: { Self → ℕ };

    /// Reads the next bytes into the front of `buf`, and returns how many, from 0 to the length of
    /// `buf`.
    ///
    /// 0 means the end: nothing remains. `ReadFailed` consumes nothing, and comes only if the fault
    /// count rose in this call or is at its maximum.
    fn read(&mut self, buf: &mut [u8]) -> Result<usize, ReadFailed>
        requires { 0 < length buf.old }
        ensures bound { ReadsAtMost result buf.new }
        ensures bytes { ReadConsumes (left self.old) (left self.new) result buf.new }
        ensures cause { HasCause (faults self.old) (faults self.new) result };
}

/// A sink of bytes that counts its faults. Ours, after `std::io::Write`.
pub trait Sink {
    // The bytes written, if the sink reveals them.
    ghost written: { Self → Option (List ℕ) };

    // How often the sink has failed. The count stops at the largest 64-bit number.
    ghost faults: { Self → ℕ };

    /// Writes all of `bytes`.
    ///
    /// `WriteFailed` leaves a prefix of `bytes` written, from none to all of them, and comes only
    /// if the fault count rose in this call or is at its maximum.
    fn write(&mut self, bytes: &[u8]) -> Result<(), WriteFailed>
        ensures ok { OnOk result (Appends (written self.old) (written self.new) bytes.now) }
        ensures err { OnErr result (AppendsFront (written self.old) (written self.new) bytes.now) }
        ensures cause { HasCause (faults self.old) (faults self.new) result };
}
