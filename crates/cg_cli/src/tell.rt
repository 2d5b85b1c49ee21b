//! The lines that say why no script was run, and the summary of a run.
ghost use Rattle.std.specs.Prelude.{◌≡◌, ◌≤◌, ◌+◌, ◌++◌, ◌⊎◌, length, codes, decimal};
ghost use Rattle.std.specs.Io.KnownBytes.{Appends};
ghost use Rattle.cg_io.specs.Causes.{AppendsFront, Rose};
ghost use Rattle.cg_generator.specs.Tallies.{summary_of};
ghost use Rattle.cg_cli.specs.Statuses.{bad_script_text};

use crate::status::Status;
use arrayvec::ArrayString;
use cg_generator::{Tally, summary_line};
use cg_io::{Sink, WriteFailed};
use itoa::Buffer;

/// Reports that the arguments ask for nothing.
pub fn tell_bad_words<K: Sink>(sink: &mut K) -> Status
    ensures bad_words { result ≡ Status.BadWords → Appends (K.written sink.old) (K.written sink.new)
        (codes "bad words\n") }
    ensures write { result ≡ Status.WriteFault → AppendsFront (K.written sink.old)
        (K.written sink.new) (codes "bad words\n") }
    ensures cause { result ≡ Status.WriteFault → Rose (K.faults sink.old) (K.faults sink.new) }
    ensures only { (result ≡ Status.BadWords) ⊎ (result ≡ Status.WriteFault) }
{
    match sink.write(b"bad words\n") {
        Ok(()) => Status::BadWords,
        Err(WriteFailed) => Status::WriteFault,
    }
}

/// Reports that the source has too many bytes.
pub fn tell_large<K: Sink>(sink: &mut K) -> Status
    ensures large { result ≡ Status.TooLarge → Appends (K.written sink.old) (K.written sink.new)
        (codes "too large\n") }
    ensures write { result ≡ Status.WriteFault → AppendsFront (K.written sink.old)
        (K.written sink.new) (codes "too large\n") }
    ensures cause { result ≡ Status.WriteFault → Rose (K.faults sink.old) (K.faults sink.new) }
    ensures only { (result ≡ Status.TooLarge) ⊎ (result ≡ Status.WriteFault) }
{
    match sink.write(b"too large\n") {
        Ok(()) => Status::TooLarge,
        Err(WriteFailed) => Status::WriteFault,
    }
}

/// Reports the first bad line and its code.
pub fn tell_bad_script<K: Sink>(line: u32, code: u8, sink: &mut K) -> Status
    ensures bad { result ≡ Status.BadScript → Appends (K.written sink.old) (K.written sink.new)
        (bad_script_text line code) }
    ensures write { result ≡ Status.WriteFault → AppendsFront (K.written sink.old)
        (K.written sink.new) (bad_script_text line code) }
    ensures cause { result ≡ Status.WriteFault → Rose (K.faults sink.old) (K.faults sink.new) }
    ensures only { (result ≡ Status.BadScript) ⊎ (result ≡ Status.WriteFault) }
{
    match sink.write(bad_script_line(line, code).as_str().as_bytes()) {
        Ok(()) => Status::BadScript,
        Err(WriteFailed) => Status::WriteFault,
    }
}

/// Writes the summary of a tally.
pub fn tell_summary<K: Sink>(tally: &Tally, sink: &mut K) -> Status
    ensures done { result ≡ Status.Done → Appends (K.written sink.old) (K.written sink.new)
        (summary_of tally.now) }
    ensures write { result ≡ Status.WriteFault → AppendsFront (K.written sink.old)
        (K.written sink.new) (summary_of tally.now) }
    ensures cause { result ≡ Status.WriteFault → Rose (K.faults sink.old) (K.faults sink.new) }
    ensures only { (result ≡ Status.Done) ⊎ (result ≡ Status.WriteFault) }
{
    match sink.write(summary_line(tally).as_str().as_bytes()) {
        Ok(()) => Status::Done,
        Err(WriteFailed) => Status::WriteFault,
    }
}

/// The line of the first bad line.
fn bad_script_line(line: u32, code: u8) -> ArrayString<100>
    ensures { result.bytes ≡ bad_script_text line code }
{
    let mut text = ArrayString::new();
    text.push_str("bad script ");
    push_number(&mut text, u64::from(line));
    text.push_str(" ");
    push_number(&mut text, u64::from(code));
    text.push_str("\n");
    text
}

fn push_number(text: &mut ArrayString<100>, number: u64)
    requires { length text.old.bytes + 40 ≤ 100 }
    ensures appended { text.new.bytes ≡ text.old.bytes ++ decimal number }
    ensures room { length text.new.bytes ≤ length text.old.bytes + 20 }
{
    let mut buffer = Buffer::new();
    text.push_str(buffer.format(number));
}
