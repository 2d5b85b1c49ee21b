//! The lines that the checker writes.
ghost use Rattle.std.specs.Prelude.{◌≡◌, ◌≤◌, ◌+◌, ◌++◌, ◌⊎◌, length, codes, decimal};
ghost use Rattle.std.specs.Io.KnownBytes.{Appends};
ghost use Rattle.cg_io.specs.Causes.{AppendsFront, Rose};
ghost use Rattle.cg_cert.specs.Statuses.{verdict_text, status_of};

use crate::check::Verdict;
use crate::status::CheckStatus;
use arrayvec::ArrayString;
use cg_io::{Sink, WriteFailed};
use itoa::Buffer;

/// Reports that there are words.
pub(crate) fn tell_bad_words<K: Sink>(sink: &mut K) -> CheckStatus
    ensures bad_words { result ≡ CheckStatus.BadWords → Appends (K.written sink.old)
        (K.written sink.new) (codes "bad words\n") }
    ensures write { result ≡ CheckStatus.WriteFault → AppendsFront (K.written sink.old)
        (K.written sink.new) (codes "bad words\n") }
    ensures cause { result ≡ CheckStatus.WriteFault → Rose (K.faults sink.old) (K.faults sink.new) }
    ensures only { (result ≡ CheckStatus.BadWords) ⊎ (result ≡ CheckStatus.WriteFault) }
{
    match sink.write(b"bad words\n") {
        Ok(()) => CheckStatus::BadWords,
        Err(WriteFailed) => CheckStatus::WriteFault,
    }
}

/// Reports that there are too many bytes.
pub(crate) fn tell_large<K: Sink>(sink: &mut K) -> CheckStatus
    ensures large { result ≡ CheckStatus.TooLarge → Appends (K.written sink.old)
        (K.written sink.new) (codes "too large\n") }
    ensures write { result ≡ CheckStatus.WriteFault → AppendsFront (K.written sink.old)
        (K.written sink.new) (codes "too large\n") }
    ensures cause { result ≡ CheckStatus.WriteFault → Rose (K.faults sink.old) (K.faults sink.new) }
    ensures only { (result ≡ CheckStatus.TooLarge) ⊎ (result ≡ CheckStatus.WriteFault) }
{
    match sink.write(b"too large\n") {
        Ok(()) => CheckStatus::TooLarge,
        Err(WriteFailed) => CheckStatus::WriteFault,
    }
}

fn push_number(text: &mut ArrayString<100>, number: u64)
    requires { length text.old.bytes + 40 ≤ 100 }
    ensures appended { text.new.bytes ≡ text.old.bytes ++ decimal number }
    ensures room { length text.new.bytes ≤ length text.old.bytes + 20 }
{
    let mut buffer = Buffer::new();
    text.push_str(buffer.format(number));
}

fn verdict_line(verdict: Verdict) -> ArrayString<100>
    ensures { result.bytes ≡ verdict_text verdict }
{
    let mut text = ArrayString::new();
    match verdict {
        Verdict::Yes { records } => {
            text.push_str("yes ");
            push_number(&mut text, records);
        }
        Verdict::No { graph, code } => {
            text.push_str("no ");
            push_number(&mut text, graph);
            text.push_str(" ");
            push_number(&mut text, u64::from(code));
        }
    }
    text.push_str("\n");
    text
}

fn status_for(verdict: Verdict) -> CheckStatus
    ensures { result ≡ status_of verdict }
{
    match verdict {
        Verdict::Yes { .. } => CheckStatus::Yes,
        Verdict::No { .. } => CheckStatus::No,
    }
}

/// Writes a verdict.
pub(crate) fn tell_verdict<K: Sink>(verdict: Verdict, sink: &mut K) -> CheckStatus
    ensures told { result ≡ status_of verdict → Appends (K.written sink.old) (K.written sink.new)
        (verdict_text verdict) }
    ensures write { result ≡ CheckStatus.WriteFault → AppendsFront (K.written sink.old)
        (K.written sink.new) (verdict_text verdict) }
    ensures cause { result ≡ CheckStatus.WriteFault → Rose (K.faults sink.old) (K.faults sink.new) }
    ensures only { (result ≡ status_of verdict) ⊎ (result ≡ CheckStatus.WriteFault) }
{
    match sink.write(verdict_line(verdict).as_str().as_bytes()) {
        Ok(()) => status_for(verdict),
        Err(WriteFailed) => CheckStatus::WriteFault,
    }
}
