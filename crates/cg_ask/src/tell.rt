//! The lines that report errors.
ghost use Rattle.std.specs.Prelude.{◌≡◌, ◌∷◌, [], ◌⊎◌, codes, IfOk};
ghost use Rattle.std.specs.Io.KnownBytes.{Appends, Keeps};
ghost use Rattle.cg_io.specs.Causes.{AppendsFront, Rose};
ghost use Rattle.cg_ask.specs.Answers.{line};

use crate::faults::Fault;
use crate::lines::put_line;
use crate::status::AskStatus;
use cg_io::{Sink, WriteFailed};
use std::alloc::{AllocError, Global};

/// Reports that there are words.
pub(crate) fn tell_bad_words<K: Sink>(sink: &mut K) -> AskStatus
    ensures bad_words { result ≡ AskStatus.BadWords → Appends (K.written sink.old)
        (K.written sink.new) (codes "bad words\n") }
    ensures write { result ≡ AskStatus.WriteFault → AppendsFront (K.written sink.old)
        (K.written sink.new) (codes "bad words\n") }
    ensures cause { result ≡ AskStatus.WriteFault → Rose (K.faults sink.old) (K.faults sink.new) }
    ensures only { (result ≡ AskStatus.BadWords) ⊎ (result ≡ AskStatus.WriteFault) }
{
    match sink.write(b"bad words\n") {
        Ok(()) => AskStatus::BadWords,
        Err(WriteFailed) => AskStatus::WriteFault,
    }
}

/// Reports that there are too many bytes.
pub(crate) fn tell_large<K: Sink>(sink: &mut K) -> AskStatus
    ensures large { result ≡ AskStatus.TooLarge → Appends (K.written sink.old) (K.written sink.new)
        (codes "too large\n") }
    ensures write { result ≡ AskStatus.WriteFault → AppendsFront (K.written sink.old)
        (K.written sink.new) (codes "too large\n") }
    ensures cause { result ≡ AskStatus.WriteFault → Rose (K.faults sink.old) (K.faults sink.new) }
    ensures only { (result ≡ AskStatus.TooLarge) ⊎ (result ≡ AskStatus.WriteFault) }
{
    match sink.write(b"too large\n") {
        Ok(()) => AskStatus::TooLarge,
        Err(WriteFailed) => AskStatus::WriteFault,
    }
}

/// The line that reports a bad line.
fn bad_line(alloc: Global, number: u64) -> Result<Vec<u8>, AllocError>
    ensures { IfOk result (λ text. text.items ≡ line (codes "bad line") (number ∷ [])) }
{
    let mut text = Vec::new(alloc);
    put_line(&mut text, b"bad line", &[number])?;
    Ok(text)
}

/// The line that reports a fault.
fn fault_line(alloc: Global, fault: Fault) -> Result<Vec<u8>, AllocError>
    ensures { IfOk result (λ text. text.items ≡ line (codes "fault") (fault.code ∷ fault.member
        ∷ [])) }
{
    let mut text = Vec::new(alloc);
    put_line(
        &mut text,
        b"fault",
        &[u64::from(fault.code), fault.member as u64],
    )?;
    Ok(text)
}

/// Reports a bad line.
pub(crate) fn tell_bad_line<K: Sink>(alloc: Global, number: u64, sink: &mut K) -> AskStatus
    ensures told { result ≡ AskStatus.Faulty → Appends (K.written sink.old) (K.written sink.new)
        (line (codes "bad line") (number ∷ [])) }
    ensures write { result ≡ AskStatus.WriteFault → AppendsFront (K.written sink.old)
        (K.written sink.new) (line (codes "bad line") (number ∷ [])) }
    ensures cause { result ≡ AskStatus.WriteFault → Rose (K.faults sink.old) (K.faults sink.new) }
    ensures memory { result ≡ AskStatus.OutOfMemory → Keeps (K.written sink.old)
        (K.written sink.new) }
    ensures only { (result ≡ AskStatus.Faulty) ⊎ (result ≡ AskStatus.WriteFault)
        ⊎ (result ≡ AskStatus.OutOfMemory) }
{
    let Ok(text) = bad_line(alloc, number) else {
        return AskStatus::OutOfMemory;
    };
    match sink.write(&text) {
        Ok(()) => AskStatus::Faulty,
        Err(WriteFailed) => AskStatus::WriteFault,
    }
}

/// Reports a fault.
pub(crate) fn tell_fault<K: Sink>(alloc: Global, fault: Fault, sink: &mut K) -> AskStatus
    ensures told { result ≡ AskStatus.Faulty → Appends (K.written sink.old) (K.written sink.new)
        (line (codes "fault") (fault.code ∷ fault.member ∷ [])) }
    ensures write { result ≡ AskStatus.WriteFault → AppendsFront (K.written sink.old)
        (K.written sink.new) (line (codes "fault") (fault.code ∷ fault.member ∷ [])) }
    ensures cause { result ≡ AskStatus.WriteFault → Rose (K.faults sink.old) (K.faults sink.new) }
    ensures memory { result ≡ AskStatus.OutOfMemory → Keeps (K.written sink.old)
        (K.written sink.new) }
    ensures only { (result ≡ AskStatus.Faulty) ⊎ (result ≡ AskStatus.WriteFault)
        ⊎ (result ≡ AskStatus.OutOfMemory) }
{
    let Ok(text) = fault_line(alloc, fault) else {
        return AskStatus::OutOfMemory;
    };
    match sink.write(&text) {
        Ok(()) => AskStatus::Faulty,
        Err(WriteFailed) => AskStatus::WriteFault,
    }
}
