//! The checker's top call: what it does with its words, its source and its sink.
ghost use Rattle.std.specs.Prelude.{◌≡◌, ◌≢◌, ◌≤◌, ◌⊎◌, [], length, codes, IfSome};
ghost use Rattle.std.specs.Io.KnownBytes.{Appends, Keeps, IsAtEnd};
ghost use Rattle.cg_io.specs.Causes.{AppendsFront, Rose};
ghost use Rattle.cg_cert.specs.Statuses.{ToldVerdict, ToldFront, TookTooMany, AnswersRecords, IsCutShort};

use crate::check::check_records;
use crate::status::CheckStatus;
use crate::tell::{tell_bad_words, tell_large, tell_verdict};
use cg_io::{InputFault, Sink, Source, read_up_to};
use std::alloc::{AllocError, Global};

/// One byte more than the size limit of records.
const LIMIT: usize = 67_108_865;

/// Checks the bytes read, or reports that there are too many.
fn check_read<K: Sink>(alloc: Global, bytes: &[u8], sink: &mut K) -> CheckStatus
    ensures told { (result ≡ CheckStatus.Yes) ⊎ (result ≡ CheckStatus.No)
        → ToldVerdict result bytes.now (K.written sink.old) (K.written sink.new) }
    ensures large { result ≡ CheckStatus.TooLarge → Appends (K.written sink.old)
        (K.written sink.new) (codes "too large\n") }
    ensures many { result ≡ CheckStatus.TooLarge → LIMIT ≤ length bytes.now }
    ensures write { result ≡ CheckStatus.WriteFault → ToldFront bytes.now (K.written sink.old)
        (K.written sink.new) }
    ensures cause { result ≡ CheckStatus.WriteFault → Rose (K.faults sink.old) (K.faults sink.new) }
    ensures memory { result ≡ CheckStatus.OutOfMemory → Keeps (K.written sink.old)
        (K.written sink.new) }
    ensures only { AnswersRecords bytes.now result ⊎ (result ≡ CheckStatus.WriteFault)
        ⊎ (result ≡ CheckStatus.OutOfMemory) }
    ensures which { (result ≡ CheckStatus.Yes) ⊎ (result ≡ CheckStatus.No)
        ⊎ (result ≡ CheckStatus.TooLarge) ⊎ (result ≡ CheckStatus.WriteFault)
        ⊎ (result ≡ CheckStatus.OutOfMemory) }
{
    if bytes.len() >= LIMIT {
        return tell_large(sink);
    }
    match check_records(alloc, bytes) {
        Ok(verdict) => tell_verdict(verdict, sink),
        Err(AllocError) => CheckStatus::OutOfMemory,
    }
}

/// Reads a source to its end, and checks its bytes.
fn check_source<S: Source, K: Sink>(alloc: Global, source: &mut S, sink: &mut K) -> CheckStatus
    ensures told { (result ≡ CheckStatus.Yes) ⊎ (result ≡ CheckStatus.No)
        → IfSome (S.left source.old) (λ bytes. ToldVerdict result bytes (K.written sink.old)
        (K.written sink.new)) }
    ensures read_to_end { (result ≡ CheckStatus.Yes) ⊎ (result ≡ CheckStatus.No)
        → IsAtEnd (S.left source.new) }
    ensures too_large { result ≡ CheckStatus.TooLarge → Appends (K.written sink.old)
        (K.written sink.new) (codes "too large\n") }
    ensures taken { result ≡ CheckStatus.TooLarge → TookTooMany (S.left source.old)
        (S.left source.new) }
    ensures read_cause { result ≡ CheckStatus.ReadFault → Rose (S.faults source.old)
        (S.faults source.new) }
    ensures read { result ≡ CheckStatus.ReadFault → Keeps (K.written sink.old)
        (K.written sink.new) }
    ensures write_cause { result ≡ CheckStatus.WriteFault → Rose (K.faults sink.old)
        (K.faults sink.new) }
    ensures write { result ≡ CheckStatus.WriteFault → IfSome (S.left source.old)
        (λ bytes. ToldFront bytes (K.written sink.old) (K.written sink.new)) }
    ensures memory { result ≡ CheckStatus.OutOfMemory → Keeps (K.written sink.old)
        (K.written sink.new) }
    ensures only { IsCutShort result ⊎ IfSome (S.left source.old) (λ bytes. AnswersRecords bytes
        result) }
    ensures words { result ≢ CheckStatus.BadWords }
{
    match read_up_to(alloc, source, LIMIT) {
        Ok(bytes) => check_read(alloc, bytes.as_slice(), sink),
        Err(InputFault::ReadFault) => CheckStatus::ReadFault,
        Err(InputFault::OutOfMemory) => CheckStatus::OutOfMemory,
    }
}

/// Reads records from the source, and writes the line of their verdict to the sink: `yes N` with
/// the number of records, or `no G C` with the graph and the code of the first fault.
///
/// It takes no words. Returns `Yes` or `No` as `check_records` does; `BadWords` or `TooLarge`, each
/// with its line written, if there are words or too many bytes; `ReadFault` or `WriteFault` if the
/// source or the sink failed; and `OutOfMemory` if memory ran out, with nothing written. (Ours.)
pub fn check_run<S: Source, K: Sink>(
    alloc: Global,
    words: &[String],
    source: &mut S,
    sink: &mut K,
) -> CheckStatus
    // The source was read to its end, its bytes have this verdict, and its line was written.
    ensures told { (result ≡ CheckStatus.Yes) ⊎ (result ≡ CheckStatus.No)
        → IfSome (S.left source.old) (λ bytes. ToldVerdict result bytes (K.written sink.old)
        (K.written sink.new)) }
    ensures read_to_end { (result ≡ CheckStatus.Yes) ⊎ (result ≡ CheckStatus.No)
        → IsAtEnd (S.left source.new) }

    // There are words, or too many bytes, and that was reported.
    ensures bad_words { result ≡ CheckStatus.BadWords → Appends (K.written sink.old)
        (K.written sink.new) (codes "bad words\n") }
    ensures too_large { result ≡ CheckStatus.TooLarge → Appends (K.written sink.old)
        (K.written sink.new) (codes "too large\n") }
    ensures taken { result ≡ CheckStatus.TooLarge → TookTooMany (S.left source.old)
        (S.left source.new) }

    // Faults, which come only if the fault count rose, and lack of memory.
    ensures read_cause { result ≡ CheckStatus.ReadFault → Rose (S.faults source.old)
        (S.faults source.new) }
    ensures read { result ≡ CheckStatus.ReadFault → Keeps (K.written sink.old)
        (K.written sink.new) }
    ensures write_cause { result ≡ CheckStatus.WriteFault → Rose (K.faults sink.old)
        (K.faults sink.new) }
    ensures write { words.now ≡ [] → result ≡ CheckStatus.WriteFault → IfSome (S.left source.old)
        (λ bytes. ToldFront bytes (K.written sink.old) (K.written sink.new)) }
    ensures write_words { words.now ≢ [] → result ≡ CheckStatus.WriteFault
        → AppendsFront (K.written sink.old) (K.written sink.new) (codes "bad words\n") }
    ensures memory { result ≡ CheckStatus.OutOfMemory → Keeps (K.written sink.old)
        (K.written sink.new) }

    // Which status comes: determined by the words and the bytes, except for faults and lack of
    // memory.
    ensures answers { words.now ≡ [] → IsCutShort result ⊎ IfSome (S.left source.old)
        (λ bytes. AnswersRecords bytes result) }
    ensures no_words { words.now ≡ [] → result ≢ CheckStatus.BadWords }
    ensures words { words.now ≢ [] → (result ≡ CheckStatus.BadWords)
        ⊎ (result ≡ CheckStatus.WriteFault) }
    ensures nothing_read { words.now ≢ [] → source.new ≡ source.old }

    // If neither source nor sink fails, the status is determined by the bytes, except for lack of
    // memory.
    ensures complete { words.now ≡ [] → ¬ (Rose (S.faults source.old) (S.faults source.new))
        → ¬ (Rose (K.faults sink.old) (K.faults sink.new))
        → (result ≡ CheckStatus.OutOfMemory) ⊎ IfSome (S.left source.old)
        (λ bytes. AnswersRecords bytes result) }
{
    if !words.is_empty() {
        return tell_bad_words(sink);
    }
    check_source(alloc, source, sink)
}
