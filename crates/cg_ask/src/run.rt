//! The questions as a top call: what it does with its words, its source and its sink.
ghost use Rattle.std.specs.Prelude.{false, ◌≡◌, ◌≢◌, ◌≤◌, ◌<◌, ◌^◌, ◌⊎◌, [], true, ℕ, List, length, codes, IfSome};
ghost use Rattle.std.specs.List.{AllByRecursion};
ghost use Rattle.std.specs.Io.KnownBytes.{Appends, Keeps, IsAtEnd};
ghost use Rattle.cg_io.specs.Causes.{AppendsFront, Rose};
ghost use Rattle.cg_snapshot.specs.Text.{Spells, IsWritable, IsAsked, IsSmallMember};
ghost use Rattle.cg_ask.specs.Asked.{references_of, all_words_of};
ghost use Rattle.cg_ask.specs.Counted.{IsCounts, AreOutside};
ghost use Rattle.cg_ask.specs.Faults.{AreRight};
ghost use Rattle.cg_ask.specs.Statuses.{is_untold, asks_untold, WritesOutcome, WritesSnapshot, WritesFront, WritesFrontOf, HasOutcome, TookTooMany, IsCutShort, AnswersSo};

use crate::answer::put_answer;
use crate::counts::{Counts, counts_of, outside_holds};
use crate::faults::find_fault;
use crate::status::AskStatus;
use crate::tell::{tell_bad_line, tell_bad_words, tell_fault, tell_large};
use cg_io::{InputFault, Sink, Source, WriteFailed, read_up_to};
use cg_snapshot::{Member, Question, Reading, Snapshot, read_snapshot};
use std::alloc::{AllocError, Global};

/// One byte more than the size limit of a snapshot.
const LIMIT: usize = 268_435_457;

/// Whether a question is about untold words.
fn is_about_words(question: &Question) -> bool
    ensures { result ≡ is_untold question.now }
{
    match question {
        Question::Untold => true,
        _ => false,
    }
}

/// Whether one of the questions is.
fn asks_words(questions: &[Question]) -> bool
    ensures { result ≡ asks_untold questions.now }
{
    questions.iter().any(is_about_words)
}

/// Writes the answer to each question about members without faults.
fn write_answers<K: Sink>(
    alloc: Global,
    members: &[Member],
    counts: &Counts,
    questions: &[Question],
    sink: &mut K,
) -> AskStatus
    requires counts { IsCounts members.now counts.now }
    requires right { AreRight members.now false }
    requires references { length (references_of members.now) < 2 ^ 64 }
    requires small { AllByRecursion IsSmallMember members.now }
    requires few { length members.now < 2 ^ 28 }
    requires asked { AllByRecursion (IsAsked (length members.now)) questions.now }
    ensures { AnswersSo members.now questions.now result (K.written sink.old) (K.written sink.new)
        (K.faults sink.old) (K.faults sink.new) }
{
    let Ok(outside) = outside_holds(alloc, members, counts) else {
        return AskStatus::OutOfMemory;
    };
    'questions: for question in questions {
        let mut text = Vec::new(alloc);
        let Ok(()) = put_answer(alloc, members, counts, &outside, question, &mut text) else {
            return AskStatus::OutOfMemory;
        };
        let Ok(()) = sink.write(&text) else {
            return AskStatus::WriteFault;
        };
    }
    AskStatus::Answered
}

/// Reports the first fault of a snapshot, or answers its questions.
fn ask_snapshot<K: Sink>(alloc: Global, snapshot: &Snapshot, sink: &mut K) -> AskStatus
    requires writable { IsWritable snapshot.now }
    requires references { length (references_of snapshot.now.members) < 2 ^ 32 }
    requires words { length (all_words_of snapshot.now.members) < 2 ^ 32 }
    requires few { length snapshot.now.members < 2 ^ 28 }
    ensures told { (result ≡ AskStatus.Answered) ⊎ (result ≡ AskStatus.Faulty)
        → WritesSnapshot snapshot.now result (K.written sink.old) (K.written sink.new) }
    ensures cut { (result ≡ AskStatus.WriteFault) ⊎ (result ≡ AskStatus.OutOfMemory)
        → WritesFrontOf snapshot.now (K.written sink.old) (K.written sink.new) }
    ensures cause { result ≡ AskStatus.WriteFault → Rose (K.faults sink.old) (K.faults sink.new) }
    ensures only { (result ≡ AskStatus.Answered) ⊎ (result ≡ AskStatus.Faulty)
        ⊎ (result ≡ AskStatus.WriteFault) ⊎ (result ≡ AskStatus.OutOfMemory) }
{
    let members = snapshot.members.as_slice();
    let questions = snapshot.questions.as_slice();
    let Ok(counts) = counts_of(alloc, members) else {
        return AskStatus::OutOfMemory;
    };
    match find_fault(members, &counts, asks_words(questions)) {
        Some(fault) => tell_fault(alloc, fault, sink),
        None => write_answers(alloc, members, &counts, questions, sink),
    }
}

/// Reads bytes and answers, or reports what is wrong.
fn ask_bytes<K: Sink>(alloc: Global, bytes: Vec<u8>, sink: &mut K) -> AskStatus
    ensures told { (result ≡ AskStatus.Answered) ⊎ (result ≡ AskStatus.Faulty)
        ⊎ (result ≡ AskStatus.TooLarge) → WritesOutcome bytes.items result (K.written sink.old)
        (K.written sink.new) }
    ensures many { result ≡ AskStatus.TooLarge → LIMIT ≤ length bytes.items }
    ensures cut { (result ≡ AskStatus.WriteFault) ⊎ (result ≡ AskStatus.OutOfMemory)
        → WritesFront bytes.items (K.written sink.old) (K.written sink.new) }
    ensures cause { result ≡ AskStatus.WriteFault → Rose (K.faults sink.old) (K.faults sink.new) }
    ensures only { (result ≡ AskStatus.Answered) ⊎ (result ≡ AskStatus.Faulty)
        ⊎ (result ≡ AskStatus.TooLarge) ⊎ (result ≡ AskStatus.WriteFault)
        ⊎ (result ≡ AskStatus.OutOfMemory) }
{
    if bytes.len() >= LIMIT {
        return tell_large(sink);
    }
    let reading = read_snapshot(alloc, bytes.as_slice());
    // Freed early: the text is as large as the snapshot read from it.
    drop(bytes);
    match reading {
        Ok(Reading::Read(snapshot)) => ask_snapshot(alloc, &snapshot, sink),
        Ok(Reading::BadLine(number)) => tell_bad_line(alloc, number, sink),
        Err(AllocError) => AskStatus::OutOfMemory,
    }
}

/// Reads a source to its end, and answers its questions.
fn ask_source<S: Source, K: Sink>(alloc: Global, source: &mut S, sink: &mut K) -> AskStatus
    ensures told { (result ≡ AskStatus.Answered) ⊎ (result ≡ AskStatus.Faulty)
        ⊎ (result ≡ AskStatus.TooLarge) → IfSome (S.left source.old) (λ bytes. WritesOutcome bytes
        result (K.written sink.old) (K.written sink.new)) }
    ensures read_to_end { (result ≡ AskStatus.Answered) ⊎ (result ≡ AskStatus.Faulty)
        → IsAtEnd (S.left source.new) }
    ensures taken { result ≡ AskStatus.TooLarge → TookTooMany (S.left source.old)
        (S.left source.new) }
    ensures read_cause { result ≡ AskStatus.ReadFault → Rose (S.faults source.old)
        (S.faults source.new) }
    ensures read { result ≡ AskStatus.ReadFault → Keeps (K.written sink.old) (K.written sink.new) }
    ensures write_cause { result ≡ AskStatus.WriteFault → Rose (K.faults sink.old)
        (K.faults sink.new) }
    ensures cut { (result ≡ AskStatus.WriteFault) ⊎ (result ≡ AskStatus.OutOfMemory)
        → IfSome (S.left source.old) (λ bytes. WritesFront bytes (K.written sink.old)
        (K.written sink.new)) }
    ensures answers { IsCutShort result ⊎ IfSome (S.left source.old) (λ bytes. HasOutcome bytes
        result) }
    ensures words { result ≢ AskStatus.BadWords }
{
    match read_up_to(alloc, source, LIMIT) {
        Ok(bytes) => ask_bytes(alloc, bytes, sink),
        Err(InputFault::ReadFault) => AskStatus::ReadFault,
        Err(InputFault::OutOfMemory) => AskStatus::OutOfMemory,
    }
}

/// Reads a recorded heap and questions from the source, and writes their answers to the sink, or a
/// line for the first bad line or the first fault.
///
/// It takes no words. Returns `Answered` or `Faulty` with all of that written; `BadWords` or
/// `TooLarge`, each with its line written, if there are words or too many bytes; `ReadFault` or
/// `WriteFault` if the source or the sink failed; and `OutOfMemory` if memory ran out. A failed
/// write or lack of memory leaves the answers to the first questions, or a prefix of them. (Ours.)
pub fn ask_run<S: Source, K: Sink>(
    alloc: Global,
    words: &[String],
    source: &mut S,
    sink: &mut K,
) -> AskStatus
    // The source was read to its end or past the limit, and what follows from its bytes was
    // written.
    ensures told { (result ≡ AskStatus.Answered) ⊎ (result ≡ AskStatus.Faulty)
        ⊎ (result ≡ AskStatus.TooLarge) → IfSome (S.left source.old) (λ bytes. WritesOutcome bytes
        result (K.written sink.old) (K.written sink.new)) }
    ensures read_to_end { (result ≡ AskStatus.Answered) ⊎ (result ≡ AskStatus.Faulty)
        → IsAtEnd (S.left source.new) }
    ensures taken { result ≡ AskStatus.TooLarge → TookTooMany (S.left source.old)
        (S.left source.new) }

    // There are words, and that was reported.
    ensures bad_words { result ≡ AskStatus.BadWords → Appends (K.written sink.old)
        (K.written sink.new) (codes "bad words\n") }

    // Faults, which come only if the fault count rose, and lack of memory.
    ensures read_cause { result ≡ AskStatus.ReadFault → Rose (S.faults source.old)
        (S.faults source.new) }
    ensures read { result ≡ AskStatus.ReadFault → Keeps (K.written sink.old) (K.written sink.new) }
    ensures write_cause { result ≡ AskStatus.WriteFault → Rose (K.faults sink.old)
        (K.faults sink.new) }
    ensures cut { words.now ≡ [] → (result ≡ AskStatus.WriteFault)
        ⊎ (result ≡ AskStatus.OutOfMemory) → IfSome (S.left source.old) (λ bytes. WritesFront bytes
        (K.written sink.old) (K.written sink.new)) }
    ensures write_words { words.now ≢ [] → result ≡ AskStatus.WriteFault
        → AppendsFront (K.written sink.old) (K.written sink.new) (codes "bad words\n") }

    // Which status comes: determined by the words and the bytes, except for faults and lack of
    // memory.
    ensures answers { words.now ≡ [] → IsCutShort result ⊎ IfSome (S.left source.old)
        (λ bytes. HasOutcome bytes result) }
    ensures no_words { words.now ≡ [] → result ≢ AskStatus.BadWords }
    ensures words { words.now ≢ [] → (result ≡ AskStatus.BadWords)
        ⊎ (result ≡ AskStatus.WriteFault) }
    ensures nothing_read { words.now ≢ [] → source.new ≡ source.old }

    // If neither source nor sink fails, the status is determined by the bytes, except for lack of
    // memory.
    ensures complete { words.now ≡ [] → ¬ (Rose (S.faults source.old) (S.faults source.new))
        → ¬ (Rose (K.faults sink.old) (K.faults sink.new))
        → (result ≡ AskStatus.OutOfMemory) ⊎ IfSome (S.left source.old) (λ bytes. HasOutcome bytes
        result) }
{
    if !words.is_empty() {
        return tell_bad_words(sink);
    }
    ask_source(alloc, source, sink)
}
