//! An expand job: reads a source, and writes the expansion of its bytes.
ghost use Rattle.std.specs.Prelude.{◌≡◌, ◌<◌, ◌⊎◌, length};
ghost use Rattle.std.specs.Io.KnownBytes.{Appends, Keeps};
ghost use Rattle.cg_io.specs.Causes.{AppendsFront, Rose};
ghost use Rattle.cg_weakcoll.specs.Expansion.{first_bad, expansion};
ghost use Rattle.cg_cli.specs.Jobs.{ExpandAnswers, outside};
ghost use Rattle.cg_cli.specs.Expansions.{WroteExpansion, WroteFirstBad, WroteExpandFront, AnswersFirstBad};

use crate::input::{LIMIT, read_whole};
use crate::status::Status;
use crate::tell::tell_bad_script;
use cg_io::{Sink, Source, WriteFailed};
use cg_script::ScriptFault;
use cg_weakcoll::expand;
use std::alloc::Global;

/// Writes a text.
fn tell_text<K: Sink>(text: &[u8], sink: &mut K) -> Status
    ensures done { result ≡ Status.Done → Appends (K.written sink.old) (K.written sink.new)
        text.now }
    ensures write { result ≡ Status.WriteFault → AppendsFront (K.written sink.old)
        (K.written sink.new) text.now }
    ensures cause { result ≡ Status.WriteFault → Rose (K.faults sink.old) (K.faults sink.new) }
    ensures only { (result ≡ Status.Done) ⊎ (result ≡ Status.WriteFault) }
{
    match sink.write(text) {
        Ok(()) => Status::Done,
        Err(WriteFailed) => Status::WriteFault,
    }
}

/// Writes the expansion of some bytes, or their first bad line.
fn expand_in_hand<K: Sink>(alloc: Global, bytes: &[u8], sink: &mut K) -> Status
    requires few { length bytes.now < LIMIT }
    ensures done { result ≡ Status.Done → WroteExpansion bytes.now (K.written sink.old)
        (K.written sink.new) }
    ensures bad_script { result ≡ Status.BadScript → WroteFirstBad bytes.now (K.written sink.old)
        (K.written sink.new) }
    ensures write { result ≡ Status.WriteFault → WroteExpandFront bytes.now (K.written sink.old)
        (K.written sink.new) }
    ensures cause { result ≡ Status.WriteFault → Rose (K.faults sink.old) (K.faults sink.new) }
    ensures memory { result ≡ Status.OutOfMemory → Keeps (K.written sink.old) (K.written sink.new) }
    ensures only { AnswersFirstBad (first_bad bytes.now) result ⊎ (result ≡ Status.WriteFault)
        ⊎ (result ≡ Status.OutOfMemory) }
{
    match expand(alloc, bytes) {
        Ok(text) => tell_text(text.as_slice(), sink),
        Err(ScriptFault::Bad { line, code }) => tell_bad_script(line, code, sink),
        Err(ScriptFault::OutOfMemory) => Status::OutOfMemory,
    }
}

/// Reads a source to its end, and writes the expansion of its bytes.
pub fn expand_job<S: Source, K: Sink>(alloc: Global, source: &mut S, sink: &mut K) -> Status
    ensures { ExpandAnswers result
        (outside (S.left source.old) (S.faults source.old) (K.written sink.old) (K.faults sink.old))
        (outside (S.left source.new) (S.faults source.new) (K.written sink.new)
        (K.faults sink.new)) }
{
    match read_whole(alloc, source, sink) {
        Ok(bytes) => expand_in_hand(alloc, bytes.as_slice(), sink),
        Err(status) => status,
    }
}
