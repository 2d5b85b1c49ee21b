//! The bytes of a source, up to a limit, and the script that they spell.
ghost use Rattle.std.specs.Prelude.{◌≡◌, ◌≤◌, ◌<◌, ◌⊎◌, length, IfOk, IfErr, IfSome, Err, codes};
ghost use Rattle.std.specs.Io.KnownBytes.{Appends, Keeps, IsAtEnd};
ghost use Rattle.cg_io.specs.Causes.{AppendsFront, Rose};
ghost use Rattle.cg_script.specs.Faults.{IsFault};
ghost use Rattle.cg_script.specs.Reading.{reading};
ghost use Rattle.cg_script.specs.Spelled.{IsSpelled};
ghost use Rattle.cg_script.specs.Texts.{TextsAreKnown};
ghost use Rattle.cg_cli.specs.Statuses.{Spells, TookTooMany, IsCutShort};

use crate::status::Status;
use crate::tell::tell_large;
use cg_io::{InputFault, Sink, Source, read_up_to};
use cg_script::{Script, ScriptFault, parse};
use std::alloc::Global;

/// One byte more than a script may have.
pub const LIMIT: usize = 16_777_217;

/// Reads a source to its end and answers its bytes. Else answers the status that the program ends
/// with: the source gives too many bytes, which is reported, or fails, or memory is refused.
pub fn read_whole<S: Source, K: Sink>(
    alloc: Global,
    source: &mut S,
    sink: &mut K,
) -> Result<Vec<u8>, Status>
    ensures all { IfOk result (λ bytes. IfSome (S.left source.old) (λ told. told ≡ bytes.items)) }
    ensures few { IfOk result (λ bytes. length bytes.items < LIMIT) }
    ensures end { IfOk result (λ _. IsAtEnd (S.left source.new)) }
    ensures nothing { IfOk result (λ _. sink.new ≡ sink.old) }
    ensures too_large { result ≡ Err Status.TooLarge → Appends (K.written sink.old)
        (K.written sink.new) (codes "too large\n") }
    ensures taken { result ≡ Err Status.TooLarge → TookTooMany (S.left source.old)
        (S.left source.new) }
    ensures read_cause { result ≡ Err Status.ReadFault → Rose (S.faults source.old)
        (S.faults source.new) }
    ensures read { result ≡ Err Status.ReadFault → Keeps (K.written sink.old) (K.written sink.new) }
    ensures write_cause { result ≡ Err Status.WriteFault → Rose (K.faults sink.old)
        (K.faults sink.new) }
    ensures write { result ≡ Err Status.WriteFault → AppendsFront (K.written sink.old)
        (K.written sink.new) (codes "too large\n") }
    ensures memory { result ≡ Err Status.OutOfMemory → Keeps (K.written sink.old)
        (K.written sink.new) }
    ensures many { (result ≡ Err Status.TooLarge) ⊎ (result ≡ Err Status.WriteFault)
        → IfSome (S.left source.old) (λ told. LIMIT ≤ length told) }
    ensures only { IfErr result (λ status. IsCutShort status ⊎ (status ≡ Status.TooLarge)) }
{
    match read_up_to(alloc, source, LIMIT) {
        Ok(bytes) => {
            if bytes.len() < LIMIT {
                Ok(bytes)
            } else {
                Err(tell_large(sink))
            }
        }
        Err(InputFault::ReadFault) => Err(Status::ReadFault),
        Err(InputFault::OutOfMemory) => Err(Status::OutOfMemory),
    }
}

/// The script that some bytes spell, or what is wrong with them. Takes the bytes: nothing needs
/// them again, and a run may take long.
pub fn script_of(alloc: Global, bytes: Vec<u8>) -> Result<Script, ScriptFault>
    ensures ok { IfOk result (λ script. Spells bytes.items script) }
    ensures fault { IfErr result (λ fault. IsFault fault (reading bytes.items)) }
    ensures known { IfOk result TextsAreKnown }
    ensures spelled { IfOk result IsSpelled }
{
    parse(alloc, bytes.as_slice())
}
