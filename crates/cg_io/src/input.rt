//! Reads a source to its end.
ghost use Rattle.std.specs.Prelude.{◌≡◌, ◌<◌, ◌≤◌, length, IfOk, Err};
ghost use Rattle.std.specs.Io.KnownBytes.{Consumes, IsAtEnd};
ghost use Rattle.cg_io.specs.Causes.{Rose};

use crate::traits::{ReadFailed, Source};
use std::alloc::Global;

/// The number of bytes requested per read.
const ROOM: usize = 4096;

/// Why a source was not read.
#[derive(Clone, Copy, Debug, PartialEq, Eq)]
pub enum InputFault {
    /// The source failed.
    ReadFault,
    /// Memory for the bytes ran out.
    OutOfMemory,
}

/// Reads until the source reports its end or `most` bytes were read, and returns the bytes.
///
/// Fewer than `most` bytes means all that the source had. `ReadFault` comes only if its fault count
/// rose; `OutOfMemory` leaves the source somewhere before its end.
pub fn read_up_to<S: Source>(
    alloc: Global,
    source: &mut S,
    most: usize,
) -> Result<Vec<u8>, InputFault>
    ensures bytes { IfOk result (λ b. Consumes (S.left source.old) (S.left source.new) b.items) }
    ensures size { IfOk result (λ b. length b.items ≤ most) }
    ensures end { IfOk result (λ b. length b.items < most → IsAtEnd (S.left source.new)) }
    ensures fault { result ≡ Err InputFault.ReadFault → Rose (S.faults source.old)
        (S.faults source.new) }
    ensures later { S.faults source.old ≤ S.faults source.new }
{
    let mut bytes = Vec::new(alloc);
    let mut buffer = [0u8; ROOM];
    'reads: while bytes.len() < most {
        let room = (most - bytes.len()).min(ROOM);
        match source.read(&mut buffer[..room]) {
            Ok(0) => return Ok(bytes),
            Ok(n) => {
                if bytes.extend_from_slice(&buffer[..n]).is_err() {
                    return Err(InputFault::OutOfMemory);
                }
            }
            Err(ReadFailed) => return Err(InputFault::ReadFault),
        }
    }
    Ok(bytes)
}
