//! The lines of records, one `write` a line, without allocation.
ghost use Rattle.std.specs.Prelude.{◌≤◌, length, OnOk, OnErr};
ghost use Rattle.std.specs.Io.KnownBytes.{Appends};
ghost use Rattle.cg_io.specs.Causes.{HasCause, AppendsFront};
ghost use Rattle.cg_records.specs.Text.{numbered};
ghost use Rattle.cg_interp.specs.Graphs.{closing, member_line};

use arrayvec::ArrayString;
use cg_io::{Sink, WriteFailed};
use itoa::Buffer;

/// The longest line in bytes: a word, two numbers of 64 bits and a mark.
const ROOM: usize = 64;

/// Writes a line with a word, of at most eight bytes, and a number.
pub fn write_numbered<K: Sink>(word: &str, number: u64, sink: &mut K) -> Result<(), WriteFailed>
    requires { length word.now ≤ 8 }
    ensures ok { OnOk result (Appends (K.written sink.old) (K.written sink.new)
        (numbered word.now number)) }
    ensures err { OnErr result (AppendsFront (K.written sink.old) (K.written sink.new)
        (numbered word.now number)) }
    ensures cause { HasCause (K.faults sink.old) (K.faults sink.new) result }
{
    let mut line: ArrayString<ROOM> = ArrayString::new();
    line.push_str(word);
    line.push_str(" ");
    line.push_str(Buffer::new().format(number));
    line.push_str("\n");
    sink.write(line.as_str().as_bytes())
}

/// Writes the line of a member: its serial, its in-degree, and whether its class has a legacy
/// finalizer.
pub fn write_member_line<K: Sink>(
    serial: u64,
    degree: u64,
    legacy: bool,
    sink: &mut K,
) -> Result<(), WriteFailed>
    ensures ok { OnOk result (Appends (K.written sink.old) (K.written sink.new)
        (member_line serial degree legacy)) }
    ensures err { OnErr result (AppendsFront (K.written sink.old) (K.written sink.new)
        (member_line serial degree legacy)) }
    ensures cause { HasCause (K.faults sink.old) (K.faults sink.new) result }
{
    let mut line: ArrayString<ROOM> = ArrayString::new();
    line.push_str("m ");
    line.push_str(Buffer::new().format(serial));
    line.push_str(" ");
    line.push_str(Buffer::new().format(degree));
    line.push_str(if legacy { " 1\n" } else { " 0\n" });
    sink.write(line.as_str().as_bytes())
}

/// Writes the line that ends a record without a second graph, if one is unfinished.
pub fn write_cut<K: Sink>(unfinished: bool, sink: &mut K) -> Result<(), WriteFailed>
    ensures ok { OnOk result (Appends (K.written sink.old) (K.written sink.new)
        (closing unfinished)) }
    ensures err { OnErr result (AppendsFront (K.written sink.old) (K.written sink.new)
        (closing unfinished)) }
    ensures cause { HasCause (K.faults sink.old) (K.faults sink.new) result }
{
    if unfinished {
        return sink.write(b"cut\n");
    }
    Ok(())
}
