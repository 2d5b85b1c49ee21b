//! Sources and sinks of bytes that account for their failures: each counts its faults, and a call
//! fails only if the count rose.
//!
//! The layers above rest on the traits `Source` and `Sink` alone. Four implementations are in
//! memory, for tests and fault injection; two adapters wrap the standard library's readers and
//! writers. The adapters are the edge to the outside: nothing is known about their bytes.
#![tactic(auto)]

mod input;
mod mem_sink;
mod mem_source;
mod memory;
mod null_sink;
mod plain_source;
mod read_source;
mod traits;
mod write_sink;

pub use input::{InputFault, read_up_to};
pub use mem_sink::MemSink;
pub use mem_source::MemSource;
pub use null_sink::NullSink;
pub use plain_source::PlainSource;
pub use read_source::ReadSource;
pub use traits::{ReadFailed, Sink, Source, WriteFailed};
pub use write_sink::WriteSink;
