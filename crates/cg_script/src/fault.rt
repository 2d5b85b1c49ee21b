//! Why bytes are no script.
use thiserror::Error;

/// Why bytes are no script.
#[derive(Clone, Copy, Debug, PartialEq, Eq, Drop, Error)]
pub enum ScriptFault {
    /// The first bad line, counting from 1, and what is wrong with it: 1 a byte that is not
    /// printable, 2 no known command, 3 the number of words, 4 the form of a word, 5 too long, 6 a
    /// name that no earlier line defines, 7 a declaration in the wrong place, 8 a second
    /// definition.
    #[error("line {line} is bad, code {code}")]
    Bad { line: u32, code: u8 },
    /// Memory for the script was refused.
    #[error("out of memory")]
    OutOfMemory,
}
