//! Shared by the programs around their top call: command-line words, a reader that remembers, and
//! remarks.
//!
//! Standard output belongs to the top call. Remarks go to standard error, for a person; a remark
//! that fails is dropped. Apart from the words, a program's answer never depends on this crate.
#![tactic(auto)]

mod numbers;
mod remarks;
mod remembering;
mod words;

pub use numbers::number_at;
pub use remarks::{remark, remark_line, remark_that_input_is_awaited};
pub use remembering::Remembering;
pub use words::words_given;
