//! The command-line arguments after the program's name, parsed by `clap`.
//!
//! `read_words` answers the job that they ask for. Its contract is that of `clap` for a simple
//! command, and the form of the number.
#![tactic(auto)]

mod words;

pub use words::{Job, read_words};
