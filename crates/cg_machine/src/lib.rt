//! The object graph machine: what a script does to objects and their holders, as a definition, and
//! what it prints.
//!
//! `specs/` is the machine. It knows no counts, no lists of generations and no marks: an object is
//! freed when no reference to it is left, or when a collection of its generation finds it
//! unreachable before and after the finalizers. The layers above state their calls by its steps and
//! runs (`specs/Run`), and print by `line_of`.
#![tactic(auto)]

mod event;
mod line;

pub use event::{Event, FrameSort, FrameSpec};
pub use line::{LONGEST_LINE, LineText, line_of, push_line};
