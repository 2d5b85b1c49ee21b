//! Scripts as data, and how they are read from bytes.
//!
//! The layer above uses `parse`: it answers the script that the bytes spell by `specs/Reading`, or
//! their first bad line. The machine and the interpreter use the fields: a `Script` is its items in
//! order, and each text is identified by its position in `names`. `print` answers a script's
//! canonical bytes.
#![tactic(auto)]

mod command;
mod draft;
mod fault;
mod form;
mod index;
mod item;
mod laws;
mod lexicon;
mod limits;
mod line;
mod members;
mod numbered;
mod part;
mod pieces;
mod printer;
mod reader;
mod said;
mod table;
mod word;

pub use command::{Command, Operand};
pub use fault::ScriptFault;
pub use item::{ClassDef, Item, Proc, Script};
pub use laws::{canonical_bytes_are_read_back, printed_parts_say_the_same};
pub use limits::{MOST_BUDGET, MOST_LINE_BYTES, MOST_LINES, MOST_PROFILE, MOST_TEXTS, MOST_WORDS};
pub use members::{Commands, Items, Operands};
pub use printer::print;
pub use reader::parse;
pub use word::{is_value, is_variable};
