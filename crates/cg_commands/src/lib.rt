//! What each command of a script does to the heap and to the collector's policy.
//!
//! The layer above rests on one contract: in every world of the machine that the heap and the
//! policy stand for, `change` and `perform` do what the machine's own definition of effects says of
//! the command, or refuse it for the machine's own reason.
//!
//! - `done`, `lines`: what a command did, which lines it prints, and why one is refused.
//! - `locals`: the locals of a frame.
//! - `operands`: the values of operands, and the objects that they refer to.
//! - `keys`: entries under keys of dictionaries and instances.
//! - `bindings`, `queries`, `inspections`, `lookups`, `entries`, `makes`, `frames`, `generations`:
//!   the commands, by family.
//! - `dispatch`: any of them.
#![tactic(auto)]

mod bindings;
mod dispatch;
mod done;
mod entries;
mod frames;
mod generations;
mod inspections;
mod keys;
mod lines;
mod locals;
mod lookups;
mod makes;
mod operands;
mod parts;
mod queries;

pub use dispatch::{change, makes_object, only_changes, perform};
pub use done::{Done, Refusal};
pub use lines::Lines;
pub use locals::Locals;
