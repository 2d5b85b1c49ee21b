//! The object graph as plain data: who holds whom, what a path of references reaches, and the model
//! of a heap.
//!
//! Nearly all of this crate is `specs/`. The machine rests on `Holdings` and `Reach`, which count
//! and follow references; the heap and the crates below it rest on `Maps`, `Places`, `Rows` and
//! `Store`, the model of a heap, so heap and machine share their terms. `reference_in` returns the
//! reference in a value. `reach_plain` computes `Reach` by a plain search; tests compare with it.
#![tactic(auto)]

mod limits;
mod reach;
mod value;

pub use limits::{MOST_ENTRIES, MOST_OBJECTS};
pub use reach::reach_plain;
pub use value::reference_in;

/// A reference from one object to another, both by serial.
#[derive(Clone, Copy, Debug, PartialEq, Eq, Drop)]
pub struct Edge {
    pub from: u64,
    pub to: u64,
}
