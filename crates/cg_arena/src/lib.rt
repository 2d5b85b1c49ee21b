//! The nodes of objects: what is kept of each object beside its entries, and the list of the nodes
//! of each place.
//!
//! The layers above rest on one value: the nodes by serial, and the list of the serials of each
//! place in order. They never see that each list is a doubly linked chain of slots.
#![tactic(auto)]

mod arena;
mod ends;
mod hints;
mod index;
mod links;
mod near;
mod slot;

pub use arena::Arena;
pub use near::Near;
pub use slot::Head;
