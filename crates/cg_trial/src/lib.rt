//! Trial subtraction: finds the objects of a place that no path from outside reaches.
//!
//! It is the core of the collector. (Developer guide, "Identifying reference cycles".) The layer
//! above uses only `split`: afterwards the unreachable objects of a place are the candidates, and
//! the others stay in their place.
//!
//! - `candidates`: the calls that the search makes on the heap.
//! - `subtraction`: the two passes.
//! - `laws`: reachability in a heap is survival in the world that it represents.
#![tactic(auto)]

mod candidates;
mod laws;
mod subtraction;

pub use laws::reachable_in_a_heap_survives_in_its_world;
pub use subtraction::split;
