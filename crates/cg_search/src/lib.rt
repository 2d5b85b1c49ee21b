//! Graphs by places: how often a place is a target, what paths lead to, and a shortest path.
//!
//! A graph is a slice of nodes, each with the places of its targets, one for each reference. The
//! layer above relies on the contracts of three calls: `count_targets`, `reached` and
//! `shortest_way`. (Ours. Developer guide, "identifying reference cycles": in-degrees minus the
//! references of members, and what can be reached.)
//!
//! - `node`: what a node is; `count`: how often each place is a target.
//! - `search`: the places that paths lead to; `walk`, `way`: a breadth-first search, and the path
//!   it found.
#![tactic(auto)]

mod count;
mod node;
mod search;
mod walk;
mod way;

pub use count::{add_row, count_targets};
pub use node::Node;
pub use search::reached;
pub use way::shortest_way;
