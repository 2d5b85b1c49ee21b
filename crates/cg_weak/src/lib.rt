//! The table of weak references: each one's referent, and which wait for their callback.
//!
//! The layers above rest on one value: the list of the rows in ascending order of weak reference.
//! They never see the two chains of neighbours of each object, one for the rows that wait.
#![tactic(auto)]

mod chains;
mod laws;
mod nodes;
mod place;
mod table;

pub use laws::a_walk_meets_each_newest_first;
pub use table::WeakTable;
