//! The heap: objects, whose entries are in six boxes of kinds, with their nodes, the rows of weak
//! references, and the names with their values.
//!
//! The layers above see objects, entries, names, places and referents, but not nodes or boxes. They
//! rest on one value (`Store` of cg_graph) and on one fact: **a stored count is the number of
//! references** from names, the garbage root, entries and outside holds.
//!
//! - `boxes`: the six boxes as one.
//! - `counts`: the counts of the nodes.
//! - `names`: the values of the names, and which bound name is the greatest.
//! - `heap`: the type and its queries; `heap/holds`, `heap/bindings`, `heap/entries`,
//!   `heap/places`, `heap/objects`, `heap/weak`, `heap/look` and `heap/near`: its other calls.
//! - `steps`: the counter of looks at entries and at weak references.
#![tactic(auto)]

mod boxes;
mod counts;
mod fault;
mod heap;
mod names;
mod steps;

pub use fault::HeapFault;
pub use heap::Heap;
pub use steps::Steps;
