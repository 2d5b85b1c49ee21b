//! What an object refers to, what refers to it, and why it is alive: three questions about a heap
//! that change nothing.
//!
//! They help to find leaks. (`gc` manual, `gc.get_referents` and `gc.get_referrers`; `why` is
//! ours.) They require that no collection is under way.
//!
//! - `live`: all live objects, by rising serial.
//! - `forwards`, `backwards`: what an object refers to, and what refers to it.
//! - `holders`: which objects are held by a root.
//! - `search`: what they lead to, the nearest first.
//! - `path`: the path that was found; `reason`: the answer; `laws`: that there is one.
#![tactic(auto)]

mod backwards;
mod forwards;
mod holders;
mod laws;
mod live;
mod path;
mod reason;
mod search;

pub use backwards::referrers;
pub use forwards::referents;
pub use laws::one_path_comes_first;
pub use path::why;
pub use reason::Why;
