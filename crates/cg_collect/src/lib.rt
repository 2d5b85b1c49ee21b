//! Collections: a collection of a generation, step by step.
//!
//! The layer above relies on one contract: in every world of the machine that heap and policy
//! represent, a step of a collection does what the machine does, and answers what comes next: a
//! line, a frame, or an object's death.
//!
//! - `answer`: what a step answers; `phase`: the phases; `stage`: before, at or after each
//!   reachability pass.
//! - `collection`: a collection, and its steps.
//! - `start`: all before the weak phase; `untracking` and `legacy`, parts of it.
//! - `weak`: the weak phase; `finalizing`: the finalizer phase.
//! - `detection`: the second reachability pass; `turns`: the clearing; `ending`: the end.
//! - `laws`: what holds of whole collections.
#![tactic(auto)]

mod answer;
mod collection;
mod detection;
mod ending;
mod finalizing;
mod laws;
mod legacy;
mod phase;
mod stage;
mod start;
mod turns;
mod untracking;
mod weak;

pub use answer::CollectStep;
pub use collection::Collection;
pub use laws::{a_collection_meets_each_stage_once, looks_of_a_collection_are_bounded};
pub use stage::Stage;
