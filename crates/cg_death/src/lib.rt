//! Deaths by count, and releases: how references are given up, and what happens to an unheld
//! object.
//!
//! The layer above relies on one contract: in every world of the machine that the heap represents,
//! a step of a release or a death does what the machine does, and answers what comes next: a line,
//! a frame, or another object's death.
//!
//! - `answer`: what a step answers.
//! - `release`: references that are given up one after the other.
//! - `death`: the death of an object; `phase`: its phase.
//! - `finalizers`, `weak`, `contents`: the phases; `plain`: whether a death goes straight to the
//!   last one.
#![tactic(auto)]

mod answer;
mod contents;
mod death;
mod finalizers;
mod phase;
mod plain;
mod release;
mod weak;

pub use answer::DeathStep;
pub use death::Death;
pub use finalizers::{Finalizers, finalizer_frame, finalizer_to_run, finalizers_of};
pub use release::Release;
pub use weak::{callback_frame, callback_of};
