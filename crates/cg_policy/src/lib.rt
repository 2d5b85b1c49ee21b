//! When a collection is due, of which generation, and how it changes the counters.
//!
//! The layers above rest on one contract: a `Policy` is the machine's record of numbers and whether
//! a collection is running, and each call changes that record exactly as the machine does.
//!
//! - `policy`: counts, thresholds and the rules of `gc.set_threshold`.
//! - `flagset`: the debug flags of `gc.set_debug`.
//! - `laws`: the definitions cited by the contracts are the machine's.
#![tactic(auto)]

mod flagset;
mod laws;
mod policy;

pub use flagset::Flagset;
pub use laws::{flagsets_have_the_debug_flags, policies_follow_the_machine};
pub use policy::{Counts, Policy};
