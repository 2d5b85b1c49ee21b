//! Laws of every run about the objects that it makes: their finalizers, their deaths and their
//! names.
//!
//! Each law is the contract of a function that does nothing.
#![tactic(auto)]

mod final_sets;
mod full_collections;
mod holdings;
mod lines;

pub use final_sets::{final_sets_are_freed, final_sets_are_sealed, only_frees_name_members};
pub use full_collections::{full_collections_leave_none, reached_is_kept};
pub use holdings::{entries_leave_only_by, unheld_is_dying, untracked_are_slack};
pub use lines::{no_dead_lines, no_dead_names, one_finalizer_each};
