//! What holds in every run of the machine.
//!
//! Each law is the contract of a function that does nothing. The layer above relies on
//! `worlds_stay_kept`: every world of a run satisfies all the laws, and so does every world that a
//! step leads to.
#![tactic(auto)]

mod laws;

pub use laws::{
    collections_are_apart, deaths_clear_newest_first, dying_is_unheld, fronts_begin_whole_texts,
    lines_are_printable, locals_live, no_run_is_stuck, numbers_are_few, runs_stay_lawful,
    serials_are_few, stacks_are_bounded, steps_leave_what_is_below, worlds_are_orderly,
    worlds_have_origins, worlds_stay_kept,
};
