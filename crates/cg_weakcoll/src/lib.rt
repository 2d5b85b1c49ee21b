//! Weak value maps and exit finalizers: extended scripts, expanded to scripts of the base language.
//!
//! The layer above uses `expand`: it answers the expansion of some bytes by `specs/Expansion`, or
//! their first bad line. The laws say what weak value maps answer in every run of the machine, and
//! when the functions of exit finalizers begin.
#![tactic(auto)]

mod exit_laws;
mod expander;
mod fault;
mod form;
mod map_laws;
mod pieces;
mod worked;
mod write;

pub use exit_laws::{
    a_finalizer_finds_its_object_alive, exits_are_called_last_first, exits_begin_alive,
    exits_begin_once, expanded_exits_are_there, two_finalizers_are_there,
};
pub use expander::expand;
pub use map_laws::{
    expanded_looks_are_commands, expanded_stores_are_commands, look_lines_are_commands,
    looks_answer, looks_find_referents, misses_leave_none, store_lines_are_commands,
    weak_maps_answer, weak_references_keep_their_referents,
};
pub use worked::a_cache_answers_both;
