//! The interpreter: the activities of a run, and its loop.
#![tactic(auto)]

mod activity;
mod caller;
mod callers;
mod collecting;
mod commands;
mod deaths;
mod engine;
mod frames;
mod graphs;
mod next;
mod opening;
mod record_lines;
mod recorded;
mod recording;
mod releases;
mod run;
mod shutdown;
mod slot;
mod stack;
mod turned;
mod turns;
mod writing;

pub use recorded::run_recorded;
pub use run::{RunEnd, run_script};
