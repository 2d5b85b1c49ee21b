//! The command line and the top call.
//!
//! `gc_run` is what the program does. Its clauses are the headline: it writes the text of a whole
//! run of the object graph machine, or the summary of such a text, or the expansion of an extended
//! script; and they give the cause of every other answer. `cg_words` reads the arguments,
//! `cg_script` reads scripts, `cg_generator` makes a large script, `cg_weakcoll` expands extended
//! scripts, and `cg_interp` runs scripts over a heap of the caller's kinds.
#![tactic(auto)]

mod budget;
mod expand;
mod generate;
mod input;
mod record;
mod run;
mod status;
mod tell;
mod top;

pub use cg_generator::{MOST_BLOCKS, Tally, generated_script, tally};
pub use cg_words::{Job, read_words};
pub use status::Status;
pub use top::{gc_over, gc_run};
