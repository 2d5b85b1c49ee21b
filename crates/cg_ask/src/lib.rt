//! Questions about a recorded heap, and their answers: why a member is alive, and what would go
//! with it.
//!
//! The layer above rests on one contract: the output is the text of the answers (`specs/Answers`,
//! `specs/Asked`). The recorder of the heap need not be trusted, but the answers are about what was
//! recorded.
//!
//! - `marks`: marks that represent sets of members; `lines`: the lines of an answer.
//! - `counts`, `faults`: how often members are referred to, and the first fault of a heap.
//! - `reach`, `dying`, `collection`: what paths reach, what dies by count, what a full collection
//!   clears.
//! - `why`, `holds`, `sets`: the answers; `answer`: the answer to any question.
//! - `tell`, `status`, `run`: the questions as a top call, over a source and a sink.
//! - `laws`: paths and reach, what is lost, and that what dies by count and was reached is let go.
#![tactic(auto)]

mod answer;
mod collection;
mod counts;
mod dying;
mod faults;
mod holds;
mod laws;
mod lines;
mod marks;
mod reach;
mod run;
mod sets;
mod status;
mod tell;
mod why;

pub use laws::{dead_is_let_go, held_has_outside_holds, lost_has_none, ways_are_reach};
pub use run::ask_run;
pub use status::AskStatus;
