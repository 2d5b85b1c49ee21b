//! A checker of records of collections: it says yes only if the recorded sets are right for the
//! recorded graphs.
//!
//! The layer above rests on one contract: the verdict on bytes is a definition (`specs/Judged`), in
//! terms of the text of records and of what a path of members reaches. The maker of a record need
//! not be trusted.
//!
//! - `table`: the serials of a graph, turned into positions of its members.
//! - `counts`: how often members are referred to, compared with their in-degrees.
//! - `graph`: the fault of one graph; `check`: the verdict on all graphs of records.
//! - `laws`: no bytes have two verdicts.
//! - `tell`, `status`, `run`: the checker as a top call, over a source and a sink.
//!
//! Records, and the calls that read and write them, are those of `cg_records`, re-exported here.
#![tactic(auto)]

mod check;
mod counts;
mod graph;
mod laws;
mod run;
mod status;
mod table;
mod tell;

pub use cg_records::{Graph, Member, Members, Rec, Records, Serials, read_records, write_records};
pub use check::{Verdict, check_records};
pub use laws::one_verdict;
pub use run::check_run;
pub use status::CheckStatus;
