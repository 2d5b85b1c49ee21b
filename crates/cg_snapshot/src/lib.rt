//! A recorded heap and the questions about it, as data and as text.
//!
//! The text of a snapshot is a definition (`specs/Text`). The layer above relies on one contract:
//! reading follows it exactly, and if the bytes are not such a text, reports the first bad line.
//!
//! - `places`: places of members in order; `heap`: members; `question`: what is asked about them.
//! - `number`, `row`: a number, and the words of a line; `line`: what a line says; `draft`: what
//!   was read so far, and which lines may follow; `reading`: the loop over the lines.
//! - `writing`: the line of a question.
//! - `laws`: no two snapshots share a text.
#![tactic(auto)]

mod draft;
mod heap;
mod laws;
mod line;
mod number;
mod places;
mod question;
mod reading;
mod row;
mod writing;

pub use heap::{Member, Members};
pub use laws::one_reading;
pub use places::Places;
pub use question::{Question, Questions};
pub use reading::{Reading, Snapshot, read_snapshot};
pub use writing::{put_question, put_spaced};
