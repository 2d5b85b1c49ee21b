//! Records of collections, as data and as text: what a collector saw, and what it found
//! unreachable.
//!
//! The layer above rests on one contract: the text of records is a definition (`specs/Text`), and
//! reading and writing follow it exactly.
//!
//! - `serials`: serials in order; `graph`: members, graphs, records of collections.
//! - `writing`: the text of records.
//! - `number`, `line`: a number or a line at the front of bytes; `draft`: what was read so far, and
//!   which lines may follow; `reading`: the loop over the lines.
//! - `laws`: no two lists of records share a text.
#![tactic(auto)]

mod draft;
mod graph;
mod laws;
mod line;
mod number;
mod reading;
mod serials;
mod writing;

pub use graph::{Graph, Member, Members, Rec, Records};
pub use laws::one_reading;
pub use number::{number_of_word, place_of};
pub use reading::read_records;
pub use serials::Serials;
pub use writing::write_records;
