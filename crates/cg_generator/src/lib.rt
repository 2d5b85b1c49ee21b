//! A large script from a number, and the tally of a run's text.
//!
//! `generated_script` answers the script of a number of blocks. `tally` counts the lines of a text;
//! `TallySink` counts those of a run as they are written, and stores none. `summary_line` is the
//! line of a tally.
#![tactic(auto)]

mod counts;
mod line;
mod script;
mod seen;
mod sink;
mod summary;
mod told;
mod whole;

pub use counts::Tally;
pub use script::{MOST_BLOCKS, generated_script};
pub use sink::TallySink;
pub use summary::summary_line;
pub use whole::tally;
