//! Tests of the language's public calls: texts, scripts, arguments, large scripts and tallies,
//! extended scripts, the lines of events, and the numbers of the collector. A separate crate, so
//! that the tested crates are checked without them.
#![tactic(auto)]

#[cfg(test)]
mod event_lines;
#[cfg(test)]
mod expansions;
#[cfg(test)]
mod forms;
#[cfg(test)]
mod items;
#[cfg(test)]
mod jobs;
#[cfg(test)]
mod names;
#[cfg(test)]
mod policy;
#[cfg(test)]
mod printing;
#[cfg(test)]
mod reading;
#[cfg(test)]
mod tallies;
#[cfg(test)]
mod texts;
