//! Tests of public calls of the program and its parts: sources and sinks, records, the checker, and
//! the top call on worked scripts, under faults, at its limits and in depth. A separate crate, so
//! that the tested crates are checked without them.
#![tactic(auto)]

#[cfg(test)]
mod bad_input;
#[cfg(test)]
mod bytes;
#[cfg(test)]
mod calls;
#[cfg(test)]
mod checker;
#[cfg(test)]
mod collections;
#[cfg(test)]
mod depth;
#[cfg(test)]
mod edges;
#[cfg(test)]
mod edits;
#[cfg(test)]
mod expansions;
#[cfg(test)]
mod faults;
#[cfg(test)]
mod inspections;
#[cfg(test)]
mod kinds;
#[cfg(test)]
mod one_byte;
#[cfg(test)]
mod parts;
#[cfg(test)]
mod promises;
#[cfg(test)]
mod recordings;
#[cfg(test)]
mod records;
#[cfg(test)]
mod rows;
#[cfg(test)]
mod shutdowns;
#[cfg(test)]
mod sizes;
#[cfg(test)]
mod sources_and_sinks;
#[cfg(test)]
mod summaries;
#[cfg(test)]
mod verdicts;
#[cfg(test)]
mod worked;
