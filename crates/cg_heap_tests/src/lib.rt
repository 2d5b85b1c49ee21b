//! Tests of the crates from cg_graph to cg_commands: kinds, nodes, weak references, whole heaps,
//! and questions about a heap.
//!
//! A separate crate, so that those crates are checked without the tests. Nothing depends on it.
#![tactic(auto)]

#[cfg(test)]
mod arenas;
#[cfg(test)]
mod commands;
#[cfg(test)]
mod drops;
#[cfg(test)]
mod few;
#[cfg(test)]
mod graphs;
#[cfg(test)]
mod heaps;
#[cfg(test)]
mod inspections;
#[cfg(test)]
mod kinds;
#[cfg(test)]
mod limits;
#[cfg(test)]
mod queues;
#[cfg(test)]
mod scene;
#[cfg(test)]
mod serials;
#[cfg(test)]
mod splits;
#[cfg(test)]
mod tables;
#[cfg(test)]
mod weak_tables;
