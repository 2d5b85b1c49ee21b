//! Tests of the questions about a recorded heap, through their top call: on heaps drawn by hand, on
//! heaps with faults, and with failing reads and writes. A separate crate, so that `cg_ask` is
//! checked without them.
#![tactic(auto)]

#[cfg(test)]
mod asked;
#[cfg(test)]
mod calls;
#[cfg(test)]
mod questions;
#[cfg(test)]
mod refused;
