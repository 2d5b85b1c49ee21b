//! The words between the heap, the machine and its laws. It has no code.
//!
//! `specs/Represents`: how a heap and a stack stand for a world of the machine. `specs/Orderly`:
//! what it is for a world to be in order. `proofs/`: lemmas on these, and on effects of commands,
//! which the engine and the laws share.
#![tactic(auto)]
