//! Hashes serials so that nearby serials are close together in a table.
#![tactic(auto)]

mod hasher;

pub use hasher::{SerialHasher, SerialHashing, serial_hashing};
