//! The stored rows: each with its neighbours, under its weak reference.
//!
//! A chain has the rows of one referent that wait, or those that do not, in descending order of
//! weak reference.
ghost use Rattle.std.specs.Prelude.{◌≡◌, ℕ, ◌+◌, ◌<◌, ◌≤◌, nat_eq, if◌then◌else◌, IsSome, Some, None};
ghost use Rattle.std.specs.Map.{lookup};
ghost use Rattle.indexmap.specs.IndexMap.{spare};
ghost use Rattle.cg_weak.specs.Nodes.{older_set, newer_set};

use cg_serial::SerialHashing;
use indexmap::IndexMap;

/// A row, under its weak reference, and its neighbours in its chain.
#[derive(Clone, Copy, Debug)]
pub struct Node {
    pub referent: u64,
    pub waits: bool,
    pub newer: Option<u64>,
    pub older: Option<u64>,
}

/// The row of a weak reference that has one.
pub fn node_at(nodes: &IndexMap<u64, Node, SerialHashing>, weak: u64) -> Node
    requires { IsSome (lookup (nat_eq weak) nodes.now.entries) }
    ensures { lookup (nat_eq weak) nodes.now.entries ≡ Some result }
{
    match nodes.get(&weak) {
        Some(node) => *node,
        None => unreachable!(),
    }
}

/// Adds a row; there is room for it.
pub fn add_node(nodes: &mut IndexMap<u64, Node, SerialHashing>, weak: u64, node: Node)
    requires { 0 < spare nodes.old }
    ensures nodes { (v : ℕ) → lookup (nat_eq v) nodes.new.entries
        ≡ (if nat_eq weak v then Some node else lookup (nat_eq v) nodes.old.entries) }
    ensures room { spare nodes.old ≤ spare nodes.new + 1 }
{
    match nodes.insert(weak, node) {
        Ok(_) => {}
        Err(_) => unreachable!(),
    }
}

/// Writes another row for a weak reference that has one.
pub fn write_node(nodes: &mut IndexMap<u64, Node, SerialHashing>, weak: u64, node: Node)
    requires { IsSome (lookup (nat_eq weak) nodes.old.entries) }
    ensures nodes { (v : ℕ) → lookup (nat_eq v) nodes.new.entries
        ≡ (if nat_eq weak v then Some node else lookup (nat_eq v) nodes.old.entries) }
    ensures room { spare nodes.new ≡ spare nodes.old }
{
    if let Some(place) = nodes.get_mut(&weak) {
        *place = node;
    }
}

/// Removes the row of a weak reference.
pub fn remove_node(nodes: &mut IndexMap<u64, Node, SerialHashing>, weak: u64)
    ensures nodes { (v : ℕ) → lookup (nat_eq v) nodes.new.entries
        ≡ (if nat_eq weak v then None else lookup (nat_eq v) nodes.old.entries) }
    ensures room { spare nodes.old ≤ spare nodes.new }
{
    nodes.swap_remove(&weak);
}

/// Sets the next older row of a weak reference, if there is one.
fn set_older(nodes: &mut IndexMap<u64, Node, SerialHashing>, at: Option<u64>, older: Option<u64>)
    ensures nodes { (v : ℕ) → lookup (nat_eq v) nodes.new.entries
        ≡ older_set at older v (lookup (nat_eq v) nodes.old.entries) }
    ensures room { spare nodes.new ≡ spare nodes.old }
{
    if let Some(at) = at {
        if let Some(node) = nodes.get_mut(&at) {
            node.older = older;
        }
    }
}

/// Sets the next newer row of a weak reference, if there is one.
fn set_newer(nodes: &mut IndexMap<u64, Node, SerialHashing>, at: Option<u64>, newer: Option<u64>)
    ensures nodes { (v : ℕ) → lookup (nat_eq v) nodes.new.entries
        ≡ newer_set at newer v (lookup (nat_eq v) nodes.old.entries) }
    ensures room { spare nodes.new ≡ spare nodes.old }
{
    if let Some(at) = at {
        if let Some(node) = nodes.get_mut(&at) {
            node.newer = newer;
        }
    }
}

/// Makes two rows neighbours when the row between them leaves. Either may be missing.
pub fn tie(nodes: &mut IndexMap<u64, Node, SerialHashing>, newer: Option<u64>, older: Option<u64>)
    ensures nodes { (v : ℕ) → lookup (nat_eq v) nodes.new.entries ≡ newer_set older newer v
        (older_set newer older v (lookup (nat_eq v) nodes.old.entries)) }
    ensures room { spare nodes.new ≡ spare nodes.old }
{
    set_older(nodes, newer, older);
    set_newer(nodes, older, newer);
}

/// Inserts a row between two others. Either may be missing.
pub fn join(
    nodes: &mut IndexMap<u64, Node, SerialHashing>,
    newer: Option<u64>,
    weak: u64,
    older: Option<u64>,
)
    ensures nodes { (v : ℕ) → lookup (nat_eq v) nodes.new.entries ≡ newer_set older (Some weak) v
        (older_set newer (Some weak) v (lookup (nat_eq v) nodes.old.entries)) }
    ensures room { spare nodes.new ≡ spare nodes.old }
{
    set_older(nodes, newer, Some(weak));
    set_newer(nodes, older, Some(weak));
}
