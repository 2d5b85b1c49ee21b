//! Finds the position of a row in a chain that it is about to join.
ghost use Rattle.std.specs.Prelude.{◌≡◌, ◌≢◌, true, Some};
ghost use Rattle.cg_weak.specs.Table.{below, above, IsLast, IsLinked, chain_at, older_at, newer_at};

use crate::chains::Ends;
use crate::nodes::{Node, node_at};
use cg_serial::SerialHashing;
use indexmap::IndexMap;

// The oldest of the rows that wait with an object and are newer than a weak reference. If weak
// references start to wait from the newest on, as in a death, the oldest row gives the result at
// once; if from the oldest on, the newest does.
fn oldest_above(
    nodes: &IndexMap<u64, Node, SerialHashing>,
    referent: u64,
    ends: Ends,
    weak: u64,
) -> Option<u64>
    requires linked { IsLinked above (chain_at nodes.now.entries) (newer_at nodes.now.entries) }
    requires newest { IsLast below (λ v. chain_at nodes.now.entries v ≡ Some (referent, true))
        ends.newest }
    requires oldest { IsLast above (λ v. chain_at nodes.now.entries v ≡ Some (referent, true))
        ends.oldest }
    ensures { IsLast above (λ v. (chain_at nodes.now.entries v ≡ Some (referent, true))
        × above v weak) result }
{
    if ends.newest.is_some_and(|newest| newest < weak) {
        return None;
    }
    let mut at = ends.oldest;
    'rows: while let Some(here) = at {
        if weak < here {
            return at;
        }
        at = node_at(nodes, here).newer;
    }
    None
}

/// The future neighbours of a row among those that wait with its object: the newer one, and the
/// older one.
pub fn neighbours(
    nodes: &IndexMap<u64, Node, SerialHashing>,
    referent: u64,
    ends: Ends,
    weak: u64,
) -> (Option<u64>, Option<u64>)
    requires apart { chain_at nodes.now.entries weak ≢ Some (referent, true) }
    requires older { IsLinked below (chain_at nodes.now.entries) (older_at nodes.now.entries) }
    requires newer { IsLinked above (chain_at nodes.now.entries) (newer_at nodes.now.entries) }
    requires newest { IsLast below (λ v. chain_at nodes.now.entries v ≡ Some (referent, true))
        ends.newest }
    requires oldest { IsLast above (λ v. chain_at nodes.now.entries v ≡ Some (referent, true))
        ends.oldest }
    ensures above { IsLast above (λ v. (chain_at nodes.now.entries v ≡ Some (referent, true))
        × above v weak) result.0 }
    ensures below { IsLast below (λ v. (chain_at nodes.now.entries v ≡ Some (referent, true))
        × below v weak) result.1 }
{
    let newer = oldest_above(nodes, referent, ends, weak);
    match newer {
        Some(above) => (newer, node_at(nodes, above).older),
        None => (None, ends.newest),
    }
}
