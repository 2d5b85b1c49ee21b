//! Writes the references of entries into an array, for walks over many objects.
ghost use Rattle.std.specs.Prelude.{◌≡◌, ◌+◌, ◌<◌, ◌≤◌, ◌++◌, length, option_to_list, take};
ghost use Rattle.cg_graph.specs.Value.{entry_references};

use cg_graph::reference_in;
use cg_value::Entry;

/// The maximum number of entries per call.
pub const AT_ONCE: usize = 32;

/// Room for their references: an entry has at most two, its value's and its key's.
pub const ROOM: usize = 2 * AT_ONCE;

/// The position reached, and the number of references written.
#[derive(Clone, Copy, Debug)]
pub struct Noted {
    /// The position after the last entry visited.
    pub next: usize,
    pub references: usize,
}

/// Writes an optional reference after the first `count`, and returns the new count.
#[inline(always)]
pub fn note_reference(found: &mut [u64], count: usize, reference: Option<u64>) -> usize
    requires { count < length found.old }
    ensures noted { take result found.new ≡ take count found.old ++ option_to_list reference }
    ensures few { result ≤ count + 1 }
    ensures room { length found.new ≡ length found.old }
{
    if let Some(serial) = reference {
        found[count] = serial;
        count + 1
    } else {
        count
    }
}

/// Writes the references of an entry, its value's then its key's, after the first `count`, and
/// returns the new count.
#[inline(always)]
pub fn note_entry(found: &mut [u64], count: usize, entry: Entry) -> usize
    requires { count + 2 ≤ length found.old }
    ensures noted { take result found.new ≡ take count found.old ++ entry_references entry }
    ensures few { result ≤ count + 2 }
    ensures room { length found.new ≡ length found.old }
{
    let with_value = note_reference(found, count, reference_in(entry.val));
    let with_key = note_reference(found, with_value, reference_in(entry.key));
    with_key
}
