//! Entries stored in a slice, in one form or another.
ghost use Rattle.std.specs.Prelude.{◌≡◌, ◌≤◌, ◌+◌, ◌++◌, length, map, take};
ghost use Rattle.cg_value.specs.declared.Entry.{Entry};
ghost use Rattle.cg_graph.specs.Value.{entry_references, references};
ghost use Rattle.cg_kind.specs.Calls.{next_entries};

use crate::items::item_of;
use cg_kind::{AT_ONCE, Noted, ROOM, note_entry};
use cg_value::Val;

/// What a slice stores for each entry.
pub trait KeepsEntry {
    ghost kept: { Self → Entry };

    /// Writes its references, its value's and then its key's, after the first `count`. Returns the
    /// new count.
    fn note(&self, found: &mut [u64], count: usize) -> usize
        requires { count + 2 ≤ length found.old }
        ensures noted { take result found.new ≡ take count found.old
            ++ entry_references (kept self.now) }
        ensures few { result ≤ count + 2 }
        ensures room { length found.new ≡ length found.old };
}

impl KeepsEntry for Val {
    ghost use Rattle.cg_graph.specs.Value.{item};

    ghost kept = { item };

    #[inline(always)]
    fn note(&self, found: &mut [u64], count: usize) -> usize {
        note_entry(found, count, item_of(*self))
    }
}

/// Visits entries of a slice from a position on, as `cg_kind::Kind::note_from` specifies.
#[inline(always)]
pub fn note_slice<T: KeepsEntry>(slice: &[T], from: usize, found: &mut [u64]) -> Noted
    requires within { from ≤ length slice.now }
    requires room { ROOM ≤ length found.old }
    ensures next { result.next ≡ from + length (next_entries (map T.kept slice.now) from) }
    ensures references { take result.references found.new
        ≡ references (next_entries (map T.kept slice.now) from) }
    ensures few { result.references ≤ ROOM }
    ensures room { length found.new ≡ length found.old }
{
    let next = from + AT_ONCE.min(slice.len() - from);
    let mut references = 0;
    'parts: for part in &slice[from..next] {
        references = part.note(found, references);
    }
    Noted { next, references }
}
