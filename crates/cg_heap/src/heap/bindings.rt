//! Names and their values.
ghost use Rattle.std.specs.Prelude.{◌≡◌, ◌<◌, Some, None, length, slice_get};
ghost use Rattle.cg_graph.specs.Value.{references_of_value};
ghost use Rattle.cg_graph.specs.Changes.{held, named};
ghost use Rattle.cg_heap.specs.Calls.{HasFewHolds, IsGreatestBound, IsLiveValue};

use super::Heap;
use crate::counts::count_in_located;
use cg_arena::Near;
use cg_kind::Kind;
use cg_value::Val;

impl<B: Kind> Heap<B> {
    /// Binds a name to a value, and returns the old value, `None` if it was unbound.
    ///
    /// The old value's reference becomes an outside hold, so that it can be released after the new
    /// one is bound.
    #[inline(always)]
    pub fn bind(&mut self, name: u32, val: Val) -> Option<Val>
        requires name { name < length self.old.names }
        requires live { IsLiveValue self.old val }
        requires few { HasFewHolds self.old }
        ensures old { slice_get self.old.names name ≡ Some result }
        ensures rest { self.new ≡ held (references_of_value result)
            (named name (Some val) self.old) }
    {
        let near = count_in_located(&mut self.arena, val);
        self.names.replace(name as usize, Some(val), near)
    }

    /// Unbinds a name and returns its value, `None` if it was unbound. Its reference becomes an
    /// outside hold.
    #[inline(always)]
    pub fn unbind(&mut self, name: u32) -> Option<Val>
        requires name { name < length self.old.names }
        requires few { HasFewHolds self.old }
        ensures old { slice_get self.old.names name ≡ Some result }
        ensures rest { self.new ≡ held (references_of_value result) (named name None self.old) }
    {
        self.names.replace(name as usize, None, Near::default())
    }

    /// The bound name with the greatest number, `None` exactly if no name is bound. It skips each
    /// unbound name once, unless a name above it is bound again.
    pub fn greatest_name(&mut self) -> Option<u32>
        ensures same { self.new ≡ self.old }
        ensures greatest { IsGreatestBound self.old.names result }
    {
        let name = self.names.greatest()?;
        Some(name as u32)
    }
}
