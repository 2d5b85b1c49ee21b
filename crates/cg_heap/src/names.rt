//! The names, with an upper bound on the bound ones.
ghost use Rattle.std.specs.Prelude.{◌≡◌, ◌<◌, IfOk, Some, None, length, replicate, slice_get, slice_set};
ghost use Rattle.cg_heap.specs.Calls.{IsGreatestBound};
ghost use Rattle.cg_heap.specs.Names.{values_of};

use cg_arena::Near;
use cg_value::Val;
use std::alloc::{AllocError, Global};
use std::marker::Model;

/// The value of a name, `None` if it is unbound, and a hint of its object's slot.
#[derive(Clone, Copy, Drop)]
struct Bound {
    val: Option<Val>,
    near: Near,
}

/// The values of the names.
#[derive(Drop)]
pub struct Names {
    names: Vec<Bound>,
    // No name from this one on is bound.
    upper: usize,
}

impl Model for Names {
    ghost use Rattle.std.specs.Prelude.{◌≤◌, List, Option, length};
    ghost use Rattle.cg_value.specs.declared.Val.{Val};
    ghost use Rattle.cg_heap.specs.Calls.{AreBoundBelow};
    ghost use Rattle.cg_heap.specs.Names.{values_of};

    ghost Value = { List (Option Val) };

    ghost view = { λ n. values_of n.names.items };

    ghost invariant = { λ n. (n.upper ≤ length (values_of n.names.items)) × AreBoundBelow n.upper
        (values_of n.names.items) };
}

/// Replaces the value of a name, and returns the old one.
#[inline(always)]
fn replace(names: &mut Vec<Bound>, name: usize, bound: Bound) -> Option<Val>
    requires { name < length names.old.items }
    ensures old { slice_get (values_of names.old.items) name ≡ Some result }
    ensures set { values_of names.new.items ≡ slice_set (values_of names.old.items) name bound.val }
{
    let slot = &mut names[name];
    let old = slot.val;
    *slot = bound;
    old
}

impl Names {
    /// Unbound names.
    pub fn new(alloc: Global, n: u32) -> Result<Names, AllocError>
        ensures { IfOk result (λ names. names ≡ replicate n None) }
    {
        let unbound = Bound {
            val: None,
            near: Near::default(),
        };
        let mut names = Vec::new(alloc);
        for _name in 0..n {
            names.push(unbound)?;
        }
        Ok(Names { names, upper: 0 })
    }

    /// The value of a name.
    #[inline(always)]
    pub fn get(&self, name: usize) -> Option<Val>
        requires { name < length self.now }
        ensures { slice_get self.now name ≡ Some result }
    {
        self.names[name].val
    }

    /// The same, with a hint of its object's slot.
    #[inline(always)]
    pub fn get_near(&self, name: usize, near: &mut Near) -> Option<Val>
        requires { name < length self.now }
        ensures { slice_get self.now name ≡ Some result }
    {
        let bound = &self.names[name];
        *near = bound.near;
        bound.val
    }

    /// Replaces the value of a name and the hint of its object's slot, and returns the old value.
    #[inline(always)]
    pub fn replace(&mut self, name: usize, val: Option<Val>, near: Near) -> Option<Val>
        requires { name < length self.old }
        ensures old { slice_get self.old name ≡ Some result }
        ensures set { self.new ≡ slice_set self.old name val }
    {
        let old = replace(&mut self.names, name, Bound { val, near });
        if val.is_some() {
            self.upper = self.upper.max(name + 1);
        }
        old
    }

    /// The bound name with the greatest number. It skips each unbound name once, unless a name
    /// above it is bound again.
    pub fn greatest(&mut self) -> Option<usize>
        ensures same { self.new ≡ self.old }
        ensures greatest { IsGreatestBound self.old result }
    {
        'down: while self.upper > 0 {
            if self.names[self.upper - 1].val.is_some() {
                return Some(self.upper - 1);
            }
            self.upper -= 1;
        }
        None
    }
}
