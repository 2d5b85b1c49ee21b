//! The reference in a value.
ghost use Rattle.std.specs.Prelude.{◌≡◌};
ghost use Rattle.cg_graph.specs.Value.{reference_in};

use cg_value::Val;

/// The serial of the object that a value refers to, `None` exactly if it is not a reference.
/// (Developer guide, "reference counting": only objects are counted.)
#[inline(always)]
pub fn reference_in(val: Val) -> Option<u64>
    ensures { result ≡ reference_in val }
{
    match val {
        Val::Ref(serial) => Some(serial),
        _ => None,
    }
}
