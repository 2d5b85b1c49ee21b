//! The survivors that become untracked. (Developer guide, "optimization: delay tracking
//! containers".)
ghost use Rattle.std.specs.Prelude.{◌≡◌, ◌+◌, ◌*◌, ◌≤◌, length};
ghost use Rattle.cg_value.specs.declared.KindCode.TheVariants as kind_of;
ghost use Rattle.cg_value.specs.declared.Place.TheVariants.{Gen};
ghost use Rattle.cg_graph.specs.Store.{IsLive, entries_of};
ghost use Rattle.cg_heap.specs.Calls.{IsLiveValue, may_be_tracked};
ghost use Rattle.cg_collect.specs.Starting.{Untracks, UntracksSurvivors, UntracksOne, has_tracked};
ghost use Rattle.cg_collect.specs.Looks.{entries_listed};

use cg_arena::Near;
use cg_heap::{Heap, Steps};
use cg_kind::Kind;
use cg_value::{KindCode, Place, Val};
use std::sync::ledger::Ledger;

/// Untracks the surviving tuples without an item that may be tracked, and then, in a collection of
/// 2, the dictionaries without a key or value that may be.
pub fn untrack<B: Kind, L: Ledger>(heap: &mut Heap<B>, generation: u8, steps: &mut Steps<L>)
    requires { generation ≤ 2 }
    ensures untracks { UntracksSurvivors generation heap.old heap.new }
    ensures looks { steps.new ≤ steps.old + 2 * entries_listed heap.old (Gen generation) }
{
    heap.sound();
    untrack_kind(heap, generation, KindCode::Tuple, steps);
    heap.sound();
    if generation == 2 {
        untrack_kind(heap, generation, KindCode::Dict, steps);
    }
}

/// Untracks the objects of a kind in a generation that have no reference that may be tracked.
fn untrack_kind<B: Kind, L: Ledger>(
    heap: &mut Heap<B>,
    generation: u8,
    kind: KindCode,
    steps: &mut Steps<L>,
)
    requires { generation ≤ 2 }
    ensures untracks { Untracks generation kind heap.old heap.new }
    ensures looks { steps.new ≤ steps.old + entries_listed heap.old (Gen generation) }
{
    heap.sound();
    if heap.has_none(kind) {
        return;
    }
    let mut near = Near::default();
    let mut next = heap.first_near(Place::Gen(generation), &mut near);
    'objects: while let Some(object) = next {
        heap.sound();
        let here = near;
        next = heap.next_near(object, &mut near);
        untrack_one(heap, object, here, kind, steps);
    }
    heap.sound();
}

/// Untracks one of them, which is near.
fn untrack_one<B: Kind, L: Ledger>(
    heap: &mut Heap<B>,
    object: u64,
    near: Near,
    kind: KindCode,
    steps: &mut Steps<L>,
)
    requires { IsLive heap.old object }
    ensures untracks { UntracksOne object kind heap.old heap.new }
    ensures looks { steps.new ≤ steps.old + length (entries_of heap.old object) }
{
    if heap.head_near(object, near).code == kind && !has_tracked(heap, object, near, steps) {
        heap.move_near(object, near, Place::Untracked);
    }
}

/// Whether an object that is near has a reference that may be tracked.
fn has_tracked<B: Kind, L: Ledger>(
    heap: &Heap<B>,
    object: u64,
    near: Near,
    steps: &mut Steps<L>,
) -> bool
    requires { IsLive heap.now object }
    ensures found { result ≡ has_tracked heap.now object }
    ensures looks { steps.new ≤ steps.old + length (entries_of heap.now object) }
{
    heap.sound();
    'entries: for i in 0..heap.len_near(object, near) {
        let entry = heap.look_near(object, i, near, steps);
        if may_be_tracked(heap, entry.val) || may_be_tracked(heap, entry.key) {
            return true;
        }
    }
    false
}

/// Whether a value is an object that may be tracked: a tracked one, or any but a tuple.
fn may_be_tracked<B: Kind>(heap: &Heap<B>, val: Val) -> bool
    requires { IsLiveValue heap.now val }
    ensures { result ≡ may_be_tracked heap.now val }
{
    match val {
        Val::Ref(object) => {
            let head = heap.head_of(object);
            head.code != KindCode::Tuple || head.place != Place::Untracked
        }
        _ => false,
    }
}
