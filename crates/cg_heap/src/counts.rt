//! The counts of nodes, as changed by a heap's entries and names.
ghost use Rattle.std.specs.Prelude.{◌≡◌, ◌≢◌, ◌<◌, ◌+◌, ℕ, IfSome, Some, None, ◌^◌, ◌-◌, ◌∷◌, []};
ghost use Rattle.std.specs.FinMap as fin;
ghost use Rattle.cg_value.specs.declared.Val.TheVariants as val_of;
ghost use Rattle.cg_graph.specs.Value.{references, references_of_value};
ghost use Rattle.cg_graph.specs.Object.{first_place as place_at_first};
ghost use Rattle.cg_graph.specs.Holdings.{occurrences};
ghost use Rattle.cg_arena.specs.Nodes.{HasNode, count_of as count_at, counted_up, new_node, with_node, without_node, with_room};
ghost use Rattle.cg_heap.specs.Keeps.{seat_in};
ghost use Rattle.cg_heap.specs.Calls.{number_less};

use crate::boxes::Seat;
use cg_arena::{Arena, Near};
use cg_value::{Entry, KindCode, Place, Val};

/// Where the entries of an object are.
#[inline(always)]
pub fn seat_of(arena: &Arena, object: u64) -> Seat
    requires { HasNode arena.now object }
    ensures { seat_in (fin.get arena.now.nodes object) ≡ Some (result.code, result.body) }
{
    let (code, body) = arena.seat_of(object);
    Seat { code, body }
}

/// `seat_of`, with a hint of the object's slot.
#[inline(always)]
pub fn seat_near(arena: &Arena, object: u64, near: Near) -> Seat
    requires { HasNode arena.now object }
    ensures { seat_in (fin.get arena.now.nodes object) ≡ Some (result.code, result.body) }
{
    let (code, body) = arena.seat_near(object, near);
    Seat { code, body }
}

/// `seat_near`, and the place whose list has the object, in one look-up.
#[inline(always)]
pub fn seat_and_place_near(arena: &Arena, object: u64, near: Near) -> (Seat, Place)
    requires { HasNode arena.now object }
    ensures seat { seat_in (fin.get arena.now.nodes object) ≡ Some (result.0.code, result.0.body) }
    ensures place { IfSome (fin.get arena.now.nodes object) (λ n. result.1 ≡ n.place) }
{
    let head = arena.head_near(object, near);
    let seat = Seat {
        code: head.code,
        body: head.body,
    };
    (seat, head.place)
}

/// Removes the node of an object with count 0. Returns where its entries are.
pub fn drop_seat(arena: &mut Arena, object: u64) -> Seat
    requires has { HasNode arena.old object }
    requires unheld { count_at arena.old object ≡ 0 }
    ensures seat { seat_in (fin.get arena.old.nodes object) ≡ Some (result.code, result.body) }
    ensures drops { arena.new ≡ without_node object (with_room arena.new.room arena.old) }
{
    let (code, body) = arena.drop_seat(object);
    Seat { code, body }
}

/// Counts the reference of a value.
#[inline(always)]
pub fn count_in(arena: &mut Arena, val: Val)
    requires live { (s : ℕ) → val ≡ val_of.Ref s → HasNode arena.old s }
    requires room { (s : ℕ) → val ≡ val_of.Ref s → count_at arena.old s < 2 ^ 32 - 1 }
    ensures { arena.new ≡ counted_up (references_of_value (Some val)) arena.old }
{
    let _near = count_in_located(arena, val);
}

/// The same; also returns the slot of the object that the value refers to, if any.
#[inline(always)]
pub fn count_in_located(arena: &mut Arena, val: Val) -> Near
    requires live { (s : ℕ) → val ≡ val_of.Ref s → HasNode arena.old s }
    requires room { (s : ℕ) → val ≡ val_of.Ref s → count_at arena.old s < 2 ^ 32 - 1 }
    ensures { arena.new ≡ counted_up (references_of_value (Some val)) arena.old }
{
    let mut near = Near::default();
    if let Val::Ref(serial) = val {
        arena.inc_located(serial, &mut near);
    }
    near
}

/// `count_in`, with a hint of the slot of the object that the value refers to, if any.
#[inline(always)]
pub fn count_near(arena: &mut Arena, val: Val, near: Near)
    requires live { (s : ℕ) → val ≡ val_of.Ref s → HasNode arena.old s }
    requires room { (s : ℕ) → val ≡ val_of.Ref s → count_at arena.old s < 2 ^ 32 - 1 }
    ensures { arena.new ≡ counted_up (references_of_value (Some val)) arena.old }
{
    if let Val::Ref(serial) = val {
        arena.inc_near(serial, near);
    }
}

/// Counts the references of entries.
pub fn count_all(arena: &mut Arena, parts: &[Entry])
    requires live { (s : ℕ) → 0 < occurrences s (references parts.now) → HasNode arena.old s }
    requires room { (s : ℕ) → count_at arena.old s + occurrences s (references parts.now) <
        4294967295 }
    ensures { arena.new ≡ counted_up (references parts.now) arena.old }
{
    for part in parts {
        count_in(arena, part.val);
        count_in(arena, part.key);
    }
}

/// Lowers the number of entries by one, unless the object is the garbage list.
#[inline(always)]
pub fn fewer(entries: &mut u64, object: u64)
    requires { object ≢ 1 → 0 < entries.old }
    ensures { entries.new ≡ number_less object entries.old }
{
    if object != 1 {
        *entries -= 1;
    }
}

/// The place of a new object. (`gc` manual, `gc.is_tracked`: a new dictionary is untracked.)
pub fn first_place(code: KindCode) -> Place
    ensures { result ≡ place_at_first code }
{
    match code {
        KindCode::Dict => Place::Untracked,
        _ => Place::Gen(0),
    }
}

/// Adds the node of a new object, held once from outside, and counts its references. Returns its
/// slot.
#[inline(always)]
pub fn add_object(
    arena: &mut Arena,
    serial: u64,
    code: KindCode,
    class: Option<u32>,
    body: usize,
    parts: &[Entry],
) -> Near
    requires fresh { fin.get arena.old.nodes serial ≡ None }
    requires spare { 0 < arena.old.room }
    requires live { (s : ℕ) → 0 < occurrences s (references parts.now) → HasNode arena.old s }
    requires room { (s : ℕ) → count_at arena.old s + occurrences s (references parts.now) <
        4294967294 }
    ensures { ((room : ℕ) × (arena.new ≡ counted_up (references parts.now) (counted_up (serial ∷ [])
        (with_node serial (new_node code class body (place_at_first code))
        (with_room room arena.old))))) }
{
    let near = arena.add_held(serial, code, class, body, first_place(code));
    count_all(arena, parts);
    near
}
