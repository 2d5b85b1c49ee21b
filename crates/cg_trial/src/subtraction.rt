//! Trial subtraction, and the walk that takes out what is reached.
ghost use Rattle.std.specs.Prelude.{◌≡◌, ◌≢◌, ◌↔◌, ℕ, ◌+◌, ◌-◌, ◌*◌, ◌≤◌, ◌∷◌, ◌++◌, [], replicate, ◌<◌, false, length, slice_index, take, drop, IsTrue, IfSome, None};
ghost use Rattle.cg_graph.specs.Member.{Includes};
ghost use Rattle.cg_graph.specs.Value.{references};
ghost use Rattle.cg_graph.specs.Holdings.{occurrences};
ghost use Rattle.cg_graph.specs.Store.{list_at, place_of};
ghost use Rattle.cg_graph.specs.Reachable.{IsReachable, IsUnreachable};
ghost use Rattle.cg_arena.specs.Nodes.{IsPlace};
ghost use Rattle.cg_heap.specs.Calls.{IsListed};
ghost use Rattle.cg_trial.specs.View.{view_of, IsReadyView, IsSameButNumbers, Lowered, held_by};
ghost use Rattle.cg_trial.specs.Paths.{entries_in};
ghost use Rattle.cg_trial.specs.Sift.{IsSearch, aside_place, Woken, IsFirstZero, IsLastZero, HasFewMembers, IsNowhereElse, IsParted, IsTwofold, IsExchanged, IsSifted, IsSieved, zeros, zeros_at};
ghost use Rattle.cg_trial.specs.Split.{IsSplitPlace, kept_place, entry_number_at, IsSameButPlaces};

use crate::candidates::{
    following, is_member, is_set_aside, lower_number, move_all, move_last, number_by_degree,
    set_number,
};
use cg_arena::Near;
use cg_heap::{Heap, Steps};
use cg_kind::{AT_ONCE, Kind, ROOM};
use cg_value::{KindCode, Place};
use std::sync::ledger::Ledger;

/// Where the searched objects are, and where those that look unreachable are set aside.
#[derive(Clone, Copy)]
struct Search {
    members: Place,
    aside: Place,
}

/// Sets each member's number to its count. Returns how many then have the number 0.
fn copy<B: Kind>(heap: &mut Heap<B>, members: Place) -> u64
    requires members { IsSplitPlace members }
    requires ready { IsReadyView members (view_of heap.old) }
    ensures same { IsSameButNumbers (view_of heap.old) (view_of heap.new) }
    ensures copied { (o : ℕ) → Includes ((view_of heap.old).listed members) o
        → (view_of heap.new).number o ≡ (view_of heap.old).degree o }
    ensures unheld { result ≡ zeros_at members (view_of heap.new) }
{
    // Bounds the count, so that it fits in 64 bits.
    let _all = heap.size(members);
    let mut unheld = 0;
    let mut near = Near::default();
    let mut cursor = heap.first_near(members, &mut near);
    'objects: while let Some(object) = cursor {
        number_by_degree(heap, object, near);
        if heap.head_near(object, near).number == 0 {
            unheld += 1;
        }
        cursor = following(heap, object, &mut near);
    }
    unheld
}

/// The end of the run of objects equal to the one at `from`, as in a list that holds one object
/// many times.
#[inline(never)]
fn end_of_run(objects: &[u64], from: usize) -> usize
    requires { from < length objects.now }
    ensures run { take result objects.now ≡ take from objects.now ++ replicate (result - from)
        (slice_index objects.now from) }
    ensures behind { from < result }
    ensures within { result ≤ length objects.now }
{
    let object = objects[from];
    let mut end = from + 1;
    'run: while end < objects.len() && objects[end] == object {
        end += 1;
    }
    end
}

/// Lowers the number of each member among these objects by its number of occurrences. A run of
/// one object is looked up once; the object at `next` shows whether there is a run. `unheld`
/// counts those that have the number 0.
#[inline(always)]
fn lower_each<B: Kind>(heap: &mut Heap<B>, objects: &[u64], members: Place, unheld: &mut u64)
    requires members { IsSplitPlace members }
    requires live { (o : ℕ) → Includes objects.now o → IsTrue ((view_of heap.old).live o) }
    requires room { (o : ℕ) → Includes ((view_of heap.old).listed members) o
        → occurrences o objects.now ≤ (view_of heap.old).number o }
    requires few { HasFewMembers members (view_of heap.old) }
    requires unheld { unheld.old ≡ zeros_at members (view_of heap.old) }
    ensures lowered { Lowered members objects.now (view_of heap.old) (view_of heap.new) }
    ensures unheld { unheld.new ≡ zeros_at members (view_of heap.new) }
{
    let mut next = 1;
    'runs: while next < objects.len() {
        let object = objects[next - 1];
        if object == objects[next] {
            let end = end_of_run(objects, next - 1);
            *unheld += lower_number(heap, object, end + 1 - next, members);
            next = end + 1;
        } else {
            *unheld += lower_number(heap, object, 1, members);
            next += 1;
        }
    }
    if next <= objects.len() {
        *unheld += lower_number(heap, objects[next - 1], 1, members);
    }
}

/// Lowers the numbers of members by one for each reference of an object's entries; takes a hint
/// of its slot. `found` is a buffer for the references; `unheld` counts as in `lower_each`.
fn lower_all<B: Kind, L: Ledger>(
    heap: &mut Heap<B>,
    object: u64,
    near: Near,
    found: &mut [u64],
    members: Place,
    unheld: &mut u64,
    steps: &mut Steps<L>,
)
    requires members { IsSplitPlace members }
    requires ready { IsReadyView members (view_of heap.old) }
    requires live { IsTrue ((view_of heap.old).live object) }
    requires room { (o : ℕ) → Includes ((view_of heap.old).listed members) o
        → occurrences o (references ((view_of heap.old).entries object)) ≤ (view_of heap.old).number
        o }
    requires space { ROOM ≤ length found.old }
    requires few { HasFewMembers members (view_of heap.old) }
    requires unheld { unheld.old ≡ zeros_at members (view_of heap.old) }
    ensures lowered { Lowered members (references ((view_of heap.old).entries object))
        (view_of heap.old) (view_of heap.new) }
    ensures unheld { unheld.new ≡ zeros_at members (view_of heap.new) }
    ensures looks { steps.new ≡ steps.old + length ((view_of heap.old).entries object) }
    ensures space { length found.new ≡ length found.old }
{
    let mut from = 0;
    'entries: loop {
        let noted = heap.note_near(object, from, near, found, steps);
        lower_each(heap, &found[..noted.references], members, unheld);
        if noted.next - from < AT_ONCE {
            return;
        }
        from = noted.next;
    }
}

/// Lowers the numbers of members by one for each reference of the members' entries. `unheld` of
/// them have the number 0 before; returns how many have it then.
fn subtract<B: Kind, L: Ledger>(
    heap: &mut Heap<B>,
    members: Place,
    unheld: u64,
    steps: &mut Steps<L>,
) -> u64
    requires members { IsSplitPlace members }
    requires ready { IsReadyView members (view_of heap.old) }
    requires room { (o : ℕ) → Includes ((view_of heap.old).listed members) o
        → occurrences o (held_by (view_of heap.old) ((view_of heap.old).listed members)) ≤
        (view_of heap.old).number o }
    requires unheld { unheld ≡ zeros_at members (view_of heap.old) }
    ensures lowered { Lowered members (held_by (view_of heap.old) ((view_of heap.old).listed
        members)) (view_of heap.old) (view_of heap.new) }
    ensures unheld { result ≡ zeros_at members (view_of heap.new) }
    ensures looks { steps.new ≡ steps.old + entries_in (view_of heap.old) ((view_of heap.old).listed
        members) }
{
    // Bounds the count, so that it fits in 64 bits.
    let _all = heap.size(members);
    let mut unheld = unheld;
    let mut found = [0; ROOM];
    let mut near = Near::default();
    let mut cursor = heap.first_near(members, &mut near);
    'objects: while let Some(object) = cursor {
        lower_all(heap, object, near, &mut found, members, &mut unheld, steps);
        cursor = following(heap, object, &mut near);
    }
    unheld
}

/// The first of these objects with number 0: its position and its place. It writes nothing, so the
/// heap's slot table is read once for all of them.
#[inline(always)]
fn first_to_wake<B: Kind>(heap: &Heap<B>, objects: &[u64]) -> Option<(usize, Place)>
    requires { (o : ℕ) → Includes objects.now o → IsTrue ((view_of heap.now).live o) }
    ensures first { IfSome result (λ r. IsFirstZero (view_of heap.now) objects.now r.0) }
    ensures place { IfSome result (λ r. r.1 ≡ place_of heap.now (slice_index objects.now r.0)) }
    ensures none { result ≡ None → (o : ℕ) → Includes objects.now o → (view_of heap.now).number o ≢
        0 }
{
    let mut at = 0;
    'objects: while at < objects.len() {
        let head = heap.head_of(objects[at]);
        if head.number == 0 {
            return Some((at, head.place));
        }
        at += 1;
    }
    None
}

/// The last of these objects that has the number 0, as `first_to_wake` has the first.
#[inline(always)]
fn last_to_wake<B: Kind>(heap: &Heap<B>, objects: &[u64]) -> Option<(usize, Place)>
    requires { (o : ℕ) → Includes objects.now o → IsTrue ((view_of heap.now).live o) }
    ensures last { IfSome result (λ r. IsLastZero (view_of heap.now) objects.now r.0) }
    ensures place { IfSome result (λ r. r.1 ≡ place_of heap.now (slice_index objects.now r.0)) }
    ensures none { result ≡ None → (o : ℕ) → Includes objects.now o → (view_of heap.now).number o ≢
        0 }
{
    let mut end = objects.len();
    'objects: while end > 0 {
        let head = heap.head_of(objects[end - 1]);
        if head.number == 0 {
            return Some((end - 1, head.place));
        }
        end -= 1;
    }
    None
}

/// An object with the number 0 in this place gets the number 1, if it is a member, and where it
/// was set aside, the last place in the list, so that the walk comes to it. One less is then left
/// of those with the number 0.
#[inline(never)]
fn wake<B: Kind>(heap: &mut Heap<B>, object: u64, place: Place, search: Search, left: &mut u64)
    requires search { IsSearch search }
    requires live { IsTrue ((view_of heap.old).live object) }
    requires stands { place ≡ place_of heap.old object }
    requires zero { (view_of heap.old).number object ≡ 0 }
    requires left { zeros search (view_of heap.old) ≤ left.old }
    ensures woken { Woken search (object ∷ []) (view_of heap.old) (view_of heap.new) }
    ensures left { zeros search (view_of heap.new) ≤ left.new }
{
    if is_set_aside(heap, object, place, search.aside) {
        move_last(heap, object, Near::default(), search.members);
        set_number(heap, object, 1);
        *left -= 1;
    } else if is_member(heap, object, place, search.members) {
        set_number(heap, object, 1);
        *left -= 1;
    }
}

/// Takes back each of these objects.
#[inline(always)]
fn take_back_each<B: Kind>(heap: &mut Heap<B>, objects: &[u64], search: Search, left: &mut u64)
    requires search { IsSearch search }
    requires live { (o : ℕ) → Includes objects.now o → IsTrue ((view_of heap.old).live o) }
    requires left { zeros search (view_of heap.old) ≤ left.old }
    ensures woken { Woken search objects.now (view_of heap.old) (view_of heap.new) }
    ensures left { zeros search (view_of heap.new) ≤ left.new }
{
    let mut from = 0;
    'zeros: while let Some((at, place)) = first_to_wake(heap, &objects[from..]) {
        wake(heap, objects[from + at], place, search, left);
        from += at + 1;
    }
}

/// Each of these objects is taken back, the last of them first.
#[inline(always)]
fn take_back_each_from_last<B: Kind>(
    heap: &mut Heap<B>,
    objects: &[u64],
    search: Search,
    left: &mut u64,
)
    requires search { IsSearch search }
    requires live { (o : ℕ) → Includes objects.now o → IsTrue ((view_of heap.old).live o) }
    requires left { zeros search (view_of heap.old) ≤ left.old }
    ensures woken { Woken search objects.now (view_of heap.old) (view_of heap.new) }
    ensures left { zeros search (view_of heap.new) ≤ left.new }
{
    let mut end = objects.len();
    'zeros: while let Some((at, place)) = last_to_wake(heap, &objects[..end]) {
        wake(heap, objects[at], place, search, left);
        end = at;
    }
}

/// What the entries of an object that is near refer to is taken back, as far as something is left
/// to be taken back. References are written to `found` on the way. The order is CPython's, and no
/// contract states it: `tp_traverse` of a list or a tuple goes from the last item to the first, and
/// that of any other kind from the first entry to the last.
#[inline(always)]
fn take_back_all<B: Kind, L: Ledger>(
    heap: &mut Heap<B>,
    object: u64,
    code: KindCode,
    near: Near,
    found: &mut [u64],
    search: Search,
    left: &mut u64,
    steps: &mut Steps<L>,
)
    requires search { IsSearch search }
    requires ready { IsReadyView search.members (view_of heap.old) }
    requires live { IsTrue ((view_of heap.old).live object) }
    requires space { ROOM ≤ length found.old }
    requires left { zeros search (view_of heap.old) ≤ left.old }
    ensures woken { Woken search (references ((view_of heap.old).entries object)) (view_of heap.old)
        (view_of heap.new) }
    ensures left { zeros search (view_of heap.new) ≤ left.new }
    ensures later { steps.old ≤ steps.new }
    ensures looks { steps.new ≤ steps.old + length ((view_of heap.old).entries object) }
    ensures space { length found.new ≡ length found.old }
{
    match code {
        KindCode::List => take_back_from_last(heap, object, near, found, search, left, steps),
        KindCode::Tuple => take_back_from_last(heap, object, near, found, search, left, steps),
        _ => take_back_from_first(heap, object, near, found, search, left, steps),
    }
}

/// The same, from the last entry to the first. The entries are looked at in blocks that are counted
/// from the first, so that none is looked at twice; mostly there is one.
fn take_back_from_last<B: Kind, L: Ledger>(
    heap: &mut Heap<B>,
    object: u64,
    near: Near,
    found: &mut [u64],
    search: Search,
    left: &mut u64,
    steps: &mut Steps<L>,
)
    requires search { IsSearch search }
    requires ready { IsReadyView search.members (view_of heap.old) }
    requires live { IsTrue ((view_of heap.old).live object) }
    requires space { ROOM ≤ length found.old }
    requires left { zeros search (view_of heap.old) ≤ left.old }
    ensures woken { Woken search (references ((view_of heap.old).entries object)) (view_of heap.old)
        (view_of heap.new) }
    ensures left { zeros search (view_of heap.new) ≤ left.new }
    ensures later { steps.old ≤ steps.new }
    ensures looks { steps.new ≤ steps.old + length ((view_of heap.old).entries object) }
    ensures space { length found.new ≡ length found.old }
{
    let first = heap.note_near(object, 0, near, found, steps);
    if first.next < AT_ONCE {
        take_back_each_from_last(heap, &found[..first.references], search, left);
    } else {
        take_back_behind(heap, object, near, search, left, steps);
        take_back_each_from_last(heap, &found[..first.references], search, left);
    }
}

/// The same for the entries behind the first block.
#[inline(never)]
fn take_back_behind<B: Kind, L: Ledger>(
    heap: &mut Heap<B>,
    object: u64,
    near: Near,
    search: Search,
    left: &mut u64,
    steps: &mut Steps<L>,
)
    requires search { IsSearch search }
    requires ready { IsReadyView search.members (view_of heap.old) }
    requires live { IsTrue ((view_of heap.old).live object) }
    requires left { zeros search (view_of heap.old) ≤ left.old }
    requires long { AT_ONCE ≤ length ((view_of heap.old).entries object) }
    ensures woken { Woken search (references (drop AT_ONCE ((view_of heap.old).entries object)))
        (view_of heap.old) (view_of heap.new) }
    ensures left { zeros search (view_of heap.new) ≤ left.new }
    ensures later { steps.old ≤ steps.new }
    ensures looks { steps.new + AT_ONCE ≤ steps.old + length ((view_of heap.old).entries object) }
{
    let mut found = [0; ROOM];
    let mut blocks = heap.len_near(object, near) / AT_ONCE + 1;
    'entries: while *left > 0 && blocks > 1 {
        blocks -= 1;
        let noted = heap.note_near(object, blocks * AT_ONCE, near, &mut found, steps);
        take_back_each_from_last(heap, &found[..noted.references], search, left);
    }
}

/// The same, from the first entry to the last.
fn take_back_from_first<B: Kind, L: Ledger>(
    heap: &mut Heap<B>,
    object: u64,
    near: Near,
    found: &mut [u64],
    search: Search,
    left: &mut u64,
    steps: &mut Steps<L>,
)
    requires search { IsSearch search }
    requires ready { IsReadyView search.members (view_of heap.old) }
    requires live { IsTrue ((view_of heap.old).live object) }
    requires space { ROOM ≤ length found.old }
    requires left { zeros search (view_of heap.old) ≤ left.old }
    ensures woken { Woken search (references ((view_of heap.old).entries object)) (view_of heap.old)
        (view_of heap.new) }
    ensures left { zeros search (view_of heap.new) ≤ left.new }
    ensures later { steps.old ≤ steps.new }
    ensures looks { steps.new ≤ steps.old + length ((view_of heap.old).entries object) }
    ensures space { length found.new ≡ length found.old }
{
    let mut from = 0;
    'entries: while *left > 0 {
        let noted = heap.note_near(object, from, near, found, steps);
        take_back_each(heap, &found[..noted.references], search, left);
        if noted.next - from < AT_ONCE {
            return;
        }
        from = noted.next;
    }
}

/// The members with a number and what they lead to stay; the others are set aside. At most
/// `left` have number 0: at 0 all have been reached, and no more references are looked at.
fn set_aside<B: Kind, L: Ledger>(
    heap: &mut Heap<B>,
    search: Search,
    left: u64,
    steps: &mut Steps<L>,
)
    requires search { IsSearch search }
    requires ready { IsReadyView search.members (view_of heap.old) }
    requires alone { IsNowhereElse search.members (view_of heap.old) }
    requires none { (view_of heap.old).listed search.aside ≡ [] }
    requires left { zeros search (view_of heap.old) ≤ left }
    ensures parted { IsParted search (view_of heap.old) (view_of heap.new) }
    ensures later { steps.old ≤ steps.new }
    ensures looks { steps.new ≤ steps.old + entries_in (view_of heap.old) ((view_of heap.old).listed
        search.members) }
{
    let mut left = left;
    let mut found = [0; ROOM];
    let mut near = Near::default();
    let mut cursor = heap.first_near(search.members, &mut near);
    'objects: while left > 0 {
        let Some(object) = cursor else { return };
        let here = near;
        let head = heap.head_near(object, here);
        if head.number == 0 {
            cursor = following(heap, object, &mut near);
            move_last(heap, object, here, search.aside);
        } else {
            take_back_all(
                heap, object, head.code, here, &mut found, search, &mut left, steps,
            );
            cursor = following(heap, object, &mut near);
        }
    }
}

/// Exchanges the candidates, which have numbers, with those set aside, which have none.
fn exchange<B: Kind>(heap: &mut Heap<B>)
    requires { IsTwofold (view_of heap.old) }
    ensures { IsExchanged (view_of heap.old) (view_of heap.new) }
{
    move_all(heap, Place::Back, Place::Cand);
    let mut near = Near::default();
    let mut cursor = heap.first_near(Place::Cand, &mut near);
    'numbered: while let Some(object) = cursor {
        if heap.head_near(object, near).number == 0 {
            return;
        }
        move_last(heap, object, near, Place::Back);
        cursor = heap.first_near(Place::Cand, &mut near);
    }
}

/// The members with a number, and what they lead to, are kept; the others become the candidates.
/// `unheld` have the number 0.
fn take_out<B: Kind, L: Ledger>(
    heap: &mut Heap<B>,
    search: Search,
    unheld: u64,
    steps: &mut Steps<L>,
)
    requires search { IsSearch search }
    requires ready { IsReadyView search.members (view_of heap.old) }
    requires alone { IsNowhereElse search.members (view_of heap.old) }
    requires none { (view_of heap.old).listed search.aside ≡ [] }
    requires unheld { unheld ≡ zeros_at search.members (view_of heap.old) }
    ensures sifted { IsSifted search.members (view_of heap.old) (view_of heap.new) }
    ensures later { steps.old ≤ steps.new }
    ensures looks { steps.new ≤ steps.old + entries_in (view_of heap.old) ((view_of heap.old).listed
        search.members) }
{
    if unheld < heap.size(search.members) {
        set_aside(heap, search, unheld, steps);
        match search.members {
            Place::Cand => exchange(heap),
            _ => {}
        }
    } else {
        match search.members {
            Place::Cand => {}
            _ => move_all(heap, search.members, search.aside),
        }
    }
}

/// The members that nothing outside leads to become the candidates; the others are kept.
fn sift<B: Kind, L: Ledger>(heap: &mut Heap<B>, members: Place, aside: Place, steps: &mut Steps<L>)
    requires members { IsSplitPlace members }
    requires aside { aside ≡ aside_place members }
    requires none { list_at heap.old aside ≡ [] }
    ensures sifted { IsSieved members (view_of heap.old) (view_of heap.new) }
    ensures listed { IsListed heap.new }
    ensures least { steps.old + entries_in (view_of heap.old) (list_at heap.old members) ≤
        steps.new }
    ensures most { steps.new ≤ steps.old + 2 * entries_in (view_of heap.old)
        (list_at heap.old members) }
{
    heap.sound();
    let unheld = copy(heap, members);
    let unheld = subtract(heap, members, unheld, steps);
    take_out(heap, Search { members, aside }, unheld, steps);
    heap.sound();
}

/// Makes the unreachable objects of a place the candidates; the reachable ones stay in that place,
/// or go to `Back` if they were candidates. The order in both lists is unspecified.
///
/// An object of the place is reachable if a path of objects of the place leads to it from one that
/// is held more often than entries of the place's objects hold it: by a name, by an object of
/// another place, or from outside. (Developer guide, "Identifying reference cycles".)
///
/// The place is a generation, 0 to 2, with no candidates present, or `Cand`; `Back` is empty. The
/// counter rises by at least the number of entries of these objects, and by at most twice that
/// number. It does not allocate.
pub fn split<B: Kind, L: Ledger>(heap: &mut Heap<B>, from: Place, steps: &mut Steps<L>)
    requires from { IsSplitPlace from }
    requires back { list_at heap.old Place.Back ≡ [] }
    requires candidates { from ≢ Place.Cand → list_at heap.old Place.Cand ≡ [] }

    ensures unreachable { (o : ℕ) → Includes (list_at heap.new Place.Cand) o ↔ IsUnreachable
        heap.old from o }
    ensures reachable { (o : ℕ) → Includes (list_at heap.new (kept_place from)) o ↔ IsReachable
        heap.old from o }

    // Nothing else changes except the collector's numbers.
    ensures others { (p : Place) → p ≢ Place.Cand → p ≢ kept_place from → list_at heap.new p
        ≡ list_at heap.old p }
    ensures same { IsSameButPlaces heap.old heap.new }
    ensures listed { IsListed heap.new }

    ensures least { steps.old + entry_number_at heap.old from ≤ steps.new }
    ensures most { steps.new ≤ steps.old + 2 * entry_number_at heap.old from }
{
    heap.sound();
    match from {
        Place::Cand => sift(heap, from, Place::Back, steps),
        _ => sift(heap, from, Place::Cand, steps),
    }
}
