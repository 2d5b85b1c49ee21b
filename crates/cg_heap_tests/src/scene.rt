//! The scene of the tests over a heap: the heap, and the holds that a test has.
ghost use Rattle.std.specs.Prelude.{◌≡◌, ◌↔◌, ◌<◌, ◌≤◌, ◌+◌, ◌∷◌, [], ℕ, length, map, replicate, slice_get, IfSome, IsTrue, Some, None};
ghost use Rattle.std.specs.FinMap as fin;
ghost use Rattle.cg_value.specs.declared.KindCode.TheVariants as code;
ghost use Rattle.cg_value.specs.declared.Val.{Val};
ghost use Rattle.cg_graph.specs.Holdings.{occurrences};
ghost use Rattle.cg_graph.specs.Value.{references_of_value, entry_references, item};
ghost use Rattle.cg_graph.specs.Store.{IsLive, HasCode, count_of};
ghost use Rattle.cg_arena.specs.Nodes.{IsPlace};
ghost use Rattle.cg_kind.specs.Calls.{IsParts};
ghost use Rattle.cg_heap.specs.Boxes.{six_kinds};
ghost use Rattle.cg_heap.specs.Keeps.{HasClass};
ghost use Rattle.cg_heap.specs.Weak.{HasReferent, IsInNoRow};
ghost use Rattle.cg_heap.specs.Calls.{CanPutIn, CanTake, HasFewHolds, IsLiveValue};
ghost use Rattle.cg_inspect.specs.Inspection.{IsIdle};

use cg_heap::{Heap, HeapFault};
use cg_kind::Kind;
use cg_value::{Entry, KindCode, Place, Val};
use std::alloc::{AllocError, Global};
use std::marker::Model;
use std::process::Abort;

/// The most holds and objects, far below the heap's limits.
const MOST_GIVEN: u64 = 2_000_000_000;

/// A heap and the holds of a test. At most `count` holds and objects were given.
///
/// What the heap requires and the test does not know is asserted at run time: each call panics if
/// its object does not live or is of another kind.
#[derive(Drop)]
pub struct Scene<B: Kind> {
    pub heap: Heap<B>,
    held: Vec<u64>,
    count: u64,
    names: u32,
}

impl<B: Kind> Model for Scene<B> {
    ghost use Rattle.std.specs.Prelude.{◌≡◌, ℕ, ◌+◌, ◌≤◌, length};
    ghost use Rattle.cg_graph.specs.Holdings.{occurrences};
    ghost use Rattle.cg_graph.specs.Store.{Store, outside_of};
    ghost use Rattle.cg_heap.specs.Codes.{store_code};
    ghost use Rattle.cg_heap.specs.Keeps.{outside_total};

    ghost Value = { Store };

    ghost coded = { store_code };

    ghost view = { λ a. a.heap };

    ghost invariant = { λ a. ((s : ℕ) → occurrences s a.held.items ≤ outside_of a.heap s)
        × (outside_total a.heap ≤ a.count) × (a.heap.last ≤ a.count + 1)
        × (length a.heap.names ≡ a.names) };
}

/// The position of a hold.
fn place_of_hold(held: &[u64], object: u64) -> Option<usize>
    ensures { IfSome result (λ i. slice_get held.now i ≡ Some object) }
{
    held.iter().position(|hold| *hold == object)
}

/// One more hold for each reference of an entry.
fn keep(held: &mut Vec<u64>, entry: Entry) -> Result<(), AllocError>
    ensures { (s : ℕ) → occurrences s held.new.items ≤ occurrences s held.old.items + occurrences s
        (entry_references entry) }
{
    keep_value(held, entry.val)?;
    keep_value(held, entry.key)?;
    Ok(())
}

fn keep_value(held: &mut Vec<u64>, val: Val) -> Result<(), AllocError>
    ensures { (s : ℕ) → occurrences s held.new.items ≤ occurrences s held.old.items + occurrences s
        (references_of_value (Some val)) }
{
    if let Val::Ref(serial) = val {
        held.push(serial)?;
    }
    Ok(())
}

/// Panics if the places that collections use are not empty.
pub fn assert_idle<B: Kind>(rt: &impl Abort, heap: &Heap<B>)
    ensures { IsIdle heap.now }
{
    assert!(rt; heap.size(Place::Cand) == 0);
    assert!(rt; heap.size(Place::Seen) == 0);
    assert!(rt; heap.size(Place::Back) == 0);
    assert!(rt; heap.size(Place::Legacy) == 0);
    assert!(rt; heap.size(Place::Pend) == 0);
}

/// Panics if the value refers to an object that does not live.
fn assert_value<B: Kind>(rt: &impl Abort, heap: &Heap<B>, val: Val)
    ensures { IsLiveValue heap.now val }
{
    if let Val::Ref(object) = val {
        assert!(rt; heap.has(object));
    }
}

/// Panics if the referent of a new object does not live.
fn assert_referent<B: Kind>(rt: &impl Abort, heap: &Heap<B>, referent: Option<u64>)
    ensures { IfSome referent (λ s. IsLive heap.now s) }
{
    if let Some(object) = referent {
        assert!(rt; heap.has(object));
    }
}

/// Panics if the object is no list.
fn assert_list<B: Kind>(rt: &impl Abort, heap: &Heap<B>, object: u64)
    ensures { HasCode heap.now object code.List }
{
    assert!(rt; heap.has(object));
    match heap.kind_of(object) {
        KindCode::List => {}
        _ => panic!(rt; "#{object} is no list"),
    }
}

/// Panics if the object is held.
fn assert_unheld<B: Kind>(rt: &impl Abort, heap: &Heap<B>, object: u64)
    requires { IsLive heap.now object }
    ensures { count_of heap.now object ≡ 0 }
{
    assert!(rt; heap.refs(object) == 0);
}

fn is_weak(kind: KindCode) -> bool
    ensures { IsTrue result ↔ (kind ≡ code.Weak) }
{
    match kind {
        KindCode::Weak => true,
        _ => false,
    }
}

/// Panics if the object is no dictionary and no instance.
fn assert_pairs<B: Kind>(rt: &impl Abort, heap: &Heap<B>, object: u64)
    ensures put { (key : Val) → CanPutIn heap.now object key }
    ensures take { CanTake heap.now object }
{
    assert!(rt; heap.has(object));
    match heap.kind_of(object) {
        KindCode::Dict => {}
        KindCode::Inst => {}
        _ => panic!(rt; "#{object} has no pairs"),
    }
}

/// Panics if the object is a weak reference, or in a row.
fn assert_in_no_row<B: Kind>(rt: &impl Abort, heap: &Heap<B>, object: u64)
    requires { IsLive heap.now object }
    ensures { IsInNoRow object heap.now.rows }
{
    heap.sound();
    let code = heap.kind_of(object);
    if is_weak(code) {
        panic!(rt; "#{object} is a weak reference");
    }
    match heap.newest_of(object) {
        Some(weak) => panic!(rt; "#{weak} refers to #{object}"),
        None => match heap.newest_waiting(object) {
            Some(weak) => panic!(rt; "#{weak} waits with #{object}"),
            None => {}
        },
    }
}

impl<B: Kind> Scene<B> {
    /// A heap over these kinds, with `names` names.
    pub fn new(alloc: Global, kinds: Vec<B>, names: u32) -> Result<Self, AllocError>
        requires kinds { map B.kind kinds.items ≡ six_kinds }
        requires empty { map B.bodies kinds.items ≡ replicate 6 fin.empty }
        requires names { names < 1073741824 }
    {
        let heap = Heap::new(alloc, kinds, names)?;
        Ok(Scene {
            heap,
            held: Vec::new(alloc),
            count: 0,
            names,
        })
    }

    /// The number of names.
    pub fn names(&self) -> u32
        ensures { result ≡ length self.now.names }
    {
        self.names
    }

    /// The heap alone; the test's holds are no longer known.
    pub fn into_heap(self, rt: &impl Abort) -> Heap<B>
        ensures few { HasFewHolds result }
        ensures last { result.last < 9223372036854775808 }
        ensures names { result.names ≡ self.names }
    {
        assert!(rt; self.count < MOST_GIVEN);
        self.heap
    }

    /// The heap keeps the test's holds, which are never given up.
    pub fn forget_holds(&mut self) {
        self.held.clear();
    }

    /// Makes an object without entries, and holds it.
    pub fn make(
        &mut self,
        rt: &impl Abort,
        code: KindCode,
        class: Option<u32>,
        referent: Option<u64>,
    ) -> Result<u64, HeapFault>
        requires class { HasClass code class }
        requires referent { HasReferent code referent }
    {
        assert!(rt; self.count < MOST_GIVEN);
        assert_referent(rt, &self.heap, referent);
        self.heap.sound();
        let made = self.heap.make(code, class, &[], referent)?;
        self.count += 1;
        match self.held.push(made) {
            Ok(()) => Ok(made),
            Err(_) => Err(HeapFault::OutOfMemory),
        }
    }

    /// Makes an object of one item, and holds it.
    pub fn make_of(
        &mut self,
        rt: &impl Abort,
        code: KindCode,
        class: Option<u32>,
        val: Val,
    ) -> Result<u64, HeapFault>
        requires class { HasClass code class }
        requires referent { HasReferent code None }
        requires parts { IsParts code (item val ∷ []) }
    {
        assert!(rt; self.count < MOST_GIVEN);
        assert_value(rt, &self.heap, val);
        self.heap.sound();
        let parts = [Entry {
            key: Val::None,
            val,
        }];
        let made = self.heap.make(code, class, &parts, None)?;
        self.count += 1;
        match self.held.push(made) {
            Ok(()) => Ok(made),
            Err(_) => Err(HeapFault::OutOfMemory),
        }
    }

    /// Makes a list without items.
    pub fn list(&mut self, rt: &impl Abort) -> Result<u64, HeapFault> {
        self.make(rt, KindCode::List, None, None)
    }

    /// Makes a dictionary.
    pub fn dict(&mut self, rt: &impl Abort) -> Result<u64, HeapFault> {
        self.make(rt, KindCode::Dict, None, None)
    }

    /// Makes a list of one item.
    pub fn list_of(&mut self, rt: &impl Abort, val: Val) -> Result<u64, HeapFault> {
        self.make_of(rt, KindCode::List, None, val)
    }

    /// Gives up a hold. Answers whether the object is then unheld.
    pub fn release(&mut self, rt: &impl Abort, object: u64) -> bool {
        let Some(i) = place_of_hold(&self.held, object) else {
            panic!(rt; "#{object} is not held");
        };
        self.held.remove(i);
        self.heap.unhold(object)
    }

    /// Gives up all holds except some.
    pub fn release_others(
        &mut self,
        rt: &impl Abort,
        alloc: Global,
        kept: &[u64],
    ) -> Result<(), AllocError> {
        let held = Vec::from_slice(alloc, &self.held)?;
        for object in held.iter() {
            if !kept.contains(object) {
                self.release(rt, *object);
            }
        }
        Ok(())
    }

    /// Makes lists with these items.
    pub fn build_lists(
        &mut self,
        rt: &impl Abort,
        count: u32,
        links: &[(u64, u64)],
    ) -> Result<(), HeapFault> {
        for _ in 0..count {
            self.list(rt)?;
        }
        for (list, object) in links {
            self.append(rt, *list, Val::Ref(*object))?;
        }
        Ok(())
    }

    /// Appends a value to a list.
    pub fn append(&mut self, rt: &impl Abort, list: u64, val: Val) -> Result<(), HeapFault> {
        assert!(rt; list != 1);
        assert_list(rt, &self.heap, list);
        assert_value(rt, &self.heap, val);
        self.heap.append(list, val)
    }

    /// Puts a value under a key, and answers the old one.
    pub fn put(
        &mut self,
        rt: &impl Abort,
        object: u64,
        key: Val,
        val: Val,
    ) -> Result<Option<Val>, HeapFault> {
        assert!(rt; object != 1 && self.count < MOST_GIVEN);
        assert_pairs(rt, &self.heap, object);
        assert_value(rt, &self.heap, key);
        assert_value(rt, &self.heap, val);
        let replaced = self.heap.put(object, key, val)?;
        self.count += 1;
        Ok(replaced)
    }

    /// Removes the entry at a position. Its references are then held.
    pub fn take(&mut self, rt: &impl Abort, object: u64, i: usize) -> Result<Entry, AllocError> {
        assert!(rt; self.count < MOST_GIVEN);
        assert_pairs(rt, &self.heap, object);
        assert!(rt; i < self.heap.len(object));
        self.heap.sound();
        let entry = self.heap.take(object, i);
        self.count += 2;
        keep(&mut self.held, entry)?;
        Ok(entry)
    }

    /// Removes the entry under a key, if any. Its references are then held.
    pub fn take_key(
        &mut self,
        rt: &impl Abort,
        object: u64,
        key: Val,
    ) -> Result<Option<Entry>, AllocError> {
        assert!(rt; self.count < MOST_GIVEN);
        assert_pairs(rt, &self.heap, object);
        self.heap.sound();
        match self.heap.take_key(object, key) {
            Some(entry) => {
                self.count += 2;
                keep(&mut self.held, entry)?;
                Ok(Some(entry))
            }
            None => Ok(None),
        }
    }

    /// Removes the last entry, if any. Its references are then held.
    pub fn detach(&mut self, rt: &impl Abort, object: u64) -> Result<Option<Entry>, AllocError> {
        assert!(rt; self.count < MOST_GIVEN && self.heap.has(object));
        self.heap.sound();
        match self.heap.detach(object) {
            Some(entry) => {
                self.count += 2;
                keep(&mut self.held, entry)?;
                Ok(Some(entry))
            }
            None => Ok(None),
        }
    }

    /// Frees an object. Panics if it is held, has entries, or is in a row.
    pub fn free(&mut self, rt: &impl Abort, object: u64) {
        assert!(rt; self.heap.has(object));
        assert!(rt; self.heap.len(object) == 0);
        assert_unheld(rt, &self.heap, object);
        assert_in_no_row(rt, &self.heap, object);
        self.heap.free(object);
    }

    /// Moves the object to the end of a place.
    pub fn move_to(&mut self, rt: &impl Abort, object: u64, place: Place)
        requires { IsPlace place }
    {
        assert!(rt; self.heap.has(object));
        self.heap.move_to(object, place);
    }

    /// Gives a name a value. The heap keeps the hold of its old value.
    pub fn bind(&mut self, rt: &impl Abort, name: u32, val: Val) {
        assert!(rt; name < self.names && self.count < MOST_GIVEN);
        assert_value(rt, &self.heap, val);
        self.heap.bind(name, val);
        self.count += 1;
    }

    /// Removes the value of a name. The heap keeps its hold.
    pub fn unbind(&mut self, rt: &impl Abort, name: u32) {
        assert!(rt; name < self.names && self.count < MOST_GIVEN);
        self.heap.unbind(name);
        self.count += 1;
    }

    /// The bound name with the greatest number.
    pub fn greatest_name(&mut self) -> Option<u32> {
        self.heap.greatest_name()
    }

    /// Appends an object to the garbage list, which is empty.
    pub fn save(&mut self, rt: &impl Abort, object: u64) {
        assert!(rt; object != 1 && self.heap.has(object));
        self.heap.sound();
        assert!(rt; self.heap.len(1) == 0);
        self.heap.save(object);
    }

    /// Clears a weak reference.
    pub fn clear_weak(&mut self, rt: &impl Abort, weak: u64, wait: bool) {
        assert!(rt; self.heap.has(weak));
        assert!(rt; self.heap.referent_of(weak).is_some());
        self.heap.clear_weak(weak, wait);
    }

    /// The newest weak reference that waits with an object stops waiting.
    pub fn forget_newest(&mut self, rt: &impl Abort, object: u64) -> Option<u64> {
        assert!(rt; self.heap.has(object));
        let weak = self.heap.newest_waiting(object)?;
        self.heap.sound();
        self.heap.forget_weak(weak);
        Some(weak)
    }
}
