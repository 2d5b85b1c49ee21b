//! Which objects are held by a root.
ghost use Rattle.std.specs.Prelude.{◌≡◌, ◌+◌, ◌≤◌, ◌<◌, ◌∷◌, ◌↔◌, [], ℕ, Some, IsTrue, IfOk, OnOk, ◌==◌, if◌then◌else◌};
ghost use Rattle.cg_graph.specs.Member.{Includes};
ghost use Rattle.cg_graph.specs.Holdings.{occurrences};
ghost use Rattle.cg_graph.specs.Object.{serials};
ghost use Rattle.cg_graph.specs.Store.{IsLive, count_of, objects_of};
ghost use Rattle.cg_inspect.specs.Inspection.{HeldElse, holdings_but_entries, entry_number_in_all};
ghost use Rattle.cg_inspect.specs.Numbers.{AreNumbers, AreLowered, number_of};
ghost use Rattle.cg_inspect.specs.Findings.{RiseBy};
ghost use Rattle.cg_search.specs.Walks.{IsStart};

use crate::forwards::referents;
use crate::search::{Found, find};
use cg_heap::{Heap, Steps};
use cg_kind::Kind;
use cg_serial::{SerialHashing, serial_hashing};
use indexmap::IndexMap;
use std::alloc::{AllocError, Global};
use std::sync::ledger::Ledger;

/// A number for each object.
type Numbers = IndexMap<u64, u64, SerialHashing>;

/// Gives the object a number.
fn set_number(numbers: &mut Numbers, object: u64, number: u64) -> Result<(), AllocError>
    ensures { OnOk result ((s : ℕ) → number_of numbers.new.entries s
        ≡ (if object == s then Some number else number_of numbers.old.entries s)) }
{
    numbers.insert(object, number)?;
    Ok(())
}

/// The in-degree of each of these live objects.
fn in_degrees<B: Kind>(
    alloc: Global,
    heap: &Heap<B>,
    objects: &[u64],
) -> Result<Numbers, AllocError>
    requires { (o : ℕ) → Includes objects.now o → IsLive heap.now o }
    ensures { IfOk result (λ numbers. AreNumbers (count_of heap.now) objects.now numbers.entries) }
{
    let mut numbers = IndexMap::with_hasher(alloc, serial_hashing());
    'objects: for object in objects.iter() {
        set_number(&mut numbers, *object, heap.refs(*object))?;
    }
    Ok(numbers)
}

/// Lowers the number of the object by one.
fn lower(numbers: &mut Numbers, object: u64) -> Result<(), AllocError>
    ensures { OnOk result (AreLowered (object ∷ []) numbers.old.entries numbers.new.entries) }
{
    if let Some(number) = numbers.get(&object) {
        let lowered = number.saturating_sub(1);
        set_number(numbers, object, lowered)?;
    }
    Ok(())
}

/// Each of these references lowers its object's number by one.
fn lower_all(numbers: &mut Numbers, references: &[u64]) -> Result<(), AllocError>
    ensures { OnOk result (AreLowered references.now numbers.old.entries numbers.new.entries) }
{
    'references: for object in references.iter() {
        lower(numbers, *object)?;
    }
    Ok(())
}

/// How often roots hold each live object. `objects` are all the live ones.
fn other_holdings<B: Kind, L: Ledger>(
    alloc: Global,
    heap: &Heap<B>,
    objects: &[u64],
    steps: &mut Steps<L>,
) -> Result<Numbers, AllocError>
    requires { objects.now ≡ serials (objects_of heap.now) }
    ensures looks { steps.new ≤ steps.old + entry_number_in_all heap.now }
    ensures numbers { IfOk result (λ numbers. AreNumbers (holdings_but_entries heap.now) objects.now
        numbers.entries) }
{
    let mut numbers = in_degrees(alloc, heap, objects)?;
    'objects: for object in objects.iter() {
        let references = referents(alloc, heap, *object, steps)?;
        lower_all(&mut numbers, &references)?;
    }
    Ok(numbers)
}

/// Whether a root other than the given name holds the object; the name holds it.
fn is_held_else(numbers: &Numbers, holder: u64, object: u64) -> bool
    ensures { (n : ℕ) → number_of numbers.now.entries holder ≡ Some n
        → IsTrue result ↔ (occurrences holder (object ∷ []) < n) }
{
    let by_the_name = if holder == object { 1 } else { 0 };
    match numbers.get(&holder) {
        Some(number) => *number > by_the_name,
        None => false,
    }
}

/// Which objects are held by a root, and than by the name that is asked about, which holds the
/// object, by rising serial. The objects are all live ones.
pub fn held_else<B: Kind, L: Ledger>(
    alloc: Global,
    heap: &Heap<B>,
    objects: &[u64],
    object: u64,
    steps: &mut Steps<L>,
) -> Result<Found, AllocError>
    requires { objects.now ≡ serials (objects_of heap.now) }
    ensures looks { steps.new ≤ steps.old + entry_number_in_all heap.now }
    ensures found { IfOk result (λ found. IsStart (HeldElse heap.now object) found.entries) }
    ensures order { IfOk result (λ found. RiseBy (λ o. o) found.entries) }
{
    heap.sound();
    let numbers = other_holdings(alloc, heap, objects, steps)?;
    let mut found = IndexMap::with_hasher(alloc, serial_hashing());
    'objects: for holder in objects.iter() {
        if is_held_else(&numbers, *holder, object) {
            find(&mut found, *holder, None)?;
        }
    }
    Ok(found)
}
