//! Finds the slot of a serial's node.
ghost use Rattle.std.specs.Prelude.{◌≡◌, max, ◌≢◌, ◌⊎◌, ℕ, [], ◌+◌, ◌<◌, ◌≤◌, ◌↔◌, ◌==◌, if◌then◌else◌, IsTrue, IsNone, IsSome, IfSome, IfOk, OnOk, IsOk, Some, None};
ghost use Rattle.slab.specs.Slab.{get};
ghost use Rattle.indexmap.specs.IndexMap.{spare};
ghost use Rattle.cg_arena.specs.Slots.{serial_in};
ghost use Rattle.cg_arena.specs.Table.{row_of, rows_of, IsNamed};
ghost use Rattle.cg_arena.specs.Index.{guess_at, guess_index, LeadsTo, HasRowsBelow, IsIndex, IsIndexOf, Finds};

use crate::hints::Hints;
use crate::links::slot_at;
use crate::near::Near;
use crate::slot::Slot;
use cg_serial::{SerialHashing, serial_hashing};
use indexmap::IndexMap;
use slab::Slab;
use std::alloc::{AllocError, Global};

/// The slot of each serial that has a node.
///
/// Most are found by their guesses. Rows hold the serials whose guess belongs to another serial.
#[derive(Drop)]
pub struct SlotIndex {
    hints: Hints,
    rows: IndexMap<u64, usize, SerialHashing>,
    // No serial above this one has a row. So most nodes that die young need no search among the
    // rows.
    most: u64,
}

/// The node in a slot, if it has this serial.
#[inline(always)]
pub fn node_if(slots: &Slab<Slot>, at: usize, serial: u64) -> Option<Slot>
    ensures node { IfSome result (λ c. get slots.now at ≡ Some c) }
    ensures serial { IfSome result (λ c. c.serial ≡ serial) }
    ensures none { IsNone result → serial_in (get slots.now at) ≢ Some serial }
{
    match slots.get(at) {
        Some(slot) if slot.serial == serial => Some(*slot),
        _ => None,
    }
}

/// The serial found by the guess that another serial is about to take over.
#[inline(always)]
fn displaced_by(hints: &Hints, slots: &Slab<Slot>, serial: u64) -> Option<u64>
    ensures some { IfSome result (λ q. serial_in (get slots.now (guess_at hints.now serial))
        ≡ Some q) }
    ensures none { IsNone result → (q : ℕ) → serial_in (get slots.now (guess_at hints.now serial))
        ≡ Some q →
        guess_index hints.now q ≢ guess_index hints.now serial }
{
    match slots.get(hints.guess(serial)) {
        Some(slot) if hints.is_shared(serial, slot.serial) => Some(slot.serial),
        _ => None,
    }
}

impl SlotIndex {
    /// An empty index. It allocates nothing yet.
    pub fn new(alloc: Global) -> SlotIndex
        ensures { result.rows.entries ≡ [] }
    {
        SlotIndex {
            hints: Hints::new(alloc),
            rows: IndexMap::with_hasher(alloc, serial_hashing()),
            most: 0,
        }
    }

    /// The likely slot of a serial.
    #[inline(always)]
    pub fn guess(&self, serial: u64) -> usize
        ensures { result ≡ guess_at self.now.hints serial }
    {
        self.hints.guess(serial)
    }

    /// Whether a serial has a node.
    pub fn has(&self, slots: &Slab<Slot>, serial: u64) -> bool
        requires { IsIndexOf slots.now self.now }
        ensures { IsTrue result ↔ IsSome (row_of (rows_of slots.now) serial) }
    {
        match node_if(slots, self.guess(serial), serial) {
            Some(_) => true,
            None => self.rows.contains_key(&serial),
        }
    }

    /// The slot of a serial that is not in its guessed slot, by its row.
    #[inline(never)]
    pub fn slot_by_row(&self, serial: u64) -> usize
        requires { IsSome (row_of self.now.rows.entries serial) }
        ensures { row_of self.now.rows.entries serial ≡ Some result }
    {
        match self.rows.get(&serial) {
            Some(slot) => *slot,
            None => unreachable!(),
        }
    }

    /// The slot and node of a serial that has one. If the guess is right, the row is not looked up.
    #[inline(always)]
    pub fn slot_of(&self, slots: &Slab<Slot>, serial: u64) -> (usize, Slot)
        requires { Finds slots.now self.now serial }
        ensures at { row_of (rows_of slots.now) serial ≡ Some result.0 }
        ensures slot { get slots.now result.0 ≡ Some result.1 }
    {
        let guess = self.guess(serial);
        match node_if(slots, guess, serial) {
            Some(slot) => (guess, slot),
            None => {
                let at = self.slot_by_row(serial);
                (at, slot_at(slots, at))
            }
        }
    }

    /// `slot_of`, with the hint `near`, which saves the look-up if it is right.
    #[inline(always)]
    pub fn slot_near(&self, slots: &Slab<Slot>, serial: u64, near: Near) -> (usize, Slot)
        requires { Finds slots.now self.now serial }
        ensures at { row_of (rows_of slots.now) serial ≡ Some result.0 }
        ensures slot { get slots.now result.0 ≡ Some result.1 }
    {
        match node_if(slots, near.slot, serial) {
            Some(slot) => (near.slot, slot),
            None => self.slot_of(slots, serial),
        }
    }

    /// Makes room for one more serial and its guess. If memory for more guesses runs out, they stay
    /// as they are.
    #[inline(always)]
    pub fn reserve(&mut self, slots: &Slab<Slot>) -> Result<(), AllocError>
        requires { IsIndexOf slots.now self.old }
        ensures index { IsIndexOf slots.now self.new }
        ensures ok { OnOk result (0 < spare self.new.rows) }
        ensures succeeds { 0 < spare self.old.rows → IsOk result }
    {
        if slots.len() >= self.hints.len() {
            let _ = self.grow(slots);
        }
        self.rows.reserve(1)
    }

    /// Doubles the guesses, if there is memory for them and for the rows they displace.
    #[inline(never)]
    fn grow(&mut self, slots: &Slab<Slot>) -> Result<(), AllocError>
        requires { IsIndexOf slots.now self.old }
        ensures index { IsIndexOf slots.now self.new }
        ensures room { spare self.old.rows ≤ spare self.new.rows }
    {
        let room = self.rows.capacity() - self.rows.len();
        let alloc = *self.rows.allocator();
        let hints = self.hints.doubled(alloc)?;
        *self = index_by(alloc, slots, hints, room)?;
        Ok(())
    }

    /// Notes the slot of a serial: by its guess, if it has one, else in a row. The node that the
    /// guess found before gets a row, since the newest objects are looked up most.
    #[inline(always)]
    pub fn note(&mut self, slots: &Slab<Slot>, serial: u64, at: usize)
        requires named { IsNamed (λ k. serial_in (get slots.now k)) (row_of (rows_of slots.now)) }
        requires below { HasRowsBelow self.old }
        requires room { 0 < spare self.old.rows }
        ensures below { HasRowsBelow self.new }
        ensures noted { LeadsTo self.new serial at }
        ensures others { (k q : ℕ) → serial_in (get slots.now k) ≡ Some q → q ≢ serial
            → LeadsTo self.old q k →
            LeadsTo self.new q k }
        ensures rows { (q k : ℕ) → row_of self.new.rows.entries q ≡ Some k →
            (row_of self.old.rows.entries q ≡ Some k) ⊎ ((serial_in (get slots.now k) ≡ Some q)
            ⊎ ((q ≡ serial) × (k ≡ at))) }
    {
        let guess = self.guess(serial);
        if guess == at {
            return;
        }
        let displaced = displaced_by(&self.hints, slots, serial);
        if !self.hints.tell(serial, at) {
            self.add_row(serial, at);
        } else if let Some(other) = displaced {
            self.add_row(other, guess);
        }
    }

    /// Notes the slot of a serial in a row, for which there is room.
    #[inline(never)]
    fn add_row(&mut self, serial: u64, at: usize)
        requires { 0 < spare self.old.rows }
        ensures rows { (s : ℕ) → row_of self.new.rows.entries s ≡
            (if serial == s then Some at else row_of self.old.rows.entries s) }
        ensures most { self.new.most ≡ max self.old.most serial }
        ensures hints { self.new.hints ≡ self.old.hints }
    {
        self.most = self.most.max(serial);
        match self.rows.insert(serial, at) {
            Ok(_) => {}
            Err(_) => unreachable!(),
        }
    }

    /// Removes a serial from its slot.
    #[inline(always)]
    pub fn remove(&mut self, slots: &Slab<Slot>, serial: u64, at: usize)
        requires index { IsIndexOf slots.now self.old }
        requires there { row_of (rows_of slots.now) serial ≡ Some at }
        ensures index { IsIndex (λ k. if k == at then None else serial_in (get slots.now k))
            self.new }
        ensures room { spare self.old.rows ≤ spare self.new.rows }
    {
        self.hints.forget(serial, at);
        if serial <= self.most {
            self.drop_row(serial);
        }
    }

    /// Removes the row of a serial, if it has one.
    #[inline(never)]
    fn drop_row(&mut self, serial: u64)
        ensures rows { (s : ℕ) → row_of self.new.rows.entries s ≡
            (if serial == s then None else row_of self.old.rows.entries s) }
        ensures most { self.new.most ≡ self.old.most }
        ensures hints { self.new.hints ≡ self.old.hints }
        ensures room { spare self.old.rows ≤ spare self.new.rows }
    {
        let _ = self.rows.swap_remove(&serial);
    }
}

/// The index of all nodes with new, empty guesses and room for `room` more rows.
fn index_by(
    alloc: Global,
    slots: &Slab<Slot>,
    hints: Hints,
    room: usize,
) -> Result<SlotIndex, AllocError>
    requires named { IsNamed (λ k. serial_in (get slots.now k)) (row_of (rows_of slots.now)) }
    ensures index { IfOk result (IsIndexOf slots.now) }
    ensures room { IfOk result (λ x. room ≤ spare x.rows) }
{
    let mut index = SlotIndex {
        hints,
        rows: IndexMap::with_hasher(alloc, serial_hashing()),
        most: 0,
    };
    // All slots are below the capacity.
    'slots: for at in 0..slots.capacity() {
        if let Some(slot) = slots.get(at) {
            index.rows.reserve(1)?;
            index.note(slots, slot.serial, at);
        }
    }
    index.rows.reserve(room)?;
    Ok(index)
}
