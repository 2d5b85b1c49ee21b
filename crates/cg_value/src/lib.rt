//! The basic types of the object graph: values, entries, kinds, places and interned texts.
//!
//! The layers above rest on one contract: an interned text has one number, its first position, and
//! `Names::text` returns it.
#![tactic(auto)]

mod names;

pub use names::Names;

/// A value. `None`, integers and texts are atoms and are not counted; a reference is counted.
#[derive(Clone, Copy, Debug, PartialEq, Eq, Hash, Drop)]
pub enum Val {
    /// Python's `None`.
    None,
    /// A signed 64-bit integer.
    Int(i64),
    /// The number of an interned text, its position in `Names`.
    Str(u32),
    /// A reference to the object with this serial.
    Ref(u64),
}

/// An entry of an object: an item, a key with its value, an attribute, a cell, or a callback.
///
/// Items of lists and tuples, cells of functions and the callback of a weak reference have the key
/// `None`; an attribute has its name as key.
#[derive(Clone, Copy, Debug, PartialEq, Eq, Drop)]
pub struct Entry {
    pub key: Val,
    pub val: Val,
}

/// The six kinds of objects.
#[derive(Clone, Copy, Debug, PartialEq, Eq, Drop)]
pub enum KindCode {
    List,
    Tuple,
    Dict,
    /// An instance of a class.
    Inst,
    /// A function with cells.
    Func,
    /// A weak reference.
    Weak,
}

/// Where the collector keeps an object. Each object is in exactly one place.
///
/// The generations and the permanent generation are CPython's (`gc` manual). The sets of a running
/// collection are this project's names for what the developer guide calls the unreachable list, and
/// for its parts.
#[derive(Clone, Copy, Debug, PartialEq, Eq, Drop)]
pub enum Place {
    /// Not tracked by the collector.
    Untracked,
    /// A generation, 0 to 2.
    Gen(u8),
    /// The permanent generation of `gc.freeze`.
    Frozen,
    /// The condemned set of a collection.
    Cand,
    /// Condemned, and already checked for a finalizer.
    Seen,
    /// Condemned once, and found reachable by the second detection.
    Back,
    /// Set aside: a legacy finalizer keeps it from being cleared.
    Legacy,
    /// A weak reference waiting for its callback.
    Pend,
}
