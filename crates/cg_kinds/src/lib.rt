//! The six kinds of objects, each implementing the boxed interface `cg_kind::Kind` over a slab of
//! its objects' contents.
//!
//! The layers above rest on the contracts of `Kind` alone: `new` gives a kind without objects, and
//! each call determines the whole map from places to entries after it.
//!
//! - `body_slab`: the slab, once for all six kinds.
//! - `contents`: what one object holds, as the slab sees it.
//! - `items`: what lists, tuples, functions and weak references share; `list`, `tuple`, `func` and
//!   `weak`: these four.
//! - `kept`: entries that stand in a slice, in one form or another, and the references that they
//!   have.
//! - `listed`: the values of a list, at most `one` in place, a few of them `packed` in one vector,
//!   or any number as `values`, in a column of sorts and one of numbers.
//! - `pairs`: dictionaries and instances; `held`: their pairs, at most `one` in place, which
//!   `one_pair` searches, a `few` in a list or any number in a table.
//! - `table`: pairs in a map, in the order in which their keys came, each key and value as `nine`
//!   bytes; `order`: that order, once the map has another; `slots`: its slots and gaps; `sums`: how
//!   many pairs are in each block of slots; `gap`: what one slot holds, in four bytes.
#![tactic(auto)]

mod body_slab;
mod contents;
mod few;
mod func;
mod gap;
mod hasher;
mod held;
mod items;
mod kept;
mod list;
mod listed;
mod nine;
mod one;
mod one_pair;
mod order;
mod packed;
mod pair;
mod pairs;
mod slots;
mod sums;
mod table;
mod tuple;
mod values;
mod weak;

pub use body_slab::BodySlab;
pub use func::FuncKind;
pub use list::ListKind;
pub use pairs::{DictKind, InstKind};
pub use tuple::TupleKind;
pub use weak::WeakKind;
