//! Worked heaps: what each question about a recorded heap means, by example, as theorems.
//!
//! They help readers of the definitions of `cg_ask` and check those definitions: each answer was
//! written from docs/HEAPS.md, not by a program.
#![tactic(auto)]

ghost use Rattle.cg_heap_rows.specs.Worked.{EachIsAnswered, worked_heaps};

/// The text beside each worked heap and its question is the answer.
pub fn worked_heaps_are_answered()
    ensures { EachIsAnswered worked_heaps }
{}
