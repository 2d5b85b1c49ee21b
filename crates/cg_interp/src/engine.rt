//! The engine of a run.

use crate::stack::Stack;
use cg_heap::Heap;
use cg_kind::Kind;
use cg_policy::Policy;
use std::alloc::Global;
use std::marker::Model;

/// A heap, the numbers of the collector, and the activities.
#[derive(Drop)]
pub struct Engine<B: Kind> {
    // Allocates the lists of inspections.
    pub alloc: Global,
    pub heap: Heap<B>,
    pub policy: Policy,
    pub stack: Stack,
    // How many frames may still start.
    pub budget: u32,
    // The budget at the start of the run.
    pub first_budget: u32,
}

impl<B: Kind> Model for Engine<B> {
    ghost use Rattle.std.specs.Coded.{codes};
    ghost use Rattle.cg_heap.specs.Codes.{store_code};
    ghost use Rattle.cg_interp.specs.contracts.activity.Activity as activity;
    ghost use Rattle.cg_interp.specs.Engines.{State};

    ghost Value = { State };

    ghost coded = { Prim.hlevel (codes, store_code, activity.the_row.coded) };

    ghost view = { λ e. record {
      store = e.heap;
      policy = e.policy;
      activities = e.stack.activities;
      room = e.stack.room;
      budget = e.budget;
      first_budget = e.first_budget;
    } };
}
