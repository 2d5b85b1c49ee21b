//! The start of a run.
ghost use Rattle.std.specs.Prelude.{◌≡◌, ◌≤◌, length, IfOk};
ghost use Rattle.cg_script.specs.declared.limits.TheConstants.{MOST_BUDGET};
ghost use Rattle.cg_graph.specs.Changes.{opening_store};
ghost use Rattle.cg_machine.specs.World.{opening};
ghost use Rattle.cg_interp.specs.Engines.{StandsFor};
ghost use Rattle.cg_interp.specs.Turns.{IsFit};

use crate::activity::Activity;
use crate::engine::Engine;
use crate::stack::Stack;
use cg_heap::Heap;
use cg_kind::Kind;
use cg_policy::Policy;
use cg_script::Script;
use std::alloc::{AllocError, Global};

impl<B: Kind> Engine<B> {
    /// The engine of a script with a budget, on a new heap (`Heap::new`) for the script's names.
    /// Answers `AllocError` only if memory runs out.
    pub fn new(
        alloc: Global,
        heap: Heap<B>,
        script: &Script,
        budget: u32,
    ) -> Result<Engine<B>, AllocError>
        requires heap { heap ≡ opening_store (length script.now.names) }
        requires budget { budget ≤ MOST_BUDGET }
        ensures stands { IfOk result (λ e. StandsFor script.now e (opening script.now budget)) }
        ensures fit { IfOk result (λ e. IsFit script.now e) }
        ensures first_budget { IfOk result (λ e. e.first_budget ≡ budget) }
    {
        // Room for the frames, two for the one object, and eight more, enough for a collection.
        let mut stack = Stack::new(alloc, budget as usize + 10)?;
        stack.push(Activity::Script { next: Some(0) });
        Ok(Engine {
            alloc,
            heap,
            policy: Policy::new(),
            stack,
            budget,
            first_budget: budget,
        })
    }
}
