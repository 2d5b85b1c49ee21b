//! What the lines of every run tell of an object: its finalizer, and that it is freed. Each law is
//! the contract of a function that does nothing.
ghost use Rattle.cg_laws.specs.Laws.{NoDeadNames, OneFinalizerEach};
ghost use Rattle.cg_promises.specs.Lines.{NoDeadLines};

/// In every run, the finalizer of an object begins at most once.
pub fn one_finalizer_each()
    ensures { OneFinalizerEach }
{}

/// In every run, after the line that frees an object no line names it, and no later world has it.
pub fn no_dead_names()
    ensures { NoDeadNames }
{}

/// In every run, after the line that frees an object no line of the run names it.
pub fn no_dead_lines()
    ensures { NoDeadLines }
{}
