//! What holds in every run. Each law is the contract of a function that does nothing.
ghost use Rattle.cg_laws.specs.Bounds.{StacksAreBounded};
ghost use Rattle.cg_laws.specs.Locals.{LocalsLive};
ghost use Rattle.cg_laws.specs.Made.{SerialsAreFew};
ghost use Rattle.cg_laws.specs.Newest.{DeathsClearNewestFirst};
ghost use Rattle.cg_laws.specs.Origins.{WorldsHaveOrigins};
ghost use Rattle.cg_laws.specs.Printing.{LinesArePrintable, ReadLinesArePrintable};
ghost use Rattle.cg_laws.specs.Lawful.{RunsStayLawful};
ghost use Rattle.cg_laws.specs.Laws.{DyingIsUnheld, NoRunIsStuck, FrontsBeginWholeTexts, StepsLeaveWhatIsBelow, WorldsAreOrderly};
ghost use Rattle.cg_laws.specs.Apart.{CollectionsAreApart};
ghost use Rattle.cg_laws.specs.Few.{NumbersAreFew};
ghost use Rattle.cg_laws.specs.Kept.{WorldsStayKept};

/// No run is stuck: each one is the beginning of a whole run, whatever it chose.
pub fn no_run_is_stuck()
    ensures { NoRunIsStuck }
{}

/// What a run has printed is a prefix of the text of a whole run, even in the middle of a step.
pub fn fronts_begin_whole_texts()
    ensures { FrontsBeginWholeTexts }
{}

/// In every world of a run, a dying object is held while its own finalizer or legacy finalizer
/// runs, and is otherwise unheld.
pub fn dying_is_unheld()
    ensures { DyingIsUnheld }
{}

/// In every world of a run, whatever is held lives, every referent is an instance or a function,
/// and every weak reference that waits for its callback has one.
pub fn worlds_are_orderly()
    ensures { WorldsAreOrderly }
{}

/// A step changes no activity below the one that takes it, and no entries of an object that is
/// dying or waiting there.
pub fn steps_leave_what_is_below()
    ensures { StepsLeaveWhatIsBelow }
{}

/// In every world of a run, the frames and the remaining budget stay within the run's budget. There
/// are at most as many deaths, and as many waiting weak references, as objects; a release has at
/// most two references, and only a death lies directly on one. So the budget and the number of
/// objects bound the height of the stack and what it holds.
pub fn stacks_are_bounded()
    ensures { StacksAreBounded }
{}

/// In every world of a run, each remaining command comes from the script, and a command of the
/// script names the class of each instance and the procedure of each function.
pub fn worlds_have_origins()
    ensures { WorldsHaveOrigins }
{}

/// In every world of a run, the number of serials given is bounded: one for each command outside
/// procedures, and for each unit of the budget as many as the longest procedure has commands.
pub fn serials_are_few()
    ensures { SerialsAreFew }
{}

/// In every world of a run, while a dying object's weak references are cleared, those already
/// cleared and waiting for their callback are newer than those that still refer to it.
pub fn deaths_clear_newest_first()
    ensures { DeathsClearNewestFirst }
{}

/// In every world of a run, the subject of each frame lives. The frame's function, if it has one,
/// lives too and is a function.
pub fn locals_live()
    ensures { LocalsLive }
{}

/// Every world of a run satisfies these laws, and so does every world that a step leads to.
pub fn runs_stay_lawful()
    ensures { RunsStayLawful }
{}

/// If a script uses only its own texts, each of at most 1,024 bytes, every line of every run can be
/// printed. Each script that the reader accepts is of this kind.
pub fn lines_are_printable()
    ensures known { LinesArePrintable }
    ensures read { ReadLinesArePrintable }
{}

/// In every world of a run where no collection is under way nothing is set apart for one. While one
/// is, what is set apart stands at a place of the phase, and the garbage list is untracked and
/// names no object that is condemned or set aside.
pub fn collections_are_apart()
    ensures { CollectionsAreApart }
{}

/// In every world of a run the collector's numbers are far below what memory can count. They rise
/// with the commands that make objects, and with the collections that these make due or that
/// commands ask for.
pub fn numbers_are_few()
    ensures { NumbersAreFew }
{}

/// Every world of a run satisfies these laws, and so does every world that a step leads to.
pub fn worlds_stay_kept()
    ensures { WorldsStayKept }
{}
