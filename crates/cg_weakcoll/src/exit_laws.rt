//! What exit finalizers do in every run. Each law is the contract of a function that does nothing.
ghost use Rattle.cg_script.specs.ReadScripts.{WasRead};
ghost use Rattle.cg_weakcoll.specs.Exits.{ExitsAreCalledLastFirst, ExitsAreCalledLastFirstIn, ExitsBeginAlive, ExitsBeginAliveIn, ExitsBeginOnce, ExitsBeginOnceIn};
ghost use Rattle.cg_weakcoll.specs.ExpandedExits.{ExpandedExitsAreThere};
ghost use Rattle.cg_weakcoll.specs.WorkedExits.{FindsAliveAndCalls, HasBoth};

/// In every run of a script with an exit finalizer, at most one frame begins among the callbacks of
/// its weak reference and the calls in its procedure.
pub fn exits_begin_once()
    ensures known { ExitsBeginOnce }
    ensures read { ExitsBeginOnceIn WasRead }
{}

/// In every run of a script with exit finalizers, the calls at its end that the run reaches come in
/// order, starting with the last finalizer's.
pub fn exits_are_called_last_first()
    ensures known { ExitsAreCalledLastFirst }
    ensures read { ExitsAreCalledLastFirstIn WasRead }
{}

/// In every run, if the procedure of an exit finalizer finds its object alive, none of its commands
/// is refused and the budget is not spent in it, then the function's frame begins.
pub fn exits_begin_alive()
    ensures known { ExitsBeginAlive }
    ensures read { ExitsBeginAliveIn WasRead }
{}

/// The expansion of a worked script with two `finalize` lines spells a script with both exit
/// finalizers, as these laws require.
pub fn two_finalizers_are_there()
    ensures { HasBoth }
{}

/// In the script that an expansion spells, each `finalize` line of the extended script has its exit
/// finalizer, as these laws require.
pub fn expanded_exits_are_there()
    ensures { ExpandedExitsAreThere }
{}

/// `exits_begin_alive` is not vacuous: in a run of a worked script with one `finalize` line, the
/// procedure finds its object alive, none of its commands is refused, and the function's frame
/// begins.
pub fn a_finalizer_finds_its_object_alive()
    ensures { FindsAliveAndCalls }
{}
