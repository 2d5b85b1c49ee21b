//! What every run does to the final set of a collection without SAVEALL. Each law is the contract
//! of a function that does nothing.
ghost use Rattle.cg_script.specs.ReadScripts.{WasRead};
ghost use Rattle.cg_laws.specs.Laws.{FinalSetIsFreed, FinalSetIsFreedIn, OnlyFreesNameMembers, Sealing};

/// In every run, from the second reachability pass of a collection without SAVEALL until its stop,
/// each living member of the final set is held only by members, the collection and releases. It has
/// no referent and no weak reference refers to it, its finalizer has run, and it is no local of a
/// frame.
pub fn final_sets_are_sealed()
    ensures { Sealing }
{}

/// During that time, up to the lines of the step that stops, the only line that names a member is
/// the one that frees it.
pub fn only_frees_name_members()
    ensures { OnlyFreesNameMembers }
{}

/// In every run, when a collection without SAVEALL stops, each member of its final set, tuples
/// included, has been freed.
pub fn final_sets_are_freed()
    ensures known { FinalSetIsFreed }
    ensures read { FinalSetIsFreedIn WasRead }
{}
