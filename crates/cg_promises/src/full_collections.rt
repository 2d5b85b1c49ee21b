//! What full collections leave in every run, if no frame begins. Each law is the contract of a
//! function that does nothing.
ghost use Rattle.cg_script.specs.ReadScripts.{WasRead};
ghost use Rattle.cg_laws.specs.Laws.{FullCollectionLeavesNone, FullCollectionLeavesNoneIn};
ghost use Rattle.cg_promises.specs.Reached.{ReachedIsKept};

/// In every run, what is reachable when a full collection starts is reachable when it stops, if no
/// frame began.
pub fn reached_is_kept()
    ensures { ReachedIsKept }
{}

/// In every run, after a full collection in which no frame begins, and which started with an empty
/// permanent generation, each object is reachable from one that is dying or held by a root.
pub fn full_collections_leave_none()
    ensures known { FullCollectionLeavesNone }
    ensures read { FullCollectionLeavesNoneIn WasRead }
{}
