//! Laws on whole collections: how many entries and weak references they look at, and which stages
//! they meet. Each is the contract of a function that does nothing.
ghost use Rattle.cg_collect.specs.Stages.{StagesAreMetOnce};
ghost use Rattle.cg_collect.specs.WholeCollections.{LooksAreBounded};

/// However many steps a collection takes, and whatever runs between them, the counter of looks
/// rises by at most four times the entries of the candidates at its start, twice the entries of the
/// condemned objects at its second reachability pass, and one for each entry that a turn removes
/// and each callback that is called; and, when each walk over weak references begins, by these:
///
/// - in the weak phase four for each condemned object, for each weak reference to it, and for each
///   with the same referent;
/// - after the second pass one for each member of the final set and each weak reference to it, and
///   then two for each member and each weak reference with the same referent.
///
/// (Developer guide, "identifying reference cycles"; `weakref` manual.)
pub fn looks_of_a_collection_are_bounded()
    ensures { LooksAreBounded }
{}

/// A collection that ends meets each of its four stages once, in order, whatever runs between its
/// steps.
pub fn a_collection_meets_each_stage_once()
    ensures { StagesAreMetOnce }
{}
