//! What a release frees: exactly what dies by count.
//!
//! Each law is the contract of a function with an empty body. The second restates the first by
//! places, in terms of `cg_ask`.
#![tactic(auto)]

ghost use Rattle.cg_script.specs.ReadScripts.{WasRead};
ghost use Rattle.cg_release.specs.Release.{ReleasesFreeExactly, ReleasesFreeExactlyIn};
ghost use Rattle.cg_release.specs.Places.{ReleasesFreeWhatDropTells, ReleasesFreeWhatDropTellsIn};

/// In every run, a release in which no frame begins frees exactly what dies by count: the least set
/// that has each object whose in-degree, above 0, is the number of its occurrences among the
/// released references and those of objects in the set.
pub fn releases_free_exactly()
    ensures known { ReleasesFreeExactly }
    ensures read { ReleasesFreeExactlyIn WasRead }
{}

/// The same with the objects as members, as `cg_ask` reads them from a record, and with the release
/// as one more member: it frees exactly what dies by count (`Dies`) when the release is dropped.
pub fn releases_free_what_drop_tells()
    ensures known { ReleasesFreeWhatDropTells }
    ensures read { ReleasesFreeWhatDropTellsIn WasRead }
{}
