//! What weak references and weak value maps answer in every run. Each law is the contract of a
//! function that does nothing.
ghost use Rattle.cg_script.specs.ReadScripts.{WasRead};
ghost use Rattle.cg_weakcoll.specs.MapLines.{ExpandedLooksAreCommands, ExpandedStoresAreCommands, LookLinesAreCommands, StoreLinesAreCommands};
ghost use Rattle.cg_weakcoll.specs.Maps.{LooksAnswer, LooksFindReferents, MissesLeaveNone, MissesLeaveNoneIn, WeakMapsAnswer, WeakReferencesKeepTheirReferents};

/// In every run, a weak reference keeps the object that it was made of until the line that it is
/// cleared, unless it is dying itself.
pub fn weak_references_keep_their_referents()
    ensures { WeakReferencesKeepTheirReferents }
{}

/// In every run, if no command of a `wget` is refused and no frame begins from the second to the
/// third, the variable becomes the referent, before the third, of the weak reference under the key,
/// or none.
pub fn looks_find_referents()
    ensures { LooksFindReferents }
{}

/// In every run, such a `wget` answers the object that the weak reference under the key was made of
/// if no line said since that it is cleared, and else none.
pub fn looks_answer()
    ensures { LooksAnswer }
{}

/// In every run, if the second command of a `wget` is refused, as it is if the map lacks the key,
/// and no frame begins before it, the variable is none.
pub fn misses_leave_none()
    ensures known { MissesLeaveNone }
    ensures read { MissesLeaveNoneIn WasRead }
{}

/// In every run, if a `wset` put a weak reference into a map, a `wget` that finds it answers the
/// object if no line said since that it is cleared, and else none.
pub fn weak_maps_answer()
    ensures { WeakMapsAnswer }
{}

/// In a script with the three lines of a `wget`, its three commands are consecutive, outside
/// procedures or in one, and name what its words stand for.
pub fn look_lines_are_commands()
    ensures { LookLinesAreCommands }
{}

/// In a script with the three lines of a `wset`, its three commands are consecutive, outside
/// procedures or in one, and name what its words stand for.
pub fn store_lines_are_commands()
    ensures { StoreLinesAreCommands }
{}

/// In the script that an expansion spells, the three commands of each `wget` line are consecutive,
/// outside procedures or in one, and name what the line's words stand for.
pub fn expanded_looks_are_commands()
    ensures { ExpandedLooksAreCommands }
{}

/// So are those of each `wset` line, with the name generated from its number.
pub fn expanded_stores_are_commands()
    ensures { ExpandedStoresAreCommands }
{}
