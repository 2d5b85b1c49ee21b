//! What every run keeps true of who holds what. Each law is the contract of a function that does
//! nothing.
ghost use Rattle.cg_script.specs.ReadScripts.{WasRead};
ghost use Rattle.cg_laws.specs.Laws.{EntriesLeaveOnlyBy, UnheldIsDying, UnheldIsDyingIn};
ghost use Rattle.cg_promises.specs.Slack.{UntrackedAreSlack};

/// In every run, when a command begins, each unheld object is dying.
pub fn unheld_is_dying()
    ensures known { UnheldIsDying }
    ensures read { UnheldIsDyingIn WasRead }
{}

/// In every run, an untracked object, except the garbage list and dying objects, is a tuple or a
/// dictionary that refers only to untracked tuples.
pub fn untracked_are_slack()
    ensures { UntrackedAreSlack }
{}

/// In every run, an object that was never in the final set of a collection without SAVEALL loses an
/// entry only by a command with no collection due before it, by its own death, or, if it is a weak
/// reference, by its referent's death.
pub fn entries_leave_only_by()
    ensures { EntriesLeaveOnlyBy }
{}
