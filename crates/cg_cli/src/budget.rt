//! The budget of a run.
ghost use Rattle.std.specs.Prelude.{◌≡◌, ◌≤◌, IfSome};
ghost use Rattle.cg_script.specs.declared.limits.TheConstants.{MOST_BUDGET};
ghost use Rattle.cg_script.specs.Spelled.{IsSpelled};
ghost use Rattle.cg_cli.specs.Statuses.{budget_of};

use cg_script::Script;

/// The budget of a run if neither the arguments nor the script set one.
pub const USUAL: u32 = 10_000;

/// The budget of a run of a script: the given one, else that of the script, else 10,000.
pub fn budget_for(given: Option<u32>, script: &Script) -> u32
    requires spelled { IsSpelled script.now }
    requires given { IfSome given (λ n. n ≤ MOST_BUDGET) }
    ensures budget { result ≡ budget_of given script.now }
    ensures few { result ≤ MOST_BUDGET }
{
    given.unwrap_or(script.budget().unwrap_or(USUAL))
}
