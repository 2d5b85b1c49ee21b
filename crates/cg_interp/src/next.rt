//! Which command comes next.
ghost use Rattle.std.specs.Prelude.{◌≡◌, ◌<◌, ◌+◌, ◌∷◌, [], length, true, Some, IfSome, IfNone};
ghost use Rattle.cg_commands.specs.Attempts.{only_changes};
ghost use Rattle.cg_machine.specs.Program.{commands_of, body_of};
ghost use Rattle.cg_interp.specs.Engines.{commands_from};

use cg_commands::only_changes;
use cg_script::{Command, Items, Script};

/// The next command outside procedures, and the number of the one after it, if any.
#[inline(always)]
pub fn next_in(items: &Items, next: Option<usize>) -> Option<(&Command, usize)>
    ensures none { IfNone result (commands_from next (commands_of items.now) ≡ []) }
    ensures some { IfSome result (λ r. commands_from next (commands_of items.now)
        ≡ r.0.now ∷ commands_from (Some r.1) (commands_of items.now)) }
{
    match next {
        Some(number) => match items.command(number) {
            Some(command) => Some((command, number + 1)),
            None => None,
        },
        None => None,
    }
}

/// The next of some commands, and the number of the one after it, if any.
#[inline(always)]
pub fn next_of(commands: &[Command], next: Option<usize>) -> Option<(&Command, usize)>
    ensures none { IfNone result (commands_from next commands.now ≡ []) }
    ensures some { IfSome result (λ r. commands_from next commands.now
        ≡ r.0.now ∷ commands_from (Some r.1) commands.now) }
{
    match next {
        Some(number) => match commands.get(number) {
            Some(command) => Some((command, number + 1)),
            None => None,
        },
        None => None,
    }
}

/// The next of some commands, if it only changes names or entries.
#[inline(always)]
pub fn next_change(commands: &[Command], number: usize) -> Option<&Command>
    ensures within { IfSome result (λ _. number < length commands.now) }
    ensures there { IfSome result (λ c. commands_from (Some number) commands.now
        ≡ c.now ∷ commands_from (Some (number + 1)) commands.now) }
    ensures changes { IfSome result (λ c. only_changes c.now ≡ true) }
{
    match commands.get(number) {
        Some(command) if only_changes(command) => Some(command),
        _ => None,
    }
}

/// The commands of a procedure, by its number. There are none where the script has no such
/// procedure.
#[inline(always)]
pub fn body_of(script: &Script, number: u32) -> &[Command]
    ensures { result.now ≡ body_of script.now number }
{
    match script.items.procedure(number) {
        Some(procedure) => procedure.body.as_slice(),
        None => &[],
    }
}
