//! The contracts related to the machine. Each law is the contract of a function with an empty body.
ghost use Rattle.std.specs.Prelude.{◌≡◌, ◌+◌};
ghost use Rattle.bitflags.specs.Sets.{known_bits};
ghost use Rattle.cg_machine.specs.Collect.{stats, collectable, uncollectable, save_all};
ghost use Rattle.cg_policy.specs.Flagset.{flag_table};
ghost use Rattle.cg_policy.specs.Laws.{FollowsMachine};

/// A collection is due exactly if it is in the machine. Where the machine has no name for the
/// numbers after a call, they are those after its own step or command.
pub fn policies_follow_the_machine()
    ensures { FollowsMachine }
{}

/// `Flagset::from_bits` accepts exactly the bits of the machine's four debug flags.
pub fn flagsets_have_the_debug_flags()
    ensures { known_bits flag_table ≡ stats + collectable + uncollectable + save_all }
{}
