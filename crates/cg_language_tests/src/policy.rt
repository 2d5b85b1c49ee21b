//! The worked rules of `gc.set_threshold`, and each call once.
ghost use Rattle.std.specs.Prelude.{◌≡◌, ◌≤◌, ◌↔◌, false, bit_and, IsSome, IfSome};
ghost use Rattle.cg_machine.specs.Collect.{begun, survived};
ghost use Rattle.cg_policy.specs.Flagset.{bits_of};
ghost use Rattle.cg_policy.specs.Policy.{IsBounded};

use bitflags::Flags;
use cg_policy::{Counts, Flagset, Policy};

// A whole collection.
fn collect(policy: &mut Policy, generation: u8, survivors: u64)
    requires generation { generation ≤ 2 }
    requires idle { policy.old.running ≡ false }
    requires begins { IsBounded (begun generation policy.old.numbers) }
    requires ends { IsBounded (survived generation survivors (begun generation policy.old.numbers)) }
    ensures { policy.new
        ≡ record {
          numbers = survived generation survivors (begun generation policy.old.numbers);
          running = false;
        } }
{
    policy.begin(generation);
    policy.survived(generation, survivors);
    policy.ended();
}

#[test]
fn a_quarter_of_nine_is_two(rt: HostRuntime) {
    let mut policy = Policy::new();
    policy.set_threshold(1, Some(0), Some(0));
    collect(&mut policy, 2, 9);
    collect(&mut policy, 1, 1);
    collect(&mut policy, 0, 1);
    policy.made();
    policy.made();
    // One object is pending, below 9 / 4 = 2: generation 2 is skipped.
    assert_eq!(rt; policy.due(), Some(1));
    collect(&mut policy, 1, 1);
    policy.made();
    policy.made();
    assert_eq!(rt; policy.due(), Some(2));
}

#[test]
fn a_new_policy_has_the_opening_numbers(rt: HostRuntime) {
    let mut policy = Policy::new();
    assert_eq!(rt;
        policy.counts(),
        Counts {
            zero: 0,
            one: 0,
            two: 0
        }
    );
    assert_eq!(rt; policy.flags().bits(), 0);
    assert_eq!(rt; policy.running(), false);
    policy.made();
    policy.made();
    assert_eq!(rt; policy.due(), None, "two objects are not above 700");
    // Enabled, with thresholds 1 and 2 at 10.
    policy.set_threshold(1, None, None);
    assert_eq!(rt; policy.due(), Some(0));
}

#[test]
fn none_is_due_while_disabled_running_or_at_the_threshold(rt: HostRuntime) {
    let mut policy = Policy::new();
    policy.set_threshold(1, Some(7), Some(7));
    policy.made();
    assert_eq!(rt; policy.due(), None, "one object is not above 1");
    policy.made();
    assert_eq!(rt; policy.due(), Some(0));
    policy.set_enabled(false);
    assert_eq!(rt; policy.due(), None, "disabled");
    policy.set_enabled(true);
    assert_eq!(rt; policy.due(), Some(0));
    policy.set_threshold(0, None, None);
    assert_eq!(rt; policy.due(), None, "threshold 0");
    policy.set_threshold(1, None, None);
    policy.begin(0);
    policy.made();
    policy.made();
    assert_eq!(rt; policy.due(), None, "running");
    assert_eq!(rt; policy.running(), true);
    policy.ended();
    assert_eq!(rt; policy.due(), Some(0));
}

#[test]
fn counts_go_with_objects_and_collections(rt: HostRuntime) {
    let mut policy = Policy::new();
    policy.freed();
    policy.made();
    policy.made();
    policy.freed();
    assert_eq!(rt;
        policy.counts(),
        Counts {
            zero: 1,
            one: 0,
            two: 0
        }
    );
    collect(&mut policy, 0, 1);
    collect(&mut policy, 0, 1);
    policy.made();
    assert_eq!(rt;
        policy.counts(),
        Counts {
            zero: 1,
            one: 2,
            two: 0
        }
    );
    collect(&mut policy, 1, 1);
    assert_eq!(rt;
        policy.counts(),
        Counts {
            zero: 0,
            one: 0,
            two: 1
        }
    );
    policy.made();
    policy.zero_counts();
    assert_eq!(rt;
        policy.counts(),
        Counts {
            zero: 0,
            one: 0,
            two: 0
        }
    );
}

// What a caller knows about `from_bits`.
fn known(bits: u32) -> Option<Flagset>
    ensures known { IsSome result ↔ (bit_and bits 39 ≡ bits) }
    ensures value { IfSome result (λ flags. bits_of flags ≡ bits) }
{
    Flagset::from_bits(bits)
}

#[test]
fn flags_are_the_four_bits(rt: HostRuntime) {
    for bits in [0, 1, 2, 4, 32, 38, 39] {
        assert_eq!(rt; known(bits).map(|flags| flags.bits()), Some(bits));
    }
    for bits in [8, 16, 64, 40, 0x8000_0001, u32::MAX] {
        assert_eq!(rt; known(bits).map(|flags| flags.bits()), None, "at {bits}");
    }
    let mut policy = Policy::new();
    policy.set_flags(Flagset::LEAK);
    let each = Flagset::COLLECTABLE
        .union(Flagset::UNCOLLECTABLE)
        .union(Flagset::SAVEALL);
    assert_eq!(rt; policy.flags(), each);
}
