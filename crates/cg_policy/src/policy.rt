//! The collector's counters, and when they make a collection due.
ghost use Rattle.std.specs.Prelude.{◌≡◌, ◌≤◌, true, false};
ghost use Rattle.cg_machine.specs.World.{first_numbers};
ghost use Rattle.cg_machine.specs.Collect.{begun, survived};
ghost use Rattle.cg_machine.specs.Due.{is_due, due_generation};
ghost use Rattle.cg_policy.specs.Flagset.{bits_of};
ghost use Rattle.cg_policy.specs.Policy.{with_numbers, with_one_made, with_one_freed, with_enabled, with_flags, with_thresholds, with_zero_counts, due_of, IsBounded};

use crate::flagset::Flagset;
use bitflags::Flags;
use std::marker::Model;

/// The counts of generations 0, 1 and 2. (`gc.get_count`.)
///
/// Count 0 rises and falls with objects made and freed since the last collection. Each other count
/// is the number of collections of the generation before it since its own or an older one was
/// collected.
#[derive(Clone, Copy, Debug, PartialEq, Eq, Drop)]
pub struct Counts {
    pub zero: u64,
    pub one: u64,
    pub two: u64,
}

#[derive(Drop)]
struct Thresholds {
    zero: u32,
    one: u32,
    two: u32,
}

/// The numbers of the `gc` module, and whether a collection is running.
///
/// A call keeps everything it does not mention. None allocates.
#[derive(Drop)]
pub struct Policy {
    counts: Counts,
    thresholds: Thresholds,
    // The objects that survived collections of generation 1 since the last of generation 2. An
    // object counts again at each collection it survives, so the number of objects does not bound
    // this sum, and 64 bits might not suffice.
    pending: u128,
    // The objects that survived the last collection of generation 2.
    total: u64,
    enabled: bool,
    flags: Flagset,
    running: bool,
}

impl Model for Policy {
    ghost use Rattle.cg_policy.specs.Flagset.{bits_of};
    ghost use Rattle.cg_policy.specs.Policy.{Policy as Standing};

    ghost Value = { Standing };

    ghost view = { λ p. record {
      numbers = record {
        zero_count = p.counts.zero;
        one_count = p.counts.one;
        two_count = p.counts.two;
        zero_threshold = p.thresholds.zero;
        one_threshold = p.thresholds.one;
        two_threshold = p.thresholds.two;
        pending = p.pending;
        total = p.total;
        enabled = p.enabled;
        flags = bits_of p.flags;
      };
      running = p.running;
    } };
}

impl Policy {
    /// The policy of a new run: the machine's initial numbers, no debug flags, and no collection
    /// running.
    ///
    /// Collecting is enabled, and the thresholds are CPython's 700, 10 and 10.
    /// (`gc.get_threshold`.)
    pub fn new() -> Policy
        ensures { result ≡ record { numbers = first_numbers; running = false } }
    {
        Policy {
            counts: Counts {
                zero: 0,
                one: 0,
                two: 0,
            },
            thresholds: Thresholds {
                zero: 700,
                one: 10,
                two: 10,
            },
            pending: 0,
            total: 0,
            enabled: true,
            flags: Flagset::empty(),
            running: false,
        }
    }

    /// An object was made: count 0 rises by 1. (`gc` manual, `gc.set_threshold`.)
    pub fn made(&mut self)
        requires { IsBounded (with_one_made self.old.numbers) }
        ensures { self.new ≡ with_numbers (with_one_made self.old.numbers) self.old }
    {
        self.counts.zero += 1;
    }

    /// An object was freed: count 0 falls by 1, and not below 0. (CPython's `PyObject_GC_Del`.)
    pub fn freed(&mut self)
        ensures { self.new ≡ with_numbers (with_one_freed self.old.numbers) self.old }
    {
        self.counts.zero = self.counts.zero.saturating_sub(1);
    }

    /// The generation of the collection that is due, 0 to 2, and None exactly if none is due.
    ///
    /// One is due if collecting is enabled, none is running, threshold 0 is not 0, and count 0 is
    /// above it (`gc.set_threshold`). The generation is the greatest whose count is above its
    /// threshold, but 2 is skipped if fewer objects are pending than a quarter of the total,
    /// rounded down (developer guide, "collecting the oldest generation").
    #[inline(always)]
    pub fn due(&self) -> Option<u8>
        ensures { result ≡ due_of self.now }
    {
        if self.has_enough() && !self.running {
            Some(self.oldest())
        } else {
            None
        }
    }

    // Whether the numbers alone make a collection due. Tests the count first, since it usually
    // decides.
    #[inline(always)]
    fn has_enough(&self) -> bool
        ensures { result ≡ is_due self.now.numbers }
    {
        self.counts.zero > u64::from(self.thresholds.zero)
            && self.thresholds.zero != 0
            && self.enabled
    }

    // The generation that the numbers select.
    fn oldest(&self) -> u8
        ensures { result ≡ due_generation self.now.numbers }
    {
        if self.counts.two > u64::from(self.thresholds.two)
            && self.pending >= u128::from(self.total / 4)
        {
            2
        } else if self.counts.one > u64::from(self.thresholds.one) {
            1
        } else {
            0
        }
    }

    /// A collection of a generation, 0 to 2, begins: its count and the younger ones become 0, the
    /// next one rises by 1, and a collection is running. (Developer guide, "generations".)
    pub fn begin(&mut self, generation: u8)
        requires generation { generation ≤ 2 }
        requires idle { self.old.running ≡ false }
        requires bounded { IsBounded (begun generation self.old.numbers) }
        ensures { self.new ≡ record {
          numbers = begun generation self.old.numbers;
          running = true;
        } }
    {
        self.counts.zero = 0;
        match generation {
            0 => self.counts.one += 1,
            1 => {
                self.counts.one = 0;
                self.counts.two += 1;
            }
            _ => {
                self.counts.one = 0;
                self.counts.two = 0;
            }
        }
        self.running = true;
    }

    /// `n` objects survived a collection of a generation. After generation 1 they are added to
    /// pending; after generation 2 pending is 0 and they are the total. (Developer guide,
    /// "collecting the oldest generation".)
    pub fn survived(&mut self, generation: u8, n: u64)
        requires { IsBounded (survived generation n self.old.numbers) }
        ensures { self.new ≡ with_numbers (survived generation n self.old.numbers) self.old }
    {
        match generation {
            0 => {}
            1 => self.pending += u128::from(n),
            _ => self.pending = 0,
        }
        if generation == 2 {
            self.total = n;
        }
    }

    /// The collection ends; none is running.
    pub fn ended(&mut self)
        ensures { self.new ≡ record self.old { running = false } }
    {
        self.running = false;
    }

    /// Whether a collection is running.
    #[inline(always)]
    pub fn running(&self) -> bool
        ensures { result ≡ self.now.running }
    {
        self.running
    }

    /// The three counts. (`gc.get_count`.)
    pub fn counts(&self) -> Counts
        ensures zero { result.zero ≡ self.now.numbers.zero_count }
        ensures one { result.one ≡ self.now.numbers.one_count }
        ensures two { result.two ≡ self.now.numbers.two_count }
    {
        self.counts
    }

    /// The debug flags. (`gc.get_debug`.)
    pub fn flags(&self) -> Flagset
        ensures { bits_of result ≡ self.now.numbers.flags }
    {
        self.flags
    }

    /// Sets the debug flags. (`gc.set_debug`.)
    pub fn set_flags(&mut self, flags: Flagset)
        ensures { self.new ≡ with_numbers (with_flags (bits_of flags) self.old.numbers) self.old }
    {
        self.flags = flags;
    }

    /// Switches automatic collections on or off. (`gc.enable`, `gc.disable`.)
    pub fn set_enabled(&mut self, on: bool)
        ensures { self.new ≡ with_numbers (with_enabled on self.old.numbers) self.old }
    {
        self.enabled = on;
    }

    /// Sets the thresholds of generations 0, 1 and 2; a missing one is kept. Threshold 0 set to 0
    /// disables automatic collections. (`gc.set_threshold`.)
    pub fn set_threshold(&mut self, first: u32, second: Option<u32>, third: Option<u32>)
        ensures { self.new
            ≡ with_numbers (with_thresholds first second third self.old.numbers) self.old }
    {
        self.thresholds.zero = first;
        if let Some(second) = second {
            self.thresholds.one = second;
        }
        if let Some(third) = third {
            self.thresholds.two = third;
        }
    }

    /// Sets all three counts to 0, as `gc.freeze` does.
    pub fn zero_counts(&mut self)
        ensures { self.new ≡ with_numbers (with_zero_counts self.old.numbers) self.old }
    {
        self.counts = Counts {
            zero: 0,
            one: 0,
            two: 0,
        };
    }
}
