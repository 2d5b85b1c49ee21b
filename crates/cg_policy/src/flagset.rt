//! The debug flags. (`gc` manual, `gc.set_debug`.)
use bitflags::{Flag, Flags};

/// A set of debug flags: contracts see its bits as a number, `bits_of`.
///
/// `Flagset::from_bits` of the trait `Flags` makes it from bits, and returns None exactly if a bit
/// other than 1, 2, 4 and 32 is set. `Flagset::from_bits_retain` accepts any bits.
#[derive(Clone, Copy, Debug, PartialEq, Eq)]
pub struct Flagset(u32);

impl Flagset {
    /// Each collection prints the sizes of the generations at its start.
    pub const STATS: Flagset = Flagset(1);

    /// A collection prints the objects that it condemns.
    pub const COLLECTABLE: Flagset = Flagset(2);

    /// A collection prints the objects that it cannot free.
    pub const UNCOLLECTABLE: Flagset = Flagset(4);

    /// A collection saves what it finds in the garbage list instead of freeing it.
    pub const SAVEALL: Flagset = Flagset(32);

    /// The flags for finding leaks: COLLECTABLE, UNCOLLECTABLE and SAVEALL.
    pub const LEAK: Flagset = Flagset(38);

    const FLAGS: &'static [Flag<Flagset>] = &[
        Flag {
            name: "STATS",
            value: Flagset::STATS,
        },
        Flag {
            name: "COLLECTABLE",
            value: Flagset::COLLECTABLE,
        },
        Flag {
            name: "UNCOLLECTABLE",
            value: Flagset::UNCOLLECTABLE,
        },
        Flag {
            name: "SAVEALL",
            value: Flagset::SAVEALL,
        },
        Flag {
            name: "LEAK",
            value: Flagset::LEAK,
        },
    ];
}

impl Flags for Flagset {
    ghost use Rattle.std.specs.Prelude.{⊤};
    ghost use Rattle.cg_policy.specs.Flagset.{bits_of, flag_table};

    type Bits = u32;

    ghost exact = { ⊤ };

    ghost table = { flag_table };

    ghost set_of = { bits_of };

    fn flags<'a>() -> &'a [Flag<Flagset>] {
        Flagset::FLAGS
    }

    fn bits(&self) -> u32 {
        self.0
    }

    fn from_bits_retain(bits: u32) -> Flagset {
        Flagset(bits)
    }
}
