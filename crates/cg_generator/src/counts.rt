//! The counts of a tally.
ghost use Rattle.std.specs.Prelude.{◌≡◌, ◌<◌, ◌≤◌};
ghost use Rattle.cg_generator.specs.Tallies.{begins, largest};
ghost use Rattle.cg_generator.specs.Counting.{one_if, with_line, IsCount};

use crate::line::{begins_with, collected_in};

/// Counts of the lines of a text.
#[derive(Clone, Copy, Debug, PartialEq, Eq, Drop)]
pub struct Tally {
    /// The lines that begin with `made `.
    pub made: u64,
    /// The lines that begin with `free `.
    pub freed: u64,
    /// The lines that begin with `gc stop `.
    pub stops: u64,
    /// The sum of M over the lines `gc stop g M N`, at most 2^64 - 1.
    pub collected: u64,
    /// All lines.
    pub lines: u64,
}

/// The tally of no line.
pub(crate) const NONE: Tally = Tally {
    made: 0,
    freed: 0,
    stops: 0,
    collected: 0,
    lines: 0,
};

/// One for a line with this prefix.
fn one_if_begins(front: &[u8], line: &[u8]) -> u64
    ensures count { result ≡ one_if (begins front.now line.now) }
    ensures few { result ≤ 1 }
{
    u64::from(begins_with(front, line))
}

/// The tally with one more line.
pub(crate) fn with_one_line(tally: Tally, line: &[u8]) -> Tally
    requires count { IsCount tally }
    requires few { tally.lines < largest }
    ensures { result ≡ with_line tally line.now }
{
    Tally {
        made: tally.made + one_if_begins(b"made ", line),
        freed: tally.freed + one_if_begins(b"free ", line),
        stops: tally.stops + one_if_begins(b"gc stop ", line),
        collected: tally.collected.saturating_add(collected_in(line)),
        lines: tally.lines + 1,
    }
}
