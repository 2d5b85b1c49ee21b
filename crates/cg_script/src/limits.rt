//! The limits of the language. (Ours.)

/// The most lines of a script.
pub const MOST_LINES: u32 = 400_000;

/// The most bytes of a line.
pub const MOST_LINE_BYTES: usize = 1024;

/// The most words of a line.
pub const MOST_WORDS: usize = 64;

/// The most words that are looked for in a line: one more than allowed, to detect too many.
pub(crate) const MOST_FOUND: usize = MOST_WORDS + 1;

/// The most texts of a script: as many as words fit in its lines.
pub const MOST_TEXTS: u32 = 25_600_000;

/// The most bytes of an identifier.
pub const MOST_NAME_BYTES: usize = 32;

/// The greatest profile.
pub const MOST_PROFILE: u32 = 2;

/// The most frames in a budget.
pub const MOST_BUDGET: u32 = 100_000;

/// The greatest count, for example of a threshold.
pub const MOST_COUNT: u32 = 2_147_483_647;
