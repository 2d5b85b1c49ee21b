//! Reading decimal numbers.
ghost use Rattle.std.specs.Prelude.{◌≡◌, ◌≢◌, ◌<◌, ◌^◌, ◌++◌, ℕ, List, IfSome, IfNone, MatchOption};
ghost use Rattle.cg_snapshot.specs.Rows.{spaced, IsTail, Lacks};

use cg_records::{number_of_word, place_of};

/// The word at the front, up to a space, and the bytes after it.
pub(crate) fn cut_word(bytes: &[u8]) -> (&[u8], &[u8])
    ensures whole { bytes.now ≡ result.0.now ++ result.1.now }
    ensures word { Lacks 32 result.0.now }
    ensures tail { IsTail result.1.now }
{
    let end = place_of(bytes, b' ');
    (&bytes[..end], &bytes[end..])
}

/// The bytes after a prefix.
pub(crate) fn after<'a>(prefix: &[u8], bytes: &'a [u8]) -> Option<&'a [u8]>
    ensures { MatchOption result ((rest : List ℕ) → bytes.now ≢ prefix.now ++ rest)
        (λ rest. bytes.now ≡ prefix.now ++ rest.now) }
{
    bytes.strip_prefix(prefix)
}

/// The number after a space at the front, and the bytes after it.
pub(crate) fn read_spaced(bytes: &[u8]) -> Option<(u64, &[u8])>
    ensures found { IfSome result (λ read. bytes.now ≡ spaced read.0 ++ read.1.now) }
    ensures tail { IfSome result (λ read. IsTail read.1.now) }
    ensures fits { IfSome result (λ read. read.0 < 2 ^ 64) }
    ensures none { IfNone result ((number : ℕ) (rest : List ℕ) → number < 2 ^ 64 → IsTail rest
        → bytes.now ≢ spaced number ++ rest) }
{
    let behind = after(b" ", bytes)?;
    let (word, rest) = cut_word(behind);
    let number = number_of_word(word)?;
    Some((number, rest))
}
