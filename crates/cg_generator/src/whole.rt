//! The tally of a text.
ghost use Rattle.std.specs.Prelude.{◌≡◌, ◌<◌, ◌∷◌, ◌==◌, length, position};
ghost use Rattle.cg_script.specs.Pieces.{lines_of};
ghost use Rattle.cg_generator.specs.Tallies.{tally_of};

use crate::counts::{NONE, Tally, with_one_line};

/// The place of the first line feed.
fn first_line_feed(bytes: &[u8]) -> Option<usize>
    ensures { result ≡ position (λ b. b == 10) bytes.now }
{
    bytes.iter().position(|byte| *byte == b'\n')
}

/// The first line, and what follows its line feed.
fn cut_line(bytes: &[u8]) -> (&[u8], &[u8])
    requires { 0 < length bytes.now }
    ensures lines { lines_of bytes.now ≡ result.0.now ∷ lines_of result.1.now }
    ensures shorter { length result.1.now < length bytes.now }
{
    match first_line_feed(bytes) {
        Some(end) => (&bytes[..end], &bytes[end + 1..]),
        None => (bytes, &bytes[bytes.len()..]),
    }
}

/// The tally of a text. A line feed ends a line; a last line without one counts if it is not empty.
/// (Ours.)
pub fn tally(text: &[u8]) -> Tally
    ensures { result ≡ tally_of text.now }
{
    let mut counts = NONE;
    let mut rest = text;
    'lines: while !rest.is_empty() {
        let (line, behind) = cut_line(rest);
        counts = with_one_line(counts, line);
        rest = behind;
    }
    counts
}
