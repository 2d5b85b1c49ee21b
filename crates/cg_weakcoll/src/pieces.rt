//! Lines and words of some bytes.
ghost use Rattle.std.specs.Prelude.{◌≡◌, ◌<◌, ◌∷◌, ◌==◌, length, map, position, OnOk};
ghost use Rattle.cg_script.specs.Pieces.{pieces, words_of};

use std::alloc::AllocError;

/// The first place of a byte.
fn place_of_byte(bytes: &[u8], byte: u8) -> Option<usize>
    ensures place { result ≡ position (λ b. b == byte) bytes.now }
{
    bytes.iter().position(|b| *b == byte)
}

/// The first piece, and what follows its separator.
pub(crate) fn cut(bytes: &[u8], separator: u8) -> (&[u8], &[u8])
    requires { 0 < length bytes.now }
    ensures pieces { pieces separator bytes.now ≡ result.0.now ∷ pieces separator result.1.now }
    ensures shorter { length result.1.now < length bytes.now }
{
    match place_of_byte(bytes, separator) {
        Some(i) => (&bytes[..i], &bytes[i + 1..]),
        None => (bytes, &bytes[bytes.len()..]),
    }
}

/// Finds the words of a line in order, replacing those of another.
pub(crate) fn find_words<'a>(line: &'a [u8], words: &mut Vec<&'a [u8]>) -> Result<(), AllocError>
    ensures { OnOk result (map (λ w. w.now) words.new.items ≡ words_of line.now) }
{
    words.clear();
    let mut rest = line;
    'pieces: while !rest.is_empty() {
        let (word, after) = cut(rest, b' ');
        if !word.is_empty() {
            words.push(word)?;
        }
        rest = after;
    }
    Ok(())
}
