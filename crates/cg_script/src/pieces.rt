//! Bytes between separators.
ghost use Rattle.std.specs.Prelude.{◌≡◌, ◌<◌, ◌∷◌, ◌++◌, ◌==◌, ◌||◌, [], ◌≤◌, length, map, filter, position, not, take, unwrap_or, true, vec_capacity};
ghost use Rattle.std.specs.List.{list_all};
ghost use Rattle.cg_script.specs.Pieces.{pieces, has_bytes, words_of, lines_of};
ghost use Rattle.cg_script.specs.Words.{is_printable};

use crate::limits::MOST_FOUND;

/// The words of a line, as slices of it: all of them, unless there are too many.
pub(crate) type Words<'a> = Vec<&'a [u8]>;

/// The first place of a byte.
fn place_of_byte(bytes: &[u8], byte: u8) -> Option<usize>
    ensures place { result ≡ position (λ b. b == byte) bytes.now }
{
    bytes.iter().position(|b| *b == byte)
}

/// The first piece, and what follows its separator.
#[tactic(auto, using(crate::proofs::Cuts::cut_at, crate::proofs::Cuts::cut_none))]
fn cut(bytes: &[u8], separator: u8) -> (&[u8], &[u8])
    requires { 0 < length bytes.now }
    ensures pieces { pieces separator bytes.now ≡ result.0.now ∷ pieces separator result.1.now }
    ensures shorter { length result.1.now < length bytes.now }
{
    match place_of_byte(bytes, separator) {
        Some(i) => (&bytes[..i], &bytes[i + 1..]),
        None => (bytes, &bytes[bytes.len()..]),
    }
}

/// Whether a byte may be part of a word: it is printable, and no space.
fn may_stand_in_word(byte: u8) -> bool
    ensures { result ≡ not (not (is_printable byte) || byte == 32) }
{
    (33..=126).contains(&byte)
}

/// Adds a piece of a line as a word, unless it is empty or there are too many.
fn push_word<'a>(words: &mut Words<'a>, piece: &'a [u8])
    requires few { length words.old.items ≤ MOST_FOUND }
    requires room { MOST_FOUND ≤ vec_capacity words.old }
    ensures room { vec_capacity words.new ≡ vec_capacity words.old }
    ensures words { map (λ w. w.now) words.new.items
        ≡ take MOST_FOUND (map (λ w. w.now) words.old.items ++ filter has_bytes (piece.now ∷ [])) }
{
    if words.len() == MOST_FOUND {
        return;
    }
    if !piece.is_empty() {
        words.push_reserved(piece);
    }
}

/// The first position of a byte that is not printable; a line feed is not. Puts the words before it
/// into an empty list.
fn find_words<'a>(bytes: &'a [u8], words: &mut Words<'a>) -> Option<usize>
    requires empty { words.old.items ≡ [] }
    requires room { MOST_FOUND ≤ vec_capacity words.old }
    ensures room { vec_capacity words.new ≡ vec_capacity words.old }
    ensures place { result ≡ position (λ b. not (is_printable b)) bytes.now }
    ensures words { map (λ w. w.now) words.new.items
        ≡ take MOST_FOUND (words_of (take (unwrap_or result (length bytes.now)) bytes.now)) }
{
    let mut start = 0;
    let mut at = 0;
    'bytes: while at < bytes.len() {
        let byte = bytes[at];
        if may_stand_in_word(byte) {
            at += 1;
            continue;
        }
        push_word(words, &bytes[start..at]);
        if byte != b' ' {
            return Some(at);
        }
        at += 1;
        start = at;
    }
    push_word(words, &bytes[start..]);
    None
}

/// The first line, what follows its line feed, and whether all bytes of the line are printable. If
/// so, puts its words into an empty list.
pub(crate) fn cut_line<'a>(bytes: &'a [u8], words: &mut Words<'a>) -> (&'a [u8], &'a [u8], bool)
    requires some { 0 < length bytes.now }
    requires empty { words.old.items ≡ [] }
    requires room { MOST_FOUND ≤ vec_capacity words.old }
    ensures room { vec_capacity words.new ≡ vec_capacity words.old }
    ensures lines { lines_of bytes.now ≡ result.0.now ∷ lines_of result.1.now }
    ensures shorter { length result.1.now < length bytes.now }
    ensures printable { result.2 ≡ list_all is_printable result.0.now }
    ensures words { result.2 ≡ true → map (λ w. w.now) words.new.items
        ≡ take MOST_FOUND (words_of result.0.now) }
{
    match find_words(bytes, words) {
        Some(i) => {
            if bytes[i] == b'\n' {
                (&bytes[..i], &bytes[i + 1..], true)
            } else {
                let (line, after) = cut(bytes, b'\n');
                (line, after, false)
            }
        }
        None => (bytes, &bytes[bytes.len()..], true),
    }
}
