//! What a line means by its words alone, without earlier lines.
ghost use Rattle.std.specs.Prelude.{◌≡◌, ◌<◌, ◌≤◌, ◌+◌, length, map, take, true, false, nat_lt, ◌||◌, ◌==◌};
ghost use Rattle.std.specs.List.{list_all};
ghost use Rattle.cg_script.specs.Pieces.{word_is, words_of};
ghost use Rattle.cg_script.specs.Words.{is_printable};
ghost use Rattle.cg_script.specs.Meanings.{binding_form, worded, is_passed, meaning};
ghost use Rattle.cg_script.specs.Views.{meaning_of};

use crate::form::{Form, binding_named, opener_named};
use crate::limits::{MOST_FOUND, MOST_LINE_BYTES, MOST_LINES, MOST_WORDS};

/// What a line means, apart from its words.
#[derive(Clone, Copy)]
pub(crate) enum Line {
    /// Nothing: it is ignored.
    Passed,
    /// Its words select this form; whether they fit it is checked later.
    Of(Form),
    /// It is bad, with this code.
    Bad(u8),
}

// What is wrong with a bad line.
const NOT_PRINTABLE: u8 = 1;

const UNKNOWN_FORM: u8 = 2;

pub(crate) const WORD_COUNT: u8 = 3;

const TOO_LONG: u8 = 5;

/// Whether the word at this place is this text.
fn has_word(words: &[&[u8]], place: usize, text: &[u8]) -> bool
    requires { place < length words.now }
    ensures { result ≡ word_is (map (λ w. w.now) words.now) place text.now }
{
    words[place] == text
}

/// The form of a line `x = ..` with a third word.
fn form_of_binding(words: &[&[u8]]) -> Form
    requires { 3 ≤ length words.now }
    ensures { result ≡ binding_form (map (λ w. w.now) words.now) }
{
    if has_word(words, 2, b"ref") && words.len() == 3 {
        return Form::Bind;
    }
    match binding_named(words[2]) {
        Some(form) => form,
        None => Form::Bind,
    }
}

/// A line of these words that is not ignored.
fn line_of_words(words: &[&[u8]]) -> Line
    requires { 1 ≤ length words.now }
    ensures { meaning_of result (map (λ w. w.now) words.now) ≡ worded (map (λ w. w.now) words.now) }
{
    if words.len() >= 2 && has_word(words, 1, b"=") {
        if words.len() == 2 {
            return Line::Bad(WORD_COUNT);
        }
        return Line::Of(form_of_binding(words));
    }
    match opener_named(words[0]) {
        Some(form) => Line::Of(form),
        None => Line::Bad(UNKNOWN_FORM),
    }
}

/// Whether a line of these words is ignored: it is empty or a comment.
fn is_passed_over(words: &[&[u8]]) -> bool
    ensures { result ≡ is_passed (map (λ w. w.now) words.now) }
{
    match words.first() {
        None => true,
        Some(word) => word.first() == Some(&b'#'),
    }
}

/// Whether a line is too long, has too many words, or is one too many.
fn is_too_long(number: u32, line: &[u8], words: &[&[u8]]) -> bool
    requires { map (λ w. w.now) words.now ≡ take MOST_FOUND (words_of line.now) }
    ensures long { result ≡ (nat_lt MOST_LINE_BYTES (length line.now)
        || nat_lt MOST_WORDS (length (words_of line.now)) || (number == MOST_LINES + 1)) }
    ensures words { result ≡ false → map (λ w. w.now) words.now ≡ words_of line.now }
{
    if words.len() > MOST_WORDS {
        return true;
    }
    line.len() > MOST_LINE_BYTES || number == MOST_LINES + 1
}

/// What the line with this number means, by its words, if all its bytes are printable.
#[tactic(auto, unfolding(crate::specs::Meanings::meaning))]
pub(crate) fn read_line(number: u32, line: &[u8], printable: bool, words: &[&[u8]]) -> Line
    requires printable { printable ≡ list_all is_printable line.now }
    requires words { printable ≡ true → map (λ w. w.now) words.now
        ≡ take MOST_FOUND (words_of line.now) }
    ensures { meaning_of result (map (λ w. w.now) words.now) ≡ meaning number line.now }
{
    if !printable {
        return Line::Bad(NOT_PRINTABLE);
    }
    if is_too_long(number, line, words) {
        return Line::Bad(TOO_LONG);
    }
    if is_passed_over(words) {
        return Line::Passed;
    }
    line_of_words(words)
}
