//! What is wrong with a line.
ghost use Rattle.std.specs.Prelude.{◌≡◌, ◌||◌, map, is_some};
ghost use Rattle.std.specs.List.{list_all, list_any};
ghost use Rattle.cg_script.specs.Words.{is_printable};
ghost use Rattle.cg_weakcoll.specs.Expansion.{word_count, is_value_beside, words_fit, is_finalize, form_fault, begins_with, is_kept, name_fault, fault_by, inside_after};

use crate::form::{Form, MOST_FORM_BYTES, has_word, is_passed_over, word_in};
use cg_script::{MOST_LINES, is_value, is_variable};

// What is wrong with a bad line.
const NOT_PRINTABLE: u8 = 1;

const WORD_COUNT: u8 = 3;

const WORD_FORM: u8 = 4;

const TOO_LONG: u8 = 5;

const MISPLACED: u8 = 7;

fn is_printable_text(bytes: &[u8]) -> bool
    ensures { result ≡ list_all is_printable bytes.now }
{
    bytes.iter().all(|byte| (32..=126).contains(byte))
}

/// How many words a line of this form has.
fn word_count(form: Form) -> usize
    ensures { result ≡ word_count form }
{
    match form {
        Form::MakeMap | Form::Remove | Form::Finalize => 3,
        Form::Set => 4,
        Form::Get => 5,
    }
}

/// A value other than the variable beside it.
fn is_value_beside(variable: &[u8], word: &[u8]) -> bool
    ensures { result ≡ is_value_beside variable.now word.now }
{
    is_value(word) && word != variable
}

/// Whether the words have the forms that their places require.
fn words_fit(form: Form, words: &[&[u8]]) -> bool
    ensures { result ≡ words_fit form (map (λ w. w.now) words.now) }
{
    match form {
        Form::MakeMap => is_variable(word_in(words, 0)),
        Form::Set => is_value(word_in(words, 1))
            && is_value(word_in(words, 2))
            && is_value(word_in(words, 3)),
        Form::Get => {
            let variable = word_in(words, 0);
            is_variable(variable)
                && is_value_beside(variable, word_in(words, 3))
                && is_value_beside(variable, word_in(words, 4))
        }
        Form::Remove | Form::Finalize => is_value(word_in(words, 1)) && is_value(word_in(words, 2)),
    }
}

pub(crate) fn is_finalize(form: Option<Form>) -> bool
    ensures { result ≡ is_finalize form }
{
    match form {
        Some(Form::Finalize) => true,
        _ => false,
    }
}

/// What is wrong with the form of the line with this number.
fn form_fault(form: Form, inside: bool, number: u32, line: &[u8], words: &[&[u8]]) -> Option<u8>
    ensures { result ≡ form_fault form inside number line.now (map (λ w. w.now) words.now) }
{
    if !is_printable_text(line) {
        return Some(NOT_PRINTABLE);
    }
    if line.len() > MOST_FORM_BYTES || number > MOST_LINES {
        return Some(TOO_LONG);
    }
    if words.len() != word_count(form) {
        return Some(WORD_COUNT);
    }
    if !words_fit(form, words) {
        return Some(WORD_FORM);
    }
    if is_finalize(Some(form)) && inside {
        return Some(MISPLACED);
    }
    None
}

fn begins_with(prefix: &[u8], word: &[u8]) -> bool
    ensures { result ≡ begins_with prefix.now word.now }
{
    word.strip_prefix(prefix).is_some()
}

/// Whether a word is a name reserved for expansions.
fn is_kept(word: &[u8]) -> bool
    ensures { result ≡ is_kept word.now }
{
    begins_with(b"wv_", word) || begins_with(b"del=wv_", word) || begins_with(b"legacy=wv_", word)
}

fn any_kept(words: &[&[u8]]) -> bool
    ensures { result ≡ list_any (λ w. is_kept w.now) words.now }
{
    words.iter().any(|word| is_kept(word))
}

/// Whether one of the words is.
fn has_kept(words: &[&[u8]]) -> bool
    ensures { result ≡ list_any is_kept (map (λ w. w.now) words.now) }
{
    any_kept(words)
}

/// What is wrong with the names of a line.
fn name_fault(words: &[&[u8]]) -> Option<u8>
    ensures { result ≡ name_fault (map (λ w. w.now) words.now) }
{
    if !is_passed_over(words) && has_kept(words) {
        Some(WORD_FORM)
    } else {
        None
    }
}

/// What is wrong with the line with this number, which has this form or none.
pub(crate) fn fault_by(
    form: Option<Form>,
    inside: bool,
    number: u32,
    line: &[u8],
    words: &[&[u8]],
) -> Option<u8>
    ensures { result ≡ fault_by form inside number line.now (map (λ w. w.now) words.now) }
{
    match form {
        Some(form) => form_fault(form, inside, number, line, words).or(name_fault(words)),
        None => name_fault(words),
    }
}

/// Whether a procedure is open after a line of these words.
pub(crate) fn inside_after(inside: bool, words: &[&[u8]]) -> bool
    ensures { result ≡ inside_after inside (map (λ w. w.now) words.now) }
{
    if has_word(words, 0, b"def") && !has_word(words, 1, b"=") {
        return true;
    }
    if has_word(words, 0, b"end") && words.len() == 1 {
        return false;
    }
    inside
}
