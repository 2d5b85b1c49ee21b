//! The forms of words.
ghost use Rattle.std.specs.Prelude.{◌≡◌, ◌≤◌, ◌&&◌, ◌||◌, nat_le, true, map, length, slice_index, if◌then◌else◌, Some, None, codes, option_map, pos, neg_ℤ};
ghost use Rattle.std.specs.List.{list_all};
ghost use Rattle.cg_script.specs.Tables.{named as named_in};
ghost use Rattle.cg_script.specs.Alike.{rows_like};
ghost use Rattle.cg_script.specs.Canonical.{word_with};
ghost use Rattle.cg_script.specs.Forms.{openers, bindings};
ghost use Rattle.cg_script.specs.Words.{is_graphic, is_digit, is_name_byte, begins_name, is_identifier, reserves, is_reserved, is_variable, is_quoted, has_minus, are_digits, decimal_value, is_number, number_of, is_count, is_profile, is_value, atoms, after_prefix, names_finalizer, names_legacy, flags};

use crate::command::Operand;
use crate::form::{Form, form_named, row_for};
use crate::limits::{MOST_COUNT, MOST_NAME_BYTES, MOST_PROFILE};
use crate::table::named;

fn may_begin_name(byte: u8) -> bool
    ensures { result ≡ begins_name byte }
{
    matches!(byte, b'A'..=b'Z' | b'a'..=b'z' | b'_')
}

fn may_stand_in_name(byte: u8) -> bool
    ensures { result ≡ is_name_byte byte }
{
    may_begin_name(byte) || byte.is_ascii_digit()
}

fn has_name_bytes(bytes: &[u8]) -> bool
    ensures { result ≡ list_all is_name_byte bytes.now }
{
    bytes.iter().all(|byte| may_stand_in_name(*byte))
}

/// Whether a word that begins like a name is one. The first byte is not checked again.
fn goes_on_as_name(word: &[u8]) -> bool
    requires { begins_name (slice_index word.now 0) ≡ true }
    ensures { result ≡ list_all is_name_byte word.now }
{
    has_name_bytes(&word[1..])
}

pub(crate) fn is_identifier_word(word: &[u8]) -> bool
    ensures { result ≡ is_identifier word.now }
{
    match word.first() {
        Some(first) => word.len() <= MOST_NAME_BYTES
            && may_begin_name(*first)
            && goes_on_as_name(word),
        None => false,
    }
}

/// Whether the word of a form is reserved.
fn reserves(form: Option<Form>) -> bool
    ensures { result ≡ reserves form }
{
    match form {
        Some(form) => row_for(form).reserved,
        None => false,
    }
}

/// Whether a word is the reserved one of a form.
#[tactic(auto, using(crate::proofs::Found::reserved_by_word))]
fn is_reserved_for_form(word: &[u8]) -> bool
    ensures { result ≡ (reserves (named_in openers word.now)
        || reserves (named_in bindings word.now)) }
{
    reserves(form_named(word))
}

/// Whether no variable may have this word: the language gives it a meaning.
fn is_reserved_word(word: &[u8]) -> bool
    ensures { result ≡ is_reserved word.now }
{
    atom(word).is_some() || is_reserved_for_form(word)
}

/// Whether a word may name a variable: 1 to 32 letters, digits and `_`, not beginning with a digit,
/// and not reserved. (Ours.)
#[inline(always)]
pub fn is_variable(word: &[u8]) -> bool
    ensures { result ≡ is_variable word.now }
{
    is_identifier_word(word) && !is_reserved_word(word)
}

/// Whether a word that begins like a name and is no keyword for a value may name a variable.
pub(crate) fn is_free_name(word: &[u8]) -> bool
    requires other { named_in atoms word.now ≡ None }
    requires begins { begins_name (slice_index word.now 0) ≡ true }
    ensures { result ≡ is_variable word.now }
{
    word.len() <= MOST_NAME_BYTES && goes_on_as_name(word) && !is_reserved_for_form(word)
}

/// Whether bytes are printable and contain no space.
pub(crate) fn is_graphic_text(bytes: &[u8]) -> bool
    ensures { result ≡ list_all is_graphic bytes.now }
{
    bytes.iter().all(|byte| (33..=126).contains(byte))
}

/// Printable bytes as text.
#[tactic(auto, using(crate::proofs::Ascii::graphic_is_text))]
pub(crate) fn text_of(word: &[u8]) -> &str
    requires { list_all is_graphic word.now ≡ true }
    ensures { result.now ≡ word.now }
{
    // Printable bytes are valid text; this skips a second check.
    unsafe { str::from_utf8_unchecked(word) }
}

/// A variable or another identifier as text.
#[tactic(auto, using(crate::proofs::Ascii::identifier_is_graphic))]
pub(crate) fn text_of_identifier(word: &[u8]) -> &str
    requires { is_identifier word.now ≡ true }
    ensures { result.now ≡ word.now }
{
    text_of(word)
}

/// Whether the word is a string.
pub(crate) fn is_quoted_word(word: &[u8]) -> bool
    ensures { result ≡ is_quoted word.now }
{
    word.first() == Some(&b'\'')
}

pub(crate) fn begins_as_name(word: &[u8]) -> bool
    ensures { result ≡ begins_name (slice_index word.now 0) }
{
    match word.first() {
        Some(first) => may_begin_name(*first),
        None => false,
    }
}

fn is_digit_byte(byte: u8) -> bool
    ensures { result ≡ is_digit byte }
{
    byte.is_ascii_digit()
}

fn has_digits_alone(word: &[u8]) -> bool
    ensures { result ≡ list_all is_digit word.now }
{
    word.iter().all(|byte| is_digit_byte(*byte))
}

fn are_digits_word(word: &[u8], most: usize) -> bool
    ensures { result ≡ are_digits most word.now }
{
    !word.is_empty() && word.len() <= most && has_digits_alone(word)
}

/// The most digits of a number.
const MOST_DIGITS: usize = 19;

/// The most digits of a count.
const MOST_COUNT_DIGITS: usize = 10;

/// The number that digits write.
fn decimal(digits: &[u8]) -> u64
    requires few { length digits.now ≤ MOST_DIGITS }
    requires all { list_all is_digit digits.now ≡ true }
    ensures { result ≡ decimal_value digits.now }
{
    let mut value: u64 = 0;
    'digits: for digit in digits {
        value = value * 10 + u64::from(*digit - b'0');
    }
    value
}

fn has_minus_sign(word: &[u8]) -> bool
    ensures { result ≡ has_minus word.now }
{
    word.first() == Some(&b'-')
}

/// The number that 1 to 19 digits write, unless it exceeds this.
fn digits_up_to(word: &[u8], most: u64) -> Option<u64>
    ensures { result ≡ (if are_digits 19 word.now && nat_le (decimal_value word.now) most then Some
        (decimal_value word.now) else None) }
{
    if !are_digits_word(word, MOST_DIGITS) {
        return None;
    }
    let number = decimal(word);
    if number <= most { Some(number) } else { None }
}

/// The number that a word writes, if any.
pub(crate) fn number_in(word: &[u8]) -> Option<i64>
    ensures { result ≡ (if is_number word.now then Some (number_of word.now) else None) }
{
    if has_minus_sign(word) {
        match digits_up_to(&word[1..], 9_223_372_036_854_775_808) {
            Some(number) => Some(negative(number)),
            None => None,
        }
    } else {
        match digits_up_to(word, 9_223_372_036_854_775_807) {
            Some(number) => Some(number as i64),
            None => None,
        }
    }
}

fn is_number_word(word: &[u8]) -> bool
    ensures { result ≡ is_number word.now }
{
    number_in(word).is_some()
}

/// The negated number.
fn negative(number: u64) -> i64
    requires { number ≤ 9223372036854775808 }
    ensures { result ≡ neg_ℤ (pos number) }
{
    if number == 9_223_372_036_854_775_808 {
        i64::MIN
    } else {
        -(number as i64)
    }
}

pub(crate) fn is_count_word(word: &[u8], most: u32) -> bool
    ensures { result ≡ is_count most word.now }
{
    are_digits_word(word, MOST_COUNT_DIGITS) && decimal(word) <= u64::from(most)
}

/// The count that a word writes.
pub(crate) fn count_of_word(word: &[u8]) -> u32
    requires digits { are_digits 10 word.now ≡ true }
    requires fits { decimal_value word.now ≤ MOST_COUNT }
    ensures { result ≡ decimal_value word.now }
{
    decimal(word) as u32
}

/// Whether a word is 1 or 2, as a count.
pub(crate) fn is_profile_word(word: &[u8]) -> bool
    ensures { result ≡ is_profile word.now }
{
    is_count_word(word, MOST_PROFILE) && count_of_word(word) >= 1
}

/// The cells of a function.
static CELLS: [(&[u8], Operand); 8] = [
    (b"c0", Operand::Cell(0)),
    (b"c1", Operand::Cell(1)),
    (b"c2", Operand::Cell(2)),
    (b"c3", Operand::Cell(3)),
    (b"c4", Operand::Cell(4)),
    (b"c5", Operand::Cell(5)),
    (b"c6", Operand::Cell(6)),
    (b"c7", Operand::Cell(7)),
];

/// The keywords for values that begin with this byte and have this length.
#[tactic(auto, unfolding(crate::specs::Words::atoms))]
fn atoms_like(byte: u8, count: usize) -> &'static [(&'static [u8], Operand)]
    ensures { map (λ row. (row.0.now, row.1)) result.now ≡ rows_like byte count atoms }
{
    match (byte, count) {
        (b'n', 4) => &[(b"none", Operand::None)],
        (b's', 4) => &[(b"self", Operand::SelfLocal)],
        (b'r', 3) => &[(b"ref", Operand::WeakLocal)],
        (b'g', 7) => &[(b"garbage", Operand::Garbage)],
        (b'c', 2) => &CELLS,
        _ => &[],
    }
}

/// The value of a keyword, for a nonempty word. Compares the word only with those of the same first
/// byte and length.
#[inline(always)]
fn atom_among_like(word: &[u8]) -> Option<Operand>
    requires { 1 ≤ length word.now }
    ensures { result ≡ named_in atoms word.now }
{
    let rows = atoms_like(word[0], word.len());
    if rows.is_empty() {
        return None;
    }
    named(rows, word)
}

/// The length of the shortest keyword for a value.
const FEWEST_ATOM_BYTES: usize = 2;

/// The value of a keyword. Most names are too short to be one.
#[inline(always)]
pub(crate) fn atom(word: &[u8]) -> Option<Operand>
    ensures { result ≡ named_in atoms word.now }
{
    if word.len() < FEWEST_ATOM_BYTES {
        return None;
    }
    atom_among_like(word)
}

/// Whether a word stands for a value: `none`, `self`, `ref`, `garbage`, `c0` to `c7`, a string, a
/// variable, or a whole number of 64 bits. A string contains no space. (Ours.)
pub fn is_value(word: &[u8]) -> bool
    ensures { result ≡ is_value word.now }
{
    if atom(word).is_some() {
        return true;
    }
    if is_quoted_word(word) {
        return is_graphic_text(word);
    }
    if begins_as_name(word) {
        return is_free_name(word);
    }
    is_number_word(word)
}

/// What follows a prefix of a word.
fn after<'a>(prefix: &[u8], word: &'a [u8]) -> Option<&'a [u8]>
    ensures { option_map (λ rest. rest.now) result ≡ after_prefix prefix.now word.now }
{
    word.strip_prefix(prefix)
}

/// The procedure in `del=P`.
pub(crate) fn after_del(word: &[u8]) -> Option<&[u8]>
    ensures { option_map (λ rest. rest.now) result ≡ after_prefix (codes "del=") word.now }
{
    after(b"del=", word)
}

/// The procedure in `legacy=P`.
pub(crate) fn after_legacy(word: &[u8]) -> Option<&[u8]>
    ensures { option_map (λ rest. rest.now) result ≡ after_prefix (codes "legacy=") word.now }
{
    after(b"legacy=", word)
}

pub(crate) fn names_finalizer_word(word: &[u8]) -> bool
    ensures { result ≡ names_finalizer word.now }
{
    match after_del(word) {
        Some(rest) => is_identifier_word(rest),
        None => false,
    }
}

pub(crate) fn names_legacy_word(word: &[u8]) -> bool
    ensures { result ≡ names_legacy word.now }
{
    match after_legacy(word) {
        Some(rest) => is_identifier_word(rest),
        None => false,
    }
}

/// The flags of `debug`, with their bits.
static FLAGS: [(&[u8], u32); 5] = [
    (b"stats", 1),
    (b"collectable", 2),
    (b"uncollectable", 4),
    (b"saveall", 32),
    (b"leak", 38),
];

/// The bits of a flag.
#[tactic(auto, unfolding(crate::specs::Words::flags))]
pub(crate) fn flag(word: &[u8]) -> Option<u32>
    ensures { result ≡ named_in flags word.now }
{
    named(&FLAGS, word)
}

/// The word of a flag, or no bytes where no flag has these bits.
#[tactic(auto, unfolding(crate::specs::Words::flags))]
pub(crate) fn flag_word(bits: u32) -> &'static [u8]
    ensures { result.now ≡ word_with flags bits }
{
    match bits {
        1 => b"stats",
        2 => b"collectable",
        4 => b"uncollectable",
        32 => b"saveall",
        38 => b"leak",
        _ => b"",
    }
}
