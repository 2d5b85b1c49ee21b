//! What the words of a line stand for, and what a line says.
ghost use Rattle.std.specs.Prelude.{◌≡◌, ◌&&◌, ◌+◌, ◌-◌, ◌^◌, ◌<◌, ◌≤◌, true, [], length, map, codes, if◌then◌else◌, slice_index, is_some, unwrap_or, Ok, Some, None, IfOk, OnOk};
ghost use Rattle.std.specs.List.{list_all};
ghost use Rattle.cg_value.specs.Texts.{with_text, text_number};
ghost use Rattle.cg_script.specs.declared.command.Operand.TheVariants.{Str, Name as NameOf, Int};
ghost use Rattle.cg_script.specs.declared.part.Part.TheVariants.{Text, Value as ValueOf, Number as NumberOf, Count as CountOf};
ghost use Rattle.cg_script.specs.Tables.{named as named_in};
ghost use Rattle.cg_script.specs.Words.{begins_name, is_value, is_variable, is_identifier, is_graphic, is_quoted, string_text, is_number, number_of, are_digits, decimal_value, atoms, after_prefix, flags};
ghost use Rattle.cg_script.specs.Meanings.{fits, repeats_finalizer, formed, code_of};
ghost use Rattle.cg_script.specs.Parts.{text_in, with_text_if, value_text, operand_or, numbered, finalizer, legacy, defined_number, finalizer_of, part_of, parts_from, texts_from, has_unknown, names_defined};

use crate::command::{Command, Operand};
use crate::form::{Form, Sort, row_for, sort_in};
use crate::item::Item;
use crate::lexicon::Lexicon;
use crate::limits::{MOST_BUDGET, MOST_COUNT, MOST_WORDS};
use crate::line::WORD_COUNT;
use crate::word::{
    after_del, after_legacy, atom, begins_as_name, count_of_word, flag, is_count_word,
    is_free_name, is_graphic_text, is_identifier_word, is_profile_word, is_quoted_word,
    is_variable, names_finalizer_word, names_legacy_word, number_in, text_of, text_of_identifier,
};
use cg_value::Names;
use std::alloc::AllocError;

/// What a word of a line stands for.
#[derive(Clone, Copy, Default)]
pub enum Part {
    /// Nothing besides the form.
    #[default]
    Bare,
    /// A text, by its number.
    Text(u32),
    /// A value.
    Value(Operand),
    /// A number.
    Number(i64),
    /// A count, the bits of a flag, or the number of a procedure or class.
    Count(u32),
    /// `del=P`, with the number of the procedure.
    Finalizer(u32),
    /// `legacy=P`, with the number of the procedure.
    Legacy(u32),
    /// A procedure or class that no earlier line defines.
    Unknown,
}

/// What a line says.
#[derive(Drop)]
pub enum Said {
    /// A declaration of one line.
    Declares(Item),
    /// `def P`, with the number of the name.
    Begins(u32),
    /// `end`
    Ends,
    /// A command.
    Does(Command),
}

/// The parts of a line.
pub(crate) type Parts = Vec<Part>;

/// What a string stands for, unless it has a byte that is not printable, or a space.
fn read_string(word: &[u8], names: &mut Lexicon) -> Result<Option<Operand>, AllocError>
    requires quoted { is_quoted word.now ≡ true }
    requires room { length names.old < 2 ^ 32 - 1 }
    ensures operand { IfOk result (λ operand. operand
        ≡ (if list_all is_graphic word.now then Some
        (Str (text_number names.old (string_text word.now))) else None)) }
    ensures texts { OnOk result (list_all is_graphic word.now ≡ true → names.new
        ≡ with_text names.old (string_text word.now)) }
{
    if !is_graphic_text(word) {
        return Ok(None);
    }
    Ok(Some(Operand::Str(names.intern(text_of(&word[1..]))?)))
}

/// What a word that begins like a name and is no keyword for a value stands for, if it is a
/// variable.
fn read_name(word: &[u8], names: &mut Lexicon) -> Result<Option<Operand>, AllocError>
    requires other { named_in atoms word.now ≡ None }
    requires begins { begins_name (slice_index word.now 0) ≡ true }
    requires room { length names.old < 2 ^ 32 - 1 }
    ensures operand { IfOk result (λ operand. operand
        ≡ (if is_variable word.now then Some (NameOf (text_number names.old word.now)) else None)) }
    ensures texts { OnOk result (is_variable word.now ≡ true → names.new
        ≡ with_text names.old word.now) }
{
    if !is_free_name(word) {
        return Ok(None);
    }
    Ok(Some(Operand::Name(names.learn(word)?)))
}

fn read_whole(word: &[u8]) -> Option<Operand>
    ensures { result ≡ (if is_number word.now then Some (Int (number_of word.now)) else None) }
{
    match number_in(word) {
        Some(number) => Some(Operand::Int(number)),
        None => None,
    }
}

/// What a word stands for if it is a value; its text is added to the names.
fn read_value(word: &[u8], names: &mut Lexicon) -> Result<Option<Operand>, AllocError>
    requires room { length names.old < 2 ^ 32 - 1 }
    ensures operand { IfOk result (λ operand. operand
        ≡ (if is_value word.now then Some (operand_or (named_in atoms word.now) names.old word.now)
        else None)) }
    ensures texts { OnOk result (is_value word.now ≡ true → names.new ≡ with_text_if names.old
        (value_text (named_in atoms word.now) word.now)) }
{
    if let Some(number) = names.remembered(word) {
        return Ok(Some(Operand::Name(number)));
    }
    if let Some(operand) = atom(word) {
        return Ok(Some(operand));
    }
    if is_quoted_word(word) {
        return read_string(word, names);
    }
    if begins_as_name(word) {
        return read_name(word, names);
    }
    Ok(read_whole(word))
}

/// The number of a procedure or class, if the word may name one.
#[inline(always)]
fn read_defined(names: &Names, word: &[u8]) -> Option<Part>
    ensures { result
        ≡ (if is_identifier word.now then Some (numbered (defined_number names.now word.now)) else
        None) }
{
    if !is_identifier_word(word) {
        return None;
    }
    match names.find(text_of_identifier(word)) {
        Some(number) => Some(Part::Count(number)),
        None => Some(Part::Unknown),
    }
}

fn read_legacy(procs: &Names, name: &[u8]) -> Part
    requires { is_identifier name.now ≡ true }
    ensures { result ≡ legacy (defined_number procs.now name.now) }
{
    match procs.find(text_of_identifier(name)) {
        Some(number) => Part::Legacy(number),
        None => Part::Unknown,
    }
}

fn read_del(procs: &Names, name: &[u8]) -> Part
    requires { is_identifier name.now ≡ true }
    ensures { result ≡ finalizer (defined_number procs.now name.now) }
{
    match procs.find(text_of_identifier(name)) {
        Some(number) => Part::Finalizer(number),
        None => Part::Unknown,
    }
}

/// What `del=P` or `legacy=P` stands for.
fn finalizer_in(procs: &Names, word: &[u8]) -> Part
    requires { fits Sort.Finalizer word.now ≡ true }
    ensures { result ≡ finalizer_of procs.now (after_prefix (codes "del=") word.now) word.now }
{
    if let Some(name) = after_del(word) {
        return read_del(procs, name);
    }
    match after_legacy(word) {
        Some(name) => read_legacy(procs, name),
        None => Part::Bare,
    }
}

/// What a word stands for if it is `del=P` or `legacy=P`.
fn read_finalizer(procs: &Names, word: &[u8]) -> Option<Part>
    ensures { result
        ≡ (if fits Sort.Finalizer word.now then Some
        (finalizer_of procs.now (after_prefix (codes "del=") word.now) word.now) else None) }
{
    if !names_finalizer_word(word) && !names_legacy_word(word) {
        return None;
    }
    Some(finalizer_in(procs, word))
}

/// What a word stands for if it may name a variable; its text is added to the names.
#[inline(always)]
fn read_variable(word: &[u8], names: &mut Lexicon) -> Result<Option<Part>, AllocError>
    requires room { length names.old < 2 ^ 32 - 1 }
    ensures part { IfOk result (λ part. part
        ≡ (if is_variable word.now then Some (Text (text_number names.old word.now)) else None)) }
    ensures texts { OnOk result (is_variable word.now ≡ true → names.new
        ≡ with_text names.old word.now) }
{
    if let Some(number) = names.remembered(word) {
        return Ok(Some(Part::Text(number)));
    }
    if !is_variable(word) {
        return Ok(None);
    }
    Ok(Some(Part::Text(names.learn(word)?)))
}

/// What a word stands for if it may name an attribute, a procedure or a class; its text is added to
/// the names.
fn read_identifier(word: &[u8], names: &mut Lexicon) -> Result<Option<Part>, AllocError>
    requires room { length names.old < 2 ^ 32 - 1 }
    ensures part { IfOk result (λ part. part
        ≡ (if is_identifier word.now then Some (Text (text_number names.old word.now)) else None)) }
    ensures texts { OnOk result (is_identifier word.now ≡ true → names.new
        ≡ with_text names.old word.now) }
{
    if let Some(number) = names.remembered(word) {
        return Ok(Some(Part::Text(number)));
    }
    if is_variable(word) {
        return Ok(Some(Part::Text(names.learn(word)?)));
    }
    if !is_identifier_word(word) {
        return Ok(None);
    }
    Ok(Some(Part::Text(names.intern(text_of_identifier(word))?)))
}

/// The count that a word writes, if any.
fn read_count(fits: bool, word: &[u8]) -> Option<Part>
    requires digits { fits ≡ true → are_digits 10 word.now ≡ true }
    requires few { fits ≡ true → decimal_value word.now ≤ MOST_COUNT }
    ensures { result ≡ (if fits then Some (CountOf (decimal_value word.now)) else None) }
{
    if !fits {
        return None;
    }
    Some(Part::Count(count_of_word(word)))
}

/// What a word stands for if it is a value.
fn read_value_part(word: &[u8], names: &mut Lexicon) -> Result<Option<Part>, AllocError>
    requires room { length names.old < 2 ^ 32 - 1 }
    ensures part { IfOk result (λ part. part
        ≡ (if is_value word.now then Some (ValueOf (operand_or (named_in atoms word.now) names.old
        word.now)) else None)) }
    ensures texts { OnOk result (is_value word.now ≡ true → names.new ≡ with_text_if names.old
        (value_text (named_in atoms word.now) word.now)) }
{
    match read_value(word, names)? {
        Some(operand) => Ok(Some(Part::Value(operand))),
        None => Ok(None),
    }
}

fn read_number(word: &[u8]) -> Option<Part>
    ensures { result ≡ (if is_number word.now then Some (NumberOf (number_of word.now)) else None) }
{
    match number_in(word) {
        Some(number) => Some(Part::Number(number)),
        None => None,
    }
}

fn read_flag(word: &[u8]) -> Option<Part>
    ensures { result ≡ (if is_some (named_in flags word.now) then Some
        (CountOf (unwrap_or (named_in flags word.now) 0)) else None) }
{
    match flag(word) {
        Some(bits) => Some(Part::Count(bits)),
        None => None,
    }
}

/// What a word stands for at its place, if it has the form required there; its text is added to the
/// names.
fn read_part(
    sort: Sort,
    word: &[u8],
    names: &mut Lexicon,
    procs: &Names,
    classes: &Names,
) -> Result<Option<Part>, AllocError>
    requires room { length names.old < 2 ^ 32 - 1 }
    ensures part { IfOk result (λ part. part
        ≡ (if fits sort word.now then Some (part_of procs.now classes.now names.old sort word.now)
        else None)) }
    ensures texts { OnOk result (fits sort word.now ≡ true → names.new ≡ with_text_if names.old
        (text_in sort word.now)) }
{
    match sort {
        Sort::Key => Ok(Some(Part::Bare)),
        Sort::Variable => read_variable(word, names),
        Sort::Name => read_identifier(word, names),
        Sort::Class => Ok(read_defined(classes, word)),
        Sort::Proc => Ok(read_defined(procs, word)),
        Sort::Finalizer => Ok(read_finalizer(procs, word)),
        Sort::Value => read_value_part(word, names),
        Sort::Number => Ok(read_number(word)),
        Sort::Profile => Ok(read_count(is_profile_word(word), word)),
        Sort::Budget => Ok(read_count(is_count_word(word, MOST_BUDGET), word)),
        Sort::Count => Ok(read_count(is_count_word(word, MOST_COUNT), word)),
        Sort::Flag => Ok(read_flag(word)),
    }
}

/// Whether a class has two finalizers, or two legacy finalizers.
fn has_two_alike(form: Form, words: &[&[u8]]) -> bool
    ensures { result ≡ repeats_finalizer form (map (λ w. w.now) words.now) }
{
    match form {
        Form::Class => words.len() == 4
            && ((names_finalizer_word(words[2]) && names_finalizer_word(words[3]))
                || (names_legacy_word(words[2]) && names_legacy_word(words[3]))),
        _ => false,
    }
}

/// A word has the wrong form for its place.
const WORD_FORM: u8 = 4;

/// Reads the parts of a line of this form into an empty list, or answers the code of what is wrong
/// with its words in themselves.
pub(crate) fn read_parts(
    parts: &mut Parts,
    form: Form,
    words: &[&[u8]],
    names: &mut Lexicon,
    procs: &Names,
    classes: &Names,
) -> Result<Option<u8>, AllocError>
    requires empty { parts.old.items ≡ [] }
    requires room { length names.old + MOST_WORDS < 2 ^ 32 - 1 }
    ensures fault { IfOk result (λ code. code ≡ code_of (formed form (map (λ w. w.now) words.now))) }
    ensures parts { result ≡ Ok None → parts.new.items ≡ parts_from procs.now classes.now names.old
        form 0 (map (λ w. w.now) words.now) }
    ensures texts { result ≡ Ok None → names.new ≡ texts_from names.old form 0
        (map (λ w. w.now) words.now) }
    ensures few_texts { result ≡ Ok None → length names.new ≤ length names.old + MOST_WORDS }
{
    let row = row_for(form);
    if words.len() < row.fewest || row.most < words.len() {
        return Ok(Some(WORD_COUNT));
    }
    'places: for place in 0..words.len() {
        match read_part(
            sort_in(row.places, place),
            words[place],
            names,
            procs,
            classes,
        )? {
            Some(part) => parts.push(part)?,
            None => return Ok(Some(WORD_FORM)),
        }
    }
    if has_two_alike(form, words) {
        return Ok(Some(WORD_FORM));
    }
    Ok(None)
}

/// Whether a line of this form may name a procedure or class.
fn may_name_defined(form: Form) -> bool
    ensures { result ≡ names_defined form }
{
    matches!(form, Form::MakeInst | Form::MakeFunc | Form::Class)
}

fn has_unknown_part(parts: &[Part]) -> bool
    ensures { result ≡ has_unknown parts.now }
{
    parts.iter().any(|part| matches!(part, Part::Unknown))
}

/// Whether it names a procedure or class that no earlier line defines. Most lines have forms that
/// cannot: their parts are not checked.
pub(crate) fn names_unknown(form: Form, parts: &[Part]) -> bool
    ensures { result ≡ (names_defined form && has_unknown parts.now) }
{
    may_name_defined(form) && has_unknown_part(parts)
}
