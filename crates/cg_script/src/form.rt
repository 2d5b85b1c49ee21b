//! The table of forms: one row for each command and each declaration.
ghost use Rattle.std.specs.Prelude.{◌≡◌, true, slice_index_or};
ghost use Rattle.cg_script.specs.Forms.{row as row_of, row_seen, asks as asks_for, takes as takes_for, word_of as word_in, by_words, binds, bindings, openers, worded_forms, words_of_forms};
ghost use Rattle.cg_script.specs.Tables.{named as named_in};
ghost use Rattle.cg_script.specs.Alike.{forms_like};

/// A form of lines.
#[derive(Clone, Copy)]
pub enum Form {
    MakeList,
    MakeTuple,
    MakeDict,
    MakeInst,
    MakeFunc,
    MakeRef,
    Bind,
    Del,
    Append,
    SetItem,
    DelItem,
    Put,
    Remove,
    SetAttr,
    DelAttr,
    Item,
    Get,
    Attr,
    Deref,
    Call,
    Quit,
    Collect,
    Enable,
    Disable,
    Threshold,
    Flags,
    Freeze,
    Unfreeze,
    Print,
    Refs,
    Tracked,
    Finalized,
    Referents,
    Referrers,
    Why,
    Count,
    Gens,
    Profile,
    Shutdown,
    Budget,
    Class,
    Def,
    End,
}

/// What the place of a word asks for.
#[derive(Clone, Copy)]
pub enum Sort {
    /// The words of the form itself.
    Key,
    Variable,
    /// An attribute, or the name of a procedure or class that the line defines.
    Name,
    /// A class defined earlier.
    Class,
    /// A procedure defined earlier.
    Proc,
    /// `del=P` or `legacy=P`.
    Finalizer,
    Value,
    Number,
    /// 1 or 2.
    Profile,
    /// A count up to 100,000.
    Budget,
    /// A count up to 2,147,483,647.
    Count,
    /// A flag of `debug`.
    Flag,
}

/// What a form requires.
#[derive(Clone, Copy)]
pub(crate) struct FormRow {
    /// The word that selects it; empty for `x = v`.
    pub word: &'static [u8],
    /// Whether this word is reserved, so that no variable may have it.
    pub reserved: bool,
    /// The sorts of the first places; further places take values.
    pub places: &'static [Sort],
    /// The least number of words.
    pub fewest: usize,
    /// The greatest.
    pub most: usize,
}

fn asks(
    word: &'static [u8],
    reserved: bool,
    places: &'static [Sort],
    fewest: usize,
    most: usize,
) -> FormRow
    ensures { row_seen result ≡ asks_for word.now reserved places.now fewest most }
{
    FormRow {
        word,
        reserved,
        places,
        fewest,
        most,
    }
}

/// The row of a form whose word is reserved.
fn takes(word: &'static [u8], places: &'static [Sort], fewest: usize, most: usize) -> FormRow
    ensures { row_seen result ≡ takes_for word.now places.now fewest most }
{
    asks(word, true, places, fewest, most)
}

fn listed_row(form: Form) -> FormRow
    ensures { row_seen result ≡ row_of form }
{
    use Sort::{
        Budget, Class, Count, Finalizer, Flag, Key, Name, Number, Proc, Profile, Value, Variable,
    };
    match form {
        Form::MakeList => takes(b"list", &[Variable, Key, Key], 3, 64),
        Form::MakeTuple => takes(b"tuple", &[Variable, Key, Key], 4, 64),
        Form::MakeDict => takes(b"dict", &[Variable, Key, Key], 3, 3),
        Form::MakeInst => takes(b"new", &[Variable, Key, Key, Class], 4, 4),
        Form::MakeFunc => takes(b"func", &[Variable, Key, Key, Proc], 4, 12),
        Form::MakeRef => takes(b"ref", &[Variable, Key, Key, Value, Value], 4, 5),
        Form::Bind => asks(b"", false, &[Variable, Key, Value], 3, 3),
        Form::Del => takes(b"del", &[Key, Variable], 2, 2),
        Form::Append => takes(b"append", &[Key, Value, Value], 3, 3),
        Form::SetItem => takes(b"setitem", &[Key, Value, Number, Value], 4, 4),
        Form::DelItem => takes(b"delitem", &[Key, Value, Number], 3, 3),
        Form::Put => takes(b"put", &[Key, Value, Value, Value], 4, 4),
        Form::Remove => takes(b"drop", &[Key, Value, Value], 3, 3),
        Form::SetAttr => takes(b"setattr", &[Key, Value, Name, Value], 4, 4),
        Form::DelAttr => takes(b"delattr", &[Key, Value, Name], 3, 3),
        Form::Item => takes(b"item", &[Variable, Key, Key, Value, Number], 5, 5),
        Form::Get => takes(b"get", &[Variable, Key, Key, Value, Value], 5, 5),
        Form::Attr => takes(b"attr", &[Variable, Key, Key, Value, Name], 5, 5),
        Form::Deref => takes(b"deref", &[Variable, Key, Key, Value], 4, 4),
        Form::Call => takes(b"call", &[Key, Value], 2, 2),
        Form::Quit => takes(b"quit", &[Key, Value], 2, 2),
        Form::Collect => takes(b"collect", &[Key, Number], 1, 2),
        Form::Enable => takes(b"enable", &[Key], 1, 1),
        Form::Disable => takes(b"disable", &[Key], 1, 1),
        Form::Threshold => takes(b"threshold", &[Key, Count, Count, Count], 2, 4),
        Form::Flags => takes(b"debug", &[Key, Flag, Flag, Flag, Flag, Flag], 1, 6),
        Form::Freeze => takes(b"freeze", &[Key], 1, 1),
        Form::Unfreeze => takes(b"unfreeze", &[Key], 1, 1),
        Form::Print => takes(b"print", &[Key, Value], 2, 2),
        Form::Refs => takes(b"refs", &[Key, Value], 2, 2),
        Form::Tracked => takes(b"tracked", &[Key, Value], 2, 2),
        Form::Finalized => takes(b"finalized", &[Key, Value], 2, 2),
        Form::Referents => asks(b"referents", false, &[Key, Value], 2, 2),
        Form::Referrers => asks(b"referrers", false, &[Key, Value], 2, 2),
        Form::Why => asks(b"why", false, &[Key, Variable], 2, 2),
        Form::Count => takes(b"count", &[Key], 1, 1),
        Form::Gens => takes(b"gens", &[Key], 1, 1),
        Form::Profile => asks(b"profile", false, &[Key, Profile], 2, 2),
        Form::Shutdown => asks(b"shutdown", false, &[Key], 1, 1),
        Form::Budget => takes(b"budget", &[Key, Budget], 2, 2),
        Form::Class => takes(b"class", &[Key, Name, Finalizer, Finalizer], 2, 4),
        Form::Def => takes(b"def", &[Key, Name], 2, 2),
        Form::End => takes(b"end", &[Key], 1, 1),
    }
}

/// What a form asks for.
pub(crate) fn row_for(form: Form) -> FormRow
    ensures word { result.word.now ≡ (row_of form).word }
    ensures reserved { result.reserved ≡ (row_of form).reserved }
    ensures places { result.places.now ≡ (row_of form).places }
    ensures fewest { result.fewest ≡ (row_of form).fewest }
    ensures most { result.most ≡ (row_of form).most }
{
    listed_row(form)
}

/// The sort of a place, counted from 0, by the sorts of the first places.
#[inline(always)]
pub(crate) fn sort_in(places: &[Sort], place: usize) -> Sort
    ensures { result ≡ slice_index_or places.now place Sort.Value }
{
    match places.get(place) {
        Some(sort) => *sort,
        None => Sort::Value,
    }
}

/// The word of a form.
pub(crate) fn word_of(form: Form) -> &'static [u8]
    ensures { result.now ≡ word_in form }
{
    row_for(form).word
}

/// The form with this word among these.
#[inline(always)]
fn form_with(forms: &[Form], word: &[u8]) -> Option<Form>
    ensures { result ≡ named_in (by_words forms.now) word.now }
{
    'forms: for form in forms {
        if word == word_of(*form) {
            return Some(*form);
        }
    }
    None
}

/// The forms whose words begin with this byte and have this length.
fn forms_like(byte: u8, count: usize) -> &'static [Form]
    ensures { result.now ≡ forms_like byte count worded_forms }
{
    match (byte, count) {
        (b'a', 4) => &[Form::Attr],
        (b'a', 6) => &[Form::Append],
        (b'b', 6) => &[Form::Budget],
        (b'c', 4) => &[Form::Call],
        (b'c', 5) => &[Form::Count, Form::Class],
        (b'c', 7) => &[Form::Collect],
        (b'd', 3) => &[Form::Del, Form::Def],
        (b'd', 4) => &[Form::MakeDict, Form::Remove],
        (b'd', 5) => &[Form::Deref, Form::Flags],
        (b'd', 7) => &[Form::DelItem, Form::DelAttr, Form::Disable],
        (b'e', 3) => &[Form::End],
        (b'e', 6) => &[Form::Enable],
        (b'f', 4) => &[Form::MakeFunc],
        (b'f', 6) => &[Form::Freeze],
        (b'f', 9) => &[Form::Finalized],
        (b'g', 3) => &[Form::Get],
        (b'g', 4) => &[Form::Gens],
        (b'i', 4) => &[Form::Item],
        (b'l', 4) => &[Form::MakeList],
        (b'n', 3) => &[Form::MakeInst],
        (b'p', 3) => &[Form::Put],
        (b'p', 5) => &[Form::Print],
        (b'p', 7) => &[Form::Profile],
        (b'q', 4) => &[Form::Quit],
        (b'r', 3) => &[Form::MakeRef],
        (b'r', 4) => &[Form::Refs],
        (b'r', 9) => &[Form::Referents, Form::Referrers],
        (b's', 7) => &[Form::SetItem, Form::SetAttr],
        (b's', 8) => &[Form::Shutdown],
        (b't', 5) => &[Form::MakeTuple],
        (b't', 7) => &[Form::Tracked],
        (b't', 9) => &[Form::Threshold],
        (b'u', 8) => &[Form::Unfreeze],
        (b'w', 3) => &[Form::Why],
        _ => &[],
    }
}

/// The fewest bytes of the word of a form.
const FEWEST_BYTES: usize = 3;

/// The form that this word selects, for a line `x = ..` or another.
#[tactic(auto, using(crate::proofs::Found::short_names_none))]
#[inline(always)]
pub(crate) fn form_named(word: &[u8]) -> Option<Form>
    ensures { result ≡ named_in words_of_forms word.now }
{
    if word.len() < FEWEST_BYTES {
        return None;
    }
    let forms = forms_like(word[0], word.len());
    if forms.is_empty() {
        return None;
    }
    form_with(forms, word)
}

/// Whether a form is a line `x = ..` selected by a third word.
fn binds(form: Form) -> bool
    ensures { result ≡ binds form }
{
    matches!(
        form,
        Form::MakeList
            | Form::MakeTuple
            | Form::MakeDict
            | Form::MakeInst
            | Form::MakeFunc
            | Form::MakeRef
            | Form::Item
            | Form::Get
            | Form::Attr
            | Form::Deref
    )
}

/// The form of a line `x = ..` with this third word, unless it binds a value.
pub(crate) fn binding_named(word: &[u8]) -> Option<Form>
    ensures { result ≡ named_in bindings word.now }
{
    match form_named(word) {
        Some(form) => { if binds(form) { Some(form) } else { None } }
        None => None,
    }
}

/// The form of another line with this first word.
pub(crate) fn opener_named(word: &[u8]) -> Option<Form>
    ensures { result ≡ named_in openers word.now }
{
    match form_named(word) {
        Some(form) => { if binds(form) { None } else { Some(form) } }
        None => None,
    }
}
