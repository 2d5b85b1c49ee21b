//! The lines that an expansion replaces.
ghost use Rattle.std.specs.Prelude.{◌≡◌, map};
ghost use Rattle.std.specs.Str.{bytes_eq};
ghost use Rattle.cg_script.specs.Pieces.{word_at, word_is};
ghost use Rattle.cg_script.specs.Meanings.{is_passed};
ghost use Rattle.cg_weakcoll.specs.Expansion.{binding_form, opening_form, form_of};

/// A form of replaced lines.
#[derive(Clone, Copy, Debug, PartialEq, Eq)]
pub(crate) enum Form {
    /// `x = wmap`: a weak value map.
    MakeMap,
    /// `wset M k v`: the map has the value v under the key.
    Set,
    /// `x = wget M k`: the value under the key, or none if it has died.
    Get,
    /// `wdrop M k`: removes the entry.
    Remove,
    /// `finalize y f`: f is called when y dies, or at the end of the script.
    Finalize,
}

/// The most bytes of a line of a form.
pub(crate) const MOST_FORM_BYTES: usize = 1000;

/// The word at this place, or no bytes after the last.
pub(crate) fn word_in<'a>(words: &[&'a [u8]], place: usize) -> &'a [u8]
    ensures { result.now ≡ word_at (map (λ w. w.now) words.now) place }
{
    match words.get(place) {
        Some(word) => *word,
        None => b"",
    }
}

fn is_text(word: &[u8], text: &[u8]) -> bool
    ensures { result ≡ bytes_eq word.now text.now }
{
    word == text
}

/// Whether the word at this place is this text.
pub(crate) fn has_word(words: &[&[u8]], place: usize, text: &[u8]) -> bool
    ensures { result ≡ word_is (map (λ w. w.now) words.now) place text.now }
{
    is_text(word_in(words, place), text)
}

/// Whether a line of these words is ignored: it is empty or a comment.
pub(crate) fn is_passed_over(words: &[&[u8]]) -> bool
    ensures { result ≡ is_passed (map (λ w. w.now) words.now) }
{
    match words.first() {
        None => true,
        Some(word) => word.first() == Some(&b'#'),
    }
}

/// The form that the third word of a line `x = ..` selects.
fn binding_form(word: &[u8]) -> Option<Form>
    ensures { result ≡ binding_form word.now }
{
    if is_text(word, b"wmap") {
        Some(Form::MakeMap)
    } else if is_text(word, b"wget") {
        Some(Form::Get)
    } else {
        None
    }
}

/// The form that the first word of any other line selects.
fn opening_form(word: &[u8]) -> Option<Form>
    ensures { result ≡ opening_form word.now }
{
    if is_text(word, b"wset") {
        Some(Form::Set)
    } else if is_text(word, b"wdrop") {
        Some(Form::Remove)
    } else if is_text(word, b"finalize") {
        Some(Form::Finalize)
    } else {
        None
    }
}

/// The form of a line of these words, if it has one and is not ignored.
pub(crate) fn form_of(words: &[&[u8]]) -> Option<Form>
    ensures { result ≡ form_of (map (λ w. w.now) words.now) }
{
    if is_passed_over(words) {
        return None;
    }
    if has_word(words, 1, b"=") {
        binding_form(word_in(words, 2))
    } else {
        opening_form(word_in(words, 0))
    }
}
