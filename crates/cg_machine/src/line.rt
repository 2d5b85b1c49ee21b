//! The line of each event.
ghost use Rattle.std.specs.Prelude.{◌≡◌, ◌+◌, ◌≤◌, ◌++◌, [], length, codes, decimal};
ghost use Rattle.cg_machine.specs.Lines.{line, words_of, HasRoom, IsPrintable, IsPrintableValue, kind_text, sort_text, yes_or_no, serial_text, number_text, value_text};

use crate::event::{Event, FrameSort};
use arrayvec::ArrayString;
use cg_value::{KindCode, Names, Val};
use itoa::Buffer;

/// The longest line in bytes: the text of a value has at most 1,024.
pub const LONGEST_LINE: usize = 1100;

/// With less room than for one more line, a text has more bytes than the buffer of a `BufWriter`,
/// which then passes them on without a copy.
const ROOM: usize = 9300;

/// Room for the lines of some events.
pub type LineText = ArrayString<ROOM>;

/// The line of an event, with its line feed. A text that it prints must be one of `names`, with at
/// most 1,024 bytes.
pub fn line_of(event: &Event, names: &Names) -> LineText
    requires { IsPrintable names.now event.now }
    ensures { result.bytes ≡ line names.now event.now }
{
    let mut text = ArrayString::new();
    push_line(&mut text, event, names);
    text
}

/// Appends the line that `line_of` answers to a text that has room for the longest.
#[inline(always)]
pub fn push_line(text: &mut LineText, event: &Event, names: &Names)
    requires room { HasRoom text.old.bytes }
    requires printable { IsPrintable names.now event.now }
    ensures { text.new.bytes ≡ text.old.bytes ++ line names.now event.now }
{
    push_words(text, event, names);
    text.push_str("\n");
}

/// Appends a line without its line feed. One call for each form, all into the same buffer.
fn push_words(text: &mut LineText, event: &Event, names: &Names)
    requires room { HasRoom text.old.bytes }
    requires printable { IsPrintable names.now event.now }
    ensures words { text.new.bytes ≡ text.old.bytes ++ words_of names.now event.now }
    ensures short { length text.new.bytes ≤ length text.old.bytes + 1080 }
{
    match event {
        Event::Made { code, serial } => made(text, *code, *serial),
        Event::Enter { sort, serial } => enter(text, *sort, *serial),
        Event::Leave => plain(text, "leave"),
        Event::Cleared(serial) => about(text, "cleared #", *serial),
        Event::Free(serial) => about(text, "free #", *serial),
        Event::Alive(serial) => about(text, "alive #", *serial),
        Event::GcStart(generation) => counted(text, "gc start", u64::from(*generation)),
        Event::GcCollectable(serial) => about(text, "gc collectable #", *serial),
        Event::GcUncollectable(serial) => about(text, "gc uncollectable #", *serial),
        Event::GcSaved(serial) => about(text, "gc saved #", *serial),
        Event::GcStop {
            generation,
            collected,
            uncollectable,
        } => three(
            text,
            "gc stop",
            u64::from(*generation),
            *collected,
            *uncollectable,
        ),
        Event::Collected(number) => counted(text, "collected", *number),
        Event::Value(value) => printed(text, *value, names),
        Event::RefCount(number) => counted(text, "refs", *number),
        Event::Tracked(answer) => answered(text, "tracked ", *answer),
        Event::Finalized(answer) => answered(text, "finalized ", *answer),
        Event::Referent(serial) => about(text, "referent #", *serial),
        Event::Referrer(serial) => about(text, "referrer #", *serial),
        Event::Listed(number) => counted(text, "listed", *number),
        Event::Held(serial) => about(text, "held #", *serial),
        Event::Via(serial) => about(text, "via #", *serial),
        Event::Unreachable => plain(text, "unreachable"),
        Event::Count { zero, one, two } => three(text, "count", *zero, *one, *two),
        Event::Gens {
            zero,
            one,
            two,
            frozen,
        } => four(text, "gens", *zero, *one, *two, *frozen),
        Event::Refused(number) => counted(text, "refused", u64::from(*number)),
        Event::BudgetSpent => plain(text, "budget spent"),
        Event::Left(number) => counted(text, "left", *number),
        Event::End => plain(text, "end"),
    }
}

fn plain(text: &mut LineText, words: &str)
    requires room { HasRoom text.old.bytes }
    requires few { length words.now ≤ 100 }
    ensures bytes { text.new.bytes ≡ text.old.bytes ++ words.now }
    ensures short { length text.new.bytes ≤ length text.old.bytes + 100 }
{
    text.push_str(words);
}

#[inline(always)]
fn about(text: &mut LineText, words: &str, serial: u64)
    requires room { HasRoom text.old.bytes }
    requires few { length words.now ≤ 100 }
    ensures bytes { text.new.bytes ≡ text.old.bytes ++ (words.now ++ decimal serial) }
    ensures short { length text.new.bytes ≤ length text.old.bytes + 200 }
{
    text.push_str(words);
    text.push_str(Buffer::new().format(serial));
}

fn counted(text: &mut LineText, words: &str, number: u64)
    requires room { HasRoom text.old.bytes }
    requires few { length words.now ≤ 100 }
    ensures bytes { text.new.bytes ≡ text.old.bytes ++ (words.now ++ number_text number) }
    ensures short { length text.new.bytes ≤ length text.old.bytes + 200 }
{
    plain(text, words);
    push_number(text, number);
}

fn three(text: &mut LineText, words: &str, first: u64, second: u64, third: u64)
    requires room { HasRoom text.old.bytes }
    requires few { length words.now ≤ 100 }
    ensures bytes { text.new.bytes ≡ text.old.bytes ++ (words.now ++ number_text first
        ++ number_text second ++ number_text third) }
    ensures short { length text.new.bytes ≤ length text.old.bytes + 400 }
{
    counted(text, words, first);
    push_number(text, second);
    push_number(text, third);
}

fn four(text: &mut LineText, words: &str, first: u64, second: u64, third: u64, fourth: u64)
    requires room { HasRoom text.old.bytes }
    requires few { length words.now ≤ 100 }
    ensures bytes { text.new.bytes ≡ text.old.bytes ++ (words.now ++ number_text first
        ++ number_text second ++ number_text third ++ number_text fourth) }
    ensures short { length text.new.bytes ≤ length text.old.bytes + 500 }
{
    three(text, words, first, second, third);
    push_number(text, fourth);
}

fn answered(text: &mut LineText, words: &str, answer: bool)
    requires room { HasRoom text.old.bytes }
    requires few { length words.now ≤ 100 }
    ensures bytes { text.new.bytes ≡ text.old.bytes ++ (words.now ++ yes_or_no answer) }
    ensures short { length text.new.bytes ≤ length text.old.bytes + 200 }
{
    plain(text, words);
    text.push_str(if answer { "yes" } else { "no" });
}

fn made(text: &mut LineText, code: KindCode, serial: u64)
    requires room { HasRoom text.old.bytes }
    ensures bytes { text.new.bytes ≡ text.old.bytes ++ (codes "made " ++ kind_text code
        ++ serial_text serial) }
    ensures short { length text.new.bytes ≤ length text.old.bytes + 200 }
{
    about(text, made_words(code), serial);
}

fn enter(text: &mut LineText, sort: FrameSort, serial: u64)
    requires room { HasRoom text.old.bytes }
    ensures bytes { text.new.bytes ≡ text.old.bytes ++ (codes "enter " ++ sort_text sort
        ++ serial_text serial) }
    ensures short { length text.new.bytes ≤ length text.old.bytes + 200 }
{
    about(text, enter_words(sort), serial);
}

fn printed(text: &mut LineText, value: Val, names: &Names)
    requires room { HasRoom text.old.bytes }
    requires printable { IsPrintableValue names.now value }
    ensures bytes { text.new.bytes ≡ text.old.bytes ++ (codes "value "
        ++ value_text names.now value) }
    ensures short { length text.new.bytes ≤ length text.old.bytes + 1080 }
{
    plain(text, "value ");
    match value {
        Val::None => text.push_str("none"),
        Val::Int(number) => text.push_str(Buffer::new().format(number)),
        Val::Str(id) => {
            text.push_str("'");
            text.push_str(names.text(id));
        }
        Val::Ref(serial) => {
            text.push_str("#");
            text.push_str(Buffer::new().format(serial));
        }
    }
}

fn made_words(code: KindCode) -> &'static str
    ensures words { result.now ≡ codes "made " ++ kind_text code ++ codes " #" }
    ensures few { length result.now ≤ 100 }
{
    match code {
        KindCode::List => "made list #",
        KindCode::Tuple => "made tuple #",
        KindCode::Dict => "made dict #",
        KindCode::Inst => "made instance #",
        KindCode::Func => "made function #",
        KindCode::Weak => "made weakref #",
    }
}

fn enter_words(sort: FrameSort) -> &'static str
    ensures words { result.now ≡ codes "enter " ++ sort_text sort ++ codes " #" }
    ensures few { length result.now ≤ 100 }
{
    match sort {
        FrameSort::Del => "enter del #",
        FrameSort::Legacy => "enter legacy #",
        FrameSort::Callback => "enter callback #",
        FrameSort::Call => "enter call #",
    }
}

/// Appends ` n`.
fn push_number(text: &mut LineText, number: u64)
    requires { length text.old.bytes + 50 ≤ ROOM }
    ensures bytes { text.new.bytes ≡ text.old.bytes ++ number_text number }
    ensures short { length text.new.bytes ≤ length text.old.bytes + 41 }
{
    text.push_str(" ");
    text.push_str(Buffer::new().format(number));
}
