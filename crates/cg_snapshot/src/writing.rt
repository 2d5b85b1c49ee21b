//! The line of a question.
ghost use Rattle.std.specs.Prelude.{◌≡◌, ◌++◌, ◌∷◌, [], decimal, OnOk};
ghost use Rattle.cg_snapshot.specs.Rows.{spaced, all_spaced, but_text};
ghost use Rattle.cg_snapshot.specs.Text.{question_text};

use crate::question::Question;
use itoa::Buffer;
use std::alloc::AllocError;

/// Appends a number after a space.
pub fn put_spaced(out: &mut Vec<u8>, number: u64) -> Result<(), AllocError>
    ensures { OnOk result (out.new.items ≡ out.old.items ++ spaced number) }
{
    out.push(b' ')?;
    out.extend_from_slice(Buffer::new().format(number).as_bytes())
}

/// Appends numbers of members, each after a space.
fn put_places(out: &mut Vec<u8>, places: &[usize]) -> Result<(), AllocError>
    ensures { OnOk result (out.new.items ≡ out.old.items ++ all_spaced places.now) }
{
    'places: for place in places {
        put_spaced(out, *place as u64)?;
    }
    Ok(())
}

/// Appends the members that the path must avoid.
fn put_without(out: &mut Vec<u8>, but: &[usize]) -> Result<(), AllocError>
    ensures { OnOk result (out.new.items ≡ out.old.items ++ but_text but.now) }
{
    if but.is_empty() {
        return Ok(());
    }
    out.extend_from_slice(b" but")?;
    put_places(out, but)
}

/// Appends a question as a line.
pub fn put_question(out: &mut Vec<u8>, question: &Question) -> Result<(), AllocError>
    ensures { OnOk result (out.new.items ≡ out.old.items ++ question_text question.now) }
{
    match question {
        Question::Why(place, but) => {
            out.extend_from_slice(b"why")?;
            put_spaced(out, *place as u64)?;
            put_without(out, but.as_slice())?;
            out.extend_from_slice(b"\n")
        }
        Question::Referrers(place) => {
            out.extend_from_slice(b"referrers")?;
            put_spaced(out, *place as u64)?;
            out.extend_from_slice(b"\n")
        }
        Question::Hidden => out.extend_from_slice(b"hidden\n"),
        Question::Lost => out.extend_from_slice(b"lost\n"),
        Question::Dropped(places) => {
            out.extend_from_slice(b"drop")?;
            put_places(out, places.as_slice())?;
            out.extend_from_slice(b"\n")
        }
        Question::Untold => out.extend_from_slice(b"untold\n"),
    }
}
