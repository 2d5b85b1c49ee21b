//! The answer to a question.
ghost use Rattle.std.specs.Prelude.{false, ◌≡◌, ◌<◌, ◌^◌, true, length, OnOk, IfOk};
ghost use Rattle.std.specs.List.{AllByRecursion};
ghost use Rattle.cg_snapshot.specs.Text.{IsAsked, IsSmallMember};
ghost use Rattle.cg_ask.specs.Asked.{references_of};
ghost use Rattle.cg_ask.specs.Counted.{IsCounts, AreOutside};
ghost use Rattle.cg_ask.specs.Faults.{AreRight};
ghost use Rattle.cg_ask.specs.Told.{AppendsAnswer, AppendsWhole};

use crate::counts::Counts;
use crate::holds::{put_hidden, put_referrers};
use crate::sets::{put_dropped, put_kept, put_lost};
use crate::why::put_why;
use cg_snapshot::{Member, Question, put_question};
use std::alloc::{AllocError, Global};

/// Appends the lines of the answer to a question about members without faults.
fn put_lines(
    alloc: Global,
    members: &[Member],
    counts: &Counts,
    outside: &[u64],
    question: &Question,
    out: &mut Vec<u8>,
) -> Result<(), AllocError>
    requires counts { IsCounts members.now counts.now }
    requires outside { AreOutside members.now outside.now }
    requires right { AreRight members.now false }
    requires references { length (references_of members.now) < 2 ^ 64 }
    requires small { AllByRecursion IsSmallMember members.now }
    requires few { length members.now < 2 ^ 28 }
    requires asked { IsAsked (length members.now) question.now }
    ensures { OnOk result (AppendsAnswer members.now question.now out.old.items out.new.items) }
{
    match question {
        Question::Why(object, but) => {
            put_why(alloc, members, outside, *object, but.as_slice(), out)?;
            Ok(())
        }
        Question::Referrers(object) => {
            put_referrers(out, members, outside, *object)?;
            Ok(())
        }
        Question::Hidden => {
            put_hidden(out, members, counts, outside)?;
            Ok(())
        }
        Question::Lost => {
            put_lost(alloc, out, members, outside)?;
            Ok(())
        }
        Question::Dropped(places) => {
            put_dropped(alloc, out, members, outside, places.as_slice())?;
            Ok(())
        }
        Question::Untold => {
            put_kept(alloc, out, members, counts, outside)?;
            Ok(())
        }
    }
}

/// Appends the answer to a question about members without faults: the question as asked, the lines,
/// and `done`.
pub(crate) fn put_answer(
    alloc: Global,
    members: &[Member],
    counts: &Counts,
    outside: &[u64],
    question: &Question,
    out: &mut Vec<u8>,
) -> Result<(), AllocError>
    requires counts { IsCounts members.now counts.now }
    requires outside { AreOutside members.now outside.now }
    requires right { AreRight members.now false }
    requires references { length (references_of members.now) < 2 ^ 64 }
    requires small { AllByRecursion IsSmallMember members.now }
    requires few { length members.now < 2 ^ 28 }
    requires asked { IsAsked (length members.now) question.now }
    ensures { OnOk result (AppendsWhole members.now question.now out.old.items out.new.items) }
{
    put_question(out, question)?;
    put_lines(alloc, members, counts, outside, question, out)?;
    out.extend_from_slice(b"done\n")?;
    Ok(())
}
