//! A snapshot under construction: what was read so far, and which lines may follow.
ghost use Rattle.std.specs.Prelude.{◌≡◌, nat_lt, IfOk};
ghost use Rattle.cg_graph.specs.Member.{includes};
ghost use Rattle.cg_snapshot.specs.Reading.{are_below, is_asked, before, inside, behind, step};

use crate::heap::{Member, Members};
use crate::line::Line;
use crate::places::Places;
use crate::question::{Question, Questions};
use std::alloc::{AllocError, Global};

/// The position of the next line in the text.
#[derive(Clone, Copy, Drop)]
pub(crate) enum Stage {
    /// Before the heap.
    Before,
    /// Among its members.
    Inside,
    /// After its end, among the questions.
    Behind,
}

/// What was read so far, and the position of the next line.
#[derive(Drop)]
pub(crate) struct Draft {
    pub members: Members,
    pub questions: Questions,
    pub stage: Stage,
}

/// Whether all these are places of members, given how many there are.
fn all_below(count: usize, places: &[usize]) -> bool
    ensures { result ≡ are_below count places.now }
{
    places.iter().all(|place| *place < count)
}

/// Whether a question is about members, given how many there are, and no path question excludes its
/// own end.
fn is_asked_of(count: usize, question: &Question) -> bool
    ensures { result ≡ is_asked count question.now }
{
    match question {
        Question::Why(place, but) => {
            *place < count && all_below(count, but.as_slice()) && !but.as_slice().contains(place)
        }
        Question::Referrers(place) => *place < count,
        Question::Dropped(places) => all_below(count, places.as_slice()),
        Question::Hidden | Question::Lost | Question::Untold => true,
    }
}

/// A line before the heap.
fn step_before(members: Members, questions: Questions, line: Line) -> Option<Draft>
    ensures { result ≡ before members questions line }
{
    match line {
        Line::Opens => Some(Draft {
            members,
            questions,
            stage: Stage::Inside,
        }),
        _ => None,
    }
}

/// A line among the members, or the one after them.
fn step_inside(
    alloc: Global,
    mut members: Members,
    questions: Questions,
    line: Line,
) -> Result<Option<Draft>, AllocError>
    ensures { IfOk result (λ next. next ≡ inside members questions line) }
{
    match line {
        Line::Tells(degree, size, tracked, legacy, refs) => {
            let untold = Places::new(Vec::new(alloc));
            members.push(Member {
                degree,
                size,
                tracked,
                legacy,
                refs,
                untold,
            })?;
            Ok(Some(Draft {
                members,
                questions,
                stage: Stage::Inside,
            }))
        }
        Line::Adds(words) => {
            if members.add_untold(words)? {
                Ok(Some(Draft {
                    members,
                    questions,
                    stage: Stage::Inside,
                }))
            } else {
                Ok(None)
            }
        }
        Line::Closes => Ok(Some(Draft {
            members,
            questions,
            stage: Stage::Behind,
        })),
        _ => Ok(None),
    }
}

/// A line among the questions.
fn step_behind(
    members: Members,
    mut questions: Questions,
    line: Line,
) -> Result<Option<Draft>, AllocError>
    ensures { IfOk result (λ next. next ≡ behind members questions line) }
{
    match line {
        Line::Asks(question) => {
            if !is_asked_of(members.len(), &question) {
                return Ok(None);
            }
            questions.push(question)?;
            Ok(Some(Draft {
                members,
                questions,
                stage: Stage::Behind,
            }))
        }
        _ => Ok(None),
    }
}

/// The draft after a line, if the line is allowed there.
pub(crate) fn take_line(
    alloc: Global,
    draft: Draft,
    line: Line,
) -> Result<Option<Draft>, AllocError>
    ensures { IfOk result (λ next. next ≡ step draft line) }
{
    let Draft {
        members,
        questions,
        stage,
    } = draft;
    match stage {
        Stage::Before => Ok(step_before(members, questions, line)),
        Stage::Inside => step_inside(alloc, members, questions, line),
        Stage::Behind => step_behind(members, questions, line),
    }
}
