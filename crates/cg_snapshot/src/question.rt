//! Questions about a heap.
ghost use Rattle.std.specs.Prelude.{◌≡◌, ◌++◌, ◌∷◌, [], OnOk};

use crate::places::Places;
use std::alloc::AllocError;
use std::marker::Model;

/// A question about a heap.
#[derive(Drop)]
pub enum Question {
    /// Why the member is alive: a path of members that avoids these.
    Why(usize, Places),
    /// Which members refer to the member.
    Referrers(usize),
    /// Which members are held from outside.
    Hidden,
    /// Which members no path from outside reaches.
    Lost,
    /// What would go if all references to these members were dropped.
    Dropped(Places),
    /// Which members would be lost if untold words were references.
    Untold,
}

/// Questions in order; contracts see a list.
#[derive(Drop)]
pub struct Questions {
    questions: Vec<Question>,
}

impl Model for Questions {
    ghost use Rattle.std.specs.Prelude.{List};
    ghost use Rattle.cg_snapshot.specs.declared.question.Question.{Question};

    ghost Value = { List Question };

    ghost view = { λ m. m.questions.items };
}

impl Questions {
    /// These questions in order. It does not allocate.
    pub fn new(questions: Vec<Question>) -> Questions
        ensures { result ≡ questions.items }
    {
        Questions { questions }
    }

    /// The questions in order.
    pub fn as_slice(&self) -> &[Question]
        ensures { result.now ≡ self.now }
    {
        self.questions.as_slice()
    }

    pub(crate) fn push(&mut self, question: Question) -> Result<(), AllocError>
        ensures { OnOk result (self.new ≡ self.old ++ question ∷ []) }
    {
        self.questions.push(question)?;
        Ok(())
    }
}
