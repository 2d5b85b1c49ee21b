//! An activity with commands: the script, or a frame.
ghost use Rattle.std.specs.Prelude.{◌≡◌, Some};
ghost use Rattle.cg_interp.specs.Callers.{caller_activity, with_next, without_rest_in_frame};

use crate::activity::Activity;
use cg_commands::Locals;

/// An activity with commands.
#[derive(Clone, Copy, Drop)]
pub enum Runner {
    /// The script.
    Script,
    /// A frame: its locals, and the procedure that it runs.
    Frame { locals: Locals, procedure: u32 },
}

/// The same with the number of its next command, if any.
#[derive(Clone, Copy, Drop)]
pub struct Caller {
    pub runner: Runner,
    pub next: Option<usize>,
}

impl Caller {
    /// The same with another next command, or with none.
    #[inline(always)]
    pub fn with_next(&self, next: Option<usize>) -> Caller
        ensures { result ≡ with_next next self.now }
    {
        Caller { next, ..*self }
    }

    /// The same, going on from the command with this number.
    #[inline(always)]
    pub fn go_on_from(&mut self, number: usize)
        ensures { self.new ≡ with_next (Some number) self.old }
    {
        self.next = Some(number);
    }

    /// The activity at this point.
    #[inline(always)]
    pub fn activity(&self) -> Activity
        ensures { result ≡ caller_activity self.now }
    {
        let next = self.next;
        match self.runner {
            Runner::Script => Activity::Script { next },
            Runner::Frame { locals, procedure } => Activity::Frame {
                locals,
                procedure,
                next,
            },
        }
    }

    /// The same without commands, if it is a frame.
    pub fn stopped_frame(&self) -> Caller
        ensures { result ≡ without_rest_in_frame self.now }
    {
        match self.runner {
            Runner::Script => *self,
            Runner::Frame { .. } => self.with_next(None),
        }
    }
}
