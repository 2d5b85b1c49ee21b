//! The recorded data of a heap's objects.
ghost use Rattle.std.specs.Prelude.{◌≡◌, ◌++◌, ◌∷◌, [], length, cond, Some, None, OnOk, IfOk};

use crate::places::Places;
use cg_search::Node;
use std::alloc::{AllocError, Global};
use std::marker::Model;

/// A recorded object. Its number is its position among the members, from 0.
#[derive(Drop)]
pub struct Member {
    /// The number of references to it, from members and from elsewhere.
    pub degree: u64,
    /// Its size in bytes, below 2^36.
    pub size: u64,
    /// Whether the collector tracks it.
    pub tracked: bool,
    /// Whether its class has a legacy finalizer (a type's `tp_del`).
    pub legacy: bool,
    /// Its references to members, one item per reference, in order.
    pub refs: Places,
    /// The words in it that are a member's address and were not told as references.
    pub untold: Places,
}

impl Member {
    /// Its references, followed by its untold words.
    pub fn with_words(&self, alloc: Global) -> Result<Places, AllocError>
        ensures { IfOk result (λ all. all ≡ self.now.refs ++ self.now.untold) }
    {
        let mut all = Vec::from_slice(alloc, self.refs.as_slice())?;
        all.extend_from_slice(self.untold.as_slice())?;
        Ok(Places::new(all))
    }
}

impl Node for Member {
    ghost points_to = { λ m. m.refs };

    fn targets(&self) -> &[usize] {
        self.refs.as_slice()
    }
}

/// Members in order; contracts see a list.
#[derive(Drop)]
pub struct Members {
    members: Vec<Member>,
}

impl Model for Members {
    ghost use Rattle.std.specs.Prelude.{List};
    ghost use Rattle.cg_snapshot.specs.declared.heap.Member.{Member};

    ghost Value = { List Member };

    ghost view = { λ m. m.members.items };
}

impl Members {
    ghost use Rattle.cg_snapshot.specs.Members.{with_untold};

    /// These members in order. It does not allocate.
    pub fn new(members: Vec<Member>) -> Members
        ensures { result ≡ members.items }
    {
        Members { members }
    }

    /// The members in order.
    pub fn as_slice(&self) -> &[Member]
        ensures { result.now ≡ self.now }
    {
        self.members.as_slice()
    }

    pub(crate) fn len(&self) -> usize
        ensures { result ≡ length self.now }
    {
        self.members.len()
    }

    pub(crate) fn push(&mut self, member: Member) -> Result<(), AllocError>
        ensures { OnOk result (self.new ≡ self.old ++ member ∷ []) }
    {
        self.members.push(member)?;
        Ok(())
    }

    /// Gives the last member its untold words; returns whether there is a last member without any.
    pub(crate) fn add_untold(&mut self, untold: Places) -> Result<bool, AllocError>
        ensures { IfOk result (λ there. with_untold self.old untold ≡ cond there (Some self.new)
            None) }
    {
        match self.members.pop() {
            None => Ok(false),
            Some(mut member) => {
                if !member.untold.is_empty() {
                    self.members.push(member)?;
                    return Ok(false);
                }
                member.untold = untold;
                self.members.push(member)?;
                Ok(true)
            }
        }
    }
}
