//! What a collector saw: objects with their in-degrees and references, and the sets that it found.
ghost use Rattle.std.specs.Prelude.{◌≡◌, ◌++◌, ◌∷◌, [], Some, None, cond, IfOk, OnOk};

use crate::serials::Serials;
use std::alloc::AllocError;
use std::marker::Model;

/// An object that a collection examined.
#[derive(Drop)]
pub struct Member {
    /// Its serial, or any other number that identifies it.
    pub serial: u64,
    /// The number of references to it, from members and from elsewhere.
    pub degree: u64,
    /// Whether its class has a legacy finalizer (a type's `tp_del`).
    pub legacy: bool,
    /// Its references to members, one item per reference, in order.
    pub refs: Serials,
}

/// Members in order; contracts see a list.
#[derive(Drop)]
pub struct Members {
    members: Vec<Member>,
}

impl Model for Members {
    ghost use Rattle.std.specs.Prelude.{List};
    ghost use Rattle.cg_records.specs.declared.graph.Member.{Member};

    ghost Value = { List Member };

    ghost view = { λ m. m.members.items };
}

impl Members {
    ghost use Rattle.cg_records.specs.Members.{with_reference};

    /// These members in order. It does not allocate.
    pub fn new(members: Vec<Member>) -> Members
        ensures { result ≡ members.items }
    {
        Members { members }
    }

    /// The members in order.
    pub fn as_slice(&self) -> &[Member]
        ensures { result.now ≡ self.now }
    {
        self.members.as_slice()
    }

    pub(crate) fn push(&mut self, member: Member) -> Result<(), AllocError>
        ensures { OnOk result (self.new ≡ self.old ++ member ∷ []) }
    {
        self.members.push(member)?;
        Ok(())
    }

    /// Adds a reference to the last member, and returns whether there is one.
    pub(crate) fn refer(&mut self, serial: u64) -> Result<bool, AllocError>
        ensures { IfOk result (λ there. with_reference self.old serial ≡ cond there (Some self.new)
            None) }
    {
        match self.members.pop() {
            None => Ok(false),
            Some(mut member) => {
                member.refs.push(serial)?;
                self.members.push(member)?;
                Ok(true)
            }
        }
    }
}

/// The objects that a collection examined, and the sets that it found.
#[derive(Drop)]
pub struct Graph {
    pub members: Members,
    /// The members found unreachable.
    pub lost: Serials,
    /// The unreachable members set aside for a legacy finalizer; empty in a second graph.
    pub legacy: Serials,
}

/// The record of one collection.
#[derive(Drop)]
pub struct Rec {
    /// The generation that was collected, 0 to 2.
    pub generation: u8,
    /// What the collection found at its start.
    pub first: Graph,
    /// What it found after the finalizers, if it got that far.
    pub second: Option<Graph>,
}

/// Records in order; contracts see a list.
#[derive(Drop)]
pub struct Records {
    members: Vec<Rec>,
}

impl Model for Records {
    ghost use Rattle.std.specs.Prelude.{List};
    ghost use Rattle.cg_records.specs.declared.graph.Rec.{Rec};

    ghost Value = { List Rec };

    ghost view = { λ m. m.members.items };
}

impl Records {
    /// These records in order. It does not allocate.
    pub fn new(members: Vec<Rec>) -> Records
        ensures { result ≡ members.items }
    {
        Records { members }
    }

    /// The records in order.
    pub fn as_slice(&self) -> &[Rec]
        ensures { result.now ≡ self.now }
    {
        self.members.as_slice()
    }

    pub(crate) fn push(&mut self, rec: Rec) -> Result<(), AllocError>
        ensures { OnOk result (self.new ≡ self.old ++ rec ∷ []) }
    {
        self.members.push(rec)?;
        Ok(())
    }
}
