//! The first fault of a recorded heap.
ghost use Rattle.std.specs.Prelude.{◌≡◌, ◌<◌, ◌^◌, length, IfOk, IfSome, IfNone};
ghost use Rattle.cg_snapshot.specs.Reading.{are_below};
ghost use Rattle.cg_ask.specs.Asked.{references_of, all_words_of};
ghost use Rattle.cg_ask.specs.Counted.{IsCounts};
ghost use Rattle.cg_ask.specs.Faults.{IsRight, HasFault, IsFirstFault, AreRight};

use crate::counts::Counts;
use cg_snapshot::Member;

/// A fault of a recorded heap.
#[derive(Clone, Copy, Debug, PartialEq, Eq, Drop)]
pub struct Fault {
    /// 2: a reference or an untold word names no member; 3: an in-degree is below the member's
    /// occurrences among the references; 4: it is below those among references and untold words
    /// together.
    pub code: u8,
    /// The place of the member.
    pub member: usize,
}

/// Whether all these are places of members, given how many there are.
fn all_below(count: usize, places: &[usize]) -> bool
    ensures { result ≡ are_below count places.now }
{
    places.iter().all(|place| *place < count)
}

/// The least fault code of a member, if it has a fault.
fn fault_at(members: &[Member], counts: &Counts, with_words: bool, at: usize) -> Option<u8>
    requires counts { IsCounts members.now counts.now }
    requires within { at < length members.now }
    ensures right { IfNone result (IsRight members.now with_words at) }
    ensures fault { IfSome result (λ code. HasFault members.now with_words at code) }
{
    let count = members.len();
    let member = &members[at];
    if !all_below(count, member.refs.as_slice()) || !all_below(count, member.untold.as_slice()) {
        return Some(2);
    }
    let degree = member.degree;
    let told = counts.told[at];
    if degree < told {
        return Some(3);
    }
    if with_words && degree - told < counts.words[at] {
        return Some(4);
    }
    None
}

/// The first member with a fault, and its least code; `None` if there is none. Untold words count
/// only if they are asked about.
pub(crate) fn find_fault(members: &[Member], counts: &Counts, with_words: bool) -> Option<Fault>
    requires { IsCounts members.now counts.now }
    ensures right { IfNone result (AreRight members.now with_words) }
    ensures fault { IfSome result (λ f. IsFirstFault members.now with_words f.code f.member) }
{
    'members: for at in 0..members.len() {
        if let Some(code) = fault_at(members, counts, with_words, at) {
            return Some(Fault { code, member: at });
        }
    }
    None
}
