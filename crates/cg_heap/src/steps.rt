//! A counter of the entries and weak references looked at. It takes no bytes.
ghost use Rattle.std.specs.Prelude.{◌≡◌, ℕ, ◌+◌, ◌<◌};

use std::marker::Model;
use std::sync::ledger::{Blank, Book, Ledger, Share};

/// The number of looks at entries and at the rows of weak references: contracts see a rising
/// number; at run time there is no counter.
///
/// Only the calls of `heap/look`, and `Heap::look_near` and `Heap::note_near`, raise it. (Ours.)
#[derive(Drop)]
pub struct Steps<L: Ledger> {
    book: Book<L>,
    share: Share<L>,
}

impl<L: Ledger> Model for Steps<L> {
    ghost Value = { ℕ };

    ghost view = { λ s. s.book.total };

    ghost invariant = { λ s. 0 < s.share.parts };
}

impl<L: Ledger> Steps<L> {
    /// A counter at 0. `blank` is `Blank::new(1)`, or has more parts, and `L` names it.
    pub fn new(blank: Blank) -> Steps<L>
        requires name { blank.name ≡ L.name }
        requires parts { blank.parts ≡ L.parts }
        requires some { 0 < blank.parts }
        ensures { result ≡ 0 }
    {
        let (book, share) = blank.open::<L>();
        Steps { book, share }
    }

    /// Raises the counter by a number of looks.
    #[inline(always)]
    pub(crate) fn rise(&mut self, looks: usize)
        ensures { self.new ≡ self.old + looks }
    {
        self.book.add(&mut self.share, looks as u64);
    }
}
