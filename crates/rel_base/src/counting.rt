//! Counters of steps, which only contracts can read.
ghost use Rattle.std.specs.Prelude.{◌≡◌, ℕ, ◌+◌, ◌<◌};

use std::marker::Model;
use std::sync::ledger::{Blank, Book, Ledger, Share};

/// The number of steps that were counted in a ledger of std, which contracts see as that number.
///
/// It has no bytes while the program runs. A ledger has one counter at most, since `start` takes
/// the ledger itself, and no call makes the number smaller. A caller that counts nothing makes its
/// counter of `Blank::new(1)`, at the ledger `Brand`.
#[derive(Drop)]
pub struct Steps<L: Ledger> {
    book: Book<L>,
    share: Share<L>,
}

impl<L: Ledger> Model for Steps<L> {
    ghost Value = { ℕ };

    ghost view = { λ s. s.book.total };

    ghost invariant = { λ s. 0 < s.share.parts };
}

impl<L: Ledger> Steps<L> {
    /// The counter of this ledger, at 0.
    pub fn start(ledger: Blank) -> Steps<L>
        requires name { ledger.name ≡ L.name }
        requires parts { ledger.parts ≡ L.parts }
        requires some_part { 0 < ledger.parts }
        ensures { result ≡ 0 }
    {
        let (book, share) = ledger.open::<L>();
        Steps { book, share }
    }

    /// Counts one step.
    pub fn tick(&mut self)
        ensures { self.new ≡ self.old + 1 }
    {
        self.book.add(&mut self.share, 1);
    }
}
