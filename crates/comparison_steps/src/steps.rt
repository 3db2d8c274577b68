// The counters of comparisons.

ghost use Rattle.std.specs.Prelude.{◌≡◌, ℕ, ◌+◌, ◌<◌, ◌≤◌};

use std::marker::Model;
use std::sync::ledger::{Blank, Book, Ledger, Share};

/// What is told of each comparison. It adds the weight of a step, 1 or 0, to its total, so an upper bound on the total holds at each weight.
pub trait StepCounter {
    ghost total: { Self → ℕ };

    ghost weight: { ℕ };

    /// One comparison more.
    fn tick(&mut self)
        ensures counted { total self.new ≡ total self.old + weight }
        ensures forward { total self.old ≤ total self.new }
        ensures step { total self.new ≤ total self.old + 1 };
}

/// No count: it takes no time.
#[derive(Clone, Copy)]
pub struct Uncounted;

impl StepCounter for Uncounted {
    ghost total = { λ _. 0 };

    ghost weight = { 0 };

    fn tick(&mut self) {}
}

/// A count of steps for contracts alone: it takes no bytes and no time. One comparison of two keys is one step.
#[derive(Drop)]
pub struct Steps<L: Ledger> {
    book: Book<L>,
    share: Share<L>,
}

impl<L: Ledger> Model for Steps<L> {
    ghost use Rattle.std.specs.Prelude.{ℕ, ◌<◌};

    ghost Value = { ℕ };

    ghost view = { λ s. s.book.total };

    ghost invariant = { λ s. 0 < s.share.parts };
}

impl<L: Ledger> Steps<L> {
    /// A count at 0 over a new ledger of one part or more.
    pub fn new(blank: Blank) -> Steps<L>
        requires name { blank.name ≡ L.name }
        requires parts { blank.parts ≡ L.parts }
        requires some { 0 < blank.parts }
        ensures { result ≡ 0 }
    {
        let (book, share) = blank.open::<L>();
        Steps { book, share }
    }
}

impl<L: Ledger> StepCounter for Steps<L> {
    ghost total = { λ s. s };

    ghost weight = { 1 };

    fn tick(&mut self) {
        self.book.add(&mut self.share, 1);
    }
}
