// Calls that are to fail, by their numbers.

ghost use Rattle.std.specs.Prelude.{◌≡◌, ◌+◌, ◌≤◌};
ghost use Rattle.std.specs.Bool.{OnTrue, OnFalse};
ghost use Rattle.wq_io.specs.Failing.{after_call, fails_next, failures};

use base::List;
use std::marker::Model;

/// Counts calls from 1, and names those that are to fail.
#[derive(Drop)]
pub struct FailingCalls {
    numbers: List<u64>,
    calls: u64,
}

impl Model for FailingCalls {
    ghost use Rattle.wq_io.specs.Failing.{Counting};

    ghost Value = { Counting };

    ghost view = { λ a. record { numbers = a.numbers; calls = a.calls } };
}

impl FailingCalls {
    /// No call was made yet.
    pub fn new(numbers: List<u64>) -> FailingCalls
        ensures { result ≡ record { numbers = numbers; calls = 0 } }
    {
        FailingCalls { numbers, calls: 0 }
    }

    /// How many calls were made, as far as 64 bits count them.
    pub fn calls(&self) -> u64
        ensures { result ≡ self.now.calls }
    {
        self.calls
    }

    /// Counts a call and says whether it is to fail. Past the last number of 64 bits no call fails.
    pub fn next_fails(&mut self) -> bool
        ensures answer { result ≡ fails_next self.old }
        ensures counted { self.new ≡ after_call self.old }
        ensures later { failures self.old ≤ failures self.new }
        ensures still { OnFalse result (failures self.new ≡ failures self.old) }
        ensures rises { OnTrue result (failures self.old + 1 ≤ failures self.new) }
    {
        let Some(call) = self.calls.checked_add(1) else {
            return false;
        };
        self.calls = call;
        self.numbers.as_slice().contains(&call)
    }
}
