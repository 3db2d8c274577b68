// The deliveries of a drill, counted.

ghost use Rattle.std.specs.Prelude.{◌≡◌};
ghost use Rattle.drill_replay.specs.Playing.{HasFew, with_answer};

use reorder_buffer::Taken;

/// How many deliveries were taken, and how many of their events were accepted and were late, each distinct one once.
#[derive(Clone, Copy)]
pub struct DrillCounts {
    pub deliveries: u64,
    pub accepted: u64,
    pub late: u64,
}

impl DrillCounts {
    /// Nothing was taken yet.
    pub fn new() -> DrillCounts
        ensures { result ≡ record { deliveries = 0; accepted = 0; late = 0 } }
    {
        DrillCounts {
            deliveries: 0,
            accepted: 0,
            late: 0,
        }
    }

    /// Counts one delivery more, whose event, if it is one, was this. No count is above 2,000,000.
    pub fn add(&mut self, answer: Option<Taken>)
        requires { HasFew self.old 2_000_000 }
        ensures { self.new ≡ with_answer answer self.old }
    {
        self.deliveries += 1;
        match answer {
            Some(Taken::New) => self.accepted += 1,
            Some(Taken::Late) => self.late += 1,
            Some(Taken::Repeat) | None => {}
        }
    }
}
