// The reorder buffer.

ghost use Rattle.std.specs.Prelude.{◌≡◌, false, Some, length, OnOk, OnErr, IfOk, IsSome, IfSome, All};
ghost use Rattle.std.specs.{List.list_any, Option.option_copied, BTreeMap.Range.IsLeBy};
ghost use Rattle.entity_model.specs.Event.{event_cmp};
ghost use Rattle.reorder_buffer.specs.Watermarks.{floor, is_below, is_due, reached};
ghost use Rattle.sorted_sets.specs.Rising.{has};
ghost use Rattle.reorder_buffer.specs.Buffered.{nothing_taken, nothing_taken_within, answer_to, after_taking, after_raising, after_closing, first_due, after_dropping, unforgotten, IsAdded};

use crate::taken::Taken;
use crate::watermarks;
use base::{List, OutOfMemory};
use entity_model::Event;
use std::alloc::Global;
use std::collections::BTreeSet;
use std::marker::Model;

/// The events that were taken and aren't forgotten, and those that wait, each in the order of events, with the
/// greatest watermark so far. An event is forgotten once its time is further behind that watermark than the horizon.
#[derive(Drop)]
pub struct Buffer {
    kept: BTreeSet<Event>,
    waiting: BTreeSet<Event>,
    mark: Option<i64>,
    horizon: Option<u64>,
    closed: bool,
}

impl Model for Buffer {
    ghost use Rattle.reorder_buffer.specs.Buffered.{Buffered};

    ghost Value = { Buffered };

    ghost view = { λ a. record { kept = a.kept.keys; waiting = a.waiting.keys; mark = a.mark; horizon = a.horizon; closed = a.closed } };
}

impl Buffer {
    /// The buffer before the first event and the first watermark. Without a horizon, nothing is forgotten.
    pub fn new(alloc: Global) -> Result<Buffer, OutOfMemory>
        ensures { IfOk result (λ buffer. buffer ≡ nothing_taken) }
    {
        Ok(Buffer {
            kept: BTreeSet::new(alloc),
            waiting: BTreeSet::new(alloc),
            mark: None,
            horizon: None,
            closed: false,
        })
    }

    /// Sets the horizon, in microseconds: events whose time is further behind the greatest watermark are forgotten. No event
    /// and no watermark was taken yet.
    pub fn set_horizon(&mut self, micros: u64)
        requires { self.old ≡ nothing_taken_within self.old.horizon }
        ensures { self.new ≡ nothing_taken_within (Some micros) }
    {
        self.horizon = Some(micros);
    }

    /// Takes an event: one that is remembered changes nothing, one whose time the watermark has reached is remembered
    /// unless it is below the floor, and any other is remembered and waits. Only an event that is remembered from now on takes memory. After
    /// `OutOfMemory` nothing has changed.
    pub fn take(&mut self, event: Event) -> Result<Taken, OutOfMemory>
        requires { self.old.closed ≡ false }
        ensures answer { IfOk result (λ taken. taken ≡ answer_to self.old event) }
        ensures ok { OnOk result (self.new ≡ after_taking self.old event) }
        ensures err { OnErr result (self.new ≡ self.old) }
        ensures refused { OnErr result (IsAdded self.old event) }
        ensures not_closed { self.new.closed ≡ false }
    {
        if watermarks::is_below(self.horizon, self.mark, event.time) {
            return Ok(if self.kept.contains(&event) {
                Taken::Repeat
            } else {
                Taken::Late
            });
        }
        if !self.kept.insert(event)? {
            return Ok(Taken::Repeat);
        }
        if watermarks::reached(self.mark, event.time) {
            return Ok(Taken::Late);
        }
        match self.waiting.insert(event) {
            Ok(_) => Ok(Taken::New),
            Err(_) => {
                self.kept.remove(&event);
                Err(OutOfMemory)
            }
        }
    }

    /// Takes a watermark: events up to its time, in microseconds since 1970-01-01T00:00:00Z, are
    /// due from now on, and those below the new floor are forgotten, at a cost of time near their number. A watermark
    /// below an earlier one changes nothing.
    pub fn raise(&mut self, mark: i64)
        ensures { self.new ≡ after_raising self.old mark }
    {
        self.mark = watermarks::greater(self.mark, mark);
        forget(&mut self.kept, self.horizon, self.mark);
    }

    /// Makes all events due, since no more come.
    pub fn close(&mut self)
        ensures { self.new ≡ after_closing self.old }
    {
        self.closed = true;
    }

    /// The first of the waiting events that are due, which is the first of all that wait.
    pub fn least_due(&self) -> Option<Event>
        ensures due { result ≡ first_due self.now }
        ensures least { IfSome result (λ event. All (IsLeBy event_cmp event) self.now.waiting) }
    {
        let first = self.waiting.first()?;
        if self.is_due(first) {
            Some(*first)
        } else {
            None
        }
    }

    /// Drops the first of the waiting events that are due.
    pub fn drop_least(&mut self)
        requires { IsSome (first_due self.old) }
        ensures { self.new ≡ after_dropping self.old }
    {
        let _ = self.waiting.pop_first();
    }

    /// The number of the events that wait.
    pub fn pending(&self) -> usize
        ensures { result ≡ length self.now.waiting }
    {
        self.waiting.len()
    }

    /// The number of the events that are remembered.
    pub fn remembered(&self) -> usize
        ensures { result ≡ length self.now.kept }
    {
        self.kept.len()
    }

    /// The events that are remembered, in their order.
    pub fn events(&self, alloc: Global) -> Result<List<Event>, OutOfMemory>
        ensures { IfOk result (λ events. events ≡ self.now.kept) }
    {
        let events = self.kept.iter().copied().collect(alloc)?;
        Ok(List::from_vec(events))
    }

    /// Whether an equal event is remembered.
    pub fn remembers(&self, event: &Event) -> bool
        ensures { result ≡ has event_cmp event.now self.now.kept }
    {
        self.kept.contains(event)
    }

    /// Whether the mark has reached a time, in microseconds since 1970-01-01T00:00:00Z.
    pub fn has_reached(&self, time: i64) -> bool
        ensures { result ≡ reached self.now.mark time }
    {
        watermarks::reached(self.mark, time)
    }

    /// The greatest watermark so far, in microseconds since 1970-01-01T00:00:00Z.
    pub fn mark(&self) -> Option<i64>
        ensures { result ≡ self.now.mark }
    {
        self.mark
    }

    /// How many microseconds behind the mark events are forgotten, if they ever are.
    pub fn horizon(&self) -> Option<u64>
        ensures { result ≡ self.now.horizon }
    {
        self.horizon
    }

    /// Whether an event is due.
    fn is_due(&self, event: &Event) -> bool
        ensures { result ≡ is_due self.now.closed self.now.mark event.now }
    {
        self.closed || self.has_reached(event.time)
    }
}

// Forgets the events below the floor, which are the first ones.
fn forget(kept: &mut BTreeSet<Event>, horizon: Option<u64>, mark: Option<i64>)
    ensures { kept.new.keys ≡ unforgotten (floor horizon mark) kept.old.keys }
{
    while has_below(kept, horizon, mark) {
        let _ = kept.pop_first();
    }
}

// Whether an event is below the floor, as the first one is then.
fn has_below(kept: &BTreeSet<Event>, horizon: Option<u64>, mark: Option<i64>) -> bool
    ensures { result ≡ list_any (λ e. is_below (floor horizon mark) e.time) kept.now.keys }
{
    match kept.first() {
        Some(first) => is_forgotten(first, horizon, mark),
        None => false,
    }
}

// Whether an event is below the floor.
fn is_forgotten(event: &Event, horizon: Option<u64>, mark: Option<i64>) -> bool
    ensures { result ≡ is_below (floor horizon mark) event.now.time }
{
    watermarks::is_below(horizon, mark, event.time)
}
