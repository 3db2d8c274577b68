// What a replay moves: the world, the graphs of a split, and the counts of earlier runs.

ghost use Rattle.std.specs.Prelude.{◌≡◌, false, None, IfOk, OnErr, OnOk};
ghost use Rattle.checkpoint.specs.Saved.{AreWithin};
ghost use Rattle.reorder_buffer.specs.Buffered.{answer_to};
ghost use Rattle.replay_model.specs.ReplayState.{after_end, after_event, after_mark};
ghost use Rattle.run_model.specs.{Moment.no_numbers, Moved.moved, Moved.with_state, Remapping.HoldsWithin};

use entity_model::Event;
use rdf_term::OutOfMemory;
use reorder_buffer::Taken;
use snapshot::Counts;
use splitting::{Graphs, discard};
use std::marker::Model;
use world::World;

// The counts before the first run.
pub const NOTHING_REPORTED: Counts = Counts {
    asks: 0,
    matches: 0,
    patches: 0,
    lines: 0,
};

// The world, the graphs of a split, and the counts that earlier runs left. The graphs, if there are some, follow the world, and the counts
// leave a number for each question and record to come. Contracts see the world, the routes of the graphs, and the counts.
#[derive(Drop)]
pub struct Replay {
    pub world: World,
    pub graphs: Option<Graphs>,
    pub earlier: Counts,
}

impl Model for Replay {
    ghost use Rattle.checkpoint.specs.Saved.{AreWithin};
    ghost use Rattle.splitting.specs.Graphs.{MayFollow, routes_of};
    ghost use Rattle.run_model.specs.Moved.{Moved, moved_code};

    ghost Value = { Moved };

    ghost coded = { moved_code };

    ghost view = { λ a. record { world = a.world; routes = routes_of a.graphs; earlier = a.earlier } };

    ghost invariant = { λ a. MayFollow a.graphs a.world × AreWithin a.earlier };
}

impl Replay {
    // Begins without graphs and without counts.
    pub fn of_world(world: World) -> Replay
        ensures { result ≡ moved world None no_numbers }
    {
        Replay {
            world,
            graphs: None,
            earlier: NOTHING_REPORTED,
        }
    }

    // The counts that earlier runs left.
    pub fn earlier(&self) -> Counts
        ensures value { result ≡ self.now.earlier }
        ensures within { AreWithin result }
    {
        self.earlier
    }

    // The world.
    pub fn world(&self) -> &World
        ensures { result.now ≡ self.now.world }
    {
        &self.world
    }

    // Takes one event, and says what it was.
    pub fn take(&mut self, event: Event) -> Result<Taken, OutOfMemory>
        requires { self.old.world.replay.buffer.closed ≡ false }
        ensures answer { IfOk result (λ taken. taken ≡ answer_to self.old.world.replay.buffer event) }
        ensures ok { OnOk result (self.new ≡ with_state (after_event self.old.world.replay event) self.old) }
        ensures err { OnErr result (self.new ≡ self.old) }
    {
        self.world.take(event)
    }

    // Takes a watermark.
    pub fn raise(&mut self, mark: &i64)
        ensures { self.new ≡ with_state (after_mark self.old.world.replay mark.now) self.old }
    {
        self.world.raise(*mark);
    }

    // Takes the end of the deliveries.
    pub fn close(&mut self)
        ensures { self.new ≡ with_state (after_end self.old.world.replay) self.old }
    {
        self.world.close();
    }

    // Gives the world back, which holds no more terms than its limit.
    pub fn into_world(self) -> World
        ensures world { result ≡ self.world }
        ensures held { HoldsWithin result.limit result }
    {
        let Replay {
            world,
            graphs,
            earlier: _,
        } = self;
        discard(graphs);
        let _ = world.terms();
        world
    }
}
