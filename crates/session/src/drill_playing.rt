// The deliveries of a drill are taken as those of a line are, and counted.

ghost use Rattle.std.specs.Prelude.{◌≡◌, ◌+◌, ◌*◌, ◌<◌, None, IfOk, OnErr, OnOk};
ghost use Rattle.replay_model.specs.ReplayState.{nothing_delivered};
ghost use Rattle.text_output.specs.Printing.{Output, output};
ghost use Rattle.drill_replay.specs.Drill.{IsSize, drill};
ghost use Rattle.drill_replay.specs.Playing.{Counted, HasBegun, HasFew, IsByFirst, IsPartOf, StandsAtEnd};
ghost use Rattle.drill_replay.specs.Summary.{drilled};
ghost use Rattle.session.specs.DrillPlaying.{HasTakenFirst, LeavesDrill};
ghost use Rattle.term_pool.specs.declared.fault.PoolFault.TheVariants.{OutOfMemory as PoolOutOfMemory};
ghost use Rattle.rdf_term.specs.Limits.{default_max_terms};
ghost use Rattle.world.specs.Limit.{whole};

use crate::context::{Context, Incoming};
use crate::delivering::{deliver, take_end};
use crate::replay::Replay;
use drill_replay::{DrillCounts, DrillRevisions, deliveries};
use rdf_term::OutOfMemory;
use run_model::{Halt, Report, Reported, Stop};
use std::alloc::Global;
use wq_io::Sink;

// The folder of a drill's pages, which are the same in every folder.
const FOLDER: &str = ".";

// A drill that is under way: its size, its pages, what was counted of it, and whether a step changed which triples are stored.
#[derive(Drop)]
struct DrillRun {
    alloc: Global,
    size: u32,
    pages: DrillRevisions,
    counts: DrillCounts,
    changed: bool,
}

// Takes all deliveries of the drill of this size and the end, and counts. The world has the default limit on terms.
pub fn play<K: Sink>(
    alloc: Global,
    size: u32,
    out: &mut K,
    replay: &mut Replay,
) -> Result<DrillCounts, OutOfMemory>
    requires size { IsSize size }
    requires world { replay.old.world.replay ≡ nothing_delivered }
    requires first { IsByFirst replay.old.world }
    requires limit { replay.old.world.limit ≡ whole default_max_terms }
    requires routes { replay.old.routes ≡ None }
    ensures counts { IfOk result (λ counts. Counted (drill size) counts) }
    ensures ok { OnOk result (replay.new.world.replay ≡ drilled size) }
    ensures begun { HasBegun size replay.new.world.replay }
    ensures left { LeavesDrill replay.new.world }
    ensures silent { output K.Sink out.new ≡ output K.Sink out.old }
{
    let pages = DrillRevisions::new(size);
    let counts = DrillCounts::new();
    let mut run = DrillRun {
        alloc,
        size,
        pages,
        counts,
        changed: false,
    };
    for done in 0..size {
        run.take_item(done, out, replay)?;
    }
    run.take_end(out, replay)?;
    Ok(run.counts)
}

impl DrillRun {
    // Takes the deliveries of the item after so many.
    fn take_item<K: Sink>(
        &mut self,
        done: u32,
        out: &mut K,
        replay: &mut Replay,
    ) -> Result<(), OutOfMemory>
        requires size { IsSize self.old.size }
        requires next { done < self.old.size }
        requires routes { replay.old.routes ≡ None }
        requires taken { HasTakenFirst self.old (drill done) (output K.Sink out.old) replay.old.world }
        requires few { HasFew self.old.counts (6 * done) }
        ensures taken { OnOk result (HasTakenFirst self.new (drill (done + 1)) (output K.Sink out.new) replay.new.world) }
        ensures few { OnOk result (HasFew self.new.counts (6 * (done + 1))) }
        ensures part { IsPartOf self.old.size (drill (done + 1)) replay.new.world.replay }
        ensures left { LeavesDrill replay.new.world }
        ensures silent { output K.Sink out.new ≡ output K.Sink out.old }
        ensures size { self.new.size ≡ self.old.size }
        ensures routes { replay.new.routes ≡ None }
    {
        let list = deliveries(self.alloc, done + 1)?;
        for delivery in list.as_slice() {
            let context = Context {
                alloc: self.alloc,
                folder: FOLDER,
                report: Report::Answers,
                reported: Reported {
                    number: 0,
                    changed: self.changed,
                },
                matched: 0,
            };
            let incoming = Incoming { context, delivery };
            match deliver(&incoming, &mut self.pages, out, replay) {
                Ok(done) => {
                    self.changed = done.reported.changed;
                    self.counts.add(done.answer);
                }
                Err(stop) => {
                    drop(list);
                    return Err(refused(stop));
                }
            }
        }
        drop(list);
        Ok(())
    }

    // Takes the end of the deliveries.
    fn take_end<K: Sink>(&mut self, out: &mut K, replay: &mut Replay) -> Result<(), OutOfMemory>
        requires size { IsSize self.old.size }
        requires routes { replay.old.routes ≡ None }
        requires taken { HasTakenFirst self.old (drill self.old.size) (output K.Sink out.old) replay.old.world }
        ensures ok { OnOk result (replay.new.world.replay ≡ drilled self.old.size) }
        ensures err { OnErr result (StandsAtEnd self.old.size replay.new.world.replay) }
        ensures left { LeavesDrill replay.new.world }
        ensures counts { self.new.counts ≡ self.old.counts }
        ensures silent { output K.Sink out.new ≡ output K.Sink out.old }
    {
        let context = Context {
            alloc: self.alloc,
            folder: FOLDER,
            report: Report::Answers,
            reported: Reported {
                number: 0,
                changed: self.changed,
            },
            matched: 0,
        };
        match take_end(&context, &mut self.pages, out, replay) {
            Ok(_) => Ok(()),
            Err(halt) => Err(starved(halt)),
        }
    }
}

// The end of a drill stops only with OutOfMemory.
fn starved(halt: Halt) -> OutOfMemory
    requires { halt ≡ Halt.Unapplied PoolOutOfMemory }
{
    let _ = halt;
    OutOfMemory
}

// A delivery of a drill stops only with OutOfMemory.
fn refused(stop: Stop) -> OutOfMemory
    requires { stop ≡ Stop.OutOfMemory }
{
    let _ = stop;
    OutOfMemory
}
