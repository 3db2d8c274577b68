// The lines of the input are taken one by one.

ghost use Rattle.std.specs.Prelude.{◌≡◌, ◌-◌, ◌^◌, ◌<◌, ◌≤◌, ◌⊎◌, ◌∷◌, [], ◌&&◌, false, Ok, Err, None, IfErr, IfOk, IfSome, OnOk};
ghost use Rattle.event_line.specs.{declared.faults.LineCause.LineCause, Line.delivery_of};
ghost use Rattle.checkpoint.specs.Archive.{Keeps, archive};
ghost use Rattle.run_model.specs.Delivering.{KeepsIf};
ghost use Rattle.run_model.specs.{Moment.HaveGoneOn, Headline.Stopped, Moment.moment, Moved.GoesOn, Moved.run_in, Reading.TakesByNeed};
ghost use Rattle.run_model.specs.{Moment.HasSavedOn, Moment.is_save_due, Moment.numbers_after, Moved.snapshot_in};
ghost use Rattle.run_model.specs.{declared.report.Report.TheVariants.Answers, Moment.limit_of, Remapping.mapped_in, Delivering.HasTaken, Taking.IsStanding};
ghost use Rattle.arguments.specs.Options.{max_bytes_of};

use crate::context::{Context, Incoming};
use crate::delivering::deliver;
use crate::replay::Replay;
use crate::task::Task;
use checkpoint::Snapshots;
use delivery::Delivery;
use event_line::{DeliveryFault, delivery};
use revisions::Revisions;
use run_model::{LinesTaken, Ports, Report, Stop, is_mark};
use snapshot::Counts;
use std::alloc::Global;
use text_output::Unwritten;
use world_snapshots::save;
use wq_io::{Lines, Sink, Source};

// Takes all lines of the input; after each watermark all due events are applied before the next line is taken, and each question is
// answered at once; a change of the mapping remaps all held pages before the next line is taken. Whenever the next line is read, what was
// printed has been handed on to the outside (the loop's invariant has `handed` of `Leads`). Saves the world behind each watermark that is
// followed by a save. Says what is reported then, how many matches were delivered, and how many lines taken, with those of earlier runs.
pub fn take_lines<S: Source, R: Revisions, K: Sink, F: Snapshots>(
    task: &Task<'_>,
    ports: &mut Ports<S, R, K, F>,
    replay: &mut Replay,
) -> Result<LinesTaken, Stop>
    requires stands { IsStanding replay.old.world.replay (mapped_in replay.old.world) }
    requires limit { replay.old.world.limit ≡ limit_of task.now.options.now }
    requires lean { task.now.report ≡ Answers → task.now.options.now.lean ≡ false }
    ensures ok { IfOk result (λ taken. HasTaken (run_in replay.old task.now.report (R.contents ports.old.revisions) task.now.options.now) taken
        (moment S.Source R.Revisions K.Sink F.Snapshots ports.old replay.old.world)
        (moment S.Source R.Revisions K.Sink F.Snapshots ports.new replay.new.world)) }
    ensures err { IfErr result (λ stop. Stopped stop (run_in replay.old task.now.report (R.contents ports.old.revisions) task.now.options.now)
        (moment S.Source R.Revisions K.Sink F.Snapshots ports.old replay.old.world)
        (moment S.Source R.Revisions K.Sink F.Snapshots ports.new replay.new.world)) }
    ensures taken { IfSome (S.left ports.old.events) (λ bytes. TakesByNeed (max_bytes_of task.now.options.now) bytes (S.left ports.new.events) (S.last ports.old.events) (S.last ports.new.events)) }
    ensures same { GoesOn replay.old replay.new }
    ensures snapshot { task.now.options.now.every ≡ None → ports.new.snapshot ≡ ports.old.snapshot }
    ensures resumed { ports.new.resumed ≡ ports.old.resumed }
    ensures further { HaveGoneOn S.Source R.Revisions K.Sink F.Snapshots ports.old ports.new }
{
    let folder = task.options.folder();
    let mut lines = Lines::new(task.options.max_bytes());
    let mut line = Vec::new(task.alloc);
    let mut taken = LinesTaken::before(task.report, replay.earlier());
    while let Some(number) = lines.next(&mut ports.events, &mut line)? {
        let delivery = read_delivery(task.alloc, line.as_slice(), number)?;
        let context = Context {
            alloc: task.alloc,
            folder,
            report: task.report,
            reported: taken.reported,
            matched: taken.matched,
        };
        let incoming = Incoming {
            context,
            delivery: &delivery,
        };
        let delivered = deliver(&incoming, &mut ports.revisions, &mut ports.out, replay);
        let counted = taken.after(&delivery);
        let mark = is_mark(&delivery);
        drop(delivery); // its memory is free before the next line is read
        let done = delivered?;
        taken = LinesTaken {
            reported: done.reported,
            ..counted
        };
        save_if_due(task, mark, &taken, replay, &mut ports.snapshot)?;
    }
    Ok(taken)
}

// Saves the world behind a watermark, if a save is due there.
fn save_if_due<F: Snapshots>(
    task: &Task<'_>,
    mark: bool,
    taken: &LinesTaken,
    replay: &Replay,
    snapshots: &mut F,
) -> Result<(), Unwritten>
    ensures saves { KeepsIf (mark && is_save_due task.now.options.now.every taken.now.marks)
        (snapshot_in replay.now (numbers_after replay.now.earlier task.now.report taken.now.reported taken.now.matched taken.now.lines))
        (archive F.Snapshots snapshots.old) (archive F.Snapshots snapshots.new) result }
    ensures same { task.now.options.now.every ≡ None → snapshots.new ≡ snapshots.old }
    ensures further { HasSavedOn F.Snapshots snapshots.old snapshots.new }
{
    if mark && is_save_due(task.options.every(), taken.marks) {
        save_taken(task, taken, replay, snapshots)
    } else {
        Ok(())
    }
}

// Saves the world, of which this was taken.
pub fn save_taken<F: Snapshots>(
    task: &Task<'_>,
    taken: &LinesTaken,
    replay: &Replay,
    snapshots: &mut F,
) -> Result<(), Unwritten>
    ensures { Keeps (snapshot_in replay.now (numbers_after replay.now.earlier task.now.report taken.now.reported taken.now.matched taken.now.lines))
        (archive F.Snapshots snapshots.old) (archive F.Snapshots snapshots.new) result }
{
    let counts = task.report.numbers(replay.earlier(), taken);
    save(task.alloc, replay.world(), counts, snapshots)
}

// Whether a save is due behind so many watermarks, of which every so many-th is followed by one, if any is.
fn is_save_due(every: Option<u32>, marks: u64) -> bool
    requires { IfSome every (λ n. 1 ≤ n) }
    ensures { result ≡ is_save_due every marks }
{
    match every {
        Some(every) => marks % every as u64 == 0,
        None => false,
    }
}

// Reads one line.
fn read_delivery(alloc: Global, line: &[u8], number: u64) -> Result<Delivery, Stop>
    ensures ok { IfOk result (λ d. delivery_of line.now ≡ Ok d) }
    ensures err { IfErr result (λ stop. ((cause : LineCause) × (stop ≡ Stop.BadLine number cause) × (delivery_of line.now ≡ Err cause)) ⊎ (stop ≡ Stop.OutOfMemory)) }
{
    match delivery(alloc, line) {
        Ok(delivery) => Ok(delivery),
        Err(DeliveryFault::Bad(cause)) => Err(Stop::BadLine(number, cause)),
        Err(DeliveryFault::OutOfMemory) => Err(Stop::OutOfMemory),
    }
}
