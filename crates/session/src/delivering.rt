// One delivery of a line is taken, or the end: what is due is applied, a question is answered, and a change of the mapping handed on.

ghost use Rattle.std.specs.Prelude.{◌≡◌, false, IfErr, IfOk, None};
ghost use Rattle.drill_replay.specs.Playing.{answer_of};
ghost use Rattle.replay_model.specs.{ReplayState.after_end, Transcript.question_of};
ghost use Rattle.text_output.specs.Printing.{output};
ghost use Rattle.run_model.specs.{declared.report.Report.TheVariants.Answers, Moment.HasGoneOn, Moment.HasWrittenOn};
ghost use Rattle.run_model.specs.{Moment.stage, Moment.with_world, Moved.environment_in};
ghost use Rattle.run_model.specs.{Moved.GoesOn, Remapping.KeepsVersion, Remapping.mapped_in, Delivering.HasNumberLeft};
ghost use Rattle.run_model.specs.Delivering.{AppliesDue, CutsOff, IsHeldUp, StaysWithin, TakesDelivery, turn};

use crate::context::{Context, Incoming};
use crate::remapping::take_mapping;
use crate::replay::Replay;
use delivery::Delivery;
use reorder_buffer::Taken;
use revisions::Revisions;
use run_model::{Halt, Reported, Stop};
use splitting::{follow_application, routes_of};
use triple_store::StoreFault;
use world::{AppliedStep, WorldFault};
use wq_io::Sink;

// What taking a delivery gave: what its event was, if it is one, and what is reported then.
#[derive(Clone, Copy)]
pub struct Delivered {
    pub answer: Option<Taken>,
    pub reported: Reported,
}

// Takes one delivery: all that it makes due is applied, it is answered if it is a question, and what is held is remapped if it changes the
// mapping; what is to be reported of that is written. Says what its event was, if it is one. Of a lean world only changes are reported.
pub fn deliver<R: Revisions, K: Sink>(
    incoming: &Incoming<'_>,
    revisions: &mut R,
    out: &mut K,
    replay: &mut Replay,
) -> Result<Delivered, Stop>
    requires open { replay.old.world.replay.buffer.closed ≡ false }
    requires number { HasNumberLeft incoming.now.context.report incoming.now.context.reported incoming.now.context.matched }
    requires lean { incoming.now.context.report ≡ Answers → replay.old.world.limit.lean ≡ false }
    ensures ok { IfOk result (λ done. TakesDelivery (environment_in replay.old incoming.now.context.report (R.contents revisions.old) incoming.now.context.folder.now) (turn incoming.now.context.reported incoming.now.context.matched incoming.now.delivery.now) done.reported
        (stage R.Revisions K.Sink revisions.old out.old replay.old.world) (stage R.Revisions K.Sink revisions.new out.new replay.new.world)) }
    ensures answer { IfOk result (λ done. done.answer ≡ answer_of replay.old.world.replay.buffer incoming.now.delivery.now) }
    ensures err { IfErr result (λ stop. CutsOff stop (environment_in replay.old incoming.now.context.report (R.contents revisions.old) incoming.now.context.folder.now) (turn incoming.now.context.reported incoming.now.context.matched incoming.now.delivery.now)
        (stage R.Revisions K.Sink revisions.old out.old replay.old.world) (stage R.Revisions K.Sink revisions.new out.new replay.new.world)) }
    ensures silent { incoming.now.context.report ≡ Answers → question_of incoming.now.delivery.now ≡ None → output K.Sink out.new ≡ output K.Sink out.old }
    ensures same { GoesOn replay.old replay.new }
    ensures source { HasGoneOn R.Revisions revisions.old revisions.new }
    ensures written { HasWrittenOn K.Sink out.old out.new }
{
    match incoming.delivery {
        Delivery::Event(event) => {
            let answer = replay.take(*event)?;
            Ok(Delivered {
                answer: Some(answer),
                reported: incoming.context.reported,
            })
        }
        Delivery::Watermark(mark) => {
            replay.raise(mark);
            let reported = apply_due(&incoming.context, revisions, out, replay)?;
            Ok(Delivered {
                answer: None,
                reported,
            })
        }
        Delivery::Ask(pattern) => {
            let reported = incoming.context.answer(pattern, replay, out)?;
            Ok(Delivered {
                answer: None,
                reported,
            })
        }
        Delivery::Mapping(version) => {
            let reported = take_mapping(&incoming.context, *version, out, replay)?;
            Ok(Delivered {
                answer: None,
                reported,
            })
        }
        Delivery::Match(query) => {
            let reported = incoming.context.answer_match(query, replay, out)?;
            Ok(Delivered {
                answer: None,
                reported,
            })
        }
    }
}

// Takes the end of the deliveries, and applies all that waits.
pub fn take_end<R: Revisions, K: Sink>(
    context: &Context<'_>,
    revisions: &mut R,
    out: &mut K,
    replay: &mut Replay,
) -> Result<Reported, Halt>
    ensures ok { IfOk result (λ reported. AppliesDue (environment_in replay.old context.now.report (R.contents revisions.old) context.now.folder.now) context.now.reported reported
        (with_world (stage R.Revisions K.Sink revisions.old out.old replay.old.world) (after_end replay.old.world.replay)) (stage R.Revisions K.Sink revisions.new out.new replay.new.world)) }
    ensures err { IfErr result (λ halt. StaysWithin halt (environment_in replay.old context.now.report (R.contents revisions.old) context.now.folder.now) context.now.reported
        (with_world (stage R.Revisions K.Sink revisions.old out.old replay.old.world) (after_end replay.old.world.replay)) (stage R.Revisions K.Sink revisions.new out.new replay.new.world)) }
    ensures held_up { IfErr result (λ halt. IsHeldUp halt (environment_in replay.old context.now.report (R.contents revisions.old) context.now.folder.now)
        (output K.Sink out.old) (stage R.Revisions K.Sink revisions.new out.new replay.new.world)) }
    ensures same { GoesOn replay.old replay.new }
    ensures versions { KeepsVersion (mapped_in replay.old.world) (mapped_in replay.new.world) replay.old.world.replay.played.records replay.new.world.replay.played.records }
    ensures source { HasGoneOn R.Revisions revisions.old revisions.new }
    ensures written { HasWrittenOn K.Sink out.old out.new }
    ensures silent { context.now.report ≡ Answers → output K.Sink out.new ≡ output K.Sink out.old }
{
    replay.close();
    apply_due(context, revisions, out, replay)
}

// Applies all due events, the least first, and tells each, where changes are reported, before the next is applied; stops at once where the
// graphs of a split are lost. Says what is reported then.
fn apply_due<R: Revisions, K: Sink>(
    context: &Context<'_>,
    revisions: &mut R,
    out: &mut K,
    replay: &mut Replay,
) -> Result<Reported, Halt>
    ensures ok { IfOk result (λ reported. AppliesDue (environment_in replay.old context.now.report (R.contents revisions.old) context.now.folder.now) context.now.reported reported
        (stage R.Revisions K.Sink revisions.old out.old replay.old.world) (stage R.Revisions K.Sink revisions.new out.new replay.new.world)) }
    ensures err { IfErr result (λ halt. StaysWithin halt (environment_in replay.old context.now.report (R.contents revisions.old) context.now.folder.now) context.now.reported
        (stage R.Revisions K.Sink revisions.old out.old replay.old.world) (stage R.Revisions K.Sink revisions.new out.new replay.new.world)) }
    ensures held_up { IfErr result (λ halt. IsHeldUp halt (environment_in replay.old context.now.report (R.contents revisions.old) context.now.folder.now)
        (output K.Sink out.old) (stage R.Revisions K.Sink revisions.new out.new replay.new.world)) }
    ensures same { GoesOn replay.old replay.new }
    ensures versions { KeepsVersion (mapped_in replay.old.world) (mapped_in replay.new.world) replay.old.world.replay.played.records replay.new.world.replay.played.records }
    ensures source { HasGoneOn R.Revisions revisions.old revisions.new }
    ensures written { HasWrittenOn K.Sink out.old out.new }
    ensures silent { context.now.report ≡ Answers → output K.Sink out.new ≡ output K.Sink out.old }
{
    let mut reported = context.reported;
    loop {
        match replay.world.apply_next_with(
            revisions,
            context.folder,
            context.report.telling(reported),
            routes_of(&replay.graphs),
        ) {
            Ok(
                AppliedStep {
                    applied,
                    change,
                    routed,
                },
            ) => {
                let followed = follow_application(&mut replay.graphs, &applied, routed);
                match context.tell(reported, change, out) {
                    Ok(now) => reported = now,
                    Err(why) => return Err(Halt::Unprinted(why)),
                }
                followed?;
            }
            Err(WorldFault::Nothing) => return Ok(reported),
            Err(WorldFault::Full) => return Err(Halt::Unapplied(StoreFault::Full)),
            Err(WorldFault::OutOfMemory) => return Err(Halt::Unapplied(StoreFault::OutOfMemory)),
        }
    }
}
