// The context in which a delivery is taken, and the report on it.

ghost use Rattle.std.specs.Prelude.{◌≡◌, ◌+◌, ◌-◌, ◌^◌, ◌<◌, List, false};
ghost use Rattle.rdf_term.specs.declared.triple.Triple.{Triple as TheTriple};
ghost use Rattle.replay_model.specs.{Transcript.for_bindings, Transcript.for_triples, Versions.meaning_by};
ghost use Rattle.fetched_pages.specs.Meaning.{meaning};
ghost use Rattle.world.specs.Held.{TellsChange};
ghost use Rattle.text_output.specs.Printing.{Prints, output};
ghost use Rattle.patch_stream.specs.Stream.{step};
ghost use Rattle.run_model.specs.{declared.report.Report.TheVariants.Answers, Course.answer_text, Moment.HasWrittenOn};
ghost use Rattle.run_model.specs.Delivering.{AnswersQuestion, HasNumberLeft, TellsStepBy, telling_of};

use crate::replay::Replay;
use delivery::{Delivery, Query};
use patch_stream::{changes_something, print_step};
use rdf_term::Pattern;
use run_model::{Report, Reported};
use std::alloc::Global;
use text_output::Unwritten;
use transcript::{print_answer, print_match};
use world::StepChange;
use wq_io::Sink;

// The context in which a delivery is taken: memory, the folder of the revisions, what is reported, what was reported before, and how many
// matches were delivered.
#[derive(Clone, Copy)]
pub struct Context<'a> {
    pub alloc: Global,
    pub folder: &'a str,
    pub report: Report,
    pub reported: Reported,
    pub matched: u64,
}

// A delivery, and the context in which it is taken.
#[derive(Clone, Copy)]
pub struct Incoming<'a> {
    pub context: Context<'a>,
    pub delivery: &'a Delivery,
}

impl Context<'_> {
    // Answers an ask, if questions are answered, and says what is reported then. In a split each graph answers.
    pub fn answer<K: Sink>(
        &self,
        pattern: &Pattern,
        replay: &Replay,
        out: &mut K,
    ) -> Result<Reported, Unwritten>
        requires number { HasNumberLeft self.now.report self.now.reported self.now.matched }
        requires lean { self.now.report ≡ Answers → replay.now.world.limit.lean ≡ false }
        ensures answers { AnswersQuestion self.now.report self.now.reported (for_triples pattern.now)
            (answer_text replay.now.routes self.now.reported.number self.now.matched (meaning_by meaning replay.now.world.by_two) replay.now.world.replay.played.records (for_triples pattern.now))
            (output K.Sink out.old) (output K.Sink out.new) result }
        ensures written { HasWrittenOn K.Sink out.old out.new }
    {
        match self.report {
            Report::Answers => match self.print(pattern, replay, out) {
                Ok(()) => Ok(Reported {
                    number: self.reported.number + 1,
                    changed: self.reported.changed,
                }),
                Err(why) => Err(why),
            },
            Report::Changes => Ok(self.reported),
        }
    }

    // Answers a match, if questions are answered, and says what is reported then, which a match doesn't change. A split passes it over.
    pub fn answer_match<K: Sink>(
        &self,
        query: &Query,
        replay: &Replay,
        out: &mut K,
    ) -> Result<Reported, Unwritten>
        requires number { HasNumberLeft self.now.report self.now.reported self.now.matched }
        requires lean { self.now.report ≡ Answers → replay.now.world.limit.lean ≡ false }
        ensures answers { AnswersQuestion self.now.report self.now.reported (for_bindings query.now)
            (answer_text replay.now.routes self.now.reported.number self.now.matched (meaning_by meaning replay.now.world.by_two) replay.now.world.replay.played.records (for_bindings query.now))
            (output K.Sink out.old) (output K.Sink out.new) result }
        ensures written { HasWrittenOn K.Sink out.old out.new }
    {
        match self.report {
            Report::Answers => match self.print_rows(query, replay, out) {
                Ok(()) => Ok(self.reported),
                Err(why) => Err(why),
            },
            Report::Changes => Ok(self.reported),
        }
    }

    // Prints the answer to the next match, unless there are graphs.
    fn print_rows<K: Sink>(
        &self,
        query: &Query,
        replay: &Replay,
        out: &mut K,
    ) -> Result<(), Unwritten>
        requires number { self.now.matched < 2 ^ 64 - 1 }
        requires lean { replay.now.world.limit.lean ≡ false }
        ensures { Prints (answer_text replay.now.routes self.now.reported.number self.now.matched (meaning_by meaning replay.now.world.by_two) replay.now.world.replay.played.records (for_bindings query.now))
            (output K.Sink out.old) (output K.Sink out.new) result }
    {
        match &replay.graphs {
            Some(_) => Ok(()),
            None => print_match(self.alloc, self.matched + 1, query, &replay.world, out),
        }
    }

    // Prints the answer to the next ask.
    fn print<K: Sink>(
        &self,
        pattern: &Pattern,
        replay: &Replay,
        out: &mut K,
    ) -> Result<(), Unwritten>
        requires number { self.now.reported.number < 2 ^ 64 - 1 }
        requires lean { replay.now.world.limit.lean ≡ false }
        ensures { Prints (answer_text replay.now.routes self.now.reported.number self.now.matched (meaning_by meaning replay.now.world.by_two) replay.now.world.replay.played.records (for_triples pattern.now))
            (output K.Sink out.old) (output K.Sink out.new) result }
    {
        let number = self.reported.number + 1;
        match &replay.graphs {
            Some(graphs) => graphs.print_answers(self.alloc, number, pattern, out),
            None => print_answer(self.alloc, number, pattern, &replay.world, out),
        }
    }

    // Says what is reported once a step was made that tells this: where changes are reported, its record is written behind the others;
    // otherwise whether a step has changed which triples are stored.
    pub fn tell<K: Sink>(
        &self,
        reported: Reported,
        change: StepChange,
        out: &mut K,
    ) -> Result<Reported, Unwritten>
        ensures tells { (before after : List TheTriple) → TellsChange (telling_of self.now.report reported) before after change →
            TellsStepBy self.now.report reported (step before after) (output K.Sink out.old) (output K.Sink out.new) result }
        ensures written { HasWrittenOn K.Sink out.old out.new }
    {
        match self.report {
            Report::Answers => {
                let differs = changes_something(&change);
                drop(change);
                Ok(Reported {
                    number: reported.number,
                    changed: reported.changed || differs,
                })
            }
            Report::Changes => match print_step(self.alloc, reported.number, change, out) {
                Ok(number) => Ok(Reported {
                    number,
                    changed: reported.changed,
                }),
                Err(why) => Err(why),
            },
        }
    }
}
