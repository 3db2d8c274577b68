// The answers of graphs to a question, and their triples.

ghost use Rattle.rdf_term.specs.Pattern.{rows};
ghost use Rattle.replay_model.specs.Versions.{meaning_by};
ghost use Rattle.subgraph.specs.{Laws.routed_union, Sections.graph_answer, Sections.graph_answers, Sections.graph_section, Sections.graph_sections};
ghost use Rattle.text_output.specs.Printing.{Prints, output};
ghost use Rattle.fetched_pages.specs.Meaning.{meaning};
ghost use Rattle.world.specs.{Routed.routing_by, WorldState.WorldState};
ghost use Rattle.splitting.specs.Graphs.{Follow, PrintNothingIfLost};

use crate::graphs::Graphs;
use crate::lines::{graph_answer_line, graph_line};
use rdf_term::Pattern;
use std::alloc::Global;
use text_output::{Unwritten, print_section};
use triple_store::Rows;
use wq_io::Sink;

impl Graphs {
    /// Prints the answer of each graph to the question with this number: how many of its triples agree with the pattern, and the line of
    /// each.
    ///
    /// # Errors
    /// The output could not be written, or memory was refused: then a prefix of the answers was written, and nothing else. If the graphs
    /// are lost, the answer is OutOfMemory, and nothing is written.
    pub fn print_answers<K: Sink>(
        &self,
        alloc: Global,
        number: u64,
        pattern: &Pattern,
        out: &mut K,
    ) -> Result<(), Unwritten>
        ensures prints { (world : WorldState) → Follow self.now world → Prints
            (graph_answers self.now.routes number (λ graph. rows (routed_union (routing_by self.now.routes) (meaning_by meaning world.by_two) world.replay.played.records graph) pattern.now))
            (output K.Sink out.old) (output K.Sink out.new) result }
        ensures lost { PrintNothingIfLost self.now (output K.Sink out.old) (output K.Sink out.new) result }
    {
        let Some(split) = &self.split else {
            return Err(Unwritten::OutOfMemory);
        };
        for graph in 0..self.routes.graphs() {
            let rows = split.matching(graph, pattern)?;
            print_answer(alloc, number, self.routes.name(graph), &rows, out)?;
        }
        Ok(())
    }

    /// Prints the triples of each graph: how many there are, and the line of each.
    ///
    /// # Errors
    /// The output could not be written, or memory was refused: then a prefix of that was written, and nothing else. If the graphs are
    /// lost, the answer is OutOfMemory, and nothing is written.
    pub fn print<K: Sink>(&self, alloc: Global, out: &mut K) -> Result<(), Unwritten>
        ensures prints { (world : WorldState) → Follow self.now world → Prints
            (graph_sections self.now.routes (λ graph. routed_union (routing_by self.now.routes) (meaning_by meaning world.by_two) world.replay.played.records graph))
            (output K.Sink out.old) (output K.Sink out.new) result }
        ensures lost { PrintNothingIfLost self.now (output K.Sink out.old) (output K.Sink out.new) result }
    {
        let Some(split) = &self.split else {
            return Err(Unwritten::OutOfMemory);
        };
        for graph in 0..self.routes.graphs() {
            let rows = split.rows(graph)?;
            print_graph(alloc, self.routes.name(graph), &rows, out)?;
        }
        Ok(())
    }
}

// Prints an answer of the graph with this name: these triples.
fn print_answer<K: Sink>(
    alloc: Global,
    number: u64,
    name: &str,
    rows: &Rows<'_>,
    out: &mut K,
) -> Result<(), Unwritten>
    ensures { Prints (graph_answer number name.now rows.now) (output K.Sink out.old) (output K.Sink out.new) result }
{
    let head = graph_answer_line(alloc, number, name, rows.len())?;
    print_section(alloc, head.as_str(), rows, out)
}

// Prints the graph with this name: these triples.
fn print_graph<K: Sink>(
    alloc: Global,
    name: &str,
    rows: &Rows<'_>,
    out: &mut K,
) -> Result<(), Unwritten>
    ensures { Prints (graph_section name.now rows.now) (output K.Sink out.old) (output K.Sink out.new) result }
{
    let head = graph_line(alloc, name, rows.len())?;
    print_section(alloc, head.as_str(), rows, out)
}
