// The first lines of what is printed of a graph.

ghost use Rattle.std.specs.Prelude.{◌≡◌, IfOk, string_bytes};
ghost use Rattle.subgraph.specs.Sections.{graph_answer_head, graph_head};

use rdf_term::OutOfMemory;
use std::alloc::Global;

// The first line of the triples of a graph.
#[tactic(auto, unfolding(subgraph::specs::Sections::graph_head))]
pub(crate) fn graph_line(alloc: Global, name: &str, count: usize) -> Result<String, OutOfMemory>
    ensures { IfOk result (λ line. string_bytes line ≡ graph_head name.now count) }
{
    Ok(format!(in alloc; "# graph {name}: {count} triples\n")?)
}

// The first line of the answer of a graph to the question with this number.
#[tactic(auto, unfolding(subgraph::specs::Sections::graph_answer_head))]
pub(crate) fn graph_answer_line(
    alloc: Global,
    number: u64,
    name: &str,
    count: usize,
) -> Result<String, OutOfMemory>
    ensures { IfOk result (λ line. string_bytes line ≡ graph_answer_head number name.now count) }
{
    Ok(format!(in alloc; "# ask {number} {name}: {count} triples\n")?)
}
