// The triples of a document, its counts, and its graph.

ghost use Rattle.std.specs.Prelude.{◌≡◌, List, Some, IfOk, IfSome, option_copied, option_map};
ghost use Rattle.std.specs.List.{AllByRecursion, flat_map};
ghost use Rattle.sorted_sets.specs.Rising.{sorted};
ghost use Rattle.rdf_term.specs.{Fit.HasFitAndShortTerms, Order.triple_cmp};
ghost use Rattle.entity_model.specs.Document.{IsDocumentOf, IsSmall};
ghost use Rattle.entity_rdf.specs.Dump.{dump};
ghost use Rattle.munger.specs.Munging.{munged};
ghost use Rattle.fetched_pages.specs.{Listed.IsListed, Listed.counts_if, Meaning.document_triples};
ghost use Rattle.graph_routes.specs.{declared.routes.Route.Route, Routing.route_of};

use crate::fetching::{Mapped, Wanted};
use entity_model::{Document, EntityId, MappingVersion};
use entity_rdf::direct_texts;
use graph_routes::{Routes, route};
use page_rdf::Counts;
use rdf_term::OutOfMemory;
use std::alloc::Global;
use triple_sink::Setting;
use triple_texts::TripleTexts;

/// The triples of the document by a version of the mapping, by their texts. One may stand there more than once.
pub fn document_texts(
    alloc: Global,
    id: EntityId,
    rev: u64,
    document: &Document,
    version: MappingVersion,
) -> Result<TripleTexts, OutOfMemory>
    requires { IsDocumentOf id document.now }
    ensures value { IfOk result (λ texts. sorted triple_cmp texts ≡ document_triples version id rev document.now) }
    ensures list { IfOk result (λ texts. texts ≡ flat_map (munged id) (dump version id rev document.now)) }
    ensures fit { IsSmall document.now → IfOk result (AllByRecursion HasFitAndShortTerms) }
{
    let setting = Setting { alloc, version };
    direct_texts(setting, id, rev, document)
}

/// The triples of a document of the wanted entity, its counts, and its graph.
pub fn map_document(
    alloc: Global,
    wanted: Wanted,
    document: &Document,
    routes: Option<&Routes>,
) -> Result<Mapped, OutOfMemory>
    requires { IsDocumentOf wanted.id document.now }
    ensures meant { IfOk result (λ mapped. sorted triple_cmp mapped.triples ≡ document_triples wanted.version wanted.id wanted.rev document.now) }
    ensures listed { IfOk result (λ mapped. IfSome mapped.counts (λ counts. IsListed wanted.version wanted.id wanted.rev (Some document.now) counts mapped.triples)) }
    ensures fit { IsSmall document.now → IfOk result (λ mapped. AllByRecursion HasFitAndShortTerms mapped.triples) }
    ensures routed { IfOk result (λ mapped. mapped.graph ≡ option_map (λ (r : List Route). route_of r document.now) (option_copied routes.entry)) }
{
    let graph = graph_of(alloc, document, routes)?;
    let triples = document_texts(alloc, wanted.id, wanted.rev, document, wanted.version)?;
    Ok(Mapped {
        triples,
        counts: counts_in(document),
        graph,
    })
}

// The counts of the document of an item or a property.
fn counts_in(document: &Document) -> Option<Counts>
    ensures { result ≡ counts_if document.now }
{
    match document {
        Document::Entity(entity) => Some(Counts::of(entity)),
        Document::Redirect(_) | Document::Lexeme(_) => None,
    }
}

// The graph that a document is routed to, where there are routes.
fn graph_of(
    alloc: Global,
    document: &Document,
    routes: Option<&Routes>,
) -> Result<Option<usize>, OutOfMemory>
    ensures { IfOk result (λ graph. graph ≡ option_map (λ (r : List Route). route_of r document.now) (option_copied routes.entry)) }
{
    match routes {
        Some(routes) => match route(alloc, routes, document) {
            Ok(graph) => Ok(Some(graph)),
            Err(refused) => Err(refused),
        },
        None => Ok(None),
    }
}
