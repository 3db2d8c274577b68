// Values from outside: the data differences that the Wikidata Query Service documents, by hand.

use crate::sets::{set_of, write_set};
use crate::tester::Tester;
use entity_model::EntityId;
use munger::munge;
use std::alloc::Global;

// A record of the triples of a dump of Q64, and then what is left of them.
const LINES: &str = "\
# patch 1 +22 -0
<http://www.wikidata.org/entity/Q64> <http://schema.org/name> \"Berlin\"@en .
<http://www.wikidata.org/entity/Q64> <http://www.w3.org/1999/02/22-rdf-syntax-ns#type> <http://wikiba.se/ontology#Item> .
<http://www.wikidata.org/entity/Q64> <http://www.w3.org/1999/02/22-rdf-syntax-ns#type> <http://wikiba.se/ontology#Property> .
<http://www.wikidata.org/entity/Q64> <http://www.w3.org/2000/01/rdf-schema#label> \"Berlin\"@en .
<http://www.wikidata.org/entity/Q64> <http://www.w3.org/2004/02/skos/core#altLabel> \"Berlin, Germany\"@en .
<http://www.wikidata.org/entity/Q64> <http://www.w3.org/2004/02/skos/core#prefLabel> \"Berlin\"@en .
<http://www.wikidata.org/entity/Q64> <http://www.wikidata.org/prop/direct/P1> _:0a .
<http://www.wikidata.org/entity/Q64> <http://www.wikidata.org/prop/direct/P2> \"1\"^^<http://a/b> .
<http://www.wikidata.org/entity/Q64> <http://www.wikidata.org/prop/direct/P2> \"2\"^^<http://a/a> .
<http://www.wikidata.org/entity/statement/Q64-1> <http://www.w3.org/1999/02/22-rdf-syntax-ns#type> <http://wikiba.se/ontology#BestRank> .
<http://www.wikidata.org/entity/statement/Q64-1> <http://www.w3.org/1999/02/22-rdf-syntax-ns#type> <http://wikiba.se/ontology#Statement> .
<http://www.wikidata.org/reference/ab> <http://www.w3.org/1999/02/22-rdf-syntax-ns#type> <http://wikiba.se/ontology#Reference> .
<https://en.wikipedia.org/wiki/Berlin> <http://schema.org/name> \"Berlin\"@en .
<https://www.wikidata.org/wiki/Special:EntityData/Q64> <http://schema.org/about> <http://www.wikidata.org/entity/Q64> .
<https://www.wikidata.org/wiki/Special:EntityData/Q64> <http://schema.org/dateModified> \"2024\" .
<https://www.wikidata.org/wiki/Special:EntityData/Q64> <http://schema.org/softwareVersion> \"1.0.0\" .
<https://www.wikidata.org/wiki/Special:EntityData/Q64> <http://schema.org/version> \"17\" .
<https://www.wikidata.org/wiki/Special:EntityData/Q64> <http://wikiba.se/ontology#identifiers> \"0\" .
<https://www.wikidata.org/wiki/Special:EntityData/Q64> <http://wikiba.se/ontology#sitelinks> \"2\" .
<https://www.wikidata.org/wiki/Special:EntityData/Q64> <http://wikiba.se/ontology#statements> \"3\" .
<https://www.wikidata.org/wiki/Special:EntityData/Q6> <http://schema.org/version> \"6\" .
_:0a <http://a/p> _:0b .";

const MUNGED: &str =
    "<http://www.wikidata.org/.well-known/genid/0a> <http://a/p> <http://www.wikidata.org/.well-known/genid/0b> .
<http://www.wikidata.org/entity/Q64> <http://schema.org/dateModified> \"2024\" .
<http://www.wikidata.org/entity/Q64> <http://schema.org/version> \"17\" .
<http://www.wikidata.org/entity/Q64> <http://wikiba.se/ontology#identifiers> \"0\" .
<http://www.wikidata.org/entity/Q64> <http://wikiba.se/ontology#sitelinks> \"2\" .
<http://www.wikidata.org/entity/Q64> <http://wikiba.se/ontology#statements> \"3\" .
<http://www.wikidata.org/entity/Q64> <http://www.w3.org/1999/02/22-rdf-syntax-ns#type> <http://wikiba.se/ontology#Property> .
<http://www.wikidata.org/entity/Q64> <http://www.w3.org/2000/01/rdf-schema#label> \"Berlin\"@en .
<http://www.wikidata.org/entity/Q64> <http://www.w3.org/2004/02/skos/core#altLabel> \"Berlin, Germany\"@en .
<http://www.wikidata.org/entity/Q64> <http://www.wikidata.org/prop/direct/P1> <http://www.wikidata.org/.well-known/genid/0a> .
<http://www.wikidata.org/entity/Q64> <http://www.wikidata.org/prop/direct/P2> \"1\"^^<http://a/b> .
<http://www.wikidata.org/entity/Q64> <http://www.wikidata.org/prop/direct/P2> \"2\"^^<http://a/a> .
<http://www.wikidata.org/entity/statement/Q64-1> <http://www.w3.org/1999/02/22-rdf-syntax-ns#type> <http://wikiba.se/ontology#BestRank> .
<https://en.wikipedia.org/wiki/Berlin> <http://schema.org/name> \"Berlin\"@en .
<https://www.wikidata.org/wiki/Special:EntityData/Q6> <http://schema.org/version> \"6\" .
";

// Writes what munging leaves of the dump.
fn write_munged(alloc: Global, found: &mut Vec<u8>) -> Option<()> {
    let id = EntityId::read("Q64")?;
    let dump = set_of(alloc, LINES)?;
    let munged = munge(alloc, id, &dump);
    drop(dump);
    write_set(munged.ok()?, found)
}

pub(crate) fn try_munged(tester: &mut Tester<'_>) {
    let ended = write_munged(tester.alloc(), &mut tester.found);
    tester.try_text("a page is munged", MUNGED, ended);
}
