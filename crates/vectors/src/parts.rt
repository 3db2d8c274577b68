// Parts of the mapping by themselves: what a statement, an amount and a link to an article become.

use crate::ranks::ranked;
use crate::sets::write_set;
use crate::tester::{Tester, write_text};
use entity_model::{EntityId, Link, MappingVersion, QuantityParts, Rank, Value};
use mapping_triples::{article_triples, node_triples, simple, statement_triples};
use rdf_term::{CowText, List, OutOfMemory, Triple, TripleSet};
use std::alloc::Global;
use triple_sink::Setting;

// The first version of the mapping.
fn setting(alloc: Global) -> Setting {
    Setting {
        alloc,
        version: MappingVersion::One,
    }
}

// Writes the set of triples that were appended to none.
fn write_appended(
    appended: Result<(), OutOfMemory>,
    triples: List<Triple>,
    found: &mut Vec<u8>,
) -> Option<()> {
    let set = TripleSet::from_list(triples).ok()?;
    let written = write_set(set, found);
    appended.ok().and(written)
}

// What a best statement says, that Q1 has no value of P1.
const NO_VALUE: &str = "\
<http://www.wikidata.org/entity/Q1> <http://www.w3.org/1999/02/22-rdf-syntax-ns#type> <http://www.wikidata.org/prop/novalue/P1> .
<http://www.wikidata.org/entity/Q1> <http://www.wikidata.org/prop/P1> <http://www.wikidata.org/entity/statement/x> .
<http://www.wikidata.org/entity/statement/x> <http://wikiba.se/ontology#rank> <http://wikiba.se/ontology#NormalRank> .
<http://www.wikidata.org/entity/statement/x> <http://www.w3.org/1999/02/22-rdf-syntax-ns#type> <http://wikiba.se/ontology#BestRank> .
<http://www.wikidata.org/entity/statement/x> <http://www.w3.org/1999/02/22-rdf-syntax-ns#type> <http://wikiba.se/ontology#Statement> .
<http://www.wikidata.org/entity/statement/x> <http://www.w3.org/1999/02/22-rdf-syntax-ns#type> <http://www.wikidata.org/prop/novalue/P1> .
";

fn write_statement(alloc: Global, found: &mut Vec<u8>) -> Option<()> {
    let entity = EntityId::read("Q1")?;
    let property = EntityId::read("P1")?;
    let statement = ranked(alloc, property, Rank::Normal);
    let mut triples = List::new(alloc);
    let appended = statement_triples(setting(alloc), entity, &statement, true, &mut triples);
    drop(statement);
    write_appended(appended, triples, found)
}

// What the amount +5 without a unit becomes; md5sum says that `q2:+51:1--` has this name.
const AMOUNT: &str = "\
<http://www.wikidata.org/value/264596658257651e25b9a6e5508e8bad> <http://wikiba.se/ontology#quantityAmount> \"+5\"^^<http://www.w3.org/2001/XMLSchema#decimal> .
<http://www.wikidata.org/value/264596658257651e25b9a6e5508e8bad> <http://wikiba.se/ontology#quantityUnit> <http://www.wikidata.org/entity/Q199> .
<http://www.wikidata.org/value/264596658257651e25b9a6e5508e8bad> <http://www.w3.org/1999/02/22-rdf-syntax-ns#type> <http://wikiba.se/ontology#QuantityValue> .
";

fn write_amount(alloc: Global, found: &mut Vec<u8>) -> Option<()> {
    let value = Value::Quantity(QuantityParts {
        amount: CowText::borrowed("+5"),
        unit: CowText::borrowed("1"),
        upper: None,
        lower: None,
    });
    let mut triples = List::new(alloc);
    let appended = node_triples(setting(alloc), &value, &mut triples);
    drop(value);
    write_appended(appended, triples, found)
}

fn write_no_term(alloc: Global, found: &mut Vec<u8>) -> Option<()> {
    match simple(alloc, "string", &Value::Other) {
        Ok(None) => write_text("no term", found),
        Ok(term) => {
            drop(term);
            write_text("a term", found)
        }
        Err(_) => None,
    }
}

// What a link to the article on Berlin in the English Wikipedia becomes.
const ARTICLE: &str = "\
<https://en.wikipedia.org/> <http://wikiba.se/ontology#wikiGroup> \"wikipedia\" .
<https://en.wikipedia.org/wiki/Berlin> <http://schema.org/about> <http://www.wikidata.org/entity/Q64> .
<https://en.wikipedia.org/wiki/Berlin> <http://schema.org/inLanguage> \"en\" .
<https://en.wikipedia.org/wiki/Berlin> <http://schema.org/isPartOf> <https://en.wikipedia.org/> .
<https://en.wikipedia.org/wiki/Berlin> <http://schema.org/name> \"Berlin\"@en .
<https://en.wikipedia.org/wiki/Berlin> <http://www.w3.org/1999/02/22-rdf-syntax-ns#type> <http://schema.org/Article> .
";

fn write_article(alloc: Global, found: &mut Vec<u8>) -> Option<()> {
    let entity = EntityId::read("Q64")?;
    let link = Link {
        site: CowText::borrowed("enwiki"),
        title: CowText::borrowed("Berlin"),
        badges: List::new(alloc),
    };
    let mut triples = List::new(alloc);
    let appended = article_triples(setting(alloc), entity, &link, &mut triples);
    drop(link);
    write_appended(appended, triples, found)
}

pub(crate) fn try_parts(tester: &mut Tester<'_>) {
    let alloc = tester.alloc();
    let ended = write_statement(alloc, &mut tester.found);
    tester.try_text("a best statement", NO_VALUE, ended);
    let ended = write_amount(alloc, &mut tester.found);
    tester.try_text("an amount", AMOUNT, ended);
    let ended = write_no_term(alloc, &mut tester.found);
    tester.try_text("a value of another type has no term", "no term", ended);
    let ended = write_article(alloc, &mut tester.found);
    tester.try_text("an article", ARTICLE, ended);
}
