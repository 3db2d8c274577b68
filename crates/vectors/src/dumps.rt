// The dump of a small document, and what is kept of the dumps of pages, which no output shows. The crate `cases` tries whole pages.

ghost use Rattle.entity_model.specs.Document.{IsDocumentOf};

use crate::sets::{write_lines, write_set};
use crate::tester::{Subject, Tester, write_text};
use entity_documents::document;
use entity_json::discard;
use entity_model::{Document, EntityId, MappingVersion};
use entity_rdf::{direct_texts, direct_triples, dump_triples};
use munger::munge;
use rdf_term::TripleSet;
use std::alloc::Global;
use triple_sink::Setting;
use triple_texts::TripleTexts;

// A page with one label.
const PAGE: &str = r#"{"type":"item","id":"Q1","labels":{"en":{"language":"en","value":"a"}}}"#;

// All that it says.
const ITEM: &str = "\
<http://www.wikidata.org/entity/Q1> <http://schema.org/name> \"a\"@en .
<http://www.wikidata.org/entity/Q1> <http://www.w3.org/1999/02/22-rdf-syntax-ns#type> <http://wikiba.se/ontology#Item> .
<http://www.wikidata.org/entity/Q1> <http://www.w3.org/2000/01/rdf-schema#label> \"a\"@en .
<http://www.wikidata.org/entity/Q1> <http://www.w3.org/2004/02/skos/core#prefLabel> \"a\"@en .
<https://www.wikidata.org/wiki/Special:EntityData/Q1> <http://creativecommons.org/ns#license> <http://creativecommons.org/publicdomain/zero/1.0/> .
<https://www.wikidata.org/wiki/Special:EntityData/Q1> <http://schema.org/about> <http://www.wikidata.org/entity/Q1> .
<https://www.wikidata.org/wiki/Special:EntityData/Q1> <http://schema.org/softwareVersion> \"1.0.0\" .
<https://www.wikidata.org/wiki/Special:EntityData/Q1> <http://schema.org/version> \"5\"^^<http://www.w3.org/2001/XMLSchema#integer> .
<https://www.wikidata.org/wiki/Special:EntityData/Q1> <http://wikiba.se/ontology#identifiers> \"0\"^^<http://www.w3.org/2001/XMLSchema#integer> .
<https://www.wikidata.org/wiki/Special:EntityData/Q1> <http://wikiba.se/ontology#sitelinks> \"0\"^^<http://www.w3.org/2001/XMLSchema#integer> .
<https://www.wikidata.org/wiki/Special:EntityData/Q1> <http://wikiba.se/ontology#statements> \"0\"^^<http://www.w3.org/2001/XMLSchema#integer> .
<https://www.wikidata.org/wiki/Special:EntityData/Q1> <http://www.w3.org/1999/02/22-rdf-syntax-ns#type> <http://schema.org/Dataset> .
";

// Writes the dump of the page at revision 5.
fn write_dump(alloc: Global, found: &mut Vec<u8>) -> Option<()> {
    let id = EntityId::read("Q1")?;
    let Ok(document) = document(alloc, id, PAGE.as_bytes()) else {
        return None;
    };
    let setting = Setting {
        alloc,
        version: MappingVersion::One,
    };
    let dump = dump_triples(setting, id, 5, &document);
    discard(document);
    write_set(dump.ok()?, found)
}

// Pages, each behind the id of its entity: redirects, one of two equal keys, labels with a description and an alias, a modified page,
// statements of each rank, two deprecated ones, no value and unknown values with qualifiers, values of each type with a reference, site
// links with badges, properties, an identifier, a lexeme.
const PAGES: &str = r#"Q1 {"entity":"Q1","redirect":"Q2"}
Q1 {"entities":{"Q1":{"type":"item","id":"Q7","id":"Q1","labels":[],"claims":[],"sitelinks":[]}}}
Q64 {"type":"item","id":"Q64","modified":"2024-05-01T12:00:00Z","labels":{"en":{"language":"en","value":"Berlin"},"zh-hans":{"language":"zh-hans","value":"柏林"},"x":{"language":"no tag","value":"y"}},"descriptions":{"en":{"language":"en","value":"capital"}},"aliases":{"en":[{"language":"en","value":"Berlin, Germany"},{"language":"en","value":"Berlin"}]}}
Q1 {"type":"item","id":"Q1","claims":{"P1":[{"id":"Q1$a","rank":"preferred","mainsnak":{"snaktype":"value","property":"P1","datavalue":{"type":"string","value":"a"}}},{"id":"Q1$b","rank":"normal","mainsnak":{"snaktype":"value","property":"P1","datavalue":{"type":"string","value":"b"}}},{"id":"Q1$c","rank":"deprecated","mainsnak":{"snaktype":"value","property":"P1","datavalue":{"type":"string","value":"c"}}}]}}
Q1 {"type":"item","id":"Q1","claims":{"P1":[{"id":"Q1$a","rank":"deprecated","mainsnak":{"snaktype":"value","property":"P1","datavalue":{"type":"string","value":"a"}}},{"id":"Q1$b","rank":"deprecated","mainsnak":{"snaktype":"value","property":"P1","datavalue":{"type":"string","value":"b"}}}]}}
Q1 {"type":"item","id":"Q1","claims":{"P1":[{"id":"Q1$n","rank":"normal","mainsnak":{"snaktype":"novalue","property":"P1"}}],"P2":[{"id":"Q1$s","rank":"normal","mainsnak":{"snaktype":"somevalue","property":"P2"},"qualifiers":{"P3":[{"snaktype":"somevalue","property":"P3"}],"P4":[{"snaktype":"novalue","property":"P4"}]}}]}}
Q64 {"type":"item","id":"Q64","claims":{"P571":[{"id":"Q64$A","rank":"normal","mainsnak":{"snaktype":"value","property":"P571","datatype":"time","datavalue":{"type":"time","value":{"time":"+1237-00-00T00:00:00Z","timezone":0,"precision":9,"calendarmodel":"http://www.wikidata.org/entity/Q1985786"}}},"references":[{"hash":"0a1b","snaks":{"P854":[{"snaktype":"value","property":"P854","datatype":"url","datavalue":{"type":"string","value":"https://example.org/a b"}}]}}]}]}}
Q64 {"type":"item","id":"Q64","claims":{"P2046":[{"id":"Q64$B","rank":"normal","mainsnak":{"snaktype":"value","property":"P2046","datatype":"quantity","datavalue":{"type":"quantity","value":{"amount":"+891.12","unit":"http://www.wikidata.org/entity/Q712226","upperBound":"+892","lowerBound":"+891"}}}}],"P625":[{"id":"Q64$C","rank":"normal","mainsnak":{"snaktype":"value","property":"P625","datatype":"globe-coordinate","datavalue":{"type":"globecoordinate","value":{"latitude":52.50,"longitude":13.4,"precision":1.0e-5,"globe":"http://www.wikidata.org/entity/Q2"}}}}]}}
Q64 {"type":"item","id":"Q64","sitelinks":{"enwiki":{"site":"enwiki","title":"Berlin (city)","badges":["Q2","Q1"]},"commonswiki":{"site":"commonswiki","title":"Berlin","badges":[]},"x":{"site":"wiki","title":"A"}}}
P31 {"type":"property","id":"P31","datatype":"wikibase-item"}
P1 {"type":"property","id":"P1","datatype":"","labels":{"en":{"language":"en","value":"a"}},"claims":{"P2":[{"id":"P1$a","rank":"normal","mainsnak":{"snaktype":"value","property":"P2","datatype":"external-id","datavalue":{"type":"string","value":"x"}}}]}}
L1 {"type":"lexeme","id":"L1","lemmas":{"en":{"language":"en","value":"run"}},"lexicalCategory":"Q24905","language":"Q1860","claims":{},"forms":[{"id":"L1-F1","representations":{"en":{"language":"en","value":"ran"}},"grammaticalFeatures":["Q1"],"claims":{}}],"senses":[{"id":"L1-S1","glosses":{"en":{"language":"en","value":"move fast"}},"claims":{}}]}"#;

// What munging leaves of the dump.
fn munged(setting: Setting, id: EntityId, document: &Document) -> Option<TripleSet>
    requires { IsDocumentOf id document.now }
{
    let dump = dump_triples(setting, id, 5, document).ok()?;
    let kept = munge(setting.alloc, id, &dump);
    drop(dump);
    kept.ok()
}

// Whether two sets are equal; not where the second lacked memory.
fn are_equal(one: &TripleSet, other: Option<TripleSet>) -> bool {
    let Some(other) = other else {
        return false;
    };
    let equal = one.items() == other.items();
    drop(other);
    equal
}

// Whether a set has the same lines as the texts, among which a triple may stand more than once.
fn has_lines_of(alloc: Global, set: &TripleSet, texts: Option<TripleTexts>) -> bool {
    let Some(texts) = texts else {
        return false;
    };
    let mut lines = Vec::new(alloc);
    let mut others = Vec::new(alloc);
    let written = write_lines(set, &mut lines).is_ok()
        && write_texts(&texts, &mut others).is_some();
    drop(texts);
    let lines = lines.as_slice();
    let others = others.as_slice();
    written && has_each_line(lines, others) && has_each_line(others, lines)
}

// Writes triples by their texts, as lines.
fn write_texts(texts: &TripleTexts, found: &mut Vec<u8>) -> Option<()> {
    for index in 0..texts.len() {
        let triple = texts.get(index);
        for text in [triple.subject, triple.predicate, triple.object] {
            found.extend_from_slice(text).ok()?;
            found.push(b' ').ok()?;
        }
        write_text(".\n", found)?;
    }
    Some(())
}

// Whether a text has each line of another one.
fn has_each_line(text: &[u8], lines: &[u8]) -> bool {
    for line in lines.split(is_feed) {
        if !has_line(text, line) {
            return false;
        }
    }
    true
}

// Whether a text has a line.
fn has_line(text: &[u8], wanted: &[u8]) -> bool {
    for line in text.split(is_feed) {
        if line == wanted {
            return true;
        }
    }
    false
}

// Whether a byte ends a line.
fn is_feed(byte: &u8) -> bool {
    *byte == b'\n'
}

// Whether what munging leaves of the dump is some triples, and what is made without the dump, as a set and by its texts.
fn is_made_directly(setting: Setting, id: EntityId, document: &Document) -> bool
    requires { IsDocumentOf id document.now }
{
    let Some(kept) = munged(setting, id, document) else {
        return false;
    };
    let as_set = are_equal(&kept, direct_triples(setting, id, 5, document).ok());
    let texts = direct_texts(setting, id, 5, document).ok();
    let as_texts = has_lines_of(setting.alloc, &kept, texts);
    let some = !kept.items().is_empty();
    drop(kept);
    as_set && as_texts && some
}

// The same for the page of an entity under a version of the mapping; not where the page isn't one.
fn is_page_made_directly(setting: Setting, id: EntityId, page: &str) -> bool {
    let Ok(document) = document(setting.alloc, id, page.as_bytes()) else {
        return false;
    };
    let made = is_made_directly(setting, id, &document);
    discard(document);
    made
}

#[derive(Drop)]
struct Pages;

impl Subject for Pages {
    // Writes again a page that is made directly under both versions.
    fn answer(&mut self, alloc: Global, given: &str, found: &mut Vec<u8>) -> Option<()> {
        let (id, page) = given.split_once(' ')?;
        let id = EntityId::read(id)?;
        for version in [MappingVersion::One, MappingVersion::Two] {
            if !is_page_made_directly(Setting { alloc, version }, id, page) {
                return None;
            }
        }
        write_text(given, found)
    }
}

pub(crate) fn try_dumps(tester: &mut Tester<'_>) {
    let ended = write_dump(tester.alloc(), &mut tester.found);
    tester.try_text("the dump of an item", ITEM, ended);
    tester.try_rows("what is kept is made without the dump", PAGES, &mut Pages);
}
