// Pages whose triples are stored where two pages may share them: what each step changes is told of what stood alone, and of what is stored.

ghost use Rattle.std.specs.Prelude.{IfSome};
ghost use Rattle.fetched_pages.specs.Fetched.{IsFetched, IsPageOf};

use crate::tester::{Tester, write_text};
use entity_model::{EntityId, MappingVersion};
use fetched_pages::{FetchedPage, Page, Wanted, judge};
use lean_holdings::{LeanHoldings, discard};
use page_packing::Unpacker;
use parts_exchange::PartsChange;
use std::alloc::Global;
use std::hash::RandomState;
use std::str;

// Each step is an entity, and the revision and the page that it holds from now on, or `-` where it holds nothing. The page of Q1 has the
// statement of Q2, before and after Q2 has it.
const STEPS: &str =
    r#"Q1 1 {"type":"item","id":"Q1","claims":{"P1":[{"id":"Q2$a","rank":"normal","mainsnak":{"snaktype":"novalue","property":"P1"}}]}}
Q2 2 {"type":"item","id":"Q2","claims":{"P1":[{"id":"Q2$a","rank":"normal","mainsnak":{"snaktype":"novalue","property":"P1"}}]}}
Q1 3 {"type":"item","id":"Q1"}
Q1 4 {"type":"item","id":"Q1","claims":{"P1":[{"id":"Q2$a","rank":"normal","mainsnak":{"snaktype":"novalue","property":"P1"}}]}}
Q2 5 -
Q1 6 -"#;

// What each step changes: of what stands in a page alone, and of what is stored. The node is told once, and goes with the last page of it.
const CHANGES: &str = r#"Q1 1
alone + <http://www.wikidata.org/entity/Q1> <http://schema.org/version> "1"^^<http://www.w3.org/2001/XMLSchema#integer> .
alone + <http://www.wikidata.org/entity/Q1> <http://wikiba.se/ontology#identifiers> "0"^^<http://www.w3.org/2001/XMLSchema#integer> .
alone + <http://www.wikidata.org/entity/Q1> <http://wikiba.se/ontology#sitelinks> "0"^^<http://www.w3.org/2001/XMLSchema#integer> .
alone + <http://www.wikidata.org/entity/Q1> <http://wikiba.se/ontology#statements> "1"^^<http://www.w3.org/2001/XMLSchema#integer> .
alone + <http://www.wikidata.org/entity/Q1> <http://www.w3.org/1999/02/22-rdf-syntax-ns#type> <http://www.wikidata.org/prop/novalue/P1> .
alone + <http://www.wikidata.org/entity/Q1> <http://www.wikidata.org/prop/P1> <http://www.wikidata.org/entity/statement/Q2-a> .
stored + <http://www.wikidata.org/entity/statement/Q2-a> <http://wikiba.se/ontology#rank> <http://wikiba.se/ontology#NormalRank> .
stored + <http://www.wikidata.org/entity/statement/Q2-a> <http://www.w3.org/1999/02/22-rdf-syntax-ns#type> <http://wikiba.se/ontology#BestRank> .
stored + <http://www.wikidata.org/entity/statement/Q2-a> <http://www.w3.org/1999/02/22-rdf-syntax-ns#type> <http://www.wikidata.org/prop/novalue/P1> .
Q2 2
stored + <http://www.wikidata.org/entity/Q2> <http://schema.org/version> "2"^^<http://www.w3.org/2001/XMLSchema#integer> .
stored + <http://www.wikidata.org/entity/Q2> <http://wikiba.se/ontology#identifiers> "0"^^<http://www.w3.org/2001/XMLSchema#integer> .
stored + <http://www.wikidata.org/entity/Q2> <http://wikiba.se/ontology#sitelinks> "0"^^<http://www.w3.org/2001/XMLSchema#integer> .
stored + <http://www.wikidata.org/entity/Q2> <http://wikiba.se/ontology#statements> "1"^^<http://www.w3.org/2001/XMLSchema#integer> .
stored + <http://www.wikidata.org/entity/Q2> <http://www.w3.org/1999/02/22-rdf-syntax-ns#type> <http://www.wikidata.org/prop/novalue/P1> .
stored + <http://www.wikidata.org/entity/Q2> <http://www.wikidata.org/prop/P1> <http://www.wikidata.org/entity/statement/Q2-a> .
Q1 3
alone + <http://www.wikidata.org/entity/Q1> <http://schema.org/version> "3"^^<http://www.w3.org/2001/XMLSchema#integer> .
alone + <http://www.wikidata.org/entity/Q1> <http://wikiba.se/ontology#statements> "0"^^<http://www.w3.org/2001/XMLSchema#integer> .
alone - <http://www.wikidata.org/entity/Q1> <http://schema.org/version> "1"^^<http://www.w3.org/2001/XMLSchema#integer> .
alone - <http://www.wikidata.org/entity/Q1> <http://wikiba.se/ontology#statements> "1"^^<http://www.w3.org/2001/XMLSchema#integer> .
alone - <http://www.wikidata.org/entity/Q1> <http://www.w3.org/1999/02/22-rdf-syntax-ns#type> <http://www.wikidata.org/prop/novalue/P1> .
alone - <http://www.wikidata.org/entity/Q1> <http://www.wikidata.org/prop/P1> <http://www.wikidata.org/entity/statement/Q2-a> .
Q1 4
alone + <http://www.wikidata.org/entity/Q1> <http://schema.org/version> "4"^^<http://www.w3.org/2001/XMLSchema#integer> .
alone + <http://www.wikidata.org/entity/Q1> <http://wikiba.se/ontology#statements> "1"^^<http://www.w3.org/2001/XMLSchema#integer> .
alone + <http://www.wikidata.org/entity/Q1> <http://www.w3.org/1999/02/22-rdf-syntax-ns#type> <http://www.wikidata.org/prop/novalue/P1> .
alone + <http://www.wikidata.org/entity/Q1> <http://www.wikidata.org/prop/P1> <http://www.wikidata.org/entity/statement/Q2-a> .
alone - <http://www.wikidata.org/entity/Q1> <http://schema.org/version> "3"^^<http://www.w3.org/2001/XMLSchema#integer> .
alone - <http://www.wikidata.org/entity/Q1> <http://wikiba.se/ontology#statements> "0"^^<http://www.w3.org/2001/XMLSchema#integer> .
Q2 5
stored - <http://www.wikidata.org/entity/Q2> <http://schema.org/version> "2"^^<http://www.w3.org/2001/XMLSchema#integer> .
stored - <http://www.wikidata.org/entity/Q2> <http://wikiba.se/ontology#identifiers> "0"^^<http://www.w3.org/2001/XMLSchema#integer> .
stored - <http://www.wikidata.org/entity/Q2> <http://wikiba.se/ontology#sitelinks> "0"^^<http://www.w3.org/2001/XMLSchema#integer> .
stored - <http://www.wikidata.org/entity/Q2> <http://wikiba.se/ontology#statements> "1"^^<http://www.w3.org/2001/XMLSchema#integer> .
stored - <http://www.wikidata.org/entity/Q2> <http://www.w3.org/1999/02/22-rdf-syntax-ns#type> <http://www.wikidata.org/prop/novalue/P1> .
stored - <http://www.wikidata.org/entity/Q2> <http://www.wikidata.org/prop/P1> <http://www.wikidata.org/entity/statement/Q2-a> .
Q1 6
alone - <http://www.wikidata.org/entity/Q1> <http://schema.org/version> "4"^^<http://www.w3.org/2001/XMLSchema#integer> .
alone - <http://www.wikidata.org/entity/Q1> <http://wikiba.se/ontology#identifiers> "0"^^<http://www.w3.org/2001/XMLSchema#integer> .
alone - <http://www.wikidata.org/entity/Q1> <http://wikiba.se/ontology#sitelinks> "0"^^<http://www.w3.org/2001/XMLSchema#integer> .
alone - <http://www.wikidata.org/entity/Q1> <http://wikiba.se/ontology#statements> "1"^^<http://www.w3.org/2001/XMLSchema#integer> .
alone - <http://www.wikidata.org/entity/Q1> <http://www.w3.org/1999/02/22-rdf-syntax-ns#type> <http://www.wikidata.org/prop/novalue/P1> .
alone - <http://www.wikidata.org/entity/Q1> <http://www.wikidata.org/prop/P1> <http://www.wikidata.org/entity/statement/Q2-a> .
stored - <http://www.wikidata.org/entity/statement/Q2-a> <http://wikiba.se/ontology#rank> <http://wikiba.se/ontology#NormalRank> .
stored - <http://www.wikidata.org/entity/statement/Q2-a> <http://www.w3.org/1999/02/22-rdf-syntax-ns#type> <http://wikiba.se/ontology#BestRank> .
stored - <http://www.wikidata.org/entity/statement/Q2-a> <http://www.w3.org/1999/02/22-rdf-syntax-ns#type> <http://www.wikidata.org/prop/novalue/P1> .
"#;

// Takes each step, and writes what it changes.
fn write_changes(alloc: Global, keys: RandomState, found: &mut Vec<u8>) -> Option<()> {
    let mut holdings = LeanHoldings::new(alloc, keys, 1000).ok()?;
    let mut buffer = Unpacker::new(alloc);
    let mut taken = Some(());
    for step in STEPS.lines() {
        if taken.is_some() {
            taken = take_step(alloc, &mut holdings, &mut buffer, step, found);
        }
    }
    drop(buffer);
    discard(holdings);
    taken
}

// Takes a step, and writes what it changes.
fn take_step(
    alloc: Global,
    holdings: &mut LeanHoldings,
    buffer: &mut Unpacker,
    step: &str,
    found: &mut Vec<u8>,
) -> Option<()> {
    let (id, rest) = step.split_once(' ')?;
    let (rev, page) = rest.split_once(' ')?;
    let id = EntityId::read(id)?;
    let rev = rev.parse().ok()?;
    let version = MappingVersion::One;
    let change = if page.len() == 1 {
        let after = holdings.standing(id);
        holdings.release(id, after, buffer).ok()?
    } else {
        let wanted = Wanted { id, rev, version };
        let page = FetchedPage::Whole(judged(alloc, wanted, page.as_bytes())?);
        let held = hold(holdings, buffer, wanted, &page);
        drop(page);
        held?
    };
    let written = write_change(step, &change, found);
    drop(change);
    written
}

// The page of these bytes, as it would be fetched.
fn judged(alloc: Global, wanted: Wanted, page: &[u8]) -> Option<Page>
    ensures { IfSome result (IsPageOf wanted.version wanted.id wanted.rev) }
{
    let mut bytes = Vec::new(alloc);
    bytes.extend_from_slice(page).ok()?;
    match judge(alloc, wanted, bytes, None) {
        Ok(Ok(page)) => Some(page),
        _ => None,
    }
}

// Holds a page, and tells what it changes.
fn hold(
    holdings: &mut LeanHoldings,
    buffer: &mut Unpacker,
    wanted: Wanted,
    page: &FetchedPage,
) -> Option<PartsChange>
    requires { IsFetched holdings.old.records holdings.old.by_two wanted.version wanted.id wanted.rev page.now }
{
    if page.bytes().len() > 8_388_608 {
        return None;
    }
    let after = holdings.standing(wanted.id);
    holdings.hold(wanted, after, page, buffer).ok()
}

// Writes what a step changes, behind the step's entity.
fn write_change(step: &str, change: &PartsChange, found: &mut Vec<u8>) -> Option<()> {
    write_text(step.get(..4)?, found)?;
    write_text("\n", found)?;
    write_side("alone +", change.own.came.text.as_slice(), found)?;
    write_side("alone -", change.own.gone.text.as_slice(), found)?;
    write_side("stored +", change.stored.came.text.as_slice(), found)?;
    write_side("stored -", change.stored.gone.text.as_slice(), found)
}

// Writes each line behind a mark.
fn write_side(mark: &str, lines: &[u8], found: &mut Vec<u8>) -> Option<()> {
    for line in str::from_utf8(lines).ok()?.lines() {
        write_text(mark, found)?;
        write_text(" ", found)?;
        write_text(line, found)?;
        write_text("\n", found)?;
    }
    Some(())
}

pub(crate) fn try_lean(tester: &mut Tester<'_>, keys: RandomState) {
    let ended = write_changes(tester.alloc(), keys, &mut tester.found);
    tester.try_text("two pages share a node", CHANGES, ended);
}
