// Deliveries and pages that were worked out by hand from the rules of a drill.

use crate::folders::write_fetch;
use crate::tester::{Subject, Tester, write_number, write_text};
use delivery::Delivery;
use drill_replay::{DrillRevisions, deliveries};
use entity_documents::document;
use entity_json::discard;
use entity_model::{Document, EntityId, Event, IdKind, Kind};
use revisions::Revisions;
use std::alloc::Global;

// The number of an item, and its deliveries: the kind of an event, the item, the revision and the time, or the time of a watermark.
const DELIVERIES: &str = "\
1 => edit 1 2 2000000;edit 1 1 1000000;edit 1 2 2000000;
5 => edit 5 10 10000000;edit 5 9 9000000;edit 5 10 10000000;delete 5 10 10000000;
10 => edit 10 20 20000000;edit 10 19 19000000;edit 10 20 20000000;delete 10 20 20000000;watermark 20000000;edit 10 19 17000000;";

#[derive(Drop)]
struct Deliveries;

impl Subject for Deliveries {
    fn answer(&mut self, alloc: Global, given: &str, found: &mut Vec<u8>) -> Option<()> {
        let number = given.parse().ok()?;
        if number < 1 || number > 200_000 {
            return None;
        }
        let list = deliveries(alloc, number).ok()?;
        let written = write_deliveries(alloc, list.as_slice(), found);
        drop(list);
        written
    }
}

// Writes deliveries.
fn write_deliveries(alloc: Global, list: &[Delivery], found: &mut Vec<u8>) -> Option<()> {
    for delivery in list {
        write_delivery(alloc, delivery, found)?;
    }
    Some(())
}

// Writes a delivery.
fn write_delivery(alloc: Global, delivery: &Delivery, found: &mut Vec<u8>) -> Option<()> {
    let time = match delivery {
        Delivery::Event(event) => {
            write_event(alloc, event, found)?;
            event.time
        }
        Delivery::Watermark(time) => {
            write_text("watermark", found)?;
            *time
        }
        Delivery::Ask(_) | Delivery::Mapping(_) | Delivery::Match(_) => return None,
    };
    write_number(alloc, " ", u64::try_from(time).ok()?, found)?;
    write_text(";", found)
}

// Writes the kind, the item and the revision of an event.
fn write_event(alloc: Global, event: &Event, found: &mut Vec<u8>) -> Option<()> {
    let kind = match event.kind {
        Kind::Edit => "edit ",
        Kind::Delete => "delete ",
        Kind::Undelete | Kind::ReconcileDeleted | Kind::ReconcileKept => return None,
    };
    let EntityId {
        kind: IdKind::Q,
        number,
    } = event.entity
    else {
        return None;
    };
    write_number(alloc, kind, u64::from(number), found)?;
    write_number(alloc, " ", event.rev, found)
}

// The place of a page, which may be empty, its revision, and the page or why there is none.
const PAGES: &str =
    r#"Q1 1 => {"type":"item","id":"Q1","labels":{"en":{"language":"en","value":"item 1"}}}
Q1 2 => {"type":"item","id":"Q1","labels":{"en":{"language":"en","value":"item 1"}},"claims":{"P1":[{"mainsnak":{"snaktype":"value","property":"P1","datavalue":{"type":"quantity","value":{"amount":"+1","unit":"1"}}},"id":"Q1$1","rank":"normal","references":[{"hash":"1","snaks":{"P2":[{"snaktype":"value","property":"P2","datavalue":{"type":"string","value":"source 1"}}]}}]}]}}
 20 => {"type":"item","id":"Q10","labels":{"en":{"language":"en","value":"item 10"}},"claims":{"P1":[{"mainsnak":{"snaktype":"value","property":"P1","datavalue":{"type":"quantity","value":{"amount":"+3","unit":"1"}}},"id":"Q10$1","rank":"normal","references":[{"hash":"1","snaks":{"P2":[{"snaktype":"value","property":"P2","datavalue":{"type":"string","value":"source 1"}}]}}]}]}}
Q1 0 => missing
Q10 21 => missing
Q1 18446744073709551615 => missing"#;

#[derive(Drop)]
struct Pages {
    revisions: DrillRevisions,
}

impl Subject for Pages {
    fn answer(&mut self, alloc: Global, given: &str, found: &mut Vec<u8>) -> Option<()> {
        write_fetch(alloc, &mut self.revisions, given, found)
    }
}

// The revisions of the page of Q1, and how many labels and statements each has.
const DOCUMENTS: &str = "1 => 1 0
2 => 1 1";

#[derive(Drop)]
struct Documents {
    revisions: DrillRevisions,
}

impl Subject for Documents {
    fn answer(&mut self, alloc: Global, given: &str, found: &mut Vec<u8>) -> Option<()> {
        let rev = given.parse().ok()?;
        let page = self.revisions.fetch(alloc, "Q1", rev).ok()?;
        let written = write_counts(alloc, page.as_slice(), found);
        drop(page);
        written
    }
}

// Writes how many labels and statements the page of Q1 has.
fn write_counts(alloc: Global, page: &[u8], found: &mut Vec<u8>) -> Option<()> {
    let id = EntityId {
        kind: IdKind::Q,
        number: 1,
    };
    let document = document(alloc, id, page).ok()?;
    let counts = counts(&document, id);
    discard(document);
    let (labels, statements) = counts?;
    write_number(alloc, "", labels as u64, found)?;
    write_number(alloc, " ", statements as u64, found)
}

// How many labels and statements a document has that is this entity.
fn counts(document: &Document, id: EntityId) -> Option<(usize, usize)> {
    match document {
        Document::Entity(entity) if entity.id == id => {
            Some((entity.labels.len(), entity.statements.len()))
        }
        Document::Entity(_) | Document::Redirect(_) | Document::Lexeme(_) => None,
    }
}

pub(crate) fn try_drills(tester: &mut Tester<'_>) {
    tester.try_rows("deliveries of items", DELIVERIES, &mut Deliveries);
    let mut pages = Pages {
        revisions: DrillRevisions::new(10),
    };
    tester.try_rows("pages of revisions", PAGES, &mut pages);
    let mut documents = Documents {
        revisions: DrillRevisions::new(1),
    };
    tester.try_rows("pages are documents", DOCUMENTS, &mut documents);
}
