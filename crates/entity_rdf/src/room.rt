// How much room the texts of a document's triples are given at first.

ghost use Rattle.std.specs.Prelude.{◌≤◌};

use entity_model::{Document, Entity, Lexeme, Part};

// What is given at most, however large the page is.
const MOST: usize = 1_048_576;

// The bytes of the triples that every page has.
const PAGE: usize = 1024;

// The usual bytes of the triples of a statement, of a site link, of a form or sense without texts, and of a text.
const STATEMENT: usize = 2048;

const LINK: usize = 768;

const PART: usize = 512;

const TEXT: usize = 128;

/// A guess at the bytes of the texts of what munging leaves of a document's triples, and no more than 1 MiB. So the buffer of most pages
/// grows once or never, and a bad guess wastes little.
pub(crate) fn room(document: &Document) -> usize
    ensures { result ≤ 1048576 }
{
    match document {
        Document::Entity(entity) => entity_room(entity).min(MOST),
        Document::Redirect(_) => PAGE,
        Document::Lexeme(lexeme) => lexeme_room(lexeme).min(MOST),
    }
}

// The guess for an entity's page.
fn entity_room(entity: &Entity) -> usize {
    let texts = entity
        .labels
        .len()
        .saturating_add(entity.descriptions.len())
        .saturating_add(entity.aliases.len());
    PAGE.saturating_add(entity.statements.len().saturating_mul(STATEMENT))
        .saturating_add(entity.links.len().saturating_mul(LINK))
        .saturating_add(texts.saturating_mul(TEXT))
}

// The guess for a lexeme's page. A text of it has two triples.
fn lexeme_room(lexeme: &Lexeme) -> usize {
    PAGE.saturating_add(part_room(lexeme.statements.len(), lexeme.lemmas.len()))
        .saturating_add(parts_room(lexeme.forms.as_slice()))
        .saturating_add(parts_room(lexeme.senses.as_slice()))
}

// The guess for forms or senses.
fn parts_room(parts: &[Part]) -> usize {
    let mut room: usize = 0;
    for part in parts {
        let texts = part.texts.len().saturating_add(part.features.len());
        room = room
            .saturating_add(PART)
            .saturating_add(part_room(part.statements.len(), texts));
    }
    room
}

// The guess for so many statements and texts.
fn part_room(statements: usize, texts: usize) -> usize {
    statements
        .saturating_mul(STATEMENT)
        .saturating_add(texts.saturating_mul(2 * TEXT))
}
