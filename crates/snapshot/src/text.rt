// The text of a line, written and read.

ghost use Rattle.std.specs.Prelude.{◌≡◌, ◌++◌, IfOk, Some, codes, option_and_then, option_map, string_bytes};
ghost use Rattle.wq_io.specs.Lines.{IsOneLine};
ghost use Rattle.serde_json.specs.{View.view, Read.read as data_of};
ghost use Rattle.snapshot.specs.{Fit.IsFitLine, LineReading.line_in};
ghost use Rattle.snapshot.specs.LineText.{IsClosed, line_text, line_of, page_behind, page_of, with_page};

use crate::line::Line;
use crate::parts::page_parts;
use crate::reading::line_in;
use crate::writing::{has_line_feed, line_value};
use entity_state::Held;
use rdf_term::{OutOfMemory, Text};
use serde_json::Value;
use std::alloc::Global;

/// How many bytes come with a page that stands behind a record: a comma, a TAB and the key before it, and a line feed behind its brace.
const AROUND_A_PAGE: usize = 10;

/// The text of a line, without a line feed. It is one JSON object (RFC 8259) where a page is a JSON text. Its keys rise, with no space
/// between them; but a page without a line feed stands as it is behind the other members of its record, after a comma and a TAB.
pub fn write(alloc: Global, line: &Line) -> Result<String, OutOfMemory>
    ensures text { IfOk result (λ s. string_bytes s ≡ line_text line.now) }
    ensures one_line { IfOk result (λ s. IsOneLine (string_bytes s)) }
    ensures reads_back { IfOk result (λ s. IsFitLine line.now → line_of (string_bytes s) ≡ Some line.now) }
{
    let object = line_value(alloc, line)?.to_string(alloc)?;
    match page_behind(line) {
        Some(page) => with_page(object, page),
        None => Ok(object),
    }
}

// The page that stands behind the other members of a record.
fn page_behind(line: &Line) -> Option<&str>
    ensures { option_map (λ s. s.now) result ≡ page_behind line.now }
{
    match line {
        Line::Entity(_, record) => page_of(&record.held),
        _ => None,
    }
}

// The page that is held, where it has no line feed.
fn page_of(held: &Option<Held<Text>>) -> Option<&str>
    ensures { option_map (λ s. s.now) result ≡ page_of held.now }
{
    match held {
        Some(held) if !has_line_feed(held.content.as_str()) => Some(held.content.as_str()),
        _ => None,
    }
}

// The text of an object with a page as its last member, with room for a line feed.
fn with_page(object: String, page: &str) -> Result<String, OutOfMemory>
    requires { IsClosed (string_bytes object) }
    ensures { IfOk result (λ text. string_bytes text ≡ with_page (Some page.now) (string_bytes object)) }
{
    let mut text = object;
    text.reserve(page.len() + AROUND_A_PAGE)?;
    text.pop();
    text.push_str(",\t\"page\":")?;
    text.push_str(page)?;
    text.push_str("}")?;
    Ok(text)
}

/// The line that a text is; `None` for any other text. Keys that the format doesn't name are passed over.
pub fn read(alloc: Global, text: &str) -> Result<Option<Line>, OutOfMemory>
    ensures { IfOk result (λ line. line ≡ line_of text.now) }
{
    match page_parts(text) {
        Some(parts) => {
            let object = closed(alloc, parts.members)?;
            read_object(alloc, object.as_str(), Some(parts.page))
        }
        None => read_object(alloc, text, None),
    }
}

// The text of an object, by its text without the closing brace.
fn closed(alloc: Global, members: &str) -> Result<String, OutOfMemory>
    ensures { IfOk result (λ object. string_bytes object ≡ members.now ++ codes "}") }
{
    let mut object = String::from_str(alloc, members)?;
    object.push_str("}")?;
    Ok(object)
}

// The line of an object's text, and of the page that stands behind it, if one does.
fn read_object(
    alloc: Global,
    object: &str,
    behind: Option<&str>,
) -> Result<Option<Line>, OutOfMemory>
    ensures { IfOk result (λ line. line ≡ option_and_then (line_in (option_map (λ s. s.now) behind.entry)) (data_of object.now)) }
{
    match Value::from_str(alloc, object) {
        Ok(value) => line_in(alloc, &value, behind),
        Err(error) => {
            if error.is_memory() {
                Err(OutOfMemory)
            } else {
                Ok(None)
            }
        }
    }
}
