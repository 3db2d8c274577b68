// Routes are read from a text.

ghost use Rattle.std.specs.Prelude.{◌≡◌, ◌<◌, ◌&&◌, nat_le, length, IfOk};
ghost use Rattle.std.specs.{List.list_all, List.list_any, Str.bytes_eq};
ghost use Rattle.graph_routes.specs.Reading.{classes_of, item_of, pieces, read_each, route_in, routes_in};
ghost use Rattle.graph_routes.specs.Routes.{have_own_names, is_letter, is_name};

use crate::routes::Route;
use base::{List, OutOfMemory, Text};
use entity_model::{EntityId, IdKind};
use std::alloc::Global;

// How many routes there may be.
const MOST_ROUTES: usize = 16;

// How many classes a route may have.
const MOST_CLASSES: usize = 64;

// How many letters a name may have.
const LONGEST_NAME: usize = 16;

/// The routes whose text this is.
pub fn read_routes(alloc: Global, text: &str) -> Result<Option<List<Route>>, OutOfMemory>
    ensures { IfOk result (λ found. found ≡ routes_in text.now) }
{
    let pieces = pieces(alloc, text, ';')?;
    if pieces.len() > MOST_ROUTES {
        return Ok(None);
    }
    let Some(routes) = read_each_route(alloc, pieces.as_slice())? else {
        return Ok(None);
    };
    if !have_own_names(routes.as_slice()) {
        return Ok(None);
    }
    Ok(Some(routes))
}

// The routes whose texts these are.
fn read_each_route(alloc: Global, pieces: &[Text]) -> Result<Option<List<Route>>, OutOfMemory>
    ensures { IfOk result (λ found. found ≡ read_each route_in pieces.now) }
{
    let mut routes = List::new(alloc);
    for piece in pieces {
        let Some(route) = read_route(alloc, piece)? else {
            return Ok(None);
        };
        routes.push(route)?;
    }
    Ok(Some(routes))
}

// The route whose text this is.
fn read_route(alloc: Global, text: &Text) -> Result<Option<Route>, OutOfMemory>
    ensures { IfOk result (λ found. found ≡ route_in text.now) }
{
    let parts = pieces(alloc, text.as_str(), ':')?;
    let [name, classes] = parts.as_slice() else {
        return Ok(None);
    };
    let Some(classes) = read_classes(alloc, classes)? else {
        return Ok(None);
    };
    if !is_name(name.as_str()) {
        return Ok(None);
    }
    let name = name.copy(alloc)?;
    Ok(Some(Route { name, classes }))
}

// The classes whose text this is.
fn read_classes(alloc: Global, text: &Text) -> Result<Option<List<EntityId>>, OutOfMemory>
    ensures { IfOk result (λ found. found ≡ classes_of text.now) }
{
    let pieces = pieces(alloc, text.as_str(), ',')?;
    if pieces.len() > MOST_CLASSES {
        return Ok(None);
    }
    read_each_item(alloc, pieces.as_slice())
}

// The items whose ids these are.
fn read_each_item(alloc: Global, pieces: &[Text]) -> Result<Option<List<EntityId>>, OutOfMemory>
    ensures { IfOk result (λ found. found ≡ read_each item_of pieces.now) }
{
    let mut classes = List::new(alloc);
    for piece in pieces {
        let Some(class) = read_item(piece) else {
            return Ok(None);
        };
        classes.push(class)?;
    }
    Ok(Some(classes))
}

// The item whose id a text is.
fn read_item(text: &Text) -> Option<EntityId>
    ensures { result ≡ item_of text.now }
{
    let id = EntityId::read(text.as_str())?;
    match id.kind {
        IdKind::Q => Some(id),
        IdKind::P | IdKind::L => None,
    }
}

// What stands before, between and after the separators of a text.
fn pieces(alloc: Global, text: &str, separator: char) -> Result<List<Text>, OutOfMemory>
    requires { separator < 128 }
    ensures { IfOk result (λ found. found ≡ pieces separator text.now) }
{
    let mut found = List::new(alloc);
    let mut rest = text;
    while let Some((piece, others)) = rest.split_once(separator) {
        let copy = Text::new(alloc, piece)?;
        found.push(copy)?;
        rest = others;
    }
    let last = Text::new(alloc, rest)?;
    found.push(last)?;
    Ok(found)
}

// Whether a text is the name of a route.
fn is_name(text: &str) -> bool
    ensures { result ≡ is_name text.now }
{
    let bytes = text.as_bytes();
    is_short(bytes) && are_letters(bytes) && text != "main"
}

// Whether there are as many letters as a name may have.
fn is_short(letters: &[u8]) -> bool
    ensures { result ≡ (nat_le 1 (length letters.now) && nat_le (length letters.now) 16) }
{
    !letters.is_empty() && letters.len() <= LONGEST_NAME
}

// Whether all are letters from a to z.
fn are_letters(letters: &[u8]) -> bool
    ensures { result ≡ list_all is_letter letters.now }
{
    letters.iter().all(u8::is_ascii_lowercase)
}

// Whether no two routes have the same name.
fn have_own_names(routes: &[Route]) -> bool
    ensures { result ≡ have_own_names routes.now }
{
    let mut rest = routes;
    while let Some((route, others)) = rest.split_first() {
        if has_name(others, &route.name) {
            return false;
        }
        rest = others;
    }
    true
}

// Whether one of the routes has the name.
fn has_name(routes: &[Route], name: &Text) -> bool
    ensures { result ≡ list_any (λ route. bytes_eq name.now route.name) routes.now }
{
    routes.iter().any(|route| *name == route.name)
}
