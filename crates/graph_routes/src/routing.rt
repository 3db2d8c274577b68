// The graph that a document goes to.

ghost use Rattle.std.specs.Prelude.{◌≡◌, ◌≤◌, ◌++◌, length, map, IfOk, OnOk};
ghost use Rattle.std.specs.{List.position_or_len, Option.option_to_list};
ghost use Rattle.graph_routes.specs.Routing.{class_if, class_of, classes_said, leads, route_of};
ghost use Rattle.statement_facts.specs.Ranking.{is_best};

use crate::routes::{Route, Routes};
use base::{List, OutOfMemory};
use entity_model::{Content, Document, EntityId, IdKind, Statement, Value};
use statement_facts::best;
use std::alloc::Global;

// The property by which an entity is said to be an instance of a class.
const INSTANCE_OF: EntityId = EntityId {
    kind: IdKind::P,
    number: 31,
};

/// The graph that the document of an entity goes to, by its index from 0: that of the first route with a class that a best statement of P31
/// ("instance of") has as its value. Where there is none it goes to the last graph, and so does a redirect or a lexeme.
pub fn route(alloc: Global, routes: &Routes, document: &Document) -> Result<usize, OutOfMemory>
    ensures graph { IfOk result (λ graph. graph ≡ route_of routes.now document.now) }
    ensures bound { IfOk result (λ graph. graph ≤ length routes.now) }
{
    let routes = routes.routes.as_slice();
    match document {
        Document::Entity(entity) => {
            let classes = classes_said(alloc, &entity.statements)?;
            Ok(first_leading(routes, &classes))
        }
        Document::Redirect(_) | Document::Lexeme(_) => Ok(routes.len()),
    }
}

// The index of the first route with one of these classes, or the number of routes.
fn first_leading(routes: &[Route], classes: &List<EntityId>) -> usize
    ensures first { result ≡ position_or_len (leads classes.now) routes.now }
    ensures bound { result ≤ length routes.now }
{
    for (index, route) in routes.iter().enumerate() {
        if leads(classes, route) {
            return index;
        }
    }
    routes.len()
}

// Whether one of these classes is one of the route's.
fn leads(classes: &List<EntityId>, route: &Route) -> bool
    ensures { result ≡ leads classes.now route.now }
{
    route
        .classes
        .as_slice()
        .iter()
        .any(|class| classes.as_slice().contains(class))
}

// The classes that the best statements of P31 say.
fn classes_said(alloc: Global, statements: &List<Statement>) -> Result<List<EntityId>, OutOfMemory>
    ensures { IfOk result (λ classes. classes ≡ classes_said statements.now) }
{
    let best = best(alloc, statements)?;
    classes_of_best(alloc, statements.as_slice(), best.as_slice())
}

// The same, where it is said of each statement whether it is best.
fn classes_of_best(
    alloc: Global,
    statements: &[Statement],
    best: &[bool],
) -> Result<List<EntityId>, OutOfMemory>
    requires { best.now ≡ map (is_best statements.now) statements.now }
    ensures { IfOk result (λ classes. classes ≡ classes_said statements.now) }
{
    let mut classes = List::new(alloc);
    for (index, statement) in statements.iter().enumerate() {
        push_if(&mut classes, class_if(best[index], statement))?;
    }
    Ok(classes)
}

// Puts a class at the end, if there is one.
fn push_if(classes: &mut List<EntityId>, class: Option<EntityId>) -> Result<(), OutOfMemory>
    ensures { OnOk result (classes.new ≡ classes.old ++ option_to_list class) }
{
    match class {
        Some(class) => classes.push(class),
        None => Ok(()),
    }
}

// The class that a statement says, if it is a best one of P31.
fn class_if(is_best: bool, statement: &Statement) -> Option<EntityId>
    ensures { result ≡ class_if is_best statement.now }
{
    if is_best { class_of(statement) } else { None }
}

// The class that a statement says, if it is one of P31.
fn class_of(statement: &Statement) -> Option<EntityId>
    ensures { result ≡ class_of statement.now }
{
    if statement.property != INSTANCE_OF {
        return None;
    }
    match &statement.main.content {
        Content::Value(Value::Entity(text)) => EntityId::read(text.as_str()),
        _ => None,
    }
}
