// The entity that a term belongs to, by the words and texts that the term borrows.

ghost use Rattle.std.specs.Prelude.{◌≡◌, ◌||◌, OnErr, OnOk};
ghost use Rattle.sorted_sets.specs.Rising.{has};
ghost use Rattle.entity_model.specs.{EntityId.entity_cmp, declared.id.EntityId.EntityId as TheId};
ghost use Rattle.rdf_vocabulary.specs.Prefix.{id_term, prefixed};
ghost use Rattle.triple_sink.specs.TermRef.{meant};
ghost use Rattle.shared_triples.specs.{Home.home, Lean.stranger};
ghost use Rattle.page_parts.specs.Parts.{belongs_alone};

use entity_model::EntityId;
use rdf_term::OutOfMemory;
use rdf_vocabulary::Prefix;
use shared_triples::{home_of_iri, home_of_name, named_id};
use triple_sink::TermRef;

// The entity that a term belongs to. No word of the vocabulary belongs to one.
#[tactic(auto, using(crate::proofs::TermHomes::words), unfolding(shared_triples::specs::Home::home))]
pub(crate) fn home_of_term(term: &TermRef<'_>) -> Option<EntityId>
    ensures { result ≡ home (meant term.now) }
{
    match term {
        TermRef::Named(prefix, name) => home_of_named(*prefix, name),
        TermRef::Id(prefix, id) => home_of_id(*prefix, *id),
        TermRef::Iri(iri) => home_of_iri(iri),
        TermRef::Predicate(_) | TermRef::Resource(_) => None,
        TermRef::Blank(_) | TermRef::Plain(_) | TermRef::Lang(_, _) | TermRef::Typed(_, _) => None,
    }
}

// The same of a name in a namespace.
fn home_of_named(prefix: Prefix, name: &str) -> Option<EntityId>
    ensures { result ≡ home (prefixed prefix name.now) }
{
    match prefix {
        Prefix::Wd => home_of_name(name),
        Prefix::Wds => named_id(name),
        _ => None,
    }
}

// The same of an id in a namespace. An id has a number from 1.
fn home_of_id(prefix: Prefix, id: EntityId) -> Option<EntityId>
    ensures { result ≡ home (id_term prefix id) }
{
    if id.number == 0 {
        return None;
    }
    match prefix {
        Prefix::Wd => Some(id),
        Prefix::Wds => Some(id),
        _ => None,
    }
}

// Whether a triple of this home stands in the page of the entity alone: it belongs to the entity, which isn't counted.
pub(crate) fn belongs_alone(entity: EntityId, is_counted: bool, home: Option<EntityId>) -> bool
    ensures { result ≡ belongs_alone is_counted entity home }
{
    match home {
        Some(home) => entity == home && !is_counted,
        None => false,
    }
}

// Notes the home of a triple where it is another entity. After `OutOfMemory` nothing is noted.
pub(crate) fn note_stranger(
    entity: EntityId,
    home: Option<EntityId>,
    strangers: &mut Vec<EntityId>,
) -> Result<(), OutOfMemory>
    ensures ok { OnOk result ((x : TheId) → has entity_cmp x strangers.new.items
        ≡ (has entity_cmp x strangers.old.items || has entity_cmp x (stranger entity home))) }
    ensures err { OnErr result (strangers.new.items ≡ strangers.old.items) }
{
    let Some(home) = home else {
        return Ok(());
    };
    if home == entity {
        return Ok(());
    }
    strangers.push(home)?;
    Ok(())
}
