// Items and properties.

ghost use Rattle.std.specs.Prelude.{◌≡◌, []};
ghost use Rattle.json_spell.specs.View.{json_view};
ghost use Rattle.entity_json.specs.Finds.{Finds, Makes};
ghost use Rattle.entity_json.specs.Reading.Pages.{kind_of_type, page_kind, datatype_by_kind, links_by_kind, entity_of, entity_lists};

use crate::leaf::{copy_text_at, id_of_kind_at, optional_text_at, text_at};
use crate::links::read_links;
use crate::part::{PartFault, finish};
use crate::statements::read_statements;
use crate::terms::{read_aliases, read_labels};
use base::{CowText, List};
use entity_model::{Entity, IdKind, Link};
use json_spell::Json;
use std::alloc::Global;

// The kind of the entities whose pages have the type.
fn kind_of_type(name: &str) -> Option<IdKind>
    ensures { result ≡ kind_of_type name.now }
{
    match name {
        "item" => Some(IdKind::Q),
        "property" => Some(IdKind::P),
        "lexeme" => Some(IdKind::L),
        _ => None,
    }
}

// The kind of the entity whose page it is.
#[tactic(auto, unfolding(crate::specs::Reading::Pages::page_kind))]
pub fn page_kind(json: &Json<'_, '_>) -> Result<IdKind, PartFault>
    ensures { Finds result (page_kind (json_view json.now)) }
{
    match kind_of_type(text_at(json, "type")?) {
        Some(kind) => Ok(kind),
        None => Err(PartFault::Shape),
    }
}

// The datatype, which a property alone has. A lexeme is neither a property nor an item.
#[tactic(auto, using(crate::proofs::Mapped::finds_mapped))]
fn datatype_by_kind<'a>(
    alloc: Global,
    kind: IdKind,
    json: &Json<'_, 'a>,
) -> Result<Option<CowText<'a>>, PartFault>
    ensures { Finds result (datatype_by_kind kind (json_view json.now)) }
{
    match kind {
        IdKind::P => copy_text_at(alloc, json, "datatype").map(Some),
        IdKind::Q => Ok(None),
        IdKind::L => Err(PartFault::Shape),
    }
}

// Reads the links, which an item alone has, into the list, which is empty.
fn read_links_by_kind<'a>(
    alloc: Global,
    kind: IdKind,
    json: &Json<'_, 'a>,
    links: &mut List<Link<'a>>,
) -> Result<(), PartFault>
    requires { links.old ≡ [] }
    ensures { Makes result links.new (links_by_kind kind (json_view json.now)) }
{
    match kind {
        IdKind::P | IdKind::L => Ok(()),
        IdKind::Q => read_links(alloc, json, "sitelinks", links),
    }
}

// Reads the lists of an item or a property of the kind, which are empty.
#[tactic(auto, unfolding(crate::specs::Reading::Pages::entity_lists))]
fn fill_entity<'a>(
    alloc: Global,
    kind: IdKind,
    json: &Json<'_, 'a>,
    entity: &mut Entity<'a>,
) -> Result<(), PartFault>
    requires labels { entity.old.labels ≡ [] }
    requires descriptions { entity.old.descriptions ≡ [] }
    requires aliases { entity.old.aliases ≡ [] }
    requires statements { entity.old.statements ≡ [] }
    requires links { entity.old.links ≡ [] }
    ensures { Makes result entity.new (entity_lists kind (json_view json.now) entity.old) }
{
    read_labels(alloc, json, "labels", &mut entity.labels)?;
    read_labels(alloc, json, "descriptions", &mut entity.descriptions)?;
    read_aliases(alloc, json, "aliases", &mut entity.aliases)?;
    read_statements(alloc, json, "claims", &mut entity.statements)?;
    read_links_by_kind(alloc, kind, json, &mut entity.links)
}

// An item or a property.
#[tactic(auto, unfolding(crate::specs::Reading::Pages::entity_of))]
pub fn entity_of<'a>(alloc: Global, json: &Json<'_, 'a>) -> Result<Entity<'a>, PartFault>
    ensures { Finds result (entity_of (json_view json.now)) }
{
    let kind = page_kind(json)?;
    let mut entity = Entity {
        id: id_of_kind_at(kind, json, "id")?,
        datatype: datatype_by_kind(alloc, kind, json)?,
        modified: optional_text_at(alloc, json, "modified")?,
        labels: List::new(alloc),
        descriptions: List::new(alloc),
        aliases: List::new(alloc),
        statements: List::new(alloc),
        links: List::new(alloc),
    };
    let filled = fill_entity(alloc, kind, json, &mut entity);
    finish(filled, entity)
}
