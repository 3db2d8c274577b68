// Lexemes, their forms and their senses.

ghost use Rattle.std.specs.Prelude.{◌≡◌, ◌++◌, [], IfOk, codes, string_bytes};
ghost use Rattle.json_spell.specs.View.{json_view};
ghost use Rattle.entity_model.specs.EntityId.{id_text};
ghost use Rattle.entity_json.specs.{Finds.Finds, Finds.Makes, Lexemes.list_name, Lexemes.mark_of, Lexemes.texts_name};
ghost use Rattle.entity_json.specs.Reading.Lexemes.{features_by_kind, lexeme_lists, lexeme_of, part_id_at, part_lists, part_of, part_step, parts_at};
ghost use Rattle.entity_json.specs.Reading.Terms.{labels_at};

use crate::each::{ItemReader, each_found_item};
use crate::items::read_item_ids;
use crate::leaf::{copy_text_at, id_of_kind_at, optional_list_at, optional_text_at};
use crate::part::{PartFault, finish, put};
use crate::statements::read_statements;
use crate::terms::read_labels;
use base::{CowText, List, OutOfMemory};
use entity_model::{EntityId, IdKind, Lexeme, Part, Tagged, is_part_id};
use json_spell::Json;
use std::alloc::Global;

// A kind of parts of lexemes.
#[derive(Clone, Copy)]
pub enum PartKind {
    // Forms, as L1-F1.
    Form,
    // Senses, as L1-S1.
    Sense,
}

// The name of the list of parts of the kind.
fn list_name(kind: PartKind) -> &'static str
    ensures { result.now ≡ list_name kind }
{
    match kind {
        PartKind::Form => "forms",
        PartKind::Sense => "senses",
    }
}

// What stands in their ids between the lexeme's id and the number.
#[tactic(auto, unfolding(entity_model::specs::Lexeme::form_mark, entity_model::specs::Lexeme::sense_mark))]
fn mark_of(kind: PartKind) -> &'static str
    ensures { result.now ≡ mark_of kind }
{
    match kind {
        PartKind::Form => "-F",
        PartKind::Sense => "-S",
    }
}

// The name of the map of their texts.
fn texts_name(kind: PartKind) -> &'static str
    ensures { result.now ≡ texts_name kind }
{
    match kind {
        PartKind::Form => "representations",
        PartKind::Sense => "glosses",
    }
}

// What the ids of the lexeme's parts of the kind begin with.
fn front(alloc: Global, id: EntityId, kind: PartKind) -> Result<String, OutOfMemory>
    ensures { IfOk result (λ front. string_bytes front ≡ id_text id ++ mark_of kind) }
{
    let text = id.text(alloc)?;
    let mut front = String::new(alloc);
    front.push_str(text.as_str())?;
    front.push_str(mark_of(kind))?;
    Ok(front)
}

// The id of a part, which begins so.
#[tactic(auto, unfolding(crate::specs::Reading::Lexemes::part_id_at))]
fn part_id_at<'a>(alloc: Global, front: &str, json: &Json<'_, 'a>) -> Result<CowText<'a>, PartFault>
    ensures { Finds result (part_id_at front.now (json_view json.now)) }
{
    let id = copy_text_at(alloc, json, "id")?;
    if is_part_id(front, id.as_str()) {
        Ok(id)
    } else {
        Err(PartFault::Shape)
    }
}

// Reads the features, which a form alone has, into the list, which is empty.
fn read_features(
    alloc: Global,
    kind: PartKind,
    json: &Json<'_, '_>,
    features: &mut List<EntityId>,
) -> Result<(), PartFault>
    requires { features.old ≡ [] }
    ensures { Makes result features.new (features_by_kind kind (json_view json.now)) }
{
    match kind {
        PartKind::Form => read_item_ids(alloc, json, "grammaticalFeatures", features),
        PartKind::Sense => Ok(()),
    }
}

// Reads the lists of a part of the kind, which are empty.
#[tactic(auto, unfolding(crate::specs::Reading::Lexemes::part_lists))]
fn fill_part<'a>(
    alloc: Global,
    kind: PartKind,
    json: &Json<'_, 'a>,
    part: &mut Part<'a>,
) -> Result<(), PartFault>
    requires texts { part.old.texts ≡ [] }
    requires features { part.old.features ≡ [] }
    requires statements { part.old.statements ≡ [] }
    ensures { Makes result part.new (part_lists kind (json_view json.now) part.old) }
{
    read_labels(alloc, json, texts_name(kind), &mut part.texts)?;
    read_features(alloc, kind, json, &mut part.features)?;
    read_statements(alloc, json, "claims", &mut part.statements)
}

// A part of the kind, whose id begins so.
#[tactic(auto, unfolding(crate::specs::Reading::Lexemes::part_of))]
fn part_of<'a>(
    alloc: Global,
    kind: PartKind,
    front: &str,
    json: &Json<'_, 'a>,
) -> Result<Part<'a>, PartFault>
    ensures { Finds result (part_of kind front.now (json_view json.now)) }
{
    let mut part = Part {
        id: part_id_at(alloc, front, json)?,
        texts: List::new(alloc),
        features: List::new(alloc),
        statements: List::new(alloc),
    };
    let filled = fill_part(alloc, kind, json, &mut part);
    finish(filled, part)
}

#[derive(Drop)]
struct PartReader<'m> {
    kind: PartKind,
    front: &'m str,
}

impl<'a, 'm> ItemReader<'a, Part<'a>> for PartReader<'m> {
    ghost reads = { λ reader item out. part_step reader.kind reader.front.now item out };

    fn read(
        &self,
        alloc: Global,
        _index: usize,
        json: &Json<'_, 'a>,
        out: &mut List<Part<'a>>,
    ) -> Result<(), PartFault> {
        put(part_of(alloc, self.kind, self.front, json), out)
    }
}

// Reads the parts of the kind of a lexeme, of which the list may be missing, into the list `parts`, which is empty.
#[tactic(auto, unfolding(crate::specs::Reading::Lexemes::parts_at))]
fn read_parts<'a>(
    alloc: Global,
    id: EntityId,
    kind: PartKind,
    json: &Json<'_, 'a>,
    parts: &mut List<Part<'a>>,
) -> Result<(), PartFault>
    requires { parts.old ≡ [] }
    ensures { Makes result parts.new (parts_at id kind (json_view json.now)) }
{
    let items = optional_list_at(json, list_name(kind))?;
    let front = front(alloc, id, kind)?;
    let reader = PartReader {
        kind,
        front: front.as_str(),
    };
    each_found_item(alloc, &reader, items, parts)
}

// Reads the statements and the parts of a lexeme into its lists of them, which are empty.
#[tactic(auto, unfolding(crate::specs::Reading::Lexemes::lexeme_lists))]
fn fill_lexeme<'a>(
    alloc: Global,
    json: &Json<'_, 'a>,
    lexeme: &mut Lexeme<'a>,
) -> Result<(), PartFault>
    requires statements { lexeme.old.statements ≡ [] }
    requires forms { lexeme.old.forms ≡ [] }
    requires senses { lexeme.old.senses ≡ [] }
    ensures { Makes result lexeme.new (lexeme_lists (json_view json.now) lexeme.old) }
{
    read_statements(alloc, json, "claims", &mut lexeme.statements)?;
    read_parts(alloc, lexeme.id, PartKind::Form, json, &mut lexeme.forms)?;
    read_parts(alloc, lexeme.id, PartKind::Sense, json, &mut lexeme.senses)
}

// The lemmas.
fn lemmas_at<'a>(alloc: Global, json: &Json<'_, 'a>) -> Result<List<Tagged<'a>>, PartFault>
    ensures { Finds result (labels_at (codes "lemmas") (json_view json.now)) }
{
    let mut lemmas = List::new(alloc);
    let filled = read_labels(alloc, json, "lemmas", &mut lemmas);
    finish(filled, lemmas)
}

// A lexeme, where the page is that of one.
#[tactic(auto, unfolding(crate::specs::Reading::Lexemes::lexeme_of))]
pub fn lexeme_of<'a>(alloc: Global, json: &Json<'_, 'a>) -> Result<Lexeme<'a>, PartFault>
    ensures { Finds result (lexeme_of (json_view json.now)) }
{
    let mut lexeme = Lexeme {
        id: id_of_kind_at(IdKind::L, json, "id")?,
        category: id_of_kind_at(IdKind::Q, json, "lexicalCategory")?,
        language: id_of_kind_at(IdKind::Q, json, "language")?,
        modified: optional_text_at(alloc, json, "modified")?,
        lemmas: lemmas_at(alloc, json)?,
        statements: List::new(alloc),
        forms: List::new(alloc),
        senses: List::new(alloc),
    };
    let filled = fill_lexeme(alloc, json, &mut lexeme);
    finish(filled, lexeme)
}
