// Statements and references.

ghost use Rattle.std.specs.Prelude.{◌≡◌, []};
ghost use Rattle.json_spell.specs.View.{json_view, member_view};
ghost use Rattle.entity_model.specs.Reference.{is_hash};
ghost use Rattle.entity_json.specs.Finds.{Finds, Makes};
ghost use Rattle.entity_json.specs.Reading.Statements.{rank_named, reference_of, reference_step, references_at, rank_of, statement_id, main_of, statement_of, statement_step, statements_step, statements_at};

use crate::each::{EntryReader, ItemReader, each_found_entry, each_found_item, each_item};
use crate::leaf::{copy_text_at, id_of_kind, list_of, member_at, optional_list_at, text_at};
use crate::map::map_at;
use crate::part::{PartFault, finish, put};
use crate::snaks::{snak_of, snaks_at};
use base::{CowText, List, are_alphanumeric};
use entity_model::{EntityId, IdKind, Rank, Reference, Snak, Statement};
use json_spell::{Json, Member};
use std::alloc::Global;

// The rank with the name.
fn rank_named(name: &str) -> Option<Rank>
    ensures { result ≡ rank_named name.now }
{
    match name {
        "preferred" => Some(Rank::Preferred),
        "normal" => Some(Rank::Normal),
        "deprecated" => Some(Rank::Deprecated),
        _ => None,
    }
}

// Whether the text is 1 to 64 ASCII letters and digits.
fn is_hash(text: &str) -> bool
    ensures { result ≡ is_hash text.now }
{
    1 <= text.len() && text.len() <= 64 && are_alphanumeric(text.as_bytes())
}

// A reference.
#[tactic(auto, unfolding(crate::specs::Reading::Statements::reference_of))]
fn reference_of<'a>(alloc: Global, json: &Json<'_, 'a>) -> Result<Reference<'a>, PartFault>
    ensures { Finds result (reference_of (json_view json.now)) }
{
    let hash = text_at(json, "hash")?;
    if !is_hash(hash) {
        return Err(PartFault::Shape);
    }
    let hash = copy_text_at(alloc, json, "hash")?;
    match snaks_at(alloc, json, "snaks") {
        Ok(snaks) => Ok(Reference { hash, snaks }),
        Err(fault) => {
            drop(hash);
            Err(fault)
        }
    }
}

struct ReferenceReader;

impl<'a> ItemReader<'a, Reference<'a>> for ReferenceReader {
    ghost reads = { λ reader item out. reference_step item out };

    fn read(
        &self,
        alloc: Global,
        _index: usize,
        json: &Json<'_, 'a>,
        out: &mut List<Reference<'a>>,
    ) -> Result<(), PartFault> {
        put(reference_of(alloc, json), out)
    }
}

// The references under the name, which may be missing.
#[tactic(auto, unfolding(crate::specs::Reading::Statements::references_at))]
fn references_at<'a>(
    alloc: Global,
    json: &Json<'_, 'a>,
    name: &str,
) -> Result<List<Reference<'a>>, PartFault>
    ensures { Finds result (references_at name.now (json_view json.now)) }
{
    let items = optional_list_at(json, name)?;
    let mut references = List::new(alloc);
    let filled = each_found_item(alloc, &ReferenceReader, items, &mut references);
    finish(filled, references)
}

// The rank of a statement.
#[tactic(auto, unfolding(crate::specs::Reading::Statements::rank_of))]
fn rank_of(json: &Json<'_, '_>) -> Result<Rank, PartFault>
    ensures { Finds result (rank_of (json_view json.now)) }
{
    match rank_named(text_at(json, "rank")?) {
        Some(rank) => Ok(rank),
        None => Err(PartFault::Shape),
    }
}

// The id of a statement, which isn't empty.
#[tactic(auto, unfolding(crate::specs::Reading::Statements::statement_id))]
fn statement_id<'a>(alloc: Global, json: &Json<'_, 'a>) -> Result<CowText<'a>, PartFault>
    ensures { Finds result (statement_id (json_view json.now)) }
{
    let id = copy_text_at(alloc, json, "id")?;
    if id.as_bytes().is_empty() {
        return Err(PartFault::Shape);
    }
    Ok(id)
}

// The main snak of a statement under a property.
#[tactic(auto, unfolding(crate::specs::Reading::Statements::main_of))]
fn main_of<'a>(
    alloc: Global,
    key: &str,
    property: EntityId,
    json: &Json<'_, 'a>,
) -> Result<Snak<'a>, PartFault>
    ensures { Finds result (main_of key.now property (json_view json.now)) }
{
    snak_of(alloc, key, property, 0, member_at(json, "mainsnak")?)
}

// A statement under a property.
#[tactic(auto, unfolding(crate::specs::Reading::Statements::statement_of))]
fn statement_of<'a>(
    alloc: Global,
    key: &str,
    property: EntityId,
    json: &Json<'_, 'a>,
) -> Result<Statement<'a>, PartFault>
    ensures { Finds result (statement_of key.now property (json_view json.now)) }
{
    let rank = rank_of(json)?;
    let id = statement_id(alloc, json)?;
    let qualifiers = match snaks_at(alloc, json, "qualifiers") {
        Ok(qualifiers) => qualifiers,
        Err(fault) => {
            drop(id);
            return Err(fault);
        }
    };
    let references = match references_at(alloc, json, "references") {
        Ok(references) => references,
        Err(fault) => {
            drop(qualifiers);
            drop(id);
            return Err(fault);
        }
    };
    match main_of(alloc, key, property, json) {
        Ok(main) => Ok(Statement {
            id,
            property,
            rank,
            main,
            qualifiers,
            references,
        }),
        Err(fault) => {
            drop(references);
            drop(qualifiers);
            drop(id);
            Err(fault)
        }
    }
}

// Reads the statements of a property, whose id is the key.
#[derive(Clone, Copy)]
struct StatementReader<'k> {
    key: &'k str,
    property: EntityId,
}

impl<'a> ItemReader<'a, Statement<'a>> for StatementReader<'_> {
    ghost reads = { λ reader item out. statement_step reader.key.now reader.property item out };

    fn read(
        &self,
        alloc: Global,
        _index: usize,
        json: &Json<'_, 'a>,
        out: &mut List<Statement<'a>>,
    ) -> Result<(), PartFault> {
        put(statement_of(alloc, self.key, self.property, json), out)
    }
}

struct StatementsReader;

impl<'a> EntryReader<'a, Statement<'a>> for StatementsReader {
    ghost reads = { λ reader entry out. statements_step entry out };

    #[tactic(auto, unfolding(crate::specs::Reading::Statements::statements_step))]
    fn read(
        &self,
        alloc: Global,
        entry: &Member<'_, 'a>,
        out: &mut List<Statement<'a>>,
    ) -> Result<(), PartFault> {
        let key = entry.key;
        let property = id_of_kind(IdKind::P, key)?;
        let reader = StatementReader { key, property };
        each_item(alloc, &reader, list_of(&entry.value)?, out)
    }
}

// Reads the statements of the map under the name into the list, which is empty.
#[tactic(auto, unfolding(crate::specs::Reading::Statements::statements_at))]
pub fn read_statements<'a>(
    alloc: Global,
    json: &Json<'_, 'a>,
    name: &str,
    statements: &mut List<Statement<'a>>,
) -> Result<(), PartFault>
    requires { statements.old ≡ [] }
    ensures { Makes result statements.new (statements_at name.now (json_view json.now)) }
{
    each_found_entry(alloc, &StatementsReader, map_at(json, name)?, statements)
}
