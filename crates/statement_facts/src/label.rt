// The labels of the nodes that stand for unknown values.

ghost use Rattle.std.specs.Prelude.{◌≡◌, ◌++◌, IfOk, OnOk, decimal, string_bytes};
ghost use Rattle.md5.specs.Md5.{Holds};
ghost use Rattle.entity_model.specs.EntityId.{id_text};
ghost use Rattle.rdf_vocabulary.specs.Fields.{field};
ghost use Rattle.statement_facts.specs.{Label.unknown_label, Role.role_text};

use crate::role::Role;
use entity_model::Snak;
use itoa::Buffer;
use md5::{Digest, Md5};
use rdf_term::{OutOfMemory, Text};
use rdf_vocabulary::push_field;
use std::alloc::Global;
use std::marker::Model;

/// Makes the labels of a statement's unknown values. Each label hashes the statement's id first. The id may be long, so it is hashed once,
/// for the first label. Contracts see the id.
#[derive(Drop)]
pub struct Labels<'a> {
    id: &'a str,
    begun: Option<Md5>,
}

impl<'a> Model for Labels<'a> {
    ghost use Rattle.std.specs.Prelude.{ℕ, List, IfSome};
    ghost use Rattle.md5.specs.Md5.{Holds};
    ghost use Rattle.rdf_vocabulary.specs.Fields.{field};

    ghost Value = { List ℕ };

    ghost view = { λ labels. labels.id.now };

    ghost invariant = { λ labels. IfSome labels.begun (λ hasher. Holds hasher (field labels.id.now)) };
}

impl<'a> Labels<'a> {
    /// The labels of the statement with this id.
    pub fn new(id: &'a str) -> Labels<'a>
        ensures { result ≡ id.now }
    {
        Labels { id, begun: None }
    }

    /// The label of the node that stands for the unknown value of the snak in this role of the statement.
    pub fn label(&mut self, alloc: Global, role: &Role, snak: &Snak) -> Result<Text, OutOfMemory>
        ensures label { IfOk result (λ label. label ≡ unknown_label self.old role.now snak.now) }
        ensures same { self.new ≡ self.old }
    {
        let mut hasher = self.begun()?;
        let fields = fields_behind(alloc, role, snak)?;
        hasher.update(fields.as_str());
        Ok(Text::from_string(hex::encode(alloc, hasher.finalize())?))
    }

    // A hasher that has taken the field of the id.
    fn begun(&mut self) -> Result<Md5, OutOfMemory>
        ensures begun { IfOk result (λ hasher. Holds hasher (field self.old)) }
        ensures same { self.new ≡ self.old }
    {
        if let Some(hasher) = &self.begun {
            return Ok(hasher.clone()?);
        }
        let hasher = hasher_of(self.id);
        self.begun = Some(hasher.clone()?);
        Ok(hasher)
    }
}

// A hasher that has taken the field of the id.
fn hasher_of(id: &str) -> Md5
    ensures { Holds result (field id.now) }
{
    let mut size = Buffer::new();
    let mut hasher = Md5::new();
    hasher.update(size.format(id.len()));
    hasher.update(":");
    hasher.update(id);
    hasher
}

// The fields behind the id: the snak's property, its role and its place.
fn fields_behind(alloc: Global, role: &Role, snak: &Snak) -> Result<String, OutOfMemory>
    ensures { IfOk result (λ fields. string_bytes fields
        ≡ field (id_text snak.now.property) ++ field (role_text role.now) ++ field (decimal snak.now.place)) }
{
    let mut fields = String::new(alloc);
    push_field(snak.property.text(alloc)?.as_str(), &mut fields)?;
    push_field(role.text(alloc)?.as_str(), &mut fields)?;
    push_decimal(snak.place, &mut fields)?;
    Ok(fields)
}

// Appends the field of a number in decimal.
fn push_decimal(number: u32, fields: &mut String) -> Result<(), OutOfMemory>
    ensures { OnOk result (string_bytes fields.new ≡ string_bytes fields.old ++ field (decimal number)) }
{
    let mut buffer = Buffer::new();
    push_field(buffer.format(number), fields)
}
