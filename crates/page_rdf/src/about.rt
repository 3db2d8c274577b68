// What a page says of its entity: its class and its texts.

ghost use Rattle.std.specs.Prelude.{◌≡◌, OnOk};
ghost use Rattle.std.specs.List.{flat_map};
ghost use Rattle.triple_sink.specs.{Gains.Gains, Gains.KeepsFront, TermRef.meant};
ghost use Rattle.page_rdf.specs.About.{class_of, label_triples, tagged_triples, text_triples};

use crate::texts::text_ref;
use entity_model::{Entity, EntityId, IdKind, Tagged};
use rdf_term::OutOfMemory;
use rdf_vocabulary::{Predicate, Prefix, Resource};
use triple_sink::{Setting, TermRef, TripleSink, emit_about, emit_class};

/// Emits the class and the texts of the entity.
pub(crate) fn emit_texts<S: TripleSink>(
    setting: Setting,
    id: EntityId,
    entity: &Entity,
    out: &mut S,
) -> Result<(), OutOfMemory>
    ensures gains { OnOk result (Gains S.items S.keeps out.old out.new (text_triples id entity.now)) }
    ensures front { KeepsFront S.items out.old out.new }
{
    let subject = TermRef::Id(Prefix::Wd, id);
    emit_class(setting.alloc, &subject, class_of(id.kind), out)?;
    emit_labels(setting, &subject, entity.labels.as_slice(), out)?;
    let descriptions = entity.descriptions.as_slice();
    emit_tagged(setting, &subject, Predicate::Description, descriptions, out)?;
    let aliases = entity.aliases.as_slice();
    emit_tagged(setting, &subject, Predicate::AltLabel, aliases, out)
}

// The class of an entity, by the letter of its id.
fn class_of(kind: IdKind) -> Resource
    ensures { result ≡ class_of kind }
{
    match kind {
        IdKind::P => Resource::Property,
        IdKind::Q => Resource::Item,
        IdKind::L => Resource::Lexeme,
    }
}

// Emits the labels, each of which has three predicates.
fn emit_labels<S: TripleSink>(
    setting: Setting,
    entity: &TermRef<'_>,
    labels: &[Tagged],
    out: &mut S,
) -> Result<(), OutOfMemory>
    ensures gains { OnOk result (Gains S.items S.keeps out.old out.new (flat_map (label_triples (meant entity.now)) labels.now)) }
    ensures front { KeepsFront S.items out.old out.new }
{
    for label in labels {
        let text = text_ref(label);
        emit_about(setting.alloc, entity, Predicate::Label, &text, out)?;
        emit_about(setting.alloc, entity, Predicate::PrefLabel, &text, out)?;
        emit_about(setting.alloc, entity, Predicate::Name, &text, out)?;
    }
    Ok(())
}

// Emits texts that have one predicate: the descriptions or the aliases.
fn emit_tagged<S: TripleSink>(
    setting: Setting,
    entity: &TermRef<'_>,
    predicate: Predicate,
    texts: &[Tagged],
    out: &mut S,
) -> Result<(), OutOfMemory>
    ensures gains { OnOk result (Gains S.items S.keeps out.old out.new (flat_map (tagged_triples predicate (meant entity.now)) texts.now)) }
    ensures front { KeepsFront S.items out.old out.new }
{
    for text in texts {
        emit_about(setting.alloc, entity, predicate, &text_ref(text), out)?;
    }
    Ok(())
}
