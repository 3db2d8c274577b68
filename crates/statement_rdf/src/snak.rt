// The triples of snaks.

ghost use Rattle.std.specs.Prelude.{◌≡◌, [], ◌∷◌, ◌++◌, OnOk};
ghost use Rattle.std.specs.List.{flat_map};
ghost use Rattle.triple_sink.specs.{Gains.Gains, Gains.KeepsFront, Subject.IsKnown, TermRef.meant};
ghost use Rattle.value_nodes.specs.{Name.node_name, Nodes.node_triples, Said.object_triples, Terms.simple_term};
ghost use Rattle.rdf_vocabulary.specs.Prefix.{id_term};
ghost use Rattle.statement_rdf.specs.Snak.{link_triples, no_value_triple, snak_triples, value_triples};

use entity_model::{Content, EntityId, Snak, Value};
use rdf_term::OutOfMemory;
use rdf_vocabulary::{Predicate, Prefix};
use statement_facts::{Labels, Role};
use std::alloc::Global;
use triple_sink::{Setting, Subject, TermRef, TripleSink};
use value_nodes::{emit_parts, emit_simple, node_name};

/// Hands on the triples of snaks in this role of the statement that has these labels.
#[tactic(auto, using(triple_sink::proofs::Known::still_known))]
pub fn emit_snaks<S: TripleSink>(
    setting: Setting,
    subject: &Subject<'_>,
    labels: &mut Labels<'_>,
    role: &Role,
    snaks: &[Snak],
    out: &mut S,
) -> Result<(), OutOfMemory>
    requires known { IsKnown S.items out.old subject.now }
    ensures gains { OnOk result (Gains S.items S.keeps out.old out.new
        (flat_map (snak_triples setting.version (meant subject.now.term) labels.old role.now) snaks.now)) }
    ensures front { KeepsFront S.items out.old out.new }
    ensures same { labels.new ≡ labels.old }
{
    for snak in snaks {
        emit_snak(setting, subject, labels, role, snak, out)?;
    }
    Ok(())
}

/// Hands on the triples of a snak in this role of the statement that has these labels.
pub fn emit_snak<S: TripleSink>(
    setting: Setting,
    subject: &Subject<'_>,
    labels: &mut Labels<'_>,
    role: &Role,
    snak: &Snak,
    out: &mut S,
) -> Result<(), OutOfMemory>
    requires known { IsKnown S.items out.old subject.now }
    ensures gains { OnOk result (Gains S.items S.keeps out.old out.new
        (snak_triples setting.version (meant subject.now.term) labels.old role.now snak.now)) }
    ensures front { KeepsFront S.items out.old out.new }
    ensures same { labels.new ≡ labels.old }
{
    match &snak.content {
        Content::Value(value) => emit_value(setting, subject, role, snak, value, out),
        Content::NoValue => emit_no_value(setting.alloc, subject, snak.property, out),
        Content::SomeValue => {
            let label = labels.label(setting.alloc, role, snak)?;
            let predicate = TermRef::Id(role.value_prefix(), snak.property);
            let object = TermRef::Blank(label.as_str());
            out.emit_known(setting.alloc, subject, &predicate, &object)
        }
    }
}

// Hands on the triples of a value: its simple term, and its node.
#[tactic(auto, using(triple_sink::proofs::Known::still_known))]
fn emit_value<S: TripleSink>(
    setting: Setting,
    subject: &Subject<'_>,
    role: &Role,
    snak: &Snak,
    value: &Value,
    out: &mut S,
) -> Result<(), OutOfMemory>
    requires known { IsKnown S.items out.old subject.now }
    ensures gains { OnOk result (Gains S.items S.keeps out.old out.new
        (value_triples setting.version (meant subject.now.term) role.now snak.now value.now)) }
    ensures front { KeepsFront S.items out.old out.new }
{
    emit_object(
        setting.alloc,
        subject,
        role.value_prefix(),
        snak,
        value,
        out,
    )?;
    emit_node(setting, subject, role.node_prefix(), snak, value, out)
}

/// Hands on the triple of a value's simple term, where it has one.
pub fn emit_object<S: TripleSink>(
    alloc: Global,
    subject: &Subject<'_>,
    prefix: Prefix,
    snak: &Snak,
    value: &Value,
    out: &mut S,
) -> Result<(), OutOfMemory>
    requires known { IsKnown S.items out.old subject.now }
    ensures gains { OnOk result (Gains S.items S.keeps out.old out.new
        (object_triples (meant subject.now.term) (id_term prefix snak.now.property) (simple_term snak.now.datatype value.now))) }
    ensures front { KeepsFront S.items out.old out.new }
{
    let predicate = TermRef::Id(prefix, snak.property);
    emit_simple(
        alloc,
        subject,
        &predicate,
        snak.datatype.as_str(),
        value,
        out,
    )
}

// Hands on the triple that leads to a value's node, and the node's own triples, where it has one.
fn emit_node<S: TripleSink>(
    setting: Setting,
    subject: &Subject<'_>,
    prefix: Prefix,
    snak: &Snak,
    value: &Value,
    out: &mut S,
) -> Result<(), OutOfMemory>
    requires known { IsKnown S.items out.old subject.now }
    ensures gains { OnOk result (Gains S.items S.keeps out.old out.new
        (link_triples (meant subject.now.term) (id_term prefix snak.now.property) (node_name setting.version value.now)
        ++ node_triples setting.version value.now)) }
    ensures front { KeepsFront S.items out.old out.new }
{
    match node_name(setting, value)? {
        Some(name) => {
            let predicate = TermRef::Id(prefix, snak.property);
            let node = TermRef::Named(Prefix::Wdv, name.as_str());
            out.emit_known(setting.alloc, subject, &predicate, &node)?;
            emit_parts(setting.alloc, &node, value, out)
        }
        None => Ok(()),
    }
}

/// Hands on that the subject has no value of the property.
pub fn emit_no_value<S: TripleSink>(
    alloc: Global,
    subject: &Subject<'_>,
    property: EntityId,
    out: &mut S,
) -> Result<(), OutOfMemory>
    requires known { IsKnown S.items out.old subject.now }
    ensures gains { OnOk result (Gains S.items S.keeps out.old out.new
        (no_value_triple (meant subject.now.term) property ∷ [])) }
    ensures front { KeepsFront S.items out.old out.new }
{
    let predicate = TermRef::Predicate(Predicate::RdfType);
    let class = TermRef::Id(Prefix::Wdno, property);
    out.emit_known(alloc, subject, &predicate, &class)
}
