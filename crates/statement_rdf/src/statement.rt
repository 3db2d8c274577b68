// The triples of statements.

ghost use Rattle.std.specs.Prelude.{◌≡◌, OnOk};
ghost use Rattle.std.specs.List.{flat_map};
ghost use Rattle.triple_sink.specs.{Gains.Gains, Gains.KeepsFront, Subject.IsKnown, TermRef.meant};
ghost use Rattle.statement_rdf.specs.Statement.{direct_triples, head_triples, main_triples, part_triples, qualifier_triples, rank_resource, reference_triples, source_triples, statement_triples};

use crate::snak::{emit_no_value, emit_object, emit_snak, emit_snaks};
use entity_model::{Content, Rank, Reference, Snak, Statement};
use rdf_term::{CowText, OutOfMemory};
use rdf_vocabulary::{Predicate, Prefix, Resource};
use statement_facts::{Labels, Role, statement_name};
use std::alloc::Global;
use triple_sink::{Setting, Subject, TermRef, TripleSink, emit_about, emit_class};

/// Hands on the triples of a statement of the entity, which may be any subject: the statement's node with its
/// class and rank, what it states, its qualifiers and its references. A best statement's node also has the
/// class of such, and what it states is also said of the entity itself.
pub fn emit_statement<S: TripleSink>(
    setting: Setting,
    entity: &TermRef<'_>,
    statement: &Statement,
    best: bool,
    out: &mut S,
) -> Result<(), OutOfMemory>
    ensures gains { OnOk result (Gains S.items S.keeps out.old out.new
        (statement_triples setting.version (meant entity.now) statement.now best)) }
    ensures front { KeepsFront S.items out.old out.new }
{
    let name = statement_name(setting.alloc, statement.id.as_str())?;
    let node = TermRef::Named(Prefix::Wds, name.as_str());
    emit_all_parts(setting, entity, &node, statement, best, out)
}

// Hands on the triples of a statement that has this node.
#[tactic(auto, using(triple_sink::proofs::Known::still_known))]
fn emit_all_parts<S: TripleSink>(
    setting: Setting,
    entity: &TermRef<'_>,
    node: &TermRef<'_>,
    statement: &Statement,
    best: bool,
    out: &mut S,
) -> Result<(), OutOfMemory>
    ensures gains { OnOk result (Gains S.items S.keeps out.old out.new
        (part_triples setting.version (meant entity.now) (meant node.now) statement.now best)) }
    ensures front { KeepsFront S.items out.old out.new }
{
    let mut labels = Labels::new(statement.id.as_str());
    emit_head(setting.alloc, entity, node, statement, best, out)?;
    let node = Subject {
        term: *node,
        index: out.known_index(node),
    };
    emit_main(setting, entity, &node, statement, best, &mut labels, out)?;
    emit_qualifiers(setting, &node, statement, &mut labels, out)?;
    let references = statement.references.as_slice();
    emit_references(setting, &node, references, &mut labels, out)
}

// Hands on that the entity has the statement, the statement's class and rank, and whether it is best.
fn emit_head<S: TripleSink>(
    alloc: Global,
    entity: &TermRef<'_>,
    node: &TermRef<'_>,
    statement: &Statement,
    best: bool,
    out: &mut S,
) -> Result<(), OutOfMemory>
    ensures gains { OnOk result (Gains S.items S.keeps out.old out.new
        (head_triples (meant entity.now) (meant node.now) statement.now best)) }
    ensures front { KeepsFront S.items out.old out.new }
{
    let claim = TermRef::Id(Prefix::P, statement.property);
    out.emit(alloc, entity, &claim, node)?;
    emit_class(alloc, node, Resource::Statement, out)?;
    let rank = TermRef::Resource(rank_resource(statement.rank));
    emit_about(alloc, node, Predicate::Rank, &rank, out)?;
    if best {
        emit_class(alloc, node, Resource::BestRank, out)?;
    }
    Ok(())
}

// The term of a rank.
fn rank_resource(rank: Rank) -> Resource
    ensures { result ≡ rank_resource rank }
{
    match rank {
        Rank::Deprecated => Resource::DeprecatedRank,
        Rank::Normal => Resource::NormalRank,
        Rank::Preferred => Resource::PreferredRank,
    }
}

// Hands on what is stated, said of the statement, and where it is best of the entity too.
fn emit_main<S: TripleSink>(
    setting: Setting,
    entity: &TermRef<'_>,
    node: &Subject<'_>,
    statement: &Statement,
    best: bool,
    labels: &mut Labels<'_>,
    out: &mut S,
) -> Result<(), OutOfMemory>
    requires labels { labels.old ≡ statement.now.id }
    requires known { IsKnown S.items out.old node.now }
    ensures gains { OnOk result (Gains S.items S.keeps out.old out.new
        (main_triples setting.version (meant entity.now) (meant node.now.term) statement.now best)) }
    ensures front { KeepsFront S.items out.old out.new }
    ensures same { labels.new ≡ labels.old }
{
    emit_snak(setting, node, labels, &Role::Main, &statement.main, out)?;
    if best {
        emit_direct(setting.alloc, entity, labels, &statement.main, out)?;
    }
    Ok(())
}

// Hands on what the main snak of a best statement says of the entity.
fn emit_direct<S: TripleSink>(
    alloc: Global,
    entity: &TermRef<'_>,
    labels: &mut Labels<'_>,
    snak: &Snak,
    out: &mut S,
) -> Result<(), OutOfMemory>
    ensures gains { OnOk result (Gains S.items S.keeps out.old out.new
        (direct_triples (meant entity.now) labels.old snak.now)) }
    ensures front { KeepsFront S.items out.old out.new }
    ensures same { labels.new ≡ labels.old }
{
    let entity = Subject::new(*entity);
    match &snak.content {
        Content::Value(value) => emit_object(alloc, &entity, Prefix::Wdt, snak, value, out),
        Content::NoValue => emit_no_value(alloc, &entity, snak.property, out),
        Content::SomeValue => {
            let label = labels.label(alloc, &Role::Main, snak)?;
            let predicate = TermRef::Id(Prefix::Wdt, snak.property);
            out.emit_known(alloc, &entity, &predicate, &TermRef::Blank(label.as_str()))
        }
    }
}

// Hands on the qualifiers, said of the statement.
fn emit_qualifiers<S: TripleSink>(
    setting: Setting,
    node: &Subject<'_>,
    statement: &Statement,
    labels: &mut Labels<'_>,
    out: &mut S,
) -> Result<(), OutOfMemory>
    requires labels { labels.old ≡ statement.now.id }
    requires known { IsKnown S.items out.old node.now }
    ensures gains { OnOk result (Gains S.items S.keeps out.old out.new
        (qualifier_triples setting.version (meant node.now.term) statement.now)) }
    ensures front { KeepsFront S.items out.old out.new }
    ensures same { labels.new ≡ labels.old }
{
    let qualifiers = statement.qualifiers.as_slice();
    emit_snaks(setting, node, labels, &Role::Qualifier, qualifiers, out)
}

// Hands on the references of the statement that has these labels.
#[tactic(auto, using(triple_sink::proofs::Known::still_known))]
fn emit_references<S: TripleSink>(
    setting: Setting,
    node: &Subject<'_>,
    references: &[Reference],
    labels: &mut Labels<'_>,
    out: &mut S,
) -> Result<(), OutOfMemory>
    requires known { IsKnown S.items out.old node.now }
    ensures gains { OnOk result (Gains S.items S.keeps out.old out.new
        (flat_map (reference_triples setting.version (meant node.now.term) labels.old) references.now)) }
    ensures front { KeepsFront S.items out.old out.new }
    ensures same { labels.new ≡ labels.old }
{
    for reference in references {
        emit_reference(setting, node, reference, labels, out)?;
    }
    Ok(())
}

// Hands on a reference of the statement that has these labels, and what it says of the source.
fn emit_reference<S: TripleSink>(
    setting: Setting,
    node: &Subject<'_>,
    reference: &Reference,
    labels: &mut Labels<'_>,
    out: &mut S,
) -> Result<(), OutOfMemory>
    requires known { IsKnown S.items out.old node.now }
    ensures gains { OnOk result (Gains S.items S.keeps out.old out.new
        (reference_triples setting.version (meant node.now.term) labels.old reference.now)) }
    ensures front { KeepsFront S.items out.old out.new }
    ensures same { labels.new ≡ labels.old }
{
    let source = TermRef::Named(Prefix::Wdref, reference.hash.as_str());
    emit_source(setting.alloc, node, &source, out)?;
    let role = Role::Reference(CowText::borrowed(reference.hash.as_str()));
    let snaks = reference.snaks.as_slice();
    emit_snaks(setting, &Subject::new(source), labels, &role, snaks, out)
}

// Hands on that the statement is from the source, and the source's class.
fn emit_source<S: TripleSink>(
    alloc: Global,
    node: &Subject<'_>,
    source: &TermRef<'_>,
    out: &mut S,
) -> Result<(), OutOfMemory>
    requires known { IsKnown S.items out.old node.now }
    ensures gains { OnOk result (Gains S.items S.keeps out.old out.new
        (source_triples (meant node.now.term) (meant source.now))) }
    ensures front { KeepsFront S.items out.old out.new }
{
    let predicate = TermRef::Predicate(Predicate::WasDerivedFrom);
    out.emit_known(alloc, node, &predicate, source)?;
    emit_class(alloc, source, Resource::Reference, out)
}
