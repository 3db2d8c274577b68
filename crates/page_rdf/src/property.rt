// What the page of a property says of its predicates.

ghost use Rattle.std.specs.Prelude.{◌≡◌, [], ◌∷◌, ◌++◌, IfOk, OnOk, map, string_bytes, encode_utf8, MatchOption};
ghost use Rattle.std.specs.{Option.option_copied, List.flat_map, List.list_all, List.slice_split};
ghost use Rattle.rdf_term.specs.Grammar.{is_word};
ghost use Rattle.triple_sink.specs.{Gains.Gains, Gains.KeepsFront, TermRef.meant};
ghost use Rattle.page_rdf.specs.Property.{capitalized, datatype_triples, is_datatype_char, is_hyphen, predicate_triple, predicate_triples, property_triples, type_name};

use entity_model::{EntityId, IdKind};
use rdf_term::{CowText, OutOfMemory};
use rdf_vocabulary::{Predicate, Prefix};
use std::alloc::Global;
use triple_sink::{Setting, TermRef, TripleSink, emit_about};

/// The predicates that a page says of a property, each with the namespace in which the property is that predicate.
const PREDICATES: [(Predicate, Prefix); 9] = [
    (Predicate::DirectClaim, Prefix::Wdt),
    (Predicate::Claim, Prefix::P),
    (Predicate::StatementProperty, Prefix::Ps),
    (Predicate::StatementValue, Prefix::Psv),
    (Predicate::Qualifier, Prefix::Pq),
    (Predicate::QualifierValue, Prefix::Pqv),
    (Predicate::Reference, Prefix::Pr),
    (Predicate::ReferenceValue, Prefix::Prv),
    (Predicate::Novalue, Prefix::Wdno),
];

// Whether letters, digits and hyphens alone make the datatype.
pub(crate) fn has_type(datatype: &[u8]) -> bool
    ensures { result ≡ is_word is_datatype_char datatype.now }
{
    !datatype.is_empty() && are_datatype_chars(datatype)
}

// Whether each byte is a letter, a digit or a hyphen.
fn are_datatype_chars(bytes: &[u8]) -> bool
    ensures { result ≡ list_all is_datatype_char bytes.now }
{
    bytes
        .iter()
        .all(|byte| byte.is_ascii_alphanumeric() || *byte == b'-')
}

// The parts of the datatype between hyphens, capitalized and joined.
pub(crate) fn type_name(alloc: Global, datatype: &str) -> Result<String, OutOfMemory>
    ensures { IfOk result (λ name. string_bytes name ≡ type_name datatype.now) }
{
    let parts = parts(alloc, datatype)?;
    let mut name = String::new(alloc);
    push_all_capitalized(parts.as_slice(), &mut name)?;
    Ok(name)
}

// Appends the parts, each with its first letter in upper case.
fn push_all_capitalized(parts: &[&str], name: &mut String) -> Result<(), OutOfMemory>
    ensures { OnOk result (string_bytes name.new ≡ string_bytes name.old ++ flat_map (λ part. capitalized part.now) parts.now) }
{
    for part in parts {
        push_capitalized(part, name)?;
    }
    Ok(())
}

// The parts of the datatype between hyphens.
fn parts(alloc: Global, datatype: &str) -> Result<Vec<&str>, OutOfMemory>
    ensures { IfOk result (λ parts. map (λ part. part.now) parts.items ≡ slice_split is_hyphen datatype.now) }
{
    Ok(datatype.split('-').collect(alloc)?)
}

// Appends the part with its first letter in upper case.
#[tactic(auto, using(crate::proofs::Capitals::capital))]
fn push_capitalized(part: &str, name: &mut String) -> Result<(), OutOfMemory>
    ensures { OnOk result (string_bytes name.new ≡ string_bytes name.old ++ capitalized part.now) }
{
    let Some((first, rest)) = split_first(part) else {
        return Ok(());
    };
    name.push(first.to_ascii_uppercase())?;
    name.push_str(rest)?;
    Ok(())
}

// The first character and what follows it.
fn split_first(text: &str) -> Option<(char, &str)>
    ensures { MatchOption result (text.now ≡ []) (λ p. text.now ≡ encode_utf8 p.0 ++ p.1.now) }
{
    let mut rest = text.chars();
    let first = rest.next()?;
    Some((first, rest.as_str()))
}

// Emits the type of properties of the datatype, if the page says one that has a type.
fn emit_datatype<S: TripleSink>(
    setting: Setting,
    entity: &TermRef<'_>,
    datatype: Option<&CowText<'_>>,
    out: &mut S,
) -> Result<(), OutOfMemory>
    ensures gains { OnOk result (Gains S.items S.keeps out.old out.new (datatype_triples (meant entity.now) (option_copied datatype.entry))) }
    ensures front { KeepsFront S.items out.old out.new }
{
    match datatype {
        Some(datatype) if has_type(datatype.as_bytes()) => {
            let name = type_name(setting.alloc, datatype.as_str())?;
            let class = TermRef::Named(Prefix::Wikibase, name.as_str());
            emit_about(setting.alloc, entity, Predicate::PropertyType, &class, out)
        }
        _ => Ok(()),
    }
}

// Emits the property as a predicate of the namespace.
fn emit_predicate<S: TripleSink>(
    setting: Setting,
    id: EntityId,
    predicate: Predicate,
    prefix: Prefix,
    out: &mut S,
) -> Result<(), OutOfMemory>
    ensures gains { OnOk result (Gains S.items S.keeps out.old out.new (predicate_triple id predicate prefix ∷ [])) }
    ensures front { KeepsFront S.items out.old out.new }
{
    let entity = TermRef::Id(Prefix::Wd, id);
    emit_about(
        setting.alloc,
        &entity,
        predicate,
        &TermRef::Id(prefix, id),
        out,
    )
}

// Emits the property as a predicate of each of the namespaces.
fn emit_predicates<S: TripleSink>(
    setting: Setting,
    id: EntityId,
    predicates: &[(Predicate, Prefix)],
    out: &mut S,
) -> Result<(), OutOfMemory>
    ensures gains { OnOk result (Gains S.items S.keeps out.old out.new (predicate_triples id predicates.now)) }
    ensures front { KeepsFront S.items out.old out.new }
{
    for said in predicates {
        emit_predicate(setting, id, said.0, said.1, out)?;
    }
    Ok(())
}

/// Emits what the page of a property says of its predicates. The page of an item or a lexeme says nothing of them.
pub(crate) fn emit_property<S: TripleSink>(
    setting: Setting,
    id: EntityId,
    datatype: Option<&CowText<'_>>,
    out: &mut S,
) -> Result<(), OutOfMemory>
    ensures gains { OnOk result (Gains S.items S.keeps out.old out.new (property_triples id (option_copied datatype.entry))) }
    ensures front { KeepsFront S.items out.old out.new }
{
    match id.kind {
        IdKind::P => {
            let entity = TermRef::Id(Prefix::Wd, id);
            emit_datatype(setting, &entity, datatype, out)?;
            emit_predicates(setting, id, &PREDICATES, out)
        }
        IdKind::Q | IdKind::L => Ok(()),
    }
}
