// What a page says of a form or a sense.

ghost use Rattle.std.specs.Prelude.{OnOk};
ghost use Rattle.std.specs.List.{flat_map};
ghost use Rattle.triple_sink.specs.{Gains.Gains, Gains.KeepsFront, TermRef.meant};
ghost use Rattle.page_rdf.specs.{Form.feature_triples, Parts.head_of, Parts.triples_of};

use crate::lexeme_texts::emit_texts;
use entity_model::{EntityId, Part};
use rdf_term::OutOfMemory;
use rdf_vocabulary::{Predicate, Prefix, Resource};
use triple_sink::{Setting, TermRef, TripleSink, emit_about, emit_class};

/// The two kinds of parts that a lexeme has.
#[derive(Clone, Copy, PartialEq, Eq)]
pub enum PartKind {
    /// A form.
    Form,
    /// A sense.
    Sense,
}

/// Emits the forms or the senses of the lexeme, each without its statements. After `OutOfMemory` the sink holds what it held, and perhaps
/// more behind that.
pub fn emit_parts<S: TripleSink>(
    setting: Setting,
    entity: &TermRef<'_>,
    kind: PartKind,
    parts: &[Part],
    out: &mut S,
) -> Result<(), OutOfMemory>
    ensures gains { OnOk result (Gains S.items S.keeps out.old out.new (flat_map (triples_of kind (meant entity.now)) parts.now)) }
    ensures front { KeepsFront S.items out.old out.new }
{
    for part in parts {
        emit_part(setting, entity, kind, part, out)?;
    }
    Ok(())
}

// Emits a form or a sense.
fn emit_part<S: TripleSink>(
    setting: Setting,
    entity: &TermRef<'_>,
    kind: PartKind,
    part: &Part,
    out: &mut S,
) -> Result<(), OutOfMemory>
    ensures gains { OnOk result (Gains S.items S.keeps out.old out.new (triples_of kind (meant entity.now) part.now)) }
    ensures front { KeepsFront S.items out.old out.new }
{
    let node = TermRef::Named(Prefix::Wd, part.id.as_str());
    emit_head(setting, entity, kind, &node, out)?;
    let texts = part.texts.as_slice();
    match kind {
        PartKind::Form => {
            emit_texts(setting, &node, Predicate::Representation, texts, out)?;
            emit_features(setting, &node, part.features.as_slice(), out)
        }
        PartKind::Sense => emit_texts(setting, &node, Predicate::Definition, texts, out),
    }
}

// Emits that the lexeme has the form or the sense, and its classes.
fn emit_head<S: TripleSink>(
    setting: Setting,
    entity: &TermRef<'_>,
    kind: PartKind,
    node: &TermRef<'_>,
    out: &mut S,
) -> Result<(), OutOfMemory>
    ensures gains { OnOk result (Gains S.items S.keeps out.old out.new (head_of kind (meant entity.now) (meant node.now))) }
    ensures front { KeepsFront S.items out.old out.new }
{
    let (link, lexical, wikibase) = match kind {
        PartKind::Form => (
            Predicate::LexicalForm,
            Resource::Form,
            Resource::WikibaseForm,
        ),
        PartKind::Sense => (
            Predicate::Sense,
            Resource::LexicalSense,
            Resource::WikibaseSense,
        ),
    };
    emit_about(setting.alloc, entity, link, node, out)?;
    emit_class(setting.alloc, node, lexical, out)?;
    emit_class(setting.alloc, node, wikibase, out)
}

// Emits the grammatical features of the form.
fn emit_features<S: TripleSink>(
    setting: Setting,
    node: &TermRef<'_>,
    features: &[EntityId],
    out: &mut S,
) -> Result<(), OutOfMemory>
    ensures gains { OnOk result (Gains S.items S.keeps out.old out.new (flat_map (feature_triples (meant node.now)) features.now)) }
    ensures front { KeepsFront S.items out.old out.new }
{
    for feature in features {
        let item = TermRef::Id(Prefix::Wd, *feature);
        emit_about(
            setting.alloc,
            node,
            Predicate::GrammaticalFeature,
            &item,
            out,
        )?;
    }
    Ok(())
}
