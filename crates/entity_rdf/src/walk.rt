// The walk over a document, which emits what each rule of the dump gives.

ghost use Rattle.std.specs.Prelude.{OnOk};
ghost use Rattle.std.specs.List.{flat_map};
ghost use Rattle.entity_model.specs.Document.{IsDocumentOf};
ghost use Rattle.sitelinks.specs.Article.{article_triples};
ghost use Rattle.triple_sink.specs.Gains.{Gains, KeepsFront};
ghost use Rattle.entity_rdf.specs.{Counted.counted_triples, Dump.dump, Dump.redirect_triples};

use crate::lexeme_walk::emit_lexeme;
use entity_model::{Document, EntityId, Link};
use page_rdf::{Counted, Counts, emit_spoken};
use rdf_term::OutOfMemory;
use rdf_vocabulary::{Predicate, Prefix};
use sitelinks::emit_article;
use statement_rdf::emit_statements;
use triple_sink::{Setting, TermRef, TripleSink, emit_about};

/// Emits the triples that the rules of the dump give for the document of a revision of `id`, one rule after the
/// other. A triple may come more than once.
pub fn emit_dump<S: TripleSink>(
    setting: Setting,
    id: EntityId,
    rev: u64,
    document: &Document,
    out: &mut S,
) -> Result<(), OutOfMemory>
    requires { IsDocumentOf id document.now }
    ensures gains { OnOk result (Gains S.items S.keeps out.old out.new (dump setting.version id rev document.now)) }
    ensures front { KeepsFront S.items out.old out.new }
{
    match document {
        Document::Entity(entity) => {
            let counts = Counts::of(entity);
            emit_entity(
                setting,
                id,
                Counted {
                    rev,
                    counts,
                    entity,
                },
                out,
            )
        }
        Document::Redirect(target) => emit_redirect(setting, id, *target, out),
        Document::Lexeme(lexeme) => emit_lexeme(setting, id, rev, lexeme, out),
    }
}

fn emit_redirect<S: TripleSink>(
    setting: Setting,
    id: EntityId,
    target: EntityId,
    out: &mut S,
) -> Result<(), OutOfMemory>
    ensures gains { OnOk result (Gains S.items S.keeps out.old out.new (redirect_triples id target)) }
    ensures front { KeepsFront S.items out.old out.new }
{
    let entity = TermRef::Id(Prefix::Wd, id);
    let target = TermRef::Id(Prefix::Wd, target);
    emit_about(setting.alloc, &entity, Predicate::SameAs, &target, out)
}

/// Emits what a part of a document says, or the whole of one: the class and the texts, the dataset with the counts of the whole, the
/// predicates of a property, the site links and the statements.
pub(crate) fn emit_entity<S: TripleSink>(
    setting: Setting,
    id: EntityId,
    counted: Counted<'_, '_>,
    out: &mut S,
) -> Result<(), OutOfMemory>
    ensures gains { OnOk result (Gains S.items S.keeps out.old out.new (counted_triples setting.version id counted.entry.rev counted.entry.counts counted.entry.entity.now)) }
    ensures front { KeepsFront S.items out.old out.new }
{
    emit_spoken(setting, id, counted, out)?;
    emit_articles(setting, id, counted.entity.links.as_slice(), out)?;
    let subject = TermRef::Id(Prefix::Wd, id);
    emit_statements(setting, &subject, &counted.entity.statements, out)
}

fn emit_articles<S: TripleSink>(
    setting: Setting,
    id: EntityId,
    links: &[Link],
    out: &mut S,
) -> Result<(), OutOfMemory>
    ensures gains { OnOk result (Gains S.items S.keeps out.old out.new (flat_map (article_triples id) links.now)) }
    ensures front { KeepsFront S.items out.old out.new }
{
    for link in links {
        emit_article(setting, id, link, out)?;
    }
    Ok(())
}
